//! A gate that holds workers back, so that a test can fix the order of turns.
use cfs_base::{Gate, NoMemory};
use std::alloc::Global;
use std::sync::atomic::{AtomicU64, Ordering};
use std::thread;

/// The number of workers that are counted: those of 64 sessions, and the collector.
const WORKERS: usize = 65;

/// A hold: before this turn the worker waits until the other worker has finished that turn.
///
/// Turns are counted from 0.
#[derive(Clone, Copy, Debug)]
pub struct Hold {
    /// The worker that waits.
    pub worker: u32,
    /// The turn before which it waits.
    pub turn: u64,
    /// The worker that it waits for.
    pub until_worker: u32,
    /// The turn that this worker must finish first.
    pub until_turn: u64,
}

/// A gate that holds workers back.
///
/// A worker has finished a turn once it comes to pass for the next one, even if it is held there.
#[derive(Drop)]
pub struct HoldGate {
    holds: Vec<Hold>,
    limit: u64,
    passed: Vec<AtomicU64>,
    given_up: AtomicU64,
}

impl HoldGate {
    /// Makes a gate with these holds.
    ///
    /// Each hold looks at most `limit` times whether it is over.
    pub fn new(alloc: Global, holds: Vec<Hold>, limit: u64) -> Result<HoldGate, NoMemory> {
        let mut passed = Vec::new(alloc);
        for _ in 0..WORKERS {
            passed.push(AtomicU64::new(0))?;
        }
        Ok(HoldGate {
            holds,
            limit,
            passed,
            given_up: AtomicU64::new(0),
        })
    }

    /// Returns whether a hold looked `limit` times in vain.
    pub fn gave_up(&self) -> bool {
        self.given_up.load(Ordering::SeqCst) > 0
    }

    /// Returns how many times a worker came to pass.
    ///
    /// It is 0 for a worker that isn't counted.
    pub fn passed(&self, worker: u32) -> u64 {
        match self.passed.get(worker as usize) {
            Some(count) => count.load(Ordering::SeqCst),
            None => 0,
        }
    }

    /// Waits until a worker has finished a turn.
    fn wait(&self, worker: u32, turn: u64) {
        for _ in 0..self.limit {
            if self.passed(worker) > turn.saturating_add(1) {
                return;
            }
            thread::yield_now();
        }
        self.given_up.store(1, Ordering::SeqCst);
    }
}

impl Gate for HoldGate {
    fn pass(&self, worker: u32, turn: u64) {
        if let Some(count) = self.passed.get(worker as usize) {
            count.fetch_add(1, Ordering::SeqCst);
        }
        for hold in &self.holds {
            if hold.worker == worker && hold.turn == turn {
                self.wait(hold.until_worker, hold.until_turn);
            }
        }
    }

    fn told(&self, _worker: u32, _known: u64) {}
}
