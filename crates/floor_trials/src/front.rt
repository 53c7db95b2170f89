//! A service whose second worker gets the length of the trail while the first is in its turn.
use crate::service::expect_form;
use cfs_base::{Failed, Gate, Sink};
use cfs_fakes::{MemoryDisk, MemorySource};
use cfs_serve::{Bay, top};
use std::alloc::{AllocError, Global};
use std::process::Abort;
use std::sync::atomic::{AtomicU64, Ordering};
use std::sync::{Arc, Wait};
use std::test::Fail;
use std::thread;
use std::thread::Threads;

/// How often a sign is looked for at most.
const LOOKS: u64 = 100_000_000;

/// What the two workers and a sink let each other know.
#[derive(Drop)]
struct Board {
    /// Session 0's sink is in its first write.
    writing: AtomicU64,
    /// How many times worker 0 came to pass.
    passed: AtomicU64,
    /// How many times worker 1 got the number of events, and how many they were at first and next.
    told: AtomicU64,
    first: AtomicU64,
    second: AtomicU64,
    gave_up: AtomicU64,
}

impl Board {
    /// Looks until the sign is at least so high.
    fn wait(&self, sign: &AtomicU64, least: u64) {
        for _ in 0..LOOKS {
            if sign.load(Ordering::SeqCst) >= least {
                return;
            }
            thread::yield_now();
        }
        self.gave_up.store(1, Ordering::SeqCst);
    }
}

/// A copy of the only board.
#[derive(Drop)]
struct Signs {
    board: Arc<Board, Global>,
}

impl Signs {
    fn new(alloc: Global) -> Result<Signs, AllocError> {
        let board = Board {
            writing: AtomicU64::new(0),
            passed: AtomicU64::new(0),
            told: AtomicU64::new(0),
            first: AtomicU64::new(0),
            second: AtomicU64::new(0),
            gave_up: AtomicU64::new(0),
        };
        Ok(Signs {
            board: Arc::new(alloc, board)?,
        })
    }

    fn copy(&self) -> Result<Signs, AllocError> {
        Ok(Signs {
            board: Arc::try_clone(&self.board)?,
        })
    }
}

impl Gate for Signs {
    fn pass(&self, worker: u32, turn: u64) {
        match (worker, turn) {
            (0, _) => {
                self.board.passed.fetch_add(1, Ordering::SeqCst);
            }
            (1, 0) => self.board.wait(&self.board.writing, 1),
            (1, 1) => self.board.wait(&self.board.passed, 2),
            _ => {}
        }
    }

    fn told(&self, worker: u32, known: u64) {
        if worker == 1 {
            match self.board.told.fetch_add(1, Ordering::SeqCst) {
                0 => self.board.first.store(known, Ordering::SeqCst),
                1 => self.board.second.store(known, Ordering::SeqCst),
                _ => {}
            }
        }
    }
}

/// A sink that takes all.
///
/// If it is watched, it waits in its first write until worker 1 got the number of events.
#[derive(Drop)]
struct Watched {
    signs: Option<Signs>,
}

impl Sink for Watched {
    ghost use Rattle.std.specs.Prelude.{None};

    ghost intake = { λ s. record { taken = None; faults = 0 } };

    fn write(&mut self, from: &[u8]) -> Result<usize, Failed> {
        if let Some(signs) = self.signs.take() {
            signs.board.writing.store(1, Ordering::SeqCst);
            signs.board.wait(&signs.board.told, 1);
        }
        Ok(from.len())
    }
}

fn words_of(alloc: Global) -> Result<Vec<String>, AllocError> {
    let mut words = Vec::new(alloc);
    for word in ["play", "1", "0", "0", "in", "out", "in", "out"] {
        words.push(String::from_str(alloc, word)?)?;
    }
    Ok(words)
}

/// Returns a source of one line for each session.
fn sources(alloc: Global) -> Result<Vec<MemorySource>, AllocError> {
    let mut sources = Vec::new(alloc);
    for _ in 0..2 {
        let lines = Vec::from_slice(alloc, b"slots root\n")?;
        sources.push(MemorySource::new(lines, Vec::new(alloc)))?;
    }
    Ok(sources)
}

/// Returns a sink for each session, the first of which is watched.
fn sinks(alloc: Global, signs: Signs) -> Result<Vec<Watched>, AllocError> {
    let mut sinks = Vec::new(alloc);
    sinks.push(Watched { signs: Some(signs) })?;
    sinks.push(Watched { signs: None })?;
    Ok(sinks)
}

/// Serves two sessions, behind a gate that keeps their order, and returns the status.
fn serve(
    rt: &(impl Abort + Threads + Wait + Sync),
    alloc: Global,
    signs: &Signs,
) -> Result<u8, AllocError> {
    let words = words_of(alloc)?;
    let sources = sources(alloc)?;
    let sinks = sinks(alloc, signs.copy()?)?;
    let command = expect_form(rt, alloc, &words, None, sources.len(), sinks.len());
    let bay: Bay<MemoryDisk, MemorySource, Watched> = Bay {
        disk: None,
        sources,
        sinks,
        report: Watched { signs: None },
    };
    Ok(top(rt, alloc, Some(command), bay, signs).status)
}

#[test]
fn a_worker_is_told_while_another_is_in_its_turn(rt: HostRuntime) -> Result<(), Fail> {
    let signs = Signs::new(rt.alloc())?;
    assert_eq!(rt; serve(&rt, rt.alloc(), &signs)?, 0);
    let board = &signs.board;
    assert_eq!(rt; board.gave_up.load(Ordering::SeqCst), 0);
    assert_eq!(rt; board.first.load(Ordering::SeqCst), 0);
    assert!(rt; board.second.load(Ordering::SeqCst) >= 2);
    Ok(())
}
