//! A sink of the tests.
use cfs_base::{Failed, Sink};
use std::alloc::Global;

/// How a sink takes: at most `most` bytes at a call, and this call, counted from 0, fails.
#[derive(Clone, Copy)]
pub struct Taking {
    pub most: usize,
    pub fails_at: u64,
}

/// The sink takes all that it is offered.
pub const ALL: Taking = Taking {
    most: usize::MAX,
    fails_at: u64::MAX,
};

/// Returns how a sink takes that takes all, until this call fails.
pub fn failing(fails_at: u64) -> Taking {
    Taking {
        most: usize::MAX,
        fails_at,
    }
}

/// Returns how a sink takes that takes a byte at a call, until this call fails.
pub fn slow(fails_at: u64) -> Taking {
    Taking { most: 1, fails_at }
}

/// A sink that keeps what it has taken.
#[derive(Drop)]
pub struct TrialSink {
    pub taken: Vec<u8>,
    taking: Taking,
    calls: u64,
    faults: u64,
}

impl TrialSink {
    /// Makes a sink that has taken nothing.
    pub fn new(alloc: Global, taking: Taking) -> TrialSink {
        TrialSink {
            taken: Vec::new(alloc),
            taking,
            calls: 0,
            faults: 0,
        }
    }
}

impl Sink for TrialSink {
    ghost use Rattle.std.specs.Prelude.{Some};

    ghost intake = { λ s. record { taken = Some s.taken.items; faults = s.faults } };

    fn write(&mut self, from: &[u8]) -> Result<usize, Failed> {
        // at least one byte, where there is one
        let count = from.len().min(self.taking.most.max(1));
        let fails = self.calls == self.taking.fails_at;
        self.calls = self.calls.saturating_add(1);
        if fails || self.taken.extend_from_slice(&from[..count]).is_err() {
            self.faults = self.faults.saturating_add(1);
            return Err(Failed);
        }
        Ok(count)
    }
}
