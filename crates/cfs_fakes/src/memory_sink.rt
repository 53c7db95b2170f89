//! A sink in memory.
ghost use Rattle.std.specs.Prelude.{◌≡◌, ◌⊎◌, length, Some, IfOk, OnOk, OnErr};
ghost use Rattle.cfs_base.specs.Outside.{Writes};

use crate::faults::failed;
use crate::listed::Listed;
use cfs_base::{Failed, Sink};
use std::alloc::Global;

/// A sink in memory, which takes all bytes that it is offered.
///
/// Its calls are counted from 0, and those that are listed fail. Any other call fails only for want of memory.
#[derive(Debug, Drop)]
pub struct MemorySink {
    bytes: Vec<u8>,
    listed: Listed,
    calls: u64,
    faults: u64,
    starved: u64,
}

impl MemorySink {
    ghost use Rattle.cfs_fakes.specs.Sink.{taken_of, starved_of, IsUncalled};

    /// Makes a sink that has taken no bytes. The calls of these numbers fail.
    pub fn new(alloc: Global, calls: Vec<u64>) -> MemorySink
        ensures { IsUncalled result calls.items }
    {
        MemorySink {
            bytes: Vec::new(alloc),
            listed: Listed::new(calls),
            calls: 0,
            faults: 0,
            starved: 0,
        }
    }

    /// Returns the bytes that were taken.
    pub fn bytes(&self) -> &[u8]
        ensures { result.now ≡ taken_of self.now }
    {
        &self.bytes
    }

    /// Returns how many calls failed for want of memory.
    pub fn starved(&self) -> u64
        ensures { result ≡ starved_of self.now }
    {
        self.starved
    }
}

impl Sink for MemorySink {
    ghost use Rattle.cfs_fakes.specs.Sink.{intake_of, IsNext, Succeeds, Fails, Starves};

    ghost intake = { λ s. record { taken = Some s.bytes.items; faults = s.faults } };

    fn write(&mut self, from: &[u8]) -> Result<usize, Failed>
        ensures writes { Writes (intake_of self.old) (intake_of self.new) from.now result }
        ensures whole { IfOk result (λ n. n ≡ length from.now) }
        ensures next { IsNext self.old self.new }
        ensures done { OnOk result (Succeeds self.old self.new) }
        ensures failed { OnErr result (Fails self.old self.new ⊎ Starves self.old self.new) }
    {
        let listed = self.listed.contains(self.calls);
        self.calls = self.calls.saturating_add(1);
        if listed {
            return Err(failed(&mut self.faults));
        }
        let Ok(()) = self.bytes.extend_from_slice(from) else {
            self.starved = self.starved.saturating_add(1);
            return Err(failed(&mut self.faults));
        };
        Ok(from.len())
    }
}
