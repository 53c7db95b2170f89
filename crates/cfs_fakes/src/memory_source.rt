//! A source in memory.
ghost use Rattle.std.specs.Prelude.{◌≡◌, ◌≤◌, min, length, drop, Some, IfOk, OnOk, OnErr};
ghost use Rattle.cfs_base.specs.Outside.{Reads};

use crate::faults::failed;
use crate::listed::Listed;
use cfs_base::{Failed, Source};

/// A source in memory, which gives as many of its bytes at a call as there is room for.
///
/// Its calls are counted from 0, and those that are listed fail.
#[derive(Debug, Drop)]
pub struct MemorySource {
    bytes: Vec<u8>,
    /// How many bytes were given.
    given: usize,
    listed: Listed,
    calls: u64,
    faults: u64,
    ghost within: { given ≤ length bytes.items },
}

impl MemorySource {
    ghost use Rattle.cfs_fakes.specs.Source.{IsUncalled};

    /// Makes a source of these bytes. The calls of these numbers fail. Takes no memory.
    pub fn new(bytes: Vec<u8>, calls: Vec<u64>) -> MemorySource
        ensures { IsUncalled result bytes.items calls.items }
    {
        MemorySource {
            bytes,
            given: 0,
            listed: Listed::new(calls),
            calls: 0,
            faults: 0,
        }
    }
}

impl Source for MemorySource {
    ghost use Rattle.cfs_fakes.specs.Source.{left_of, supply_of, IsNext, Succeeds, Fails};

    ghost supply = { λ s. record { left = Some (drop s.given s.bytes.items); faults = s.faults } };

    fn read(&mut self, into: &mut [u8]) -> Result<usize, Failed>
        ensures reads { Reads (supply_of self.old) (supply_of self.new) into.old into.new result }
        ensures fills { IfOk result (λ n. n ≡ min (length into.old) (length (left_of self.old))) }
        ensures next { IsNext self.old self.new }
        ensures done { OnOk result (Succeeds self.old self.new) }
        ensures failed { OnErr result (Fails self.old self.new) }
    {
        let listed = self.listed.contains(self.calls);
        self.calls = self.calls.saturating_add(1);
        if listed {
            return Err(failed(&mut self.faults));
        }
        let rest = &self.bytes[self.given..];
        let count = rest.len().min(into.len());
        into[..count].copy_from_slice(&rest[..count]);
        self.given += count;
        Ok(count)
    }
}
