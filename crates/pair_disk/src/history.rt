//! The clock of a disk in memory, and the calls that it keeps.
ghost use Rattle.std.specs.Prelude.{◌≡◌, ◌≤◌, ◌-◌, ◌^◌, ℕ, IsTrue, OnErr, OnOk, IsErr, [], length};
ghost use Rattle.cfs_base.specs.Disk.{AreBlocks};
ghost use Rattle.cfs_base.specs.Outside.{Rose, count_after};
ghost use Rattle.cfs_base.specs.Replay.{all_before};
ghost use Rattle.pair_disk.specs.Replay.{HasSize, IsTornImage, IsOfBlocks, torn_next, call_moment, may_tear};
ghost use Rattle.pair_disk.specs.Replay.{replayed_writes, unwritten};

use crate::kept::{Call, KeptCall, TornPick};
use crate::replay::{base_after, torn_after};
use crate::store::copy;
use cfs_base::Block;
use std::alloc::{AllocError, Global};

/// Counts the calls of a disk, and keeps those that a crash image depends on.
#[derive(Drop)]
pub struct History {
    /// The content before all calls.
    first: Vec<Block>,
    moment: u64,
    kept: Vec<KeptCall>,
    ghost clocked: { moment ≤ 2 ^ 64 - 1 },
    ghost past: { IsTrue (all_before call_moment moment kept.items) },
    ghost sized: { (t : ℕ) → IsOfBlocks (length first.items) (replayed_writes (unwritten first.items) t kept.items) },
}

impl History {
    ghost use Rattle.std.specs.Prelude.{IfOk};
    ghost use Rattle.cfs_base.specs.Disk.{Image, Nothing, LeavesOnly, KeepsLeft};
    ghost use Rattle.pair_disk.specs.History.{history_clock, history_left, count_of, torn_state_at, torn_now};

    /// Makes a history in which nothing was called yet. Takes no memory.
    pub fn new(alloc: Global, first: Vec<Block>) -> History
        requires { AreBlocks first.items }
        ensures first { result.first ≡ first }
        ensures moment { result.moment ≡ 0 }
        ensures kept { result.kept.items ≡ [] }
    {
        History {
            first,
            moment: 0,
            kept: Vec::new(alloc),
        }
    }

    /// Returns the clock.
    pub fn moment(&self) -> u64
        ensures { result ≡ history_clock self.now }
    {
        self.moment
    }

    /// Counts a call that changes nothing.
    pub fn pass(&mut self)
        ensures clock { history_clock self.new ≡ count_after (history_clock self.old) }
        ensures rose { Rose (history_clock self.old) (history_clock self.new) }
        ensures state { torn_now self.new ≡ torn_now self.old }
        ensures images { LeavesOnly history_clock history_left self.old self.new Nothing }
        ensures keeps { KeepsLeft history_clock history_left self.old self.new }
        ensures size { count_of self.new ≡ count_of self.old }
    {
        self.moment = self.moment.saturating_add(1);
    }

    /// Counts and keeps a call that changes the disk or tries to.
    ///
    /// It isn't kept for want of memory, nor once the clock has reached its end.
    pub fn keep(&mut self, call: Call) -> Result<(), AllocError>
        requires { HasSize (count_of self.old) call }
        ensures clock { history_clock self.new ≡ count_after (history_clock self.old) }
        ensures rose { Rose (history_clock self.old) (history_clock self.new) }
        ensures kept { OnOk result (torn_now self.new ≡ torn_next call (torn_now self.old)) }
        ensures images { LeavesOnly history_clock history_left self.old self.new
            (IsTornImage (torn_next call (torn_now self.old))) }
        ensures here { OnOk result ((c : Image) → history_left self.new (history_clock self.new) c
            → IsTornImage (torn_next call (torn_now self.old)) c) }
        ensures unkept { OnErr result (torn_now self.new ≡ torn_now self.old) }
        ensures keeps { KeepsLeft history_clock history_left self.old self.new }
        ensures size { count_of self.new ≡ count_of self.old }
        ensures last { history_clock self.old ≡ 2 ^ 64 - 1 → IsErr result }
    {
        if self.moment == u64::MAX {
            self.pass();
            return Err(AllocError);
        }
        let kept = KeptCall {
            moment: self.moment,
            call,
        };
        let Ok(()) = self.kept.push(kept) else {
            self.pass();
            return Err(AllocError);
        };
        self.moment += 1;
        Ok(())
    }

    /// Returns the content at the last barrier before this moment.
    pub fn base(&self, at: u64) -> Result<Vec<Block>, AllocError>
        ensures { IfOk result (λ v. v.items ≡ (torn_state_at self.now at).base) }
    {
        let mut base = &self.first;
        for kept in &self.kept {
            base = base_after(base, kept, at);
        }
        copy(base)
    }

    /// Returns whether a write of this block, done or not, was made since that barrier.
    pub fn is_torn(&self, at: u64, block: u32) -> bool
        ensures { result ≡ (torn_state_at self.now at).torn block }
    {
        let mut torn = false;
        for kept in &self.kept {
            torn = torn_after(torn, kept, at, block);
        }
        torn
    }

    /// Returns whether all these blocks were written since then.
    pub fn may_tear(&self, at: u64, picks: &[TornPick]) -> bool
        ensures { result ≡ may_tear (torn_state_at self.now at) picks.now }
    {
        picks.iter().all(|pick| self.is_torn(at, pick.block))
    }
}
