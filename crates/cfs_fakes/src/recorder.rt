//! The clock of a disk in memory, and the calls that it keeps if it records.
ghost use Rattle.std.specs.Prelude.{◌≡◌, ◌<◌, ◌≤◌, ◌-◌, ◌^◌, ◌↔◌, IsTrue, OnOk, OnErr, [], IfOk};
ghost use Rattle.std.specs.Bool.{OnFalse};
ghost use Rattle.cfs_base.specs.Outside.{Rose, count_after};
ghost use Rattle.cfs_base.specs.Replay.{all_before};
ghost use Rattle.cfs_fakes.specs.Picks.{choice_of};
ghost use Rattle.cfs_fakes.specs.Replay.{after, made_at, choices_of, IsChoice, IsImage};

use crate::kept::{Call, KeptCall, Pick};
use crate::rerun::{choices_at, image_at};
use crate::store::Store;
use std::alloc::{AllocError, Global};

/// Counts the calls of a disk that was made of zeros.
///
/// A recorder that keeps calls tells which images a crash may leave.
#[derive(Debug, Drop)]
pub struct Recorder {
    blocks: u32,
    keeps: bool,
    moment: u64,
    kept: Vec<KeptCall>,
    ghost past: { IsTrue (all_before made_at moment kept.items) },
}

impl Recorder {
    ghost use Rattle.std.specs.Prelude.{ℕ};
    ghost use Rattle.cfs_base.specs.Disk.{Image, Nothing, LeavesOnly, KeepsLeft};
    ghost use Rattle.cfs_fakes.specs.Recorder.{clock, state_at, state_now, left_of, IsSameRecorder};

    /// Makes a recorder for a disk on which nothing was called yet. Takes no memory.
    pub fn new(alloc: Global, blocks: u32, keeps: bool) -> Recorder
        ensures blocks { result.blocks ≡ blocks }
        ensures keeps { result.keeps ≡ keeps }
        ensures moment { result.moment ≡ 0 }
        ensures kept { result.kept.items ≡ [] }
    {
        Recorder {
            blocks,
            keeps,
            moment: 0,
            kept: Vec::new(alloc),
        }
    }

    /// Returns the clock.
    pub fn moment(&self) -> u64
        ensures { result ≡ clock self.now }
    {
        self.moment
    }

    /// Returns whether calls are kept.
    pub fn keeps(&self) -> bool
        ensures { result ≡ self.now.keeps }
    {
        self.keeps
    }

    /// Returns whether calls are kept and the clock has reached its end, so that no further call can be kept.
    pub fn is_over(&self) -> bool
        ensures over { IsTrue result ↔ (IsTrue self.now.keeps × (clock self.now ≡ 2 ^ 64 - 1)) }
        ensures room { OnFalse result (IsTrue self.now.keeps → clock self.now < 2 ^ 64 - 1) }
    {
        self.keeps && self.moment == u64::MAX
    }

    /// Counts a call that changes nothing.
    pub fn pass(&mut self)
        ensures clock { clock self.new ≡ count_after (clock self.old) }
        ensures rose { Rose (clock self.old) (clock self.new) }
        ensures state { state_now self.new ≡ state_now self.old }
        ensures images { LeavesOnly clock left_of self.old self.new Nothing }
        ensures earlier { KeepsLeft clock left_of self.old self.new }
        ensures past { (t : ℕ) → t ≤ clock self.old → state_at self.new t ≡ state_at self.old t }
        ensures same { IsSameRecorder self.old self.new }
    {
        self.moment = self.moment.saturating_add(1);
    }

    /// Counts and keeps a call that changes the disk or tries to.
    ///
    /// For want of memory it isn't kept.
    pub fn keep(&mut self, call: Call) -> Result<(), AllocError>
        requires { IsTrue self.old.keeps → clock self.old < 2 ^ 64 - 1 }
        ensures clock { clock self.new ≡ count_after (clock self.old) }
        ensures rose { Rose (clock self.old) (clock self.new) }
        ensures kept { OnOk result (IsTrue self.old.keeps → state_now self.new ≡ after call (state_now self.old)) }
        ensures starved { OnErr result (IsTrue self.old.keeps × (state_now self.new ≡ state_now self.old)) }
        ensures images { LeavesOnly clock left_of self.old self.new
            (λ c. IsTrue self.old.keeps × IsImage (after call (state_now self.old)) c) }
        ensures here { OnOk result ((c : Image) → left_of self.new (clock self.new) c
            → IsImage (after call (state_now self.old)) c) }
        ensures earlier { KeepsLeft clock left_of self.old self.new }
        ensures past { (t : ℕ) → t ≤ clock self.old → state_at self.new t ≡ state_at self.old t }
        ensures same { IsSameRecorder self.old self.new }
    {
        if !self.keeps {
            self.pass();
            return Ok(());
        }
        let kept = KeptCall {
            moment: self.moment,
            call,
        };
        let Ok(()) = self.kept.push(kept) else {
            self.pass();
            return Err(AllocError);
        };
        self.moment += 1;
        Ok(())
    }

    /// Returns the image that a crash at this moment leaves by these picks.
    pub fn image(&self, alloc: Global, at: u64, picks: &[Pick]) -> Result<Store, AllocError>
        ensures { IfOk result (λ image. IsChoice (state_at self.now at) (choice_of picks.now) image) }
    {
        image_at(alloc, self.blocks, &self.kept, at, picks)
    }

    /// Returns how many choices a crash at this moment has for a block, beside 0.
    pub fn choices(&self, at: u64, block: u32) -> u32
        ensures { result ≡ choices_of (state_at self.now at) block }
    {
        choices_at(self.blocks, &self.kept, at, block)
    }
}
