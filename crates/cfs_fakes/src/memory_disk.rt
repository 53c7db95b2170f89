//! A disk in memory.
ghost use Rattle.std.specs.Prelude.{◌≡◌, ◌≢◌, ◌⊎◌, ◌-◌, ◌/◌, ◌%◌, ◌≤◌, ◌<◌, ◌^◌, ◌↔◌, ℕ, true, false, refl};
ghost use Rattle.std.specs.Prelude.{[], length, replicate, set, IfOk, IsErr, IsTrue, OnErr, OnOk};
ghost use Rattle.std.specs.Bool.{OnFalse};
ghost use Rattle.std.specs.Simd.{first_chunks};
ghost use Rattle.cfs_base.specs.Disk.{AreBlocks, CountsRead, CountsTry, block_at};
ghost use Rattle.cfs_base.specs.Disk.{Nothing, Written, Only, LeavesOnly, KeepsLeft};
ghost use Rattle.cfs_fakes.specs.Picks.{choice_of};
ghost use Rattle.cfs_fakes.specs.Replay.{after, choices_of, waiting, AreChoices, IsChoice};
ghost use Rattle.cfs_fakes.specs.Recorder.{clock, state_now, left_of as left_of_recorder};
ghost use Rattle.std.proofs.Common.{◌∙◌};
ghost use Rattle.cfs_fakes.specs.Sizes.{left_size};

use crate::faults::{failed, starve};
use crate::kept::{Call, Pick};
use crate::listed::Listed;
use crate::recorder::Recorder;
use crate::store::Store;
use cfs_base::{Block, BlockNo, Disk, Failed, NoMemory};
use std::alloc::Global;

/// A disk in memory. It tells its content, and a recording one also its crash images.
///
/// The calls at the listed moments fail, and write nothing. A recording disk also fails at a write or barrier that it
/// can't keep for want of memory, and at each call once its clock has reached its end.
#[derive(Debug, Drop)]
pub struct MemoryDisk {
    store: Store,
    listed: Listed,
    recorder: Recorder,
    tries: u64,
    faults: u64,
    starved: u64,
    ghost size: { recorder.blocks ≡ length store },
    ghost blocks: { AreBlocks store },
    ghost mirrored: { IsTrue recorder.keeps → (state_now recorder).content ≡ store },
}

impl Disk for MemoryDisk {
    ghost use Rattle.cfs_fakes.specs.Memory.{contents, is_recording, moment_of, tries_of, faults_of, left_of, now_of};
    ghost use Rattle.cfs_fakes.specs.Memory.{IsSamePlan, KeepsStates, Succeeds, Fails, MissesWrite, Starves};

    ghost blocks = { λ d. length d.store };

    ghost honest = { λ d. true };

    ghost content = { λ d. d.store };

    ghost told = { λ d n. true };

    ghost tells_images = { λ d. d.recorder.keeps };

    ghost left_since = { λ d. left_of_recorder d.recorder };

    ghost moment = { λ d. clock d.recorder };

    ghost calls = { λ d. clock d.recorder };

    ghost tries = { λ d. d.tries };

    ghost faults = { λ d. d.faults };

    ghost only_honest = { λ d n h. h };

    ghost sized = { λ d h. refl };

    ghost of_blocks = { λ d h. d.blocks };

    ghost left_sized = { λ d t c left. left_size d.recorder t c left ∙ d.size };

    fn blocks(&self) -> u32 {
        self.store.count()
    }

    fn moment(&self) -> u64 {
        self.recorder.moment()
    }

    fn calls(&self) -> u64 {
        self.recorder.moment()
    }

    fn read(&mut self, at: BlockNo, into: &mut Block) -> Result<(), Failed>
        requires { at.0 < length (contents self.old) }
        ensures bytes { OnOk result (into.new ≡ block_at (contents self.old) at.0) }
        ensures content { contents self.new ≡ contents self.old }
        ensures images { LeavesOnly moment_of left_of self.old self.new Nothing }
        ensures keeps { KeepsLeft moment_of left_of self.old self.new }
        ensures counts { CountsRead moment_of moment_of tries_of faults_of self.old self.new (IsErr result) }
        ensures plan { IsSamePlan self.old self.new }
        ensures past { KeepsStates self.old self.new }
        ensures state { now_of self.new ≡ now_of self.old }
        ensures done { OnOk result (Succeeds self.old self.new) }
        ensures failed { OnErr result (Fails self.old self.new) }
    {
        let due = self.is_due();
        self.recorder.pass();
        if due {
            return Err(failed(&mut self.faults));
        }
        self.store.read(at.0, into);
        Ok(())
    }

    fn write(&mut self, at: BlockNo, from: &Block) -> Result<(), Failed>
        requires { at.0 < length (contents self.old) }
        ensures written { OnOk result (contents self.new ≡ set (contents self.old) at.0 from.now) }
        ensures unwritten { OnErr result (contents self.new ≡ contents self.old) }
        ensures images { LeavesOnly moment_of left_of self.old self.new
            (Written (left_of self.old (moment_of self.old)) at.0 from.now) }
        ensures keeps { KeepsLeft moment_of left_of self.old self.new }
        ensures counts { CountsTry moment_of moment_of tries_of faults_of is_recording self.old self.new
            (IsErr result) }
        ensures plan { IsSamePlan self.old self.new }
        ensures past { KeepsStates self.old self.new }
        ensures kept { OnOk result (IsTrue (is_recording self.old)
            → now_of self.new ≡ after (Call.Write at.0 from.now true) (now_of self.old)) }
        ensures done { OnOk result (Succeeds self.old self.new) }
        ensures failed { OnErr result (MissesWrite self.old self.new at.0 from.now ⊎ Starves self.old self.new) }
    {
        self.tries = self.tries.saturating_add(1);
        if self.recorder.is_over() {
            self.recorder.pass();
            return Err(failed(&mut self.faults));
        }
        let done = !self.listed.contains(self.recorder.moment());
        let Ok(()) = self.recorder.keep(Call::Write(at.0, *from, done)) else {
            return Err(starve(&mut self.starved, &mut self.faults));
        };
        if !done {
            return Err(failed(&mut self.faults));
        }
        self.store.write(at.0, from);
        Ok(())
    }

    fn barrier(&mut self) -> Result<(), Failed>
        ensures content { contents self.new ≡ contents self.old }
        ensures durable { OnOk result (Only (contents self.new) (left_of self.new (moment_of self.new))) }
        ensures images { LeavesOnly moment_of left_of self.old self.new Nothing }
        ensures keeps { KeepsLeft moment_of left_of self.old self.new }
        ensures counts { CountsTry moment_of moment_of tries_of faults_of is_recording self.old self.new
            (IsErr result) }
        ensures plan { IsSamePlan self.old self.new }
        ensures past { KeepsStates self.old self.new }
        ensures kept { OnOk result (IsTrue (is_recording self.old)
            → now_of self.new ≡ after Call.Barrier (now_of self.old)) }
        ensures done { OnOk result (Succeeds self.old self.new) }
        ensures failed { OnErr result (Fails self.old self.new ⊎ Starves self.old self.new) }
    {
        let fails = self.is_due();
        self.tries = self.tries.saturating_add(1);
        if fails {
            self.recorder.pass();
            return Err(failed(&mut self.faults));
        }
        let Ok(()) = self.recorder.keep(Call::Barrier) else {
            return Err(starve(&mut self.starved, &mut self.faults));
        };
        Ok(())
    }
}

impl MemoryDisk {
    ghost use Rattle.cfs_fakes.specs.Memory.{contents, is_recording, moment_of, starved_of, disk_state_at, IsDue};
    ghost use Rattle.cfs_fakes.specs.Memory.{IsUncalled};

    /// Makes a disk of zero blocks. No call fails.
    pub fn new(alloc: Global, blocks: u32) -> Result<MemoryDisk, NoMemory>
        ensures { IfOk result (λ d. IsUncalled d (replicate blocks (replicate 512 0)) [] false) }
    {
        MemoryDisk::failing(alloc, blocks, Vec::new(alloc))
    }

    /// Makes a disk of the blocks in these bytes. No call fails. Takes no memory.
    pub fn of(alloc: Global, bytes: Vec<u8>) -> MemoryDisk
        requires whole { length bytes.items % 512 ≡ 0 }
        requires room { length bytes.items < 2 ^ 41 }
        ensures { IsUncalled result (first_chunks 512 (length bytes.items / 512) bytes.items) [] false }
    {
        MemoryDisk::made(alloc, Store::of(bytes), Vec::new(alloc), false)
    }

    /// Makes a disk of zero blocks. The call at each of these moments fails.
    pub fn failing(alloc: Global, blocks: u32, calls: Vec<u64>) -> Result<MemoryDisk, NoMemory>
        ensures { IfOk result (λ d. IsUncalled d (replicate blocks (replicate 512 0)) calls.items false) }
    {
        let store = Store::zeros(alloc, blocks)?;
        Ok(MemoryDisk::made(alloc, store, calls, false))
    }

    /// Makes a recording disk of zero blocks: it keeps its calls and tells its crash images.
    ///
    /// The call at each of these moments fails.
    pub fn recording(alloc: Global, blocks: u32, calls: Vec<u64>) -> Result<MemoryDisk, NoMemory>
        ensures { IfOk result (λ d. IsUncalled d (replicate blocks (replicate 512 0)) calls.items true) }
    {
        let store = Store::zeros(alloc, blocks)?;
        Ok(MemoryDisk::made(alloc, store, calls, true))
    }

    /// Returns the disk after a crash at this moment, which leaves of each block what was picked.
    ///
    /// The calls of the new disk don't fail.
    pub fn image(&self, alloc: Global, at: u64, picks: &[Pick]) -> Result<MemoryDisk, NoMemory>
        requires recorded { IsTrue (is_recording self.now) }
        requires in_time { at ≤ moment_of self.now }
        ensures picked { IfOk result (λ d. IsChoice (disk_state_at self.now at) (choice_of picks.now) (contents d)) }
        ensures allowed { IfOk result (λ d. ⟦<MemoryDisk as Disk>⟧.left_since self.now at (contents d)) }
        ensures made { IfOk result (λ d. IsUncalled d (contents d) [] false) }
        ensures size { IfOk result (λ d. length (contents d) ≡ length (contents self.now)) }
    {
        let store = self.recorder.image(alloc, at, picks)?;
        Ok(MemoryDisk::made(alloc, store, Vec::new(alloc), false))
    }

    /// Returns how many writes a pick may choose from for the block, at a crash at this moment.
    ///
    /// They are the writes, failed ones too, that were made since the last good barrier before it. A pick has so many
    /// choices beside 0. Takes no memory.
    pub fn choices(&self, at: u64, block: u32) -> u32
        requires recorded { IsTrue (is_recording self.now) }
        ensures counted { result ≡ choices_of (disk_state_at self.now at) block }
        ensures each { AreChoices (waiting (disk_state_at self.now at) block) }
    {
        self.recorder.choices(at, block)
    }

    /// Returns whether the disk keeps its calls.
    pub fn is_recording(&self) -> bool
        ensures { result ≡ is_recording self.now }
    {
        self.recorder.keeps()
    }

    /// Returns how many calls failed for want of memory.
    pub fn starved(&self) -> u64
        ensures { result ≡ starved_of self.now }
    {
        self.starved
    }

    // the disk on which no call was made yet
    fn made(alloc: Global, store: Store, calls: Vec<u64>, recording: bool) -> MemoryDisk
        requires { IsTrue recording → store ≡ replicate (length store) (replicate 512 0) }
        ensures { IsUncalled result store calls.items recording }
    {
        let blocks = store.count();
        MemoryDisk {
            store,
            listed: Listed::new(calls),
            recorder: Recorder::new(alloc, blocks, recording),
            tries: 0,
            faults: 0,
            starved: 0,
        }
    }

    // whether the next call fails
    fn is_due(&self) -> bool
        ensures due { IsTrue result ↔ IsDue self.now }
        ensures room { OnFalse result (IsTrue (is_recording self.now) → moment_of self.now < 2 ^ 64 - 1) }
    {
        self.listed.contains(self.recorder.moment()) || self.recorder.is_over()
    }
}
