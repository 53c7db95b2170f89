//! A disk of atomic blocks.
ghost use Rattle.std.specs.Prelude.{◌≡◌, ◌≢◌, ◌⊎◌, ◌*◌, ◌/◌, ◌<◌, ◌^◌, ◌≤◌, ℕ, IsTrue, IsErr, false, true};
ghost use Rattle.std.specs.Prelude.{OnErr, OnOk, set};
ghost use Rattle.cfs_base.specs.Disk.{Nothing, Only, Written, block_at};
ghost use Rattle.cfs_base.specs.Run.{Leaves};
ghost use Rattle.pair_disk.specs.Pair.{IsFlushed, PairLeft, gate_at, pair_content, tells_both, tells_pair};
ghost use Rattle.pair_disk.specs.Calls.{IsRead, IsTry, KeepsImages, MakesBelow, StaysDisk, StopsWrite, TellsOn};
ghost use Rattle.pair_disk.specs.Calls.{WritesPair, barriers_first};
ghost use Rattle.pair_disk.specs.Laws.{pairs_of_blocks, pairs_sized, shown_sized};
ghost use Rattle.std.proofs.lemmas.Bool.{and_parts};
ghost use Rattle.pair_disk.specs.Below.{FailedBelow, Stays};

use crate::TornDisk;
use crate::below::{replace, shown_half};
use cfs_base::{Block, BlockNo, Disk, Failed};

/// A disk of atomic blocks over a disk that may tear its blocks.
///
/// Three blocks below keep block `n`: the halves `3n` and `3n + 1`, and the gate `3n + 2`. The second half is shown
/// if the gate's byte 0 is 1, else the first. A write puts its block into the half that isn't shown, and then turns
/// the gate, with a barrier after each of the two.
#[derive(Drop)]
pub struct PairDisk<T: TornDisk> {
    lower: T,
    blocks: u32,
    /// Whether a write or barrier below has failed since the last barrier that was done.
    unsure: bool,
    calls: u64,
    tries: u64,
    ghost size: { blocks ≡ T.blocks lower / 3 },
    ghost room: { 3 * blocks < 2 ^ 32 },
    ghost flushed: { unsure ≡ false → IsFlushed T.TornDisk lower },
}

/// It tells its content if the disk below does, and its crash images if that disk tells both.
///
/// The clock and the count of faults are those of the disk below, so that a call fails only if one below did. Calls
/// and tries are its own.
impl<T: TornDisk> Disk for PairDisk<T> {
    ghost blocks = { λ d. d.blocks };

    ghost honest = { λ d. T.honest d.lower };

    ghost content = { λ d. pair_content T.TornDisk d.lower };

    ghost told = { λ d. tells_pair T.TornDisk d.lower };

    ghost tells_images = { λ d. tells_both T.TornDisk d.lower };

    ghost left_since = { λ d. PairLeft T.TornDisk d.lower };

    ghost moment = { λ d. T.moment d.lower };

    ghost calls = { λ d. d.calls };

    ghost tries = { λ d. d.tries };

    ghost faults = { λ d. T.faults d.lower };

    ghost only_honest = { λ d n told. T.only_honest d.lower (gate_at n)
        (and_parts (T.told d.lower (gate_at n)) _ told).0 };

    ghost sized = { λ d tells. pairs_sized (T.honest d.lower) tells (T.content d.lower) (T.blocks d.lower) d.blocks
        (T.sized d.lower tells) d.size };

    ghost of_blocks = { λ d tells. pairs_of_blocks (T.honest d.lower) tells (T.content d.lower)
        (T.of_blocks d.lower tells) };

    ghost left_sized = { λ d t c left. shown_sized left.1.0 c (T.blocks d.lower) d.blocks
        (T.left_sized d.lower t left.1.0 left.1.1) d.size left.1.2 };

    fn blocks(&self) -> u32 {
        self.blocks
    }

    fn moment(&self) -> u64 {
        self.lower.moment()
    }

    fn calls(&self) -> u64 {
        self.calls
    }

    fn read(&mut self, at: BlockNo, into: &mut Block) -> Result<(), Failed>
        requires { at.0 < self.old.blocks }
        ensures bytes { OnOk result (IsTrue (tells_pair T.TornDisk self.old.lower at.0)
            → into.new ≡ block_at (pair_content T.TornDisk self.old.lower) at.0) }
        ensures content { pair_content T.TornDisk self.new.lower ≡ pair_content T.TornDisk self.old.lower }
        ensures told { TellsOn ⟦<PairDisk<T> as Disk>⟧ self.old self.new }
        ensures images { Leaves ⟦<PairDisk<T> as Disk>⟧ self.old self.new Nothing }
        ensures keeps { KeepsImages ⟦<PairDisk<T> as Disk>⟧ self.old self.new }
        ensures same { StaysDisk ⟦<PairDisk<T> as Disk>⟧ self.old self.new }
        ensures counts { IsRead ⟦<PairDisk<T> as Disk>⟧ self.old self.new (IsErr result) }

        // Below, the gate is read, and then the half that it shows.
        ensures made { OnOk result (MakesBelow T.TornDisk 2 0 self.old.lower self.new.lower) }
        ensures stopped { OnErr result (MakesBelow T.TornDisk 1 0 self.old.lower self.new.lower
            ⊎ MakesBelow T.TornDisk 2 0 self.old.lower self.new.lower) }
        ensures unsure { self.new.unsure ≡ self.old.unsure }
    {
        self.calls = self.calls.saturating_add(1);
        let shown = shown_half(&mut self.lower, at)?;
        self.lower.read(shown.at(at), into)
    }

    fn write(&mut self, at: BlockNo, from: &Block) -> Result<(), Failed>
        requires { at.0 < self.old.blocks }
        ensures written { OnOk result (pair_content T.TornDisk self.new.lower
            ≡ set (pair_content T.TornDisk self.old.lower) at.0 from.now) }
        ensures either { OnErr result ((pair_content T.TornDisk self.new.lower ≡ pair_content T.TornDisk self.old.lower)
            ⊎ (pair_content T.TornDisk self.new.lower ≡ set (pair_content T.TornDisk self.old.lower) at.0 from.now)) }
        ensures told { OnOk result (TellsOn ⟦<PairDisk<T> as Disk>⟧ self.old self.new) }
        ensures told_others { (n : ℕ) → n ≢ at.0 → IsTrue (tells_pair T.TornDisk self.old.lower n)
            → IsTrue (tells_pair T.TornDisk self.new.lower n) }
        ensures images { Leaves ⟦<PairDisk<T> as Disk>⟧ self.old self.new
            (Written (PairLeft T.TornDisk self.old.lower (T.moment self.old.lower)) at.0 from.now) }
        ensures keeps { KeepsImages ⟦<PairDisk<T> as Disk>⟧ self.old self.new }
        ensures same { StaysDisk ⟦<PairDisk<T> as Disk>⟧ self.old self.new }
        ensures counts { IsTry ⟦<PairDisk<T> as Disk>⟧ self.old self.new (IsErr result) }

        // Below, a barrier comes first only if the disk is unsure.
        ensures made { OnOk result (WritesPair T.TornDisk self.old.unsure self.old.lower self.new.lower) }
        ensures sure { OnOk result (self.new.unsure ≡ false) }
        ensures stopped { OnErr result (StopsWrite T.TornDisk self.old.unsure self.new.unsure
            self.old.lower self.new.lower) }
    {
        self.calls = self.calls.saturating_add(1);
        self.tries = self.tries.saturating_add(1);
        self.settle()?;
        let shown = shown_half(&mut self.lower, at)?;
        self.unsure = true;
        replace(&mut self.lower, at, shown.other(), from)?;
        self.unsure = false;
        Ok(())
    }

    fn barrier(&mut self) -> Result<(), Failed>
        ensures content { pair_content T.TornDisk self.new.lower ≡ pair_content T.TornDisk self.old.lower }
        ensures told { TellsOn ⟦<PairDisk<T> as Disk>⟧ self.old self.new }
        ensures all_told { OnOk result (IsTrue (T.honest self.old.lower)
            → (n : ℕ) → IsTrue (tells_pair T.TornDisk self.new.lower n)) }
        ensures durable { OnOk result (Only (pair_content T.TornDisk self.new.lower)
            (PairLeft T.TornDisk self.new.lower (T.moment self.new.lower))) }
        ensures images { Leaves ⟦<PairDisk<T> as Disk>⟧ self.old self.new Nothing }
        ensures keeps { KeepsImages ⟦<PairDisk<T> as Disk>⟧ self.old self.new }
        ensures same { StaysDisk ⟦<PairDisk<T> as Disk>⟧ self.old self.new }
        ensures counts { IsTry ⟦<PairDisk<T> as Disk>⟧ self.old self.new (IsErr result) }

        // Below, it is one barrier.
        ensures made { MakesBelow T.TornDisk 1 1 self.old.lower self.new.lower }
        ensures sure { OnOk result (self.new.unsure ≡ false) }
        ensures unsure { OnErr result (self.new.unsure ≡ true) }
    {
        self.calls = self.calls.saturating_add(1);
        self.tries = self.tries.saturating_add(1);
        self.unsure = true;
        self.lower.barrier()?;
        self.unsure = false;
        Ok(())
    }
}

impl<T: TornDisk> PairDisk<T> {
    /// Makes the pair disk of a disk below, with a third of its blocks. Takes no memory.
    ///
    /// Nothing waits for a barrier on the disk below: each of its blocks is told, and if it tells its images, a crash
    /// as this is called leaves its content alone.
    pub fn new(lower: T) -> PairDisk<T>
        requires { IsFlushed T.TornDisk lower }
        ensures lower { result.lower ≡ lower }
        ensures calls { result.calls ≡ 0 }
        ensures tries { result.tries ≡ 0 }
        ensures sure { result.unsure ≡ false }
    {
        let blocks = lower.blocks() / 3;
        PairDisk {
            lower,
            blocks,
            unsure: false,
            calls: 0,
            tries: 0,
        }
    }

    /// Returns the disk below.
    pub fn into_lower(self) -> T
        ensures { result ≡ self.lower }
    {
        let PairDisk { lower, .. } = self;
        lower
    }

    /// Makes a barrier if a write or barrier has failed since the last one that was done.
    fn settle(&mut self) -> Result<(), Failed>
        ensures stays { Stays T.TornDisk self.old.lower self.new.lower }
        ensures settled { OnOk result (self.new.unsure ≡ false) }
        ensures failed { IsErr result → FailedBelow T.TornDisk self.old.lower self.new.lower }
        ensures blocks { self.new.blocks ≡ self.old.blocks }
        ensures calls { self.new.calls ≡ self.old.calls }
        ensures tries { self.new.tries ≡ self.old.tries }
        ensures made { OnOk result (MakesBelow T.TornDisk (barriers_first self.old.unsure)
            (barriers_first self.old.unsure) self.old.lower self.new.lower) }
        ensures stopped { OnErr result ((self.old.unsure ≡ true) × (self.new.unsure ≡ true)
            × MakesBelow T.TornDisk 1 1 self.old.lower self.new.lower) }
    {
        if self.unsure {
            self.lower.barrier()?;
            self.unsure = false;
        }
        Ok(())
    }
}
