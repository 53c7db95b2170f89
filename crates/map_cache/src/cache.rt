//! A disk over a disk.
ghost use Rattle.std.specs.Prelude.{◌≡◌, ◌≢◌, ◌⊎◌, ◌<◌, ◌≤◌, ℕ, IsTrue, false, set};
ghost use Rattle.std.specs.Prelude.{IfErr, IfOk, IsErr, IsOk, OnErr, OnOk};
ghost use Rattle.cfs_base.specs.Disk.{IsSameDisk, CountsRead, CountsTry, block_at};
ghost use Rattle.cfs_base.specs.Disk.{Nothing, Written, Only, LeavesOnly, KeepsLeft};
ghost use Rattle.cfs_base.specs.Outside.{count_after};
ghost use Rattle.map_cache.specs.Cache.{blocks_of, is_honest, content_of, is_told, is_telling, left_of};
ghost use Rattle.map_cache.specs.Cache.{moment_of, tries_of, faults_of, own_calls, lower_calls};
ghost use Rattle.map_cache.specs.Cache.{new_cache, IsHit, IsMirror};
ghost use Rattle.map_cache.specs.Holding.{IsHolding, TakesIn, after_barrier, after_failure, has_map};

use crate::held::Held;
use cfs_base::{Block, BlockNo, Disk, Failed};
use std::alloc::Global;
use std::marker::Model;

/// There was no memory for a cache.
///
/// It hands back the disk, on which no call was made.
#[derive(Debug, Drop)]
pub struct CacheFault<D> {
    pub lower: D,
}

/// A disk over a lower one, which holds the map blocks that were read or written last, up to its capacity.
///
/// Map blocks are those whose numbers are multiples of 64. A read of a block that is held makes no call of the lower
/// disk, and any other call makes one.
///
/// Nothing is held until a barrier made through the cache is done, because a write may have failed on the lower disk
/// before. Nothing is held any more once a write or a barrier made through it fails. A block that isn't held for want
/// of memory is counted (`wants`), and no call fails from that.
///
/// The content, the crash images, the clock, and the counts of tries and faults are the lower disk's. The count of
/// calls is its own.
#[derive(Drop)]
pub struct MapCache<D: Disk> {
    lower: D,
    held: Held,
    calls: u64,
}

impl<D: Disk> Model for MapCache<D> {
    ghost use Rattle.map_cache.specs.Cache.{Cache, IsMirror};

    ghost Value = { Cache D };

    ghost view = { λ c. record { lower = c.lower; held = c.held; calls = c.calls } };

    ghost invariant = { λ c. IsMirror D.Disk c.lower c.held };
}

impl<D: Disk> Disk for MapCache<D> {
    ghost blocks = { blocks_of D.Disk };

    ghost honest = { is_honest D.Disk };

    ghost content = { content_of D.Disk };

    ghost told = { is_told D.Disk };

    ghost tells_images = { is_telling D.Disk };

    ghost left_since = { left_of D.Disk };

    ghost moment = { moment_of D.Disk };

    ghost calls = { own_calls };

    ghost tries = { tries_of D.Disk };

    ghost faults = { faults_of D.Disk };

    ghost only_honest = { λ d n told. D.only_honest d.lower n told };

    ghost sized = { λ d honest. D.sized d.lower honest };

    ghost of_blocks = { λ d honest. D.of_blocks d.lower honest };

    ghost left_sized = { λ d t c left. D.left_sized d.lower t c left };

    fn blocks(&self) -> u32 {
        self.lower.blocks()
    }

    fn moment(&self) -> u64 {
        self.lower.moment()
    }

    fn calls(&self) -> u64 {
        self.calls
    }

    fn read(&mut self, at: BlockNo, into: &mut Block) -> Result<(), Failed>
        requires { at.0 < blocks_of D.Disk self.old }
        ensures bytes { OnOk result (IsTrue (is_told D.Disk self.old at.0)
            → into.new ≡ block_at (content_of D.Disk self.old) at.0) }
        ensures content { content_of D.Disk self.new ≡ content_of D.Disk self.old }
        ensures told { (n : ℕ) → IsTrue (is_told D.Disk self.old n) → IsTrue (is_told D.Disk self.new n) }
        ensures images { LeavesOnly (moment_of D.Disk) (left_of D.Disk) self.old self.new Nothing }
        ensures keeps { KeepsLeft (moment_of D.Disk) (left_of D.Disk) self.old self.new }
        ensures same { IsSameDisk (blocks_of D.Disk) (is_honest D.Disk) (is_telling D.Disk) self.old self.new }
        ensures counts { CountsRead (moment_of D.Disk) own_calls (tries_of D.Disk) (faults_of D.Disk) self.old self.new
            (IsErr result) }

        // If the block is held the lower disk isn't called. Else it is called once, and what was read is taken in.
        ensures hit { IsTrue (has_map self.old.held at.0) → IsOk result × IsHit self.old self.new at.0 into.new }
        ensures one_call { has_map self.old.held at.0 ≡ false
            → lower_calls D.Disk self.new ≡ count_after (lower_calls D.Disk self.old) }
        ensures taken_in { has_map self.old.held at.0 ≡ false
            → OnOk result (TakesIn self.old.held self.new.held at.0 into.new) }
        ensures failed { OnErr result (self.new.held ≡ self.old.held) }
    {
        self.calls = self.calls.saturating_add(1);
        if self.held.find(at.0, into) {
            return Ok(());
        }
        match self.lower.read(at, into) {
            Ok(()) => {
                self.held.take_in(at.0, into);
                Ok(())
            }
            Err(failed) => Err(failed),
        }
    }

    fn write(&mut self, at: BlockNo, from: &Block) -> Result<(), Failed>
        requires { at.0 < blocks_of D.Disk self.old }
        ensures written { OnOk result (content_of D.Disk self.new ≡ set (content_of D.Disk self.old) at.0 from.now) }
        ensures either { OnErr result ((content_of D.Disk self.new ≡ content_of D.Disk self.old)
            ⊎ (content_of D.Disk self.new ≡ set (content_of D.Disk self.old) at.0 from.now)) }
        ensures told { OnOk result ((n : ℕ) → IsTrue (is_told D.Disk self.old n) → IsTrue (is_told D.Disk self.new n)) }
        ensures told_others { (n : ℕ) → n ≢ at.0
            → IsTrue (is_told D.Disk self.old n) → IsTrue (is_told D.Disk self.new n) }
        ensures images { LeavesOnly (moment_of D.Disk) (left_of D.Disk) self.old self.new
            (Written (left_of D.Disk self.old (moment_of D.Disk self.old)) at.0 from.now) }
        ensures keeps { KeepsLeft (moment_of D.Disk) (left_of D.Disk) self.old self.new }
        ensures same { IsSameDisk (blocks_of D.Disk) (is_honest D.Disk) (is_telling D.Disk) self.old self.new }
        ensures counts { CountsTry (moment_of D.Disk) own_calls (tries_of D.Disk) (faults_of D.Disk) (is_telling D.Disk)
            self.old self.new (IsErr result) }

        // The lower disk is called once. If the write is done, what was written is taken in. If it fails, nothing is
        // held any more.
        ensures one_call { lower_calls D.Disk self.new ≡ count_after (lower_calls D.Disk self.old) }
        ensures taken_in { OnOk result (TakesIn self.old.held self.new.held at.0 from.now) }
        ensures emptied { OnErr result (self.new.held ≡ after_failure self.old.held) }
    {
        self.calls = self.calls.saturating_add(1);
        match self.lower.write(at, from) {
            Ok(()) => {
                self.held.take_in(at.0, from);
                Ok(())
            }
            Err(failed) => {
                self.held.empty();
                Err(failed)
            }
        }
    }

    fn barrier(&mut self) -> Result<(), Failed>
        ensures content { content_of D.Disk self.new ≡ content_of D.Disk self.old }
        ensures told { (n : ℕ) → IsTrue (is_told D.Disk self.old n) → IsTrue (is_told D.Disk self.new n) }
        ensures all_told { OnOk result
            (IsTrue (is_honest D.Disk self.old) → (n : ℕ) → IsTrue (is_told D.Disk self.new n)) }
        ensures durable { OnOk result
            (Only (content_of D.Disk self.new) (left_of D.Disk self.new (moment_of D.Disk self.new))) }
        ensures images { LeavesOnly (moment_of D.Disk) (left_of D.Disk) self.old self.new Nothing }
        ensures keeps { KeepsLeft (moment_of D.Disk) (left_of D.Disk) self.old self.new }
        ensures same { IsSameDisk (blocks_of D.Disk) (is_honest D.Disk) (is_telling D.Disk) self.old self.new }
        ensures counts { CountsTry (moment_of D.Disk) own_calls (tries_of D.Disk) (faults_of D.Disk) (is_telling D.Disk)
            self.old self.new (IsErr result) }

        // The lower disk is called once. If the barrier is done, a cache that waited for one keeps blocks from then
        // on. If it fails, nothing is held any more.
        ensures one_call { lower_calls D.Disk self.new ≡ count_after (lower_calls D.Disk self.old) }
        ensures begins { OnOk result (self.new.held ≡ after_barrier self.old.held) }
        ensures emptied { OnErr result (self.new.held ≡ after_failure self.old.held) }
    {
        self.calls = self.calls.saturating_add(1);
        let done = self.lower.barrier();
        self.held.settle(done.is_ok());
        done
    }
}

impl<D: Disk> MapCache<D> {
    /// Makes a cache over this disk that may hold `capacity` blocks.
    ///
    /// It holds none yet, and the disk isn't called. Fails only for want of memory.
    pub fn new(alloc: Global, lower: D, capacity: u32) -> Result<MapCache<D>, CacheFault<D>>
        requires { 1 ≤ capacity }
        ensures fresh { IfOk result (λ c. c ≡ new_cache lower capacity) }
        ensures handed_back { IfErr result (λ fault. fault.lower ≡ lower) }
    {
        match Held::new(alloc, capacity) {
            Ok(held) => Ok(MapCache {
                lower,
                held,
                calls: 0,
            }),
            Err(_) => Err(CacheFault { lower }),
        }
    }

    /// Returns whether this block is held, so that a read of it makes no call of the lower disk. Takes no memory.
    pub fn holds(&self, at: BlockNo) -> bool
        ensures holds { result ≡ has_map self.now.held at.0 }
        // for every cache:
        ensures valid { IsHolding self.now.held }
        ensures mirror { IsMirror D.Disk self.now.lower self.now.held }
    {
        self.held.holds(at.0)
    }

    /// Returns how many map blocks were read or written and weren't held for want of memory. Takes no memory.
    pub fn wants(&self) -> u64
        ensures { result ≡ self.now.held.wants }
    {
        self.held.wants()
    }

    /// Returns the lower disk. Takes no memory.
    pub fn into_lower(self) -> D
        ensures { result ≡ self.lower }
    {
        let MapCache {
            lower,
            held: _,
            calls: _,
        } = self;
        lower
    }
}
