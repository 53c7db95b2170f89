//! The map blocks that a cache holds.
ghost use Rattle.std.specs.Prelude.{◌≡◌, ◌≤◌, [], false, IsTrue, Some, IfOk};
ghost use Rattle.map_cache.specs.Holding.{IsHolding, TakesIn, after_barrier, after_failure, found};
ghost use Rattle.map_cache.specs.Holding.{has_map, held_block, holding};

use cfs_base::Block;
use lru::LruCache;
use std::alloc::{AllocError, Global};
use std::marker::Model;
use std::num::NonZeroUsize;

/// How many blocks a cylinder of a volume has. The first of each holds its map.
const CYLINDER: u32 = 64;

/// How far a cache has come.
#[derive(Clone, Copy, Debug, PartialEq, Eq)]
pub(crate) enum Stage {
    /// No barrier was done yet.
    Waiting,
    /// A barrier was done, and since then no write or barrier has failed.
    Keeping,
    /// A write or a barrier failed.
    Over,
}

/// Blocks in the order of their last use, how far the cache has come, and how often there was no memory for one more.
#[derive(Drop)]
pub(crate) struct Held {
    blocks: LruCache<u32, Block>,
    stage: Stage,
    wants: u64,
}

impl Model for Held {
    ghost use Rattle.map_cache.specs.Holding.{Holding, IsHolding, holding};

    ghost Value = { Holding };

    ghost view = { λ h. holding h.blocks.entries h.blocks.cap h.stage h.wants };

    ghost invariant = { λ h. IsHolding (holding h.blocks.entries h.blocks.cap h.stage h.wants) };
}

impl Held {
    /// Makes a cache that holds no block.
    pub(crate) fn new(alloc: Global, capacity: u32) -> Result<Held, AllocError>
        requires { 1 ≤ capacity }
        ensures { IfOk result (λ h. h ≡ holding [] capacity Stage.Waiting 0) }
    {
        let Some(most) = NonZeroUsize::new(capacity as usize) else {
            unreachable!()
        };
        let blocks = LruCache::new(alloc, most)?;
        Ok(Held {
            blocks,
            stage: Stage::Waiting,
            wants: 0,
        })
    }

    /// Returns whether a block is held.
    pub(crate) fn holds(&self, at: u32) -> bool
        ensures holds { result ≡ has_map self.now at }
        ensures valid { IsHolding self.now }
    {
        self.blocks.contains(&at)
    }

    /// Returns how many times a block wasn't held for want of memory.
    pub(crate) fn wants(&self) -> u64
        ensures { result ≡ self.now.wants }
    {
        self.wants
    }

    /// Copies a held block and brings it to the front. Returns whether it is held.
    pub(crate) fn find(&mut self, at: u32, into: &mut Block) -> bool
        ensures found { result ≡ has_map self.old at }
        ensures bytes { IsTrue result → held_block self.old at ≡ Some into.new }
        ensures front { IsTrue result → self.new ≡ found self.old at }
        ensures none { result ≡ false → (self.new ≡ self.old) × (into.new ≡ into.old) }
    {
        if self.blocks.is_empty() || at % CYLINDER != 0 {
            return false;
        }
        match self.blocks.get(&at) {
            Some(block) => {
                *into = *block;
                true
            }
            None => false,
        }
    }

    /// Takes in a block that was read or written with these bytes.
    pub(crate) fn take_in(&mut self, at: u32, block: &Block)
        ensures { TakesIn self.old self.new at block.now }
    {
        let keeps = self.stage == Stage::Keeping && at % CYLINDER == 0;
        if keeps {
            // For want of memory the block isn't held, with an older content neither: putting a number that is held
            // takes no memory.
            let put = self.blocks.put(at, *block);
            if put.is_err() {
                self.wants = self.wants.saturating_add(1);
            }
        }
    }

    /// Records that a barrier is done, or that it failed.
    pub(crate) fn settle(&mut self, done: bool)
        ensures begins { IsTrue done → self.new ≡ after_barrier self.old }
        ensures emptied { done ≡ false → self.new ≡ after_failure self.old }
    {
        if !done {
            self.empty();
        } else if self.stage == Stage::Waiting {
            self.stage = Stage::Keeping;
        }
    }

    /// Records that a write or a barrier failed: nothing is held any more.
    pub(crate) fn empty(&mut self)
        ensures { self.new ≡ after_failure self.old }
    {
        self.blocks.clear();
        self.stage = Stage::Over;
    }
}
