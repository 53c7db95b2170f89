//! The root blocks that were found.
ghost use Rattle.std.specs.Prelude.{◌≡◌, ◌<◌, ◌≤◌, [], ℕ, length, slice_get, Some, IfOk, OnOk};
ghost use Rattle.ufs_model.specs.Numbers.{has_number};
ghost use Rattle.cfs_check.specs.Roots as spec;

use cfs_base::NoMemory;
use std::alloc::Global;
use std::marker::Model;

/// The root blocks of a volume that were found, each once, in the order in which they were found.
#[derive(Debug, Drop)]
pub(crate) struct Roots {
    found: Vec<u32>,
    /// For each block, whether it is among them.
    has: Vec<bool>,
}

impl Model for Roots {
    ghost use Rattle.std.specs.Prelude.{length};
    ghost use Rattle.cfs_check.specs.Roots.{AreFoundRoots, Found};

    ghost Value = { Found };

    ghost view = { λ a. record { blocks = a.found.items; room = length a.has.items } };

    ghost invariant = { λ a. AreFoundRoots a.found.items a.has.items };
}

impl Roots {
    /// Makes a list of no root blocks, for a volume of `blocks` blocks. Takes all memory.
    pub fn none(alloc: Global, blocks: u32) -> Result<Roots, NoMemory>
        ensures { IfOk result (λ roots. roots ≡ record { blocks = []; room = blocks }) }
    {
        let found = Vec::with_capacity(alloc, blocks as usize)?;
        let has = vec![in alloc; false; blocks as usize]?;
        Ok(Roots { found, has })
    }

    /// Returns how many were found.
    pub fn count(&self) -> u32
        ensures count { result ≡ length self.now.blocks }
        ensures few { length self.now.blocks ≤ self.now.room }
        ensures once { (j k n : ℕ) → slice_get self.now.blocks j ≡ Some n → slice_get self.now.blocks k ≡ Some n
            → j ≡ k }
    {
        self.found.len() as u32
    }

    /// Returns one of them, by its place in the list.
    pub fn at(&self, place: u32) -> u32
        requires { place < length self.now.blocks }
        ensures at { slice_get self.now.blocks place ≡ Some result }
        ensures within { result < self.now.room }
    {
        self.found[place as usize]
    }

    /// Returns whether a block is among them.
    pub fn has(&self, block: u32) -> bool
        requires { block < self.now.room }
        ensures { result ≡ has_number block self.now.blocks }
    {
        self.has[block as usize]
    }

    /// Adds a block, if it isn't among them.
    pub fn add(&mut self, block: u32) -> Result<(), NoMemory>
        requires { block < self.old.room }
        ensures added { OnOk result (self.new ≡ record self.old {
          blocks = spec.with_root_block self.old.blocks block (has_number block self.old.blocks);
        }) }
        ensures room { self.new.room ≡ self.old.room }
    {
        if self.has[block as usize] {
            return Ok(());
        }
        self.found.push(block)?;
        self.has[block as usize] = true;
        Ok(())
    }
}
