//! A list of blocks with room for all entries that a commit changes past its bit.
ghost use Rattle.std.specs.Prelude.{◌≡◌, ◌+◌, ◌<◌, ◌≤◌, ◌∷◌, ◌++◌, [], length, IfOk};
ghost use Rattle.std.specs.List.{All};
ghost use Rattle.special_files.specs.Limits.{listed_limit};

use block_tree::{LEAF_LIMIT, NODES};
use cfs_base::NoMemory;
use std::alloc::Global;
use std::marker::Model;

/// The most blocks that a commit may list.
///
/// They are the nodes and leaves of the object as it was and as it is to be, a root that is made, and the shadow
/// root.
pub const MOST: usize = 2 * (NODES + LEAF_LIMIT as usize) + 2;

/// Blocks of an object. Clauses see the list of their numbers.
#[derive(Debug, Drop)]
pub(crate) struct Blocks {
    items: Vec<u32>,
}

impl Model for Blocks {
    ghost use Rattle.std.specs.Prelude.{List, ℕ, ◌≤◌};
    ghost use Rattle.std.specs.Vec.{vec_capacity};
    ghost use Rattle.special_files.specs.Limits.{listed_limit};

    ghost Value = { List ℕ };

    ghost view = { λ a. a.items.items };

    ghost invariant = { λ a. listed_limit ≤ vec_capacity a.items };
}

impl Blocks {
    /// Makes a list of no blocks, with room for all.
    pub fn new(alloc: Global) -> Result<Blocks, NoMemory>
        ensures { IfOk result (λ blocks. blocks ≡ []) }
    {
        let items = Vec::with_capacity(alloc, MOST)?;
        Ok(Blocks { items })
    }

    /// Adds one block.
    pub fn add(&mut self, block: u32)
        requires { length self.old < listed_limit }
        ensures { self.new ≡ self.old ++ block ∷ [] }
    {
        let _ = self.items.push(block);
    }

    /// Removes all blocks.
    pub fn clear(&mut self)
        ensures { self.new ≡ [] }
    {
        self.items.clear();
    }

    /// Returns the numbers of the blocks.
    pub fn as_slice(&self) -> &[u32]
        ensures { result.now ≡ self.now }
    {
        self.items.as_slice()
    }

    /// Adds these blocks.
    pub fn add_all(&mut self, blocks: &[u32])
        requires { length self.old + length blocks.now ≤ listed_limit }
        ensures { self.new ≡ self.old ++ blocks.now }
    {
        for block in blocks {
            self.add(*block);
        }
    }

    /// Returns the list in the form that a space keeps.
    pub fn into_rest(self) -> cyl_alloc::Blocks
        ensures { result ≡ self }
    {
        cyl_alloc::Blocks::new(self.items)
    }
}
