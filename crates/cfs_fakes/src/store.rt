//! Blocks in memory.
ghost use Rattle.std.specs.Prelude.{◌≡◌, ◌+◌, ◌/◌, ◌%◌, ◌≤◌, ◌<◌, ◌^◌, ◌++◌, ℕ};
ghost use Rattle.std.specs.Prelude.{get_or, length, replicate, take, drop, set, IfOk};
ghost use Rattle.std.specs.Simd.{first_chunks};
ghost use Rattle.cfs_base.specs.Disk.{AreBlocks, block_at};

use cfs_base::Block;
use std::alloc::{AllocError, Global};
use std::marker::Model;

/// Blocks in memory. Contracts see them as the list of the blocks, each the list of its 512 bytes.
#[derive(Debug, Drop)]
pub struct Store {
    bytes: Vec<u8>,
    count: u32,
}

impl Model for Store {
    ghost use Rattle.std.specs.Prelude.{List, ℕ};
    ghost use Rattle.std.specs.Simd.{first_chunks};
    ghost use Rattle.cfs_fakes.specs.Store.{AreBytes};

    ghost Value = { List (List ℕ) };

    ghost view = { λ s. first_chunks 512 s.count s.bytes.items };

    ghost invariant = { λ s. AreBytes s.count s.bytes.items };
}

// the block that begins at this byte
fn block_from(bytes: &[u8], at: usize) -> [u8; 512]
    requires { at + 512 ≤ length bytes.now }
    ensures { result ≡ take 512 (drop at bytes.now) }
{
    let mut block = [0; 512];
    block.copy_from_slice(&bytes[at..at + 512]);
    block
}

fn put_block(bytes: &mut Vec<u8>, at: usize, block: &[u8; 512])
    requires room { at + 512 ≤ length bytes.old.items }
    requires long { length block.now ≡ 512 }
    ensures put { bytes.new.items ≡ take at bytes.old.items ++ block.now ++ drop (at + 512) bytes.old.items }
    ensures size { length bytes.new.items ≡ length bytes.old.items }
    ensures each { (k : ℕ) → get_or bytes.new.items k 0 < 256 }
{
    bytes[at..at + 512].copy_from_slice(block);
}

#[tactic(auto, using(crate::proofs::Chunks::chunk_laws))]
impl Store {
    /// Makes blocks of zeros.
    pub fn zeros(alloc: Global, count: u32) -> Result<Store, AllocError>
        ensures { IfOk result (λ s. s ≡ replicate count (replicate 512 0)) }
    {
        let bytes = vec![in alloc; 0; count as usize * 512]?;
        Ok(Store { bytes, count })
    }

    /// Makes the blocks in these bytes. Takes no memory.
    pub fn of(bytes: Vec<u8>) -> Store
        requires whole { length bytes.items % 512 ≡ 0 }
        requires room { length bytes.items < 2 ^ 41 }
        ensures { result ≡ first_chunks 512 (length bytes.items / 512) bytes.items }
    {
        let count = (bytes.len() / 512) as u32;
        Store { bytes, count }
    }

    /// Returns the number of blocks.
    pub fn count(&self) -> u32
        ensures count { result ≡ length self.now }
        ensures blocks { AreBlocks self.now }
    {
        self.count
    }

    /// Copies block `n` into `into`.
    pub fn read(&self, n: u32, into: &mut Block)
        requires { n < length self.now }
        ensures { into.new ≡ block_at self.now n }
    {
        *into = Block::of(block_from(&self.bytes, n as usize * 512));
    }

    /// Copies `from` into block `n`.
    pub fn write(&mut self, n: u32, from: &Block)
        requires { n < length self.old }
        ensures written { self.new ≡ set self.old n from.now }
        ensures blocks { AreBlocks self.new }
    {
        put_block(&mut self.bytes, n as usize * 512, from.bytes());
    }

    /// Copies the blocks of another store of the same size.
    pub fn copy_from(&mut self, other: &Store)
        requires { length self.old ≡ length other.now }
        ensures { self.new ≡ other.now }
    {
        self.bytes.copy_from_slice(&other.bytes);
    }
}
