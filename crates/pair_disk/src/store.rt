//! Blocks in memory.
ghost use Rattle.std.specs.Prelude.{◌≡◌, ◌<◌, length, set, IfOk};
ghost use Rattle.cfs_base.specs.Disk.{IsBlock};

use cfs_base::Block;
use std::alloc::AllocError;

/// Returns a copy of the blocks.
pub fn copy(blocks: &Vec<Block>) -> Result<Vec<Block>, AllocError>
    ensures { IfOk result (λ v. v.items ≡ blocks.now.items) }
{
    blocks.clone()
}

/// Replaces the content of block `n`.
pub fn put(blocks: &mut Vec<Block>, n: u32, bytes: &[u8; 512])
    requires { n < length blocks.old.items }
    ensures put { blocks.new.items ≡ set blocks.old.items n bytes.now }
    ensures block { length bytes.now ≡ 512 → IsBlock bytes.now }
{
    blocks[n as usize] = Block::of(*bytes);
}
