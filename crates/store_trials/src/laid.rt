//! Blocks that are laid by hand.
ghost use Rattle.std.specs.Prelude.{◌≡◌, length};
ghost use Rattle.cfs_fakes.specs.Memory.{contents};

use block_tree::{Node, Root};
use cfs_base::{Block, BlockNo, Disk, Failed, Kind};
use cfs_fakes::MemoryDisk;

/// The entry in a map of a block that no object has, as it is spelled.
pub const RESERVED: u64 = 0x0100_0000_0000_0000;

/// Entries of the object whose root is block 2: its root, its node 0 and its leaf 0.
pub const ROOT_ENTRY: u64 = 0x0101_0000_0000_0002;

pub const NODE_ENTRY: u64 = 0x0103_0000_0000_0002;

pub const LEAF_ENTRY: u64 = 0x0104_0000_0000_0002;

/// Returns a block that begins with these numbers of 8 bytes, and is zero after them.
pub fn block_of(numbers: &[u64]) -> Block {
    let mut block = Block::zero();
    for (place, number) in numbers.iter().enumerate() {
        if place < 64 {
            block.put_u64(8 * place, *number);
        }
    }
    block
}

/// Returns a root with these nodes, each with its number.
pub fn root_with(kind: Kind, fill: u8, word: u32, size: u64, held: &[(usize, u32)]) -> Block {
    let mut nodes = [0; 120];
    for (at, node) in held {
        if *at < 120 {
            nodes[*at] = *node;
        }
    }
    let root = Root {
        kind,
        fill,
        word,
        size,
        nodes,
    };
    root.encode()
}

/// Returns a node with these leaves, each with its place.
pub fn node_with(held: &[(usize, u32)]) -> Block {
    let mut leaves = [0; 128];
    for (at, leaf) in held {
        if *at < 128 {
            leaves[*at] = *leaf;
        }
    }
    Node { leaves }.encode()
}

pub fn put(disk: &mut MemoryDisk, at: u32, block: &Block) -> Result<(), Failed>
    ensures { length (contents disk.new) ≡ length (contents disk.old) }
{
    if at >= disk.blocks() {
        return Err(Failed);
    }
    disk.write(BlockNo(at), block)
}

pub fn get(disk: &mut MemoryDisk, at: u32) -> Result<Block, Failed>
    ensures { length (contents disk.new) ≡ length (contents disk.old) }
{
    if at >= disk.blocks() {
        return Err(Failed);
    }
    let mut block = Block::zero();
    disk.read(BlockNo(at), &mut block)?;
    Ok(block)
}

/// A block, a byte in it, and the four bytes there.
pub type Edit = (u32, usize, u32);

/// Returns a block with four other bytes at a place.
pub fn edited(block: &Block, place: usize, value: u32) -> Block {
    let mut edited = *block;
    if place <= 508 {
        edited.put_u32(place, value);
    }
    edited
}

/// Puts other bytes into blocks.
pub fn edit(disk: &mut MemoryDisk, edits: &[Edit]) -> Result<(), Failed> {
    for (at, place, value) in edits {
        let block = edited(&get(disk, *at)?, *place, *value);
        put(disk, *at, &block)?;
    }
    Ok(())
}
