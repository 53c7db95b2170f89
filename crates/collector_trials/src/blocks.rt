//! The blocks of a small volume of one cylinder: the map's, those of objects in their order, and Free ones.
ghost use Rattle.std.specs.Prelude.{◌<◌, ◌≤◌};

use crate::graph::{OBJECTS, Object, SLOTS, Slot, World};
use cfs_base::{Block, Kind};

pub const BLOCKS: u32 = 64;

/// The blocks from this one on stay Free.
pub const USED: u32 = 18;

/// The first half of a map's entry of a block that no object has, of a root, of node 0 and of leaf 0.
const RESERVED: u32 = 0x0100_0000;

const ROOT: u32 = 0x0101_0000;

const NODE: u32 = 0x0103_0000;

const LEAF: u32 = 0x0104_0000;

/// Returns the root block of an object.
pub fn root_of(index: Object) -> u32
    ensures { result < 18 }
{
    2 + index.number as u32
}

/// Returns the node of an index.
pub fn node_of(index: Object) -> u32
    ensures { result < 18 }
{
    6 + index.number as u32
}

/// Returns the leaf that has a slot: its number in its index, its block, and the slot's first byte in it.
///
/// Both slots of the root index are in one leaf.
pub fn leaf_of(slot: Slot) -> (u32, u32, usize)
    ensures leaf { result.0 < 2 }
    ensures block { result.1 < 18 }
    ensures byte { result.2 ≤ 8 }
{
    let number = slot.number as u32;
    match number {
        0 => (0, 10, 0),
        1 => (0, 10, 8),
        _ => (number % 2, 10 + number, 0),
    }
}

/// Returns the root block of a new object.
///
/// The root index has 64 slots, and another index 128.
pub fn root_block(object: Object, kind: Kind) -> Block {
    let (code, size) = match (kind, object.number) {
        (Kind::Index, 0) => (0x0300, 512),
        (Kind::Index, _) => (0x0300, 1024),
        (Kind::Normal | Kind::Special, _) => (0x0100, 0),
    };
    let mut block = Block::zero();
    block.put_u16(0, code);
    block.put_u32(4, object.id().word);
    block.put_u64(8, size);
    block
}

/// Writes the entry of a block into the map of the cylinder.
fn enter(map: &mut Block, block: u32, place: u32, owner: u32)
    requires { block < 18 }
{
    map.put_u32(8 * block as usize, place);
    map.put_u32(8 * block as usize + 4, owner);
}

/// Returns the map of the cylinder if exactly the world's objects and the leaves that they hold have blocks.
pub fn map_of(world: &World) -> Block {
    let mut map = Block::zero();
    enter(&mut map, 0, RESERVED, 0);
    enter(&mut map, 1, RESERVED, 0);
    for number in 0..OBJECTS {
        let root = root_of(Object { number });
        if world.kinds[number].is_some() {
            enter(&mut map, root, ROOT, root);
        }
    }
    for number in 0..SLOTS {
        if world.held[number] {
            enter_leaf(&mut map, Slot { number });
        }
    }
    map
}

/// Writes the entries of the leaf that has a slot, and of its node.
pub fn enter_leaf(map: &mut Block, slot: Slot) {
    let root = root_of(slot.index());
    let (leaf, block, _) = leaf_of(slot);
    enter(map, node_of(slot.index()), NODE, root);
    enter(map, block, LEAF + leaf, root);
}

/// Returns how many blocks a map says are Free.
pub fn free_in(map: &Block) -> u32 {
    let mut free = BLOCKS - USED;
    for block in 0..USED {
        let is_free = map.u64_at(8 * block as usize) == 0;
        free = u32::saturating_add(free, u32::from(is_free));
    }
    free
}
