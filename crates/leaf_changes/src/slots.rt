//! The slots of a leaf of an index.
ghost use Rattle.std.specs.Prelude.{◌≡◌, ◌<◌, length};
ghost use Rattle.vol_image.specs.Reading.{slot_in};
ghost use Rattle.leaf_changes.specs.Bytes.{with_slot};

use cfs_base::{Block, Puid};

/// Puts an identifier into a slot of a leaf, or empties the slot.
///
/// Slots are numbered from 0 in each leaf.
pub fn put_slot(block: &mut Block, slot: usize, what: Option<Puid>)
    requires { slot < 64 }
    ensures put { block.new ≡ with_slot slot what block.old }
    ensures long { length block.old ≡ 512 }
{
    let number = match what {
        Some(id) => id.number(),
        None => 0,
    };
    block.put_u64(8 * slot, number);
}

/// Returns what a slot of a leaf holds.
///
/// Slots are numbered from 0 in each leaf.
pub fn slot_at(block: &Block, slot: usize) -> Option<Puid>
    requires { slot < 64 }
    ensures { result ≡ slot_in block.now slot }
{
    let number = block.u64_at(8 * slot);
    (number != 0).then_some(Puid::of(number))
}
