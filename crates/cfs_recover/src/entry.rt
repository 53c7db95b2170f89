//! What single entries say.
ghost use Rattle.std.specs.Prelude.{◌≡◌, ◌↔◌, ◌/◌, ◌%◌, ◌<◌, [], get_or, length, slice_get, Some, IsTrue, MatchResult};
ghost use Rattle.vol_image.specs.Part as part;
ghost use Rattle.cfs_recover.specs.Entries.{EntryFault, MayStand};

use cfs_base::{Damage, Place, code};
use cyl_map::{BlockState, Map, MapEntry};

/// The entry of a map block, and of the label.
pub const RESERVED: MapEntry = MapEntry {
    state: BlockState::Allocated,
    committed: false,
    place: None,
    owner: 0,
};

/// Returns the entry of a block.
pub fn entry_at(maps: &[Map], block: u32) -> MapEntry
    requires { block / 64 < length maps.now }
    ensures { slice_get (get_or maps.now (block / 64) []) (block % 64) ≡ Some result }
{
    maps[(block / 64) as usize].get((block % 64) as u8)
}

/// Returns whether this is a map block or the label.
pub fn is_fixed(block: u32) -> bool
    ensures { result ≡ part.is_fixed block }
{
    block % 64 == 0 || block == 1
}

/// Checks that a block may have this entry.
///
/// A root's is that of its own block, and a map block and the label are reserved. Refused with code 2 of its map, and
/// with code 5 of the block.
pub fn check_entry(block: u32, entry: MapEntry) -> Result<(), Damage>
    ensures { MatchResult result (λ _. MayStand block entry) (EntryFault block entry) }
{
    if entry.place == Some(Place::Root) && entry.owner != block {
        return Err(Damage {
            block: 64 * (block / 64),
            code: code::NO_ENTRY,
        });
    }
    if is_fixed(block) && entry != RESERVED {
        return Err(Damage {
            block,
            code: code::NOT_OWNED,
        });
    }
    Ok(())
}

/// Returns whether a block with this entry has this owner and place.
pub fn belongs(entry: MapEntry, owner: u32, place: Place) -> bool
    ensures { IsTrue result ↔ part.BelongsTo owner place (part.part_of (Some entry)) }
{
    entry.state != BlockState::Free && entry.owner == owner && entry.place == Some(place)
}

/// Returns whether a block with this entry stands for this root block, as its shadow root.
pub fn stands(entry: MapEntry, root: u32) -> bool
    ensures { result ≡ part.stands_for root (Some entry) }
{
    entry.state == BlockState::IntendAllocate
        && entry.place == Some(Place::ShadowRoot)
        && entry.owner == root
}

/// Returns whether the commit bit is set in this entry.
pub fn is_committed(entry: MapEntry) -> bool
    ensures { result ≡ part.is_committed (part.part_of (Some entry)) }
{
    entry.state != BlockState::Free && entry.committed
}
