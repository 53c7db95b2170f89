//! The maps of a fresh volume.
ghost use Rattle.std.specs.Prelude.{◌≡◌, ◌+◌, ◌*◌, ◌<◌, ℕ, Some, replicate, slice_get};
ghost use Rattle.vol_format.specs.Fresh.{free_entry, fresh_entry};

use cfs_base::{Block, Place};
use cyl_map::{BlockState, Map, MapEntry};

/// The entry of a map block, and of the label.
const RESERVED: MapEntry = MapEntry {
    state: BlockState::Allocated,
    committed: false,
    place: None,
    owner: 0,
};

/// The entry of the root index's root block.
const ROOT: MapEntry = MapEntry {
    state: BlockState::Allocated,
    committed: false,
    place: Some(Place::Root),
    owner: 2,
};

/// Returns the map of 64 Free blocks.
fn free_map() -> Map
    ensures { result ≡ replicate 64 free_entry }
{
    match Map::decode(&Block::zero()) {
        Ok(map) => map,
        Err(_) => unreachable!(),
    }
}

/// Returns the map of a cylinder of a fresh volume.
pub(crate) fn fresh_map(cylinder: u32) -> Map
    ensures { (k : ℕ) → k < 64 → slice_get result k ≡ Some (fresh_entry (64 * cylinder + k)) }
{
    let mut map = free_map();
    map.set(0, RESERVED);
    if cylinder > 0 {
        return map;
    }
    map.set(1, RESERVED);
    map.set(2, ROOT);
    map
}
