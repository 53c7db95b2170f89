//! A block to which a pointer leads.
ghost use Rattle.std.specs.Prelude.{◌*◌, ◌<◌, length, MatchResult, OnOk};
ghost use Rattle.cfs_base.specs.Disk.{Image};
ghost use Rattle.cfs_recover.specs.Checks.{IsInPlace, SpotFault};
ghost use Rattle.cfs_recover.specs.Stored.{AreMapsOf};

use crate::entry::{belongs, entry_at};
use cfs_base::{Damage, Place, code};
use cyl_map::Map;

/// A block to which a pointer leads, and the owner and place that it should have.
#[derive(Clone, Copy, Debug, PartialEq, Eq)]
pub struct Spot {
    /// The block that holds the pointer.
    pub holder: u32,
    /// The block to which the pointer leads.
    pub block: u32,
    /// The owner that the block should have.
    pub owner: u32,
    /// The place that the block should have.
    pub place: Place,
}

/// Checks that the block is on the disk, and that its entry has the owner and place.
///
/// Refused with code 4 of the holder, and with code 5 of the block.
pub fn check_spot(maps: &[Map], spot: Spot) -> Result<(), Damage>
    ensures told { (image : Image) → AreMapsOf image maps.now →
        MatchResult result (λ _. IsInPlace image spot) (SpotFault image spot) }
    ensures on_disk { OnOk result (spot.block < 64 * length maps.now) }
{
    if (spot.block / 64) as usize >= maps.len() {
        return Err(Damage {
            block: spot.holder,
            code: code::PAST_DISK,
        });
    }
    let entry = entry_at(maps, spot.block);
    if !belongs(entry, spot.owner, spot.place) {
        return Err(Damage {
            block: spot.block,
            code: code::NOT_OWNED,
        });
    }
    Ok(())
}
