//! What the entries of an image say.
ghost use Rattle.std.specs.Prelude.{◌≡◌, ◌<◌, MatchBool, length};
ghost use Rattle.cyl_map.specs.Volume.{entry_in};
ghost use Rattle.vol_image.specs.Fault as spec;
ghost use Rattle.vol_image.specs.Part.{BelongsTo, part_at};

use crate::image::Image;
use cfs_recover::{Spot, belongs, is_committed};
use cyl_map::{Map, MapEntry};

/// Returns the entry of a block, if its eight bytes spell one.
pub(crate) fn entry_of(image: &Image, block: u32) -> Option<MapEntry>
    requires { block < length image.now }
    ensures { result ≡ entry_in image.now block }
{
    Map::read_in(image.block(64 * (block / 64)), (block % 64) as u8)
}

/// Returns whether a block's entry has its owner and place.
pub(crate) fn is_in_place(image: &Image, spot: Spot) -> bool
    requires { spot.block < length image.now }
    ensures { MatchBool result (BelongsTo spot.owner spot.place (part_at image.now spot.block))
        (¬ BelongsTo spot.owner spot.place (part_at image.now spot.block)) }
{
    match entry_of(image, spot.block) {
        None => false,
        Some(entry) => belongs(entry, spot.owner, spot.place),
    }
}

/// Returns whether the commit bit is set in a block's entry, and the entry is the block's own.
pub(crate) fn has_own_bit(image: &Image, block: u32) -> bool
    requires { block < length image.now }
    ensures { result ≡ spec.has_own_bit block (part_at image.now block) }
{
    match entry_of(image, block) {
        None => false,
        Some(entry) => is_committed(entry) && entry.owner == block,
    }
}
