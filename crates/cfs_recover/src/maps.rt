//! The label and the maps of a volume, and the shadow roots that stand for objects by them.
ghost use Rattle.std.specs.Prelude.{◌≡◌, ◌+◌, ◌*◌, ◌<◌, ◌≤◌, ℕ, Some, length, IfErr, IfOk, MatchResult};
ghost use Rattle.cfs_base.specs.Calls.{OnlyReads};
ghost use Rattle.cfs_base.specs.Disk.{Image, block_at};
ghost use Rattle.cyl_map.specs.Map.{IsMap, map_spelling};
ghost use Rattle.cyl_map.specs.Volume.{entry_in};
ghost use Rattle.vol_image.specs.Fault.{HasLabel};
ghost use Rattle.vol_label.specs.Label.{IsLabel};
ghost use Rattle.cfs_recover.specs.Entries.{AreStanding};
ghost use Rattle.cfs_recover.specs.Found.{IsFaultOf};
ghost use Rattle.cfs_recover.specs.Grounds.{AllMapsStand, AllMayStand, HasEntryFault, IsOpenFault};
ghost use Rattle.cfs_recover.specs.Refusals.{IsCaused, NamesDamage};
ghost use Rattle.cfs_recover.specs.Stored.{AreMapsOf, Stores};

use crate::entry::{check_entry, entry_at, stands};
use crate::fault::RecoverFault;
use crate::head::read_block;
use crate::standing::Standing;
use cfs_base::{Damage, Disk, NoMemory, Trouble, code};
use cyl_alloc::maps::read_map;
use cyl_map::{Map, MapEntry};
use std::alloc::Global;
use vol_label::{Label, LabelFault};

/// Reads the label of a volume, with one read.
///
/// Refused as no volume, for its version, or with code 1 of block 1.
pub(crate) fn read_label<D: Disk>(disk: &mut D) -> Result<Label, RecoverFault>
    ensures told { (image : Image) → Stores D.Disk disk.old image
        → MatchResult result (HasLabel image) (IsOpenFault image) }
    ensures size { IfOk result (λ label. D.blocks disk.old ≡ 64 * label.cylinders) }
    ensures few { IfOk result IsLabel }
    ensures cause { IfErr result (IsCaused D.Disk disk.old disk.new) }
    ensures reads { OnlyReads D.Disk 1 disk.old disk.new }
{
    let blocks = disk.blocks();
    if blocks < 3 {
        return Err(RecoverFault::NotVolume);
    }
    let block = read_block(disk, 1)?;
    match Label::decode(&block) {
        Err(LabelFault::NotVolume) => Err(RecoverFault::NotVolume),
        Err(LabelFault::Version { found }) => Err(RecoverFault::Version { found }),
        Ok(label) => {
            if 64 * label.cylinders as u64 != blocks as u64 {
                return Err(RecoverFault::Damaged(Damage {
                    block: 1,
                    code: code::WRONG_SIZE,
                }));
            }
            Ok(label)
        }
    }
}

/// Checks that each block may have its entry of a map.
///
/// Refused with code 2 of the map, and with code 5 of the block.
pub(crate) fn check_map(cylinder: u32, map: &Map) -> Result<(), Damage>
    requires { cylinder < 65536 }
    ensures { MatchResult result (λ _. AllMayStand cylinder map.now) (HasEntryFault cylinder map.now) }
{
    for entry in 0..64u8 {
        check_entry(64 * cylinder + entry as u32, map.get(entry))?;
    }
    Ok(())
}

/// Reads the map of a cylinder, with one read, and checks it.
fn read_good_map<D: Disk>(disk: &mut D, cylinder: u32) -> Result<Map, RecoverFault>
    requires few { cylinder < 65536 }
    requires on_disk { 64 * cylinder + 64 ≤ D.blocks disk.old }
    ensures told { (image : Image) → Stores D.Disk disk.old image → MatchResult result (λ map. IsMap map
        × (block_at image (64 * cylinder) ≡ map_spelling map) × AllMayStand cylinder map)
        (NamesDamage (IsFaultOf image)) }
    ensures cause { IfErr result (IsCaused D.Disk disk.old disk.new) }
    ensures reads { OnlyReads D.Disk 1 disk.old disk.new }
{
    match read_map(disk, 64 * cylinder) {
        Err(Trouble::Disk { .. }) => Err(RecoverFault::Disk),
        Err(Trouble::Damaged(damage)) => Err(RecoverFault::Damaged(damage)),
        Ok(map) => {
            check_map(cylinder, &map)?;
            Ok(map)
        }
    }
}

/// Reads all maps, with one read each, and checks them.
pub(crate) fn read_maps<D: Disk>(
    alloc: Global,
    disk: &mut D,
    cylinders: u32,
) -> Result<Vec<Map>, RecoverFault>
    requires few { cylinders ≤ 65536 }
    requires size { D.blocks disk.old ≡ 64 * cylinders }
    ensures told { (image : Image) → Stores D.Disk disk.old image
        → MatchResult result (λ maps. AreMapsOf image maps.items
        × AllMapsStand maps.items) (NamesDamage (IsFaultOf image)) }
    ensures count { IfOk result (λ maps. length maps.items ≡ cylinders) }
    ensures cause { IfErr result (IsCaused D.Disk disk.old disk.new) }
    ensures reads { OnlyReads D.Disk cylinders disk.old disk.new }
{
    let mut maps = Vec::with_capacity(alloc, cylinders as usize)?;
    for cylinder in 0..cylinders {
        let map = read_good_map(disk, cylinder)?;
        maps.push(map)?;
    }
    Ok(maps)
}

/// Notes the block with this entry, if it stands for a root block.
pub fn note_standing(standing: &mut Standing, block: u32, entry: MapEntry)
    requires { block < length standing.old }
    ensures told { (image : Image) → AreStanding image block standing.old → entry_in image block ≡ Some entry
        → AreStanding image (block + 1) standing.new }
    ensures size { length standing.new ≡ length standing.old }
{
    let root = entry.owner;
    if stands(entry, root) && root < standing.blocks() {
        standing.note(root, block);
    }
}

/// Returns the shadow roots that stand for root blocks by these maps.
pub(crate) fn standing_in(alloc: Global, maps: &[Map]) -> Result<Standing, NoMemory>
    requires { length maps.now ≤ 65536 }
    ensures told { (image : Image) → AreMapsOf image maps.now → IfOk result (AreStanding image (length image)) }
    ensures size { IfOk result (λ standing. length standing ≡ 64 * length maps.now) }
{
    let blocks = 64 * maps.len() as u32;
    let mut standing = Standing::none(alloc, blocks)?;
    for block in 0..blocks {
        note_standing(&mut standing, block, entry_at(maps, block));
    }
    Ok(standing)
}
