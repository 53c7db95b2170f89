//! One entry on a disk, read with its map and changed.
ghost use Rattle.std.specs.Prelude.{◌≡◌, ℕ, ◌%◌, ◌<◌, true, false, Some, IsTrue, IfOk, IfErr, OnOk};
ghost use Rattle.cfs_base.specs.Calls.{HasTried, OnlyReads, MakesAtMost};
ghost use Rattle.cfs_base.specs.Disk.{Image, Nothing, Written, block_at};
ghost use Rattle.cfs_base.specs.Run.{IsSettled, Tells, Leaves, left_now};
ghost use Rattle.cfs_base.specs.declared.refusal.Trouble.TheVariants as troubles;
ghost use Rattle.cyl_map.specs.Entry.{IsEntry, spelling};
ghost use Rattle.cyl_map.specs.Map.{SpellsMap, entries_of};
ghost use Rattle.cyl_map.specs.Volume.{entry_in, map_of, map_with, with_bytes, with_entry};
ghost use Rattle.cyl_alloc.specs.Maps.{IsMapOf};
ghost use Rattle.cyl_alloc.specs.Refusals.{IsMapTrouble};
ghost use Rattle.cfs_base.specs.Refusals.{trouble_had_tried};
ghost use Rattle.cyl_alloc.specs.Space.{IsGoodMap};
ghost use Rattle.intentions.specs.Calls as spec;
ghost use Rattle.intentions.specs.Entries as entries;

use crate::change::EntryChange;
use cfs_base::{Block, BlockNo, Disk, Trouble};
use cyl_alloc::KnownMaps;
use cyl_map::{Map, MapEntry};

/// Returns the entry of a block, and reads the map that has it into `map`.
pub(crate) fn read_entry<D: Disk>(
    disk: &mut D,
    known: &KnownMaps,
    block: BlockNo,
    map: &mut Block,
) -> Result<MapEntry, Trouble>
    requires { block.0 < D.blocks disk.old }
    ensures entry { Tells D.Disk disk.old → IfOk result (λ entry.
        entry_in (D.content disk.old) block.0 ≡ Some entry) }
    ensures map { Tells D.Disk disk.old → OnOk result (IsMapOf (D.content disk.old) block.0 (entries_of map.new)) }
    ensures spells { OnOk result (SpellsMap map.new) }
    ensures whole { OnOk result (Tells D.Disk disk.old → IsGoodMap (D.content disk.old) block.0) }
    ensures valid { IfOk result IsEntry }
    ensures refused { IfErr result (IsMapTrouble D.Disk disk.old disk.new block.0) }
    ensures untried { IfErr result (λ trouble. trouble_had_tried trouble ≡ false) }
    ensures reads { OnlyReads D.Disk 1 disk.old disk.new }
{
    known.load_map(disk, block.0, map)?;
    Ok(Map::entry_in(map, (block.0 % 64) as u8))
}

/// Puts another entry in the place of the one that was read.
pub(crate) fn put_entry<D: Disk>(
    disk: &mut D,
    known: &mut KnownMaps,
    block: BlockNo,
    map: &mut Block,
    entry: MapEntry,
) -> Result<(), Trouble>
    requires on_disk { block.0 < D.blocks disk.old }
    requires entry { IsEntry entry }
    requires spells { SpellsMap map.old }
    ensures written { IsMapOf (D.content disk.old) block.0 (entries_of map.old) →
        OnOk result (D.content disk.new ≡ with_entry (D.content disk.old) block.0 entry) }
    ensures told { OnOk result ((n : ℕ) → IsTrue (D.told disk.old n) → IsTrue (D.told disk.new n)) }
    ensures refused { IfErr result (IsMapTrouble D.Disk disk.old disk.new block.0) }
    ensures tried { IfErr result (λ trouble. trouble ≡ troubles.Disk true) }
    ensures made { HasTried D.Disk disk.old disk.new }
    ensures images { IsMapOf (D.content disk.old) block.0 (entries_of map.old) → Leaves D.Disk disk.old disk.new
        (Written (left_now D.Disk disk.old) (map_of block.0)
        (map_with (D.content disk.old) block.0 entry)) }
    ensures calls { MakesAtMost D.Disk 1 1 disk.old disk.new }
{
    known
        .store_entry(disk, block.0, map, entry)
        .map_err(|_| Trouble::Disk { tried: true })
}

/// Changes the entry of a block, and returns the one that it had.
pub fn change_entry<D: Disk>(
    disk: &mut D,
    known: &mut KnownMaps,
    block: BlockNo,
    how: EntryChange,
) -> Result<MapEntry, Trouble>
    requires on_disk { block.0 < D.blocks disk.old }
    requires fits { entries.FitsEntry how }
    ensures entry { Tells D.Disk disk.old → IfOk result (λ was.
        entry_in (D.content disk.old) block.0 ≡ Some was) }
    ensures valid { IfOk result IsEntry }
    ensures changes { spec.ChangesEntry D.Disk block.0 (λ e. entries.changed_entry how e) disk.old disk.new result }
{
    let mut map = Block::zero();
    let entry = read_entry(disk, known, block, &mut map)?;
    let now = how.of(entry);
    put_entry(disk, known, block, &mut map, now)?;
    Ok(entry)
}

/// Changes the entry of a block in its map, which is in memory, and returns the one that it had.
pub fn change_in(map: &mut Block, block: BlockNo, how: EntryChange) -> MapEntry
    requires spells { SpellsMap map.old }
    requires fits { entries.FitsEntry how }
    ensures valid { IsEntry result }
    ensures spells { SpellsMap map.new }
    ensures was { (image : Image) → block_at image (map_of block.0) ≡ map.old → entry_in image block.0 ≡ Some result }
    ensures now { map.new ≡ with_bytes map.old (block.0 % 64) (spelling (entries.changed_entry how result)) }
{
    let at = (block.0 % 64) as u8;
    let entry = Map::entry_in(map, at);
    Map::put_in(map, at, how.of(entry));
    entry
}
