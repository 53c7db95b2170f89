//! Maps that are known to be valid.
ghost use Rattle.std.specs.Prelude.{◌≡◌, ℕ, ◌<◌, true, false, IsTrue, IfErr, OnOk, OnErr, set};
ghost use Rattle.cfs_base.specs.Calls.{OnlyReads, HasStopped, HasTried, MakesAtMost};
ghost use Rattle.cfs_base.specs.Disk.{Written};
ghost use Rattle.cfs_base.specs.Run.{Tells, Leaves, left_now};
ghost use Rattle.cyl_map.specs.Entry.{IsEntry};
ghost use Rattle.cyl_map.specs.Map.{IsFirstBadEntry, SpellsMap, entries_of};
ghost use Rattle.cyl_map.specs.Volume.{map_of, map_with, with_entry};
ghost use Rattle.cyl_alloc.specs.Maps.{IsMapOf};
ghost use Rattle.cyl_alloc.specs.Refusals.{IsMapTrouble};
ghost use Rattle.cfs_base.specs.Refusals.{trouble_had_tried};
ghost use Rattle.cyl_alloc.specs.Space.{IsGoodMap};

use cfs_base::{Block, BlockNo, Damage, Disk, Failed, Trouble, code};
use cyl_map::{BadMap, Map, MapEntry};
use std::marker::Model;

/// How many maps are known. The number of a cylinder gives its place among them.
const KNOWN: usize = 8;

/// The bytes of the maps that were written last, which most often are the next to be read.
///
/// The same bytes aren't tested again. Which maps these are makes no difference to what is read or written.
#[derive(Debug, Drop)]
pub struct KnownMaps {
    maps: [Block; KNOWN],
}

/// Returns the place of a block's map among those that are known.
fn place_of(block: u32) -> usize
    ensures { result < 8 }
{
    (block / 64) as usize % KNOWN
}

impl Model for KnownMaps {
    ghost use Rattle.std.specs.List.{All};
    ghost use Rattle.cyl_map.specs.Map.{SpellsMap};

    ghost Value = { Unit {0} };

    ghost view = { λ _. tt };

    ghost invariant = { λ a. All SpellsMap a.maps };
}

/// Checks that a block spells a map. It is refused as by `Map::check`.
///
/// The bytes of a known map aren't tested again.
fn check_beside(block: &Block, map: &Block) -> Result<(), BadMap>
    requires spells { SpellsMap map.now }
    ensures map { OnOk result (SpellsMap block.now) }
    ensures refused { IfErr result (λ bad. IsFirstBadEntry block.now bad.entry bad.byte) }
{
    if block == map {
        return Ok(());
    }
    Map::check(block)
}

impl KnownMaps {
    /// Begins with the map of 64 Free blocks as known.
    pub fn new() -> KnownMaps {
        KnownMaps {
            maps: [Block::zero(); KNOWN],
        }
    }

    /// Reads the map that has a block's entry into `map`.
    ///
    /// `Damaged` names its map block, with code 2, if it is no map.
    pub fn load_map<D: Disk>(
        &self,
        disk: &mut D,
        block: u32,
        map: &mut Block,
    ) -> Result<(), Trouble>
        requires { map_of block < D.blocks disk.old }
        ensures map { Tells D.Disk disk.old → OnOk result (IsMapOf (D.content disk.old) block (entries_of map.new)) }
        ensures spells { OnOk result (SpellsMap map.new) }
        ensures whole { Tells D.Disk disk.old → OnOk result (IsGoodMap (D.content disk.old) block) }
        ensures refused { IfErr result (IsMapTrouble D.Disk disk.old disk.new block) }
        ensures untried { IfErr result (λ trouble. trouble_had_tried trouble ≡ false) }
        ensures reads { OnlyReads D.Disk 1 disk.old disk.new }
    {
        let at = 64 * (block / 64);
        let Ok(()) = disk.read(BlockNo(at), map) else {
            return Err(Trouble::Disk { tried: false });
        };
        let Ok(()) = check_beside(map, &self.maps[place_of(block)]) else {
            return Err(Trouble::Damaged(Damage {
                block: at,
                code: code::NO_ENTRY,
            }));
        };
        Ok(())
    }

    /// Replaces a block's entry in the map that was loaded, and writes that map, which is known then.
    ///
    /// After a write that fails the map block has its old or its new content.
    pub fn store_entry<D: Disk>(
        &mut self,
        disk: &mut D,
        block: u32,
        map: &mut Block,
        entry: MapEntry,
    ) -> Result<(), Failed>
        requires on_disk { map_of block < D.blocks disk.old }
        requires entry { IsEntry entry }
        requires spells { SpellsMap map.old }
        ensures spells { SpellsMap map.new }
        ensures written { IsMapOf (D.content disk.old) block (entries_of map.old) →
            OnOk result (D.content disk.new ≡ with_entry (D.content disk.old) block entry) }
        ensures told { OnOk result ((n : ℕ) → IsTrue (D.told disk.old n) → IsTrue (D.told disk.new n)) }
        ensures made { HasTried D.Disk disk.old disk.new }
        ensures failed { OnErr result (HasStopped D.Disk true disk.old disk.new) }
        ensures images { IsMapOf (D.content disk.old) block (entries_of map.old) → Leaves D.Disk disk.old disk.new
            (Written (left_now D.Disk disk.old) (map_of block) (map_with (D.content disk.old) block entry)) }
        ensures calls { MakesAtMost D.Disk 1 1 disk.old disk.new }
    {
        Map::put_in(map, (block % 64) as u8, entry);
        self.maps[place_of(block)] = *map;
        disk.write(BlockNo(64 * (block / 64)), map)
    }

    /// Writes a map that was loaded and changed, which is known then.
    ///
    /// After a write that fails the map block has its old or its new content.
    pub fn store_map<D: Disk>(
        &mut self,
        disk: &mut D,
        block: u32,
        map: &Block,
    ) -> Result<(), Failed>
        requires on_disk { map_of block < D.blocks disk.old }
        requires spells { SpellsMap map.now }
        ensures written { OnOk result (D.content disk.new ≡ set (D.content disk.old) (map_of block) map.now) }
        ensures told { OnOk result ((n : ℕ) → IsTrue (D.told disk.old n) → IsTrue (D.told disk.new n)) }
        ensures made { HasTried D.Disk disk.old disk.new }
        ensures failed { OnErr result (HasStopped D.Disk true disk.old disk.new) }
        ensures images { Leaves D.Disk disk.old disk.new
            (Written (left_now D.Disk disk.old) (map_of block) map.now) }
        ensures calls { MakesAtMost D.Disk 1 1 disk.old disk.new }
    {
        self.maps[place_of(block)] = *map;
        disk.write(BlockNo(64 * (block / 64)), map)
    }
}
