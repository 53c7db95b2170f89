//! The maps of a volume on a disk.
ghost use Rattle.std.specs.Prelude.{◌≡◌, ◌↔◌, ◌<◌, false, IsNone, IfOk, IfErr, IfSome, OnOk, position};
ghost use Rattle.cfs_base.specs.Calls.{OnlyReads};
ghost use Rattle.cfs_base.specs.Run.{Tells};
ghost use Rattle.cyl_map.specs.Map.{entries_of, free_entries, is_free};
ghost use Rattle.cyl_map.specs.Reading.{said_by};
ghost use Rattle.cyl_map.specs.Volume.{map_of};
ghost use Rattle.cyl_alloc.specs.Maps.{IsMapOf};
ghost use Rattle.cyl_alloc.specs.Refusals.{IsMapTrouble};
ghost use Rattle.cfs_base.specs.Refusals.{trouble_had_tried};
ghost use Rattle.cyl_alloc.specs.Space.{IsGoodMap};

use cfs_base::{Block, BlockNo, Damage, Disk, Trouble, code};
use cyl_map::{BlockState, Map, MapEntry};

/// The entry of a Free block.
pub const FREE: MapEntry = MapEntry {
    state: BlockState::Free,
    committed: false,
    place: None,
    owner: 0,
};

/// Reads the map that has a block's entry.
///
/// `Damaged` names its map block, with code 2, if it is no map.
pub fn read_map<D: Disk>(disk: &mut D, block: u32) -> Result<Map, Trouble>
    requires { map_of block < D.blocks disk.old }
    ensures map { Tells D.Disk disk.old → IfOk result (IsMapOf (D.content disk.old) block) }
    ensures whole { Tells D.Disk disk.old → OnOk result (IsGoodMap (D.content disk.old) block) }
    ensures refused { IfErr result (IsMapTrouble D.Disk disk.old disk.new block) }
    ensures untried { IfErr result (λ trouble. trouble_had_tried trouble ≡ false) }
    ensures reads { OnlyReads D.Disk 1 disk.old disk.new }
{
    let at = 64 * (block / 64);
    let mut content = Block::zero();
    let Ok(()) = disk.read(BlockNo(at), &mut content) else {
        return Err(Trouble::Disk { tried: false });
    };
    let Ok(map) = Map::decode(&content) else {
        return Err(Trouble::Damaged(Damage {
            block: at,
            code: code::NO_ENTRY,
        }));
    };
    Ok(map)
}

/// Returns whether the bytes of an entry say that the block is Free.
fn says_free(bytes: &[u8; 8]) -> bool
    ensures { result ≡ is_free (said_by bytes.now) }
{
    bytes[0] % 0x80 == 0
}

/// Returns the place of the first of some entries that says that its block is Free.
fn first_saying_free(entries: &[[u8; 8]]) -> Option<usize>
    ensures { result ≡ position (λ bytes. is_free (said_by bytes)) entries.now }
{
    entries.iter().position(|bytes| says_free(bytes))
}

/// Returns the first block that is Free in the map that a block spells.
pub(crate) fn first_free(map: &Block) -> Option<u8>
    ensures first { result ≡ position is_free (entries_of map.now) }
    ensures none { IsNone result ↔ (free_entries (entries_of map.now) ≡ 0) }
    ensures within { IfSome result (λ entry. entry < 64) }
{
    let place = first_saying_free(map.bytes().as_chunks::<8>().0)?;
    Some(place as u8)
}
