//! The making of a volume.
ghost use Rattle.std.specs.Prelude.{◌≡◌, ◌≢◌, ◌+◌, ◌*◌, ◌/◌, ◌%◌, ◌<◌, ◌≤◌, ℕ, IsErr, IsTrue, OnOk, Some, set};
ghost use Rattle.cfs_base.specs.Calls.{HasFailed, MakesAtMost};
ghost use Rattle.cfs_base.specs.Disk.{Only};
ghost use Rattle.cfs_base.specs.Run.{IsSettled, Leaves, left_now};
ghost use Rattle.cyl_map.specs.Volume.{entry_in};
ghost use Rattle.vol_format.specs.Fresh.{HasBody, IsBlank, IsEmptyIndex, IsFormatted, IsUnlabelled, MayBeFresh};
ghost use Rattle.vol_format.specs.Fresh.{fresh_entry, label_block};

use crate::map::fresh_map;
use block_tree::{NODES, Root};
use cfs_base::{Block, BlockNo, Disk, Failed, Kind, Puid};
use ufs_model::ROOT_SLOTS;
use vol_label::{Label, NEWEST};

/// The block that holds the label.
const LABEL: u32 = 1;
/// The root block of the root index.
const ROOT_BLOCK: u32 = 2;

/// Erases the label, so that a crash from now on leaves no volume.
fn erase<D: Disk>(disk: &mut D) -> Result<(), Failed>
    requires { 1 < D.blocks disk.old }
    ensures unlabelled { OnOk result (IsUnlabelled D.Disk disk.old disk.new) }
    ensures images { Leaves D.Disk disk.old disk.new IsBlank }
    ensures cause { IsErr result → HasFailed D.Disk disk.old disk.new }
    ensures calls { MakesAtMost D.Disk 2 2 disk.old disk.new }
{
    disk.write(BlockNo(LABEL), &Block::zero())?;
    disk.barrier()
}

/// Writes a block other than the label. Done or failed, a crash leaves no volume.
fn write_beside<D: Disk>(disk: &mut D, at: BlockNo, block: &Block) -> Result<(), Failed>
    requires on_disk { at.0 < D.blocks disk.old }
    requires beside { at.0 ≢ 1 }
    ensures stays { (start : D) → IsUnlabelled D.Disk start disk.old → IsUnlabelled D.Disk start disk.new }
    ensures written { OnOk result (D.content disk.new ≡ set (D.content disk.old) at.0 block.now) }
    ensures cause { IsErr result → HasFailed D.Disk disk.old disk.new }
    ensures calls { MakesAtMost D.Disk 1 1 disk.old disk.new }
{
    disk.write(at, block)
}

/// Writes the map of each cylinder.
fn write_maps<D: Disk>(disk: &mut D, cylinders: u32) -> Result<(), Failed>
    requires size { D.blocks disk.old ≡ 64 * cylinders }
    requires most { cylinders ≤ 65536 }
    ensures stays { (start : D) → IsUnlabelled D.Disk start disk.old → IsUnlabelled D.Disk start disk.new }
    ensures entries { IsTrue (D.honest disk.old) → OnOk result ((n : ℕ) → n < 64 * cylinders
        → entry_in (D.content disk.new) n ≡ Some (fresh_entry n)) }
    ensures cause { IsErr result → HasFailed D.Disk disk.old disk.new }
    ensures calls { MakesAtMost D.Disk cylinders cylinders disk.old disk.new }
{
    for cylinder in 0..cylinders {
        write_beside(disk, BlockNo(64 * cylinder), &fresh_map(cylinder).encode())?;
    }
    Ok(())
}

/// Returns the root of an index of empty slots.
fn root_block(word: u32) -> Block
    ensures { IsEmptyIndex result word }
{
    let root = Root {
        kind: Kind::Index,
        fill: 0,
        word,
        size: 8 * ROOT_SLOTS,
        nodes: [0; NODES],
    };
    root.encode()
}

/// Writes all but the label, and makes it survive a crash.
fn write_body<D: Disk>(disk: &mut D, cylinders: u32, word: u32) -> Result<(), Failed>
    requires size { D.blocks disk.old ≡ 64 * cylinders }
    requires some { 1 ≤ cylinders }
    requires most { cylinders ≤ 65536 }
    ensures stays { (start : D) → IsUnlabelled D.Disk start disk.old → IsUnlabelled D.Disk start disk.new }
    ensures body { IsTrue (D.honest disk.old) → OnOk result (HasBody (D.content disk.new) cylinders word) }
    ensures only { OnOk result (Only (D.content disk.new) (left_now D.Disk disk.new)) }
    ensures cause { IsErr result → HasFailed D.Disk disk.old disk.new }
    ensures calls { MakesAtMost D.Disk (cylinders + 2) (cylinders + 2) disk.old disk.new }
{
    write_maps(disk, cylinders)?;
    write_beside(disk, BlockNo(ROOT_BLOCK), &root_block(word))?;
    disk.barrier()
}

/// Writes the label, and makes it survive a crash.
fn write_label<D: Disk>(disk: &mut D, cylinders: u32, word: u32) -> Result<(), Failed>
    requires size { D.blocks disk.old ≡ 64 * cylinders }
    requires some { 1 ≤ cylinders }
    requires most { cylinders ≤ 65536 }
    ensures images { Only (D.content disk.old) (left_now D.Disk disk.old) → Leaves D.Disk disk.old disk.new
        (λ c. c ≡ set (D.content disk.old) 1 (label_block cylinders word)) }
    ensures written { OnOk result (D.content disk.new ≡ set (D.content disk.old) 1 (label_block cylinders word)) }
    ensures settled { IsTrue (D.honest disk.old) → OnOk result (IsSettled D.Disk disk.new) }
    ensures cause { IsErr result → HasFailed D.Disk disk.old disk.new }
    ensures calls { MakesAtMost D.Disk 2 2 disk.old disk.new }
{
    let label = Label {
        cylinders,
        root: Puid {
            block: ROOT_BLOCK,
            word,
        },
        version: NEWEST,
    };
    disk.write(BlockNo(LABEL), &label.encode())?;
    disk.barrier() // now there is a volume
}

/// Makes a fresh volume of a disk, with 64 blocks a cylinder.
///
/// Its root index has 64 empty slots, and the identifier of block 2 and this word. An old label is erased first, then
/// the maps and block 2 are written, and last the label, with a barrier after each of the three. No other block is
/// written. Takes no memory.
///
/// `Failed` if a device call failed: what the disk held may then be lost, with no volume made.
pub fn format_volume<D: Disk>(disk: &mut D, word: u32) -> Result<(), Failed>
    requires whole { D.blocks disk.old % 64 ≡ 0 }
    requires some { 1 ≤ D.blocks disk.old }
    requires most { D.blocks disk.old ≤ 64 * 65536 }
    ensures made { IsTrue (D.honest disk.old) → OnOk result (IsFormatted D.Disk disk.new word) }
    // A crash on the way leaves what it might have left before, or no volume, or the fresh one.
    ensures images { IsTrue (D.honest disk.old) → Leaves D.Disk disk.old disk.new (MayBeFresh word) }
    ensures cause { IsErr result → HasFailed D.Disk disk.old disk.new }
    ensures calls { MakesAtMost D.Disk (D.blocks disk.old / 64 + 6) (D.blocks disk.old / 64 + 6) disk.old disk.new }
{
    let cylinders = disk.blocks() / 64;
    erase(disk)?;
    write_body(disk, cylinders, word)?;
    write_label(disk, cylinders, word)
}
