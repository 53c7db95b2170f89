//! Intentions with single blocks.
ghost use Rattle.std.specs.Prelude.{◌<◌};
ghost use Rattle.cyl_map.specs.Entry.{IsEntry};
ghost use Rattle.cyl_alloc.specs.Space.{intended};
ghost use Rattle.intentions.specs.Calls as spec;
ghost use Rattle.intentions.specs.Entries as entries;

use crate::change::EntryChange;
use crate::entry::change_entry;
use cfs_base::{BlockNo, Disk, Place, Trouble};
use cyl_alloc::KnownMaps;

/// Claims a Free block for an owner's place: its entry becomes IntendAllocate.
///
/// `Damaged` names its map block, with code 2, if it is no map.
pub fn intend_claim<D: Disk>(
    disk: &mut D,
    block: BlockNo,
    place: Place,
    owner: u32,
) -> Result<(), Trouble>
    requires on_disk { block.0 < D.blocks disk.old }
    requires entry { IsEntry (intended place owner) }
    ensures { spec.ChangesEntry D.Disk block.0 (λ e. intended place owner) disk.old disk.new result }
{
    change_entry(
        disk,
        &mut KnownMaps::new(),
        block,
        EntryChange::Claim { place, owner },
    )?;
    Ok(())
}

/// Marks a node or leaf as to be given up: its entry becomes IntendDeallocate.
///
/// `Damaged` as in `intend_claim`.
pub fn intend_release<D: Disk>(disk: &mut D, block: BlockNo) -> Result<(), Trouble>
    requires { block.0 < D.blocks disk.old }
    ensures { spec.ChangesEntry D.Disk block.0 (λ e. entries.released e) disk.old disk.new result }
{
    change_entry(disk, &mut KnownMaps::new(), block, EntryChange::Release)?;
    Ok(())
}

/// Carries out the intention with a block: it becomes Allocated, or Free.
///
/// Any other entry stays. `Damaged` as in `intend_claim`.
pub fn finish<D: Disk>(disk: &mut D, block: BlockNo) -> Result<(), Trouble>
    requires { block.0 < D.blocks disk.old }
    ensures { spec.ChangesEntry D.Disk block.0 (λ e. entries.finished e) disk.old disk.new result }
{
    change_entry(disk, &mut KnownMaps::new(), block, EntryChange::Finish)?;
    Ok(())
}

/// Takes back the intention with a block: it becomes Free, or Allocated.
///
/// Any other entry stays. `Damaged` as in `intend_claim`.
pub fn undo<D: Disk>(disk: &mut D, block: BlockNo) -> Result<(), Trouble>
    requires { block.0 < D.blocks disk.old }
    ensures { spec.ChangesEntry D.Disk block.0 (λ e. entries.undone e) disk.old disk.new result }
{
    change_entry(disk, &mut KnownMaps::new(), block, EntryChange::Undo)?;
    Ok(())
}
