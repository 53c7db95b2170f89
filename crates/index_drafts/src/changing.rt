//! Slots of the draft of an index, filled and emptied.
ghost use Rattle.std.specs.Prelude.{◌≡◌, ◌≢◌, ◌+◌, ◌*◌, ◌<◌, ◌≤◌, length, None, Some};
ghost use Rattle.index_drafts.specs.Puts.{PutsIn};
ghost use Rattle.leaf_changes.specs.Bytes.{IsSlot};

use crate::draft::IndexDraft;
use cfs_base::{Disk, Puid, Refused};
use cyl_alloc::Space;
use special_files::ObjectDraft;

/// Makes a slot of an index's draft hold `what`, or nothing.
///
/// `Full` exactly if fewer blocks are Free than it takes, plus the floor. It takes one for the slot's leaf if that
/// isn't fresh, and one for the leaf's node if that isn't. Nothing was done then. `Damaged` names a map block that is
/// no map, with code 2, or that has no Free block, with code 12, or a node or the root block with a pointer past the
/// disk, with code 4. Takes no memory.
pub fn put_in<D: Disk>(
    draft: &mut ObjectDraft,
    disk: &mut D,
    space: &mut Space,
    slot: u64,
    what: Option<Puid>,
    floor: u32,
) -> Result<(), Refused>
    requires on_disk { draft.old.at < D.blocks disk.old }
    requires size { D.blocks disk.old ≡ 64 * length space.old.free }
    requires within { 8 * slot + 8 ≤ draft.old.root.size }
    requires slot { IsSlot what }
    ensures { PutsIn D.Disk slot what floor disk.old disk.new space.old space.new draft.old draft.new result }
{
    space.has_room(draft.slot_takes(slot), floor)?;
    draft.fill(disk, space, slot, what)?;
    Ok(())
}

impl IndexDraft {
    /// Makes a slot hold `what`, or nothing.
    fn put<D: Disk>(
        &mut self,
        disk: &mut D,
        space: &mut Space,
        slot: u64,
        what: Option<Puid>,
        floor: u32,
    ) -> Result<(), Refused>
        requires on_disk { self.old.at < D.blocks disk.old }
        requires size { D.blocks disk.old ≡ 64 * length space.old.free }
        requires within { 8 * slot + 8 ≤ self.old.root.size }
        requires slot { IsSlot what }
        ensures { PutsIn D.Disk slot what floor disk.old disk.new space.old space.new self.old self.new result }
    {
        put_in(&mut self.draft, disk, space, slot, what, floor)
    }

    /// Puts an identifier of an object that the disk holds into a slot, whatever the slot held.
    ///
    /// `Full` exactly if fewer blocks are Free than it takes, plus the floor. It takes one for the slot's leaf if
    /// that isn't fresh, and one for the leaf's node if that isn't. Nothing was done then. `Damaged` names a map
    /// block that is no map, with code 2, or that has no Free block, with code 12, or a node or the root block with a
    /// pointer past the disk, with code 4. Takes no memory.
    pub fn retain<D: Disk>(
        &mut self,
        disk: &mut D,
        space: &mut Space,
        slot: u64,
        id: Puid,
        floor: u32,
    ) -> Result<(), Refused>
        requires on_disk { self.old.at < D.blocks disk.old }
        requires size { D.blocks disk.old ≡ 64 * length space.old.free }
        requires within { 8 * slot + 8 ≤ self.old.root.size }
        requires id { id.block ≢ 0 }
        ensures { PutsIn D.Disk slot (Some id) floor disk.old disk.new space.old space.new self.old self.new result }
    {
        self.put(disk, space, slot, Some(id), floor)
    }

    /// Empties a slot. If the slot is empty nothing is done.
    ///
    /// `Full` and `Damaged` as in `retain`. Takes no memory.
    pub fn delete<D: Disk>(
        &mut self,
        disk: &mut D,
        space: &mut Space,
        slot: u64,
        floor: u32,
    ) -> Result<(), Refused>
        requires on_disk { self.old.at < D.blocks disk.old }
        requires size { D.blocks disk.old ≡ 64 * length space.old.free }
        requires within { 8 * slot + 8 ≤ self.old.root.size }
        ensures { PutsIn D.Disk slot None floor disk.old disk.new space.old space.new self.old self.new result }
    {
        self.put(disk, space, slot, None, floor)
    }
}
