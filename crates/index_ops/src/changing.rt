//! Slots of an index, filled and emptied.
ghost use Rattle.std.specs.Prelude.{◌≡◌, ◌≢◌, ◌+◌, ◌*◌, ◌<◌, ◌≤◌, false, length, sum, None, Some, Err, IfErr, OnOk};
ghost use Rattle.block_tree.specs.Root.{IsRootBlock};
ghost use Rattle.cfs_base.specs.Calls.{MakesAtMost, OnlyReads};
ghost use Rattle.cfs_base.specs.Disk.{block_at};
ghost use Rattle.cfs_base.specs.declared.refusal.Refused.TheVariants as refused;
ghost use Rattle.index_ops.specs.Changes as spec;
ghost use Rattle.leaf_changes.specs.Bytes.{IsSlot};
ghost use Rattle.leaf_changes.specs.Tops.{root_top};
ghost use Rattle.special_files.specs.Committing.{IsAtBit};
ghost use Rattle.special_files.specs.Drafting.{begun_at};

use cfs_base::{Disk, Puid, Refused};
use cyl_alloc::Space;
use intentions::barrier;
use special_files::ObjectDraft;

/// Makes a slot of an index hold `what`, or nothing. The index's draft was just begun.
fn put<D: Disk>(
    mut draft: ObjectDraft,
    disk: &mut D,
    space: &mut Space,
    slot: u64,
    what: Option<Puid>,
) -> Result<(), Refused>
    requires begun { draft ≡ begun_at draft.at None draft.own }
    requires on_disk { draft.at < D.blocks disk.old }
    requires size { D.blocks disk.old ≡ 64 * length space.old.free }
    requires left { space.old.left ≡ None }
    requires within { 8 * slot + 8 ≤ draft.own.size }
    requires slot { IsSlot what }
    requires room { 3 ≤ sum space.old.free }
    ensures fills { (h : spec.HasSlot D.Disk disk.old space.old draft.at slot)
        → IsRootBlock (block_at (D.content disk.old) draft.at) draft.own
        → spec.FillsIndex h what disk.new space.new result }
    ensures refused { IfErr result (spec.IsIndexRefusal D.Disk (root_top draft.at draft.own) disk.old disk.new
        space.new) }
    ensures untried { IfErr result (λ e. e ≡ refused.Disk false
        → (space.new ≡ space.old) × OnlyReads D.Disk 8 disk.old disk.new) }
    ensures cylinders { length space.new.free ≡ length space.old.free }
    ensures left { OnOk result (spec.LeavesCommit draft.at what space.new.left) }
    ensures still { space.new.left ≡ None → OnOk result (D.content disk.new ≡ D.content disk.old) }
    ensures bit { OnOk result (IsAtBit D.Disk disk.old disk.new space.new.left) }
    ensures calls { MakesAtMost D.Disk 19 11 disk.old disk.new }
{
    let Some(swap) = draft.fill(disk, space, slot, what)? else {
        return settle(disk);
    };
    draft
        .commit_swap(disk, space, swap)
        .map_err(|trouble| Refused::from(trouble.after_try()))
}

/// Makes durable what was written.
fn settle<D: Disk>(disk: &mut D) -> Result<(), Refused>
    ensures { spec.SettlesDisk D.Disk disk.old disk.new result }
{
    barrier(disk)?;
    Ok(())
}

/// Puts an identifier into a slot of the index whose draft was just begun, whatever the slot held, as one commit.
///
/// The disk holds the object of this identifier. `Full` if fewer than 3 blocks are Free beside the 4 that are left
/// for deletes. No device call was made then. `Damaged` names the root block, a node or a map that was read and is
/// invalid, or has a pointer past the disk.
pub fn retain<D: Disk>(
    draft: ObjectDraft,
    disk: &mut D,
    space: &mut Space,
    slot: u64,
    id: Puid,
) -> Result<(), Refused>
    requires begun { draft ≡ begun_at draft.at None draft.own }
    requires on_disk { draft.at < D.blocks disk.old }
    requires size { D.blocks disk.old ≡ 64 * length space.old.free }
    // No commit is unfinished.
    requires left { space.old.left ≡ None }
    requires within { 8 * slot + 8 ≤ draft.own.size }
    requires id { id.block ≢ 0 }
    // It is full exactly if 3 and 4 blocks aren't Free. Nothing was done then.
    ensures full { sum space.old.free < 3 + 4
        → (result ≡ Err (refused.Full (record { free = sum space.old.free; need = 3 })))
        × (disk.new ≡ disk.old) × (space.new ≡ space.old) }
    ensures fills { 3 + 4 ≤ sum space.old.free
        → spec.PutsSlot D.Disk draft slot (Some id) disk.old disk.new space.old space.new result }
{
    space.has_room(3, 4)?;
    put(draft, disk, space, slot, Some(id))
}

/// Empties a slot of the index whose draft was just begun, as one commit.
///
/// It takes 3 blocks, of those that are left for it, and is never `Full`. `Damaged` as in `retain`.
pub fn delete<D: Disk>(
    draft: ObjectDraft,
    disk: &mut D,
    space: &mut Space,
    slot: u64,
) -> Result<(), Refused>
    requires begun { draft ≡ begun_at draft.at None draft.own }
    requires on_disk { draft.at < D.blocks disk.old }
    requires size { D.blocks disk.old ≡ 64 * length space.old.free }
    // No commit is unfinished.
    requires left { space.old.left ≡ None }
    requires within { 8 * slot + 8 ≤ draft.own.size }
    requires room { 3 ≤ sum space.old.free }
    ensures { spec.PutsSlot D.Disk draft slot None disk.old disk.new space.old space.new result }
{
    put(draft, disk, space, slot, None)
}
