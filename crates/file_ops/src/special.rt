//! A special file, changed beside itself as one commit.
ghost use Rattle.std.specs.Prelude.{◌≡◌, ◌≢◌, ◌+◌, ◌*◌, ◌<◌, ◌≤◌, if◌then◌else◌, length, false, None, IfErr, IfOk};
ghost use Rattle.block_tree.specs.Pointers.{size_limit};
ghost use Rattle.block_tree.specs.Root.{IsRootBlock};
ghost use Rattle.cfs_base.specs.Calls.{OnlyReads};
ghost use Rattle.cfs_base.specs.Disk.{block_at};
ghost use Rattle.cfs_base.specs.Refusals.{had_tried, refused_by, trouble_after_try};
ghost use Rattle.cfs_base.specs.Run.{Tells};
ghost use Rattle.cfs_base.specs.declared.kind.FileKind.TheVariants as kinds;
ghost use Rattle.cfs_base.specs.declared.refusal.Refused.TheVariants as refused;
ghost use Rattle.cyl_alloc.specs.Space.{Kept};
ghost use Rattle.file_ops.specs.Changes as spec;
ghost use Rattle.leaf_changes.specs.Tops.{still_top};
ghost use Rattle.special_files.specs.Begins.{BeginsDirect};
ghost use Rattle.special_files.specs.Drafting.{begun_at};
ghost use Rattle.special_files.specs.Refusal.{IsDraftRefusal, is_full_refusal};
ghost use Rattle.special_files.specs.View.{DraftView, GoesTo, ObjectView};
ghost use Rattle.ufs_model.specs.declared.change.Change.TheVariants.{Overwrite, SetSize};

use block_tree::read_root;
use cfs_base::{BlockNo, Damage, Disk, Refused, Trouble, code};
use cyl_alloc::Space;
use special_files::{ObjectDraft, Room};

/// Returns the refusal of a call that may have tried a write before.
fn since(wrote: bool, trouble: Trouble) -> Refused
    ensures { result ≡ refused_by (if wrote then trouble_after_try trouble else trouble) }
{
    if wrote {
        return Refused::from(trouble.after_try());
    }
    Refused::from(trouble)
}

/// Begins the draft of the object at a block, without a shadow root.
///
/// Nothing is written. `Damaged` names the root block, with code 3, if it is no root block. Never `Full` or `Memory`.
fn begin<D: Disk>(room: Room, disk: &mut D, at: BlockNo) -> Result<ObjectDraft, Refused>
    requires some { at.0 ≢ 0 }
    requires on_disk { at.0 < D.blocks disk.old }
    ensures begins { (kept : Kept) (v : ObjectView D.Disk disk.old kept at.0)
        → GoesTo D.Disk v.graph (BeginsDirect v disk.new kept) disk.old disk.new result }
    ensures begun { IfOk result (λ draft. draft ≡ begun_at at.0 None draft.own) }
    ensures root { Tells D.Disk disk.old → IfOk result (λ draft.
        IsRootBlock (block_at (D.content disk.old) at.0) draft.own) }
    ensures refused { (kept : Kept)
        → IfErr result (IsDraftRefusal D.Disk (still_top at.0) 0 disk.old disk.new kept) }
    ensures spare { IfErr result (λ e. is_full_refusal e ≡ false) }
    ensures untried { IfErr result (λ e. had_tried e ≡ false) }
    ensures reads { OnlyReads D.Disk 1 disk.old disk.new }
{
    let root = read_root(disk, at)?;
    Ok(ObjectDraft::direct(room, at, &root))
}

/// Makes a draft its object.
///
/// If the draft wrote something before, each failure is one after a try.
fn commit<D: Disk>(
    draft: ObjectDraft,
    disk: &mut D,
    space: &mut Space,
    wrote: bool,
) -> Result<(), Refused>
    requires on_disk { draft.at < D.blocks disk.old }
    requires size { D.blocks disk.old ≡ 64 * length space.old.free }
    requires left { space.old.left ≡ None }
    ensures commits { (v : DraftView D.Disk disk.old space.old draft) → draft.created ≡ None
        → spec.CommitsBeside v disk.new space.new result }
    ensures call { spec.BesideCall D.Disk draft wrote disk.old disk.new space.old space.new result }
{
    if space.free() == 0 {
        return Err(Refused::Damaged(Damage {
            block: 0,
            code: code::TOO_FULL,
        }));
    }
    match draft.commit(disk, space) {
        Ok(()) => Ok(()),
        Err(trouble) => Err(since(wrote, trouble)),
    }
}

/// Writes bytes into a special file, as `write` does.
pub(crate) fn write_beside<D: Disk>(
    room: Room,
    disk: &mut D,
    space: &mut Space,
    at: BlockNo,
    offset: u64,
    bytes: &[u8],
    floor: u32,
) -> Result<(), Refused>
    requires some { at.0 ≢ 0 }
    requires on_disk { at.0 < D.blocks disk.old }
    requires size { D.blocks disk.old ≡ 64 * length space.old.free }
    requires left { space.old.left ≡ None }
    requires least { 1 ≤ length bytes.now }
    requires most { length bytes.now ≤ 4096 }
    requires inside { offset + length bytes.now ≤ size_limit }
    ensures changes { spec.ChangesFile D.Disk at.0 kinds.Special floor (Overwrite offset bytes.now) disk.old disk.new
        space.old space.new result }
    ensures memory { IfErr result (λ e. e ≢ refused.Memory) }
{
    let mut draft = match begin(room, disk, at) {
        Ok(draft) => draft,
        Err(error) => return Err(error),
    };
    if draft.size() < offset + bytes.len() as u64 {
        return Err(Refused::Damaged(Damage {
            block: at.0,
            code: code::NO_ROOT,
        }));
    }
    match draft.write(disk, space, offset, bytes, floor) {
        Ok(()) => commit(draft, disk, space, true),
        Err(error) => Err(error),
    }
}

/// Sets the size of a special file, as `resize` does.
pub(crate) fn resize_beside<D: Disk>(
    room: Room,
    disk: &mut D,
    space: &mut Space,
    at: BlockNo,
    size: u64,
    floor: u32,
) -> Result<(), Refused>
    requires some { at.0 ≢ 0 }
    requires on_disk { at.0 < D.blocks disk.old }
    requires size { D.blocks disk.old ≡ 64 * length space.old.free }
    requires left { space.old.left ≡ None }
    requires limit { size ≤ size_limit }
    ensures changes { spec.ChangesFile D.Disk at.0 kinds.Special floor (SetSize size) disk.old disk.new space.old
        space.new result }
    ensures memory { IfErr result (λ e. e ≢ refused.Memory) }
{
    let mut draft = match begin(room, disk, at) {
        Ok(draft) => draft,
        Err(error) => return Err(error),
    };
    match draft.resize(disk, space, size, floor) {
        Ok(()) => {
            let wrote = draft.has_fresh_nodes();
            commit(draft, disk, space, wrote)
        }
        Err(error) => Err(error),
    }
}
