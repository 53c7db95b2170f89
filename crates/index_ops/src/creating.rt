//! An object made, and its identifier put into a slot of an index.
ghost use Rattle.std.specs.Prelude.{◌≡◌, ◌≢◌, ◌⊎◌, ◌+◌, ◌*◌, ◌<◌, ◌≤◌, false, length, sum, None, Err, IfErr, IfOk};
ghost use Rattle.std.specs.Prelude.{OnOk};
ghost use Rattle.block_tree.specs.Root.{IsRootBlock};
ghost use Rattle.cfs_base.specs.Calls.{MakesAtMost, OnlyReads};
ghost use Rattle.cfs_base.specs.Disk.{block_at};
ghost use Rattle.cfs_base.specs.declared.refusal.Refused.TheVariants as refusals;
ghost use Rattle.cyl_alloc.specs.Left.{LeftCommit};
ghost use Rattle.cyl_alloc.specs.Space.{IsLeastFree};
ghost use Rattle.index_ops.specs.Changes.{HasSlot, IsIndexRefusal};
ghost use Rattle.index_ops.specs.Creates as spec;
ghost use Rattle.leaf_changes.specs.Tops.{root_top};
ghost use Rattle.special_files.specs.Committing.{IsAtBit, IsNoted, puid_at};
ghost use Rattle.special_files.specs.Creates.{IsBare, IsOpenMap};
ghost use Rattle.special_files.specs.Drafting.{begun_at};
ghost use Rattle.special_files.specs.Refusal.{IsDraftRefusal, is_full_refusal, top_of};
ghost use Rattle.vol_owners.specs.Account.{without_draft};
ghost use Rattle.special_files.specs.View.{DraftView};
ghost use Rattle.ufs_model.specs.declared.object.Index.{Index};
ghost use Rattle.ufs_model.specs.declared.object.Object.TheVariants as objects;
ghost use Rattle.vol_image.specs.Reading.{bare_object};

use block_tree::Root;
use cfs_base::{BlockNo, Disk, Puid, Refused};
use cyl_alloc::Space;
use special_files::{ObjectDraft, least};

/// Makes the object with this root at a Free block, fills the slot with its identifier, and commits both.
fn make_at<D: Disk>(
    mut draft: ObjectDraft,
    disk: &mut D,
    space: &mut Space,
    slot: u64,
    block: BlockNo,
    root: &Root,
) -> Result<Puid, Refused>
    requires some { block.0 ≢ 0 }
    requires at { draft.at < D.blocks disk.old }
    requires on_disk { block.0 < D.blocks disk.old }
    requires size { D.blocks disk.old ≡ 64 * length space.old.free }
    requires left { space.old.left ≡ None }
    requires room { 4 ≤ sum space.old.free }
    requires within { 8 * slot + 8 ≤ draft.root.size }
    requires begun { draft ≡ begun_at draft.at None draft.own }
    ensures makes { (v : DraftView D.Disk disk.old space.old draft) (i : Index) → v.draft.object ≡ objects.Index i
        → IsLeastFree (D.content disk.old) block.0 → IsBare root.now
        → spec.MakeEnds D.Disk v.graph (without_draft v.id v.ds) v.id i slot (puid_at block.0 root.now.word)
        (bare_object root.now) disk.old disk.new space.new result }
    ensures value { IfOk result (λ p. p ≡ puid_at block.0 root.now.word) }
    ensures refused { IfErr result (λ e. IsDraftRefusal D.Disk (top_of draft) 0 disk.old disk.new space.new e
        × (is_full_refusal e ≡ false)) }
    ensures untried { IfErr result (λ e. e ≡ refusals.Disk false → (space.new ≡ space.old)
        × OnlyReads D.Disk 3 disk.old disk.new) }
    ensures cylinders { length space.new.free ≡ length space.old.free }
    ensures left { OnOk result ((l : LeftCommit) × IsNoted draft.at space.new.left l) }
    ensures bit { OnOk result (IsAtBit D.Disk disk.old disk.new space.new.left) }
    ensures calls { MakesAtMost D.Disk 22 13 disk.old disk.new }
{
    let swap = draft.create(disk, space, slot, block, root)?;
    draft
        .commit_swap(disk, space, swap)
        .map_err(|trouble| Refused::from(trouble.after_try()))?;
    Ok(Puid {
        block: block.0,
        word: root.word,
    })
}

/// Makes an object with this root, and puts its identifier into a slot of the index whose draft was just begun.
fn make<D: Disk>(
    draft: ObjectDraft,
    disk: &mut D,
    space: &mut Space,
    slot: u64,
    root: &Root,
) -> Result<Puid, Refused>
    requires begun { draft ≡ begun_at draft.at None draft.own }
    requires on_disk { draft.at < D.blocks disk.old }
    requires size { D.blocks disk.old ≡ 64 * length space.old.free }
    requires left { space.old.left ≡ None }
    requires within { 8 * slot + 8 ≤ draft.own.size }
    requires room { 4 ≤ sum space.old.free }
    requires root { IsBare root.now }
    ensures places { (h : HasSlot D.Disk disk.old space.old draft.at slot)
        → IsRootBlock (block_at (D.content disk.old) draft.at) draft.own
        → spec.PlacesIn h (bare_object root.now) root.now.word disk.new space.new result }
    ensures refused { IfErr result (λ e.
        IsIndexRefusal D.Disk (root_top draft.at draft.own) disk.old disk.new space.new e
        ⊎ IsOpenMap D.Disk disk.old space.old e) }
    ensures untried { IfErr result (λ e. e ≡ refusals.Disk false → (space.new ≡ space.old)
        × OnlyReads D.Disk 8 disk.old disk.new) }
    ensures cylinders { length space.new.free ≡ length space.old.free }
    ensures left { OnOk result ((l : LeftCommit) × IsNoted draft.at space.new.left l) }
    ensures bit { OnOk result (IsAtBit D.Disk disk.old disk.new space.new.left) }
    ensures calls { MakesAtMost D.Disk 23 13 disk.old disk.new }
{
    let block = least(disk, space)?;
    make_at(draft, disk, space, slot, block, root)
}

/// Makes the object with this root, and puts its identifier into a slot of an index, as one commit.
///
/// The root is a `bare_root`, and the index's draft was just begun. The slot may hold anything. The object's root
/// block is the least-numbered Free block. `Full` if fewer than 4 blocks are Free beside the 4 that are left for
/// deletes. No device call was made then. `Damaged` as in `retain`, and it names block 0, with code 2, if that map
/// says that its own block is Free.
pub fn create<D: Disk>(
    draft: ObjectDraft,
    disk: &mut D,
    space: &mut Space,
    slot: u64,
    root: &Root,
) -> Result<Puid, Refused>
    requires begun { draft ≡ begun_at draft.at None draft.own }
    requires on_disk { draft.at < D.blocks disk.old }
    requires size { D.blocks disk.old ≡ 64 * length space.old.free }
    // No commit is unfinished.
    requires left { space.old.left ≡ None }
    requires within { 8 * slot + 8 ≤ draft.own.size }
    requires root { IsBare root.now }
    // It is full exactly if 4 and 4 blocks aren't Free. Nothing was done then.
    ensures full { sum space.old.free < 4 + 4
        → (result ≡ Err (refusals.Full (record { free = sum space.old.free; need = 4 })))
        × (disk.new ≡ disk.old) × (space.new ≡ space.old) }
    ensures makes { 4 + 4 ≤ sum space.old.free
        → spec.PutsObject D.Disk draft slot (bare_object root.now) root.now.word disk.old disk.new space.old space.new
        result }
{
    space.has_room(4, 4)?;
    make(draft, disk, space, slot, root)
}
