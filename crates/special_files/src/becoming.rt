//! A draft becomes its object.
ghost use Rattle.std.specs.Prelude.{◌≡◌, ◌≢◌, ◌<◌, ◌≤◌, ◌*◌, ◌++◌, ◌+◌, ℕ, false, length, sum, Option, None, Some};
ghost use Rattle.std.specs.Prelude.{IfErr, OnOk};
ghost use Rattle.cfs_base.specs.Calls.{OnlyReads};
ghost use Rattle.cfs_base.specs.declared.refusal.Trouble.TheVariants as troubles;
ghost use Rattle.special_files.specs.Changed.{unlike};
ghost use Rattle.special_files.specs.Committing as spec;
ghost use Rattle.special_files.specs.Drafting.{Drafting, number_if};
ghost use Rattle.special_files.specs.Fills.{IsNearSwap, IsSwapped};
ghost use Rattle.special_files.specs.Limits.{changed_reads, commit_calls, commit_tries};
ghost use Rattle.special_files.specs.View.{DraftView};

use crate::blocks::Blocks;
use crate::changed::add_unlike;
use crate::commit::commit_begun;
use crate::direct::{commit_direct, commit_listed};
use crate::draft::ObjectDraft;
use crate::fill::Swap;
use block_tree::{LEAVES, Root};
use cfs_base::{BlockNo, Damage, Disk, Trouble, code};
use cyl_alloc::Space;

/// Checks that a block of the draft's own is on the disk.
///
/// `Damaged` names the object's root block, with code 4, if it isn't.
fn is_on_disk<D: Disk>(disk: &D, at: BlockNo, block: BlockNo) -> Result<(), Trouble>
    ensures on_disk { OnOk result (block.0 < D.blocks disk.now) }
    ensures far { IfErr result (λ t. (D.blocks disk.now ≤ block.0) × (t ≡ spec.far_root at.0)) }
{
    if block.0 < disk.blocks() {
        return Ok(());
    }
    Err(Trouble::Damaged(Damage {
        block: at.0,
        code: code::PAST_DISK,
    }))
}

/// Checks that a block of the draft's own, if there is one, is on the disk.
pub(crate) fn part_on_disk<D: Disk>(
    disk: &D,
    at: BlockNo,
    block: Option<BlockNo>,
) -> Result<(), Trouble>
    ensures on_disk { OnOk result ((n : ℕ) → number_if block ≡ Some n → n < D.blocks disk.now) }
    ensures far { IfErr result (λ t. spec.IsFar (D.blocks disk.now) (number_if block) × (t ≡ spec.far_root at.0)) }
{
    match block {
        Some(block) => is_on_disk(disk, at, block),
        None => Ok(()),
    }
}

/// Commits a draft with these parts.
fn commit_parts<D: Disk>(
    disk: &mut D,
    space: &mut Space,
    at: BlockNo,
    shadow: Option<BlockNo>,
    own: &Root,
    root: &Root,
    taken: Blocks,
    dropped: &mut Blocks,
    created: Option<BlockNo>,
) -> Result<(), Trouble>
    requires some { at.0 ≢ 0 }
    requires on_disk { at.0 < D.blocks disk.old }
    requires size { D.blocks disk.old ≡ 64 * length space.old.free }
    requires room { number_if shadow ≡ None → 1 ≤ sum space.old.free }
    requires left { space.old.left ≡ None }
    ensures commits { (was : Drafting) (v : DraftView D.Disk disk.old space.old was) (made : Option spec.Making)
        → spec.AreDraftParts was at.0 (number_if shadow) own.now root.now (number_if created)
        → spec.Makes (D.content disk.old) (number_if created) made
        → spec.CommitEnds D.Disk v.graph v.ds v.id v.draft.object made disk.old disk.new space.new result }
    ensures ends { spec.CommitsSo D.Disk (spec.parts_top at.0 (number_if shadow) own.now root.now (number_if created))
        commit_calls commit_tries disk.old disk.new space.old space.new result }
    ensures tried { number_if shadow ≢ None → IfErr result (λ t. t ≢ troubles.Disk false) }
    ensures untried { IfErr result (λ t. t ≡ troubles.Disk false
        → (space.new ≡ space.old) × OnlyReads D.Disk (1 + changed_reads) disk.old disk.new) }
{
    match part_on_disk(disk, at, created) {
        Ok(()) => {}
        Err(trouble) => return Err(trouble),
    }
    let Some(block) = shadow else {
        return commit_direct(disk, space, at, own, root, taken, dropped, created);
    };
    match is_on_disk(disk, at, block) {
        Ok(()) => commit_begun(disk, space, at, block, own, root, taken, dropped, created),
        Err(trouble) => Err(trouble),
    }
}

/// Lists a node and a leaf, each unless it is 0 or the same as the other at its place.
fn list_two(list: &mut Blocks, node: u32, other_node: u32, leaf: u32, other_leaf: u32)
    ensures { list.new ≡ unlike node other_node ++ unlike leaf other_leaf }
{
    list.clear();
    add_unlike(list, node, other_node);
    add_unlike(list, leaf, other_leaf);
}

impl ObjectDraft {
    /// Makes the draft its object.
    ///
    /// A draft without a shadow root takes one Free block for it. When it is done, all is durable, and the object's
    /// blocks are exactly those of the draft. The root of an object that is made with it is Allocated. If it is
    /// refused the draft is gone, and each image that a crash leaves has the old object, or the new one and what is
    /// made with it.
    ///
    /// `Damaged` names a map block that is no map, with code 2, or that has no Free block, with code 12, or a node or
    /// the root block with a pointer past the disk, with code 4.
    pub fn commit<D: Disk>(mut self, disk: &mut D, space: &mut Space) -> Result<(), Trouble>
        requires on_disk { self.at < D.blocks disk.old }
        requires size { D.blocks disk.old ≡ 64 * length space.old.free }
        requires room { self.shadow ≡ None → 1 ≤ sum space.old.free }
        // No commit is kept.
        requires left { space.old.left ≡ None }
        // The store has the object, and the one that is made with it, and no write waits for a barrier.
        ensures commits { (v : DraftView D.Disk disk.old space.old self) (made : Option spec.Making)
            → spec.Makes (D.content disk.old) self.created made
            → spec.CommitEnds D.Disk v.graph v.ds v.id v.draft.object made disk.old disk.new space.new result }
        ensures call { spec.CommitCall D.Disk self disk.old disk.new space.old space.new result }
    {
        let taken = self.taken;
        commit_parts(
            disk,
            space,
            self.at,
            self.shadow,
            &self.own,
            &self.root,
            taken,
            &mut self.dropped,
            self.created,
        )
    }

    /// Makes the draft its object, as `commit` does.
    ///
    /// The draft has no shadow root, and equalled its object until one slot was filled, by `swap`. No node is read.
    pub fn commit_swap<D: Disk>(
        mut self,
        disk: &mut D,
        space: &mut Space,
        swap: Swap,
    ) -> Result<(), Trouble>
        requires on_disk { self.at < D.blocks disk.old }
        requires size { D.blocks disk.old ≡ 64 * length space.old.free }
        requires room { 1 ≤ sum space.old.free }
        requires left { space.old.left ≡ None }
        requires direct { self.shadow ≡ None }
        requires near { IsNearSwap (D.blocks disk.old) self swap }
        ensures commits { (v : DraftView D.Disk disk.old space.old self) (made : Option spec.Making)
            → spec.Makes (D.content disk.old) self.created made
            → IsSwapped (D.content disk.old) v.id self v.draft swap
            → spec.CommitEnds D.Disk v.graph v.ds v.id v.draft.object made disk.old disk.new space.new result }
        ensures call { spec.SwapCall D.Disk self disk.old disk.new space.old space.new result }
    {
        let mut taken = self.taken;
        match part_on_disk(disk, self.at, self.created) {
            Ok(()) => {}
            Err(trouble) => return Err(trouble),
        }
        let number = swap.leaf as usize / LEAVES;
        let own = self.own.nodes[number];
        let node = self.root.nodes[number];
        list_two(&mut taken, node, own, swap.is, swap.was);
        list_two(&mut self.dropped, own, node, swap.was, swap.is);
        commit_listed(
            disk,
            space,
            self.at,
            &self.root,
            taken,
            self.dropped.as_slice(),
            self.created,
        )
    }
}
