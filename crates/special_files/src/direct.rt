//! How a draft is committed that has no shadow root yet.
ghost use Rattle.std.specs.Prelude.{◌≡◌, ◌≢◌, ◌<◌, ◌≤◌, ◌+◌, ◌*◌, ℕ, false, length, sum, Option, None, Some};
ghost use Rattle.std.specs.Prelude.{IfErr};
ghost use Rattle.std.specs.List.{All};
ghost use Rattle.cfs_base.specs.Calls.{OnlyReads};
ghost use Rattle.cfs_base.specs.Refusals.{refused_by};
ghost use Rattle.cfs_base.specs.declared.kind.Place.TheVariants.{ShadowRoot};
ghost use Rattle.cfs_base.specs.declared.refusal.Refused.TheVariants as refused;
ghost use Rattle.cfs_base.specs.declared.refusal.Trouble.TheVariants as troubles;
ghost use Rattle.cyl_alloc.specs.Enters.{Enters};
ghost use Rattle.cyl_alloc.specs.Space.{intended};
ghost use Rattle.special_files.specs.Changed.{IsChanged};
ghost use Rattle.special_files.specs.Committing as spec;
ghost use Rattle.special_files.specs.Drafting.{Drafting, number_if, opened_as};
ghost use Rattle.leaf_changes.specs.Tops.{still_top};
ghost use Rattle.special_files.specs.Limits.{blocks_limit, changed_reads, commit_calls, commit_tries};
ghost use Rattle.special_files.specs.Refusal.{is_full_refusal, roots_top};
ghost use Rattle.special_files.specs.View.{DraftView};

use crate::blocks::Blocks;
use crate::changed::changed;
use crate::commit::finish;
use crate::leaf::write_own;
use block_tree::Root;
use cfs_base::{BlockNo, Disk, Place, Refused, Trouble};
use cyl_alloc::Space;

/// Returns the refusal of a call that takes no block and no memory as a trouble.
fn trouble_of(error: Refused) -> Trouble
    requires room { is_full_refusal error ≡ false }
    requires memory { error ≢ refused.Memory }
    ensures { refused_by result ≡ error }
{
    match error {
        Refused::Disk { tried } => Trouble::Disk { tried },
        Refused::Damaged(damage) => Trouble::Damaged(damage),
        Refused::Full(_) => unreachable!(),
        Refused::Memory => unreachable!(),
    }
}

/// Claims a shadow root, if a block is Free.
fn claim_shadow<D: Disk>(disk: &mut D, space: &mut Space, at: BlockNo) -> Result<BlockNo, Trouble>
    requires some { at.0 ≢ 0 }
    requires size { D.blocks disk.old ≡ 64 * length space.old.free }
    requires room { 1 ≤ sum space.old.free }
    ensures enters { Enters D.Disk (intended ShadowRoot at.0) disk.old disk.new space.old space.new
        (spec.as_refused result) }
{
    space
        .intend(disk, Place::ShadowRoot, at.0)
        .map_err(trouble_of)
}

/// Commits a draft with these parts, which takes and drops these blocks.
///
/// Its shadow root is claimed and written.
pub(crate) fn commit_listed<D: Disk>(
    disk: &mut D,
    space: &mut Space,
    at: BlockNo,
    root: &Root,
    taken: Blocks,
    dropped: &[u32],
    created: Option<BlockNo>,
) -> Result<(), Trouble>
    requires some { at.0 ≢ 0 }
    requires on_disk { at.0 < D.blocks disk.old }
    requires size { D.blocks disk.old ≡ 64 * length space.old.free }
    requires room { 1 ≤ sum space.old.free }
    requires taken_on_disk { All (λ n. n < D.blocks disk.old) taken }
    requires dropped_on_disk { All (λ n. n < D.blocks disk.old) dropped.now }
    requires created_on_disk { (n : ℕ) → number_if created ≡ Some n → n < D.blocks disk.old }
    requires left { space.old.left ≡ None }
    requires few { length taken + length dropped.now ≤ 2 * blocks_limit }
    ensures commits { (was : Drafting) (v : DraftView D.Disk disk.old space.old was) (made : Option spec.Making)
        → spec.AreDraftParts was at.0 None was.own root.now (number_if created)
        → spec.Makes (D.content disk.old) (number_if created) made
        → IsChanged (D.content disk.old) v.id (opened_as was v.draft) taken dropped.now
        → spec.CommitEnds D.Disk v.graph v.ds v.id v.draft.object made disk.old disk.new space.new result }
    ensures ends { spec.CommitsSo D.Disk (still_top at.0) (2 * length dropped.now + 7) (length dropped.now + 5) disk.old
        disk.new space.old space.new result }
    ensures untried { IfErr result (λ t. t ≡ troubles.Disk false
        → (space.new ≡ space.old) × OnlyReads D.Disk 1 disk.old disk.new) }
{
    let shadow = match claim_shadow(disk, space, at) {
        Ok(block) => block,
        Err(trouble) => return Err(trouble),
    };
    let content = root.encode();
    match write_own(disk, shadow, &content) {
        Ok(()) => {}
        Err(_) => return Err(Trouble::Disk { tried: true }),
    }
    finish(disk, space, at, shadow, taken, dropped, created)
}

/// Commits a draft with these parts, which has no shadow root.
pub(crate) fn commit_direct<D: Disk>(
    disk: &mut D,
    space: &mut Space,
    at: BlockNo,
    own: &Root,
    root: &Root,
    mut taken: Blocks,
    dropped: &mut Blocks,
    created: Option<BlockNo>,
) -> Result<(), Trouble>
    requires some { at.0 ≢ 0 }
    requires on_disk { at.0 < D.blocks disk.old }
    requires size { D.blocks disk.old ≡ 64 * length space.old.free }
    requires room { 1 ≤ sum space.old.free }
    requires created_on_disk { (n : ℕ) → number_if created ≡ Some n → n < D.blocks disk.old }
    requires left { space.old.left ≡ None }
    ensures commits { (was : Drafting) (v : DraftView D.Disk disk.old space.old was) (made : Option spec.Making)
        → spec.AreDraftParts was at.0 None own.now root.now (number_if created)
        → spec.Makes (D.content disk.old) (number_if created) made
        → spec.CommitEnds D.Disk v.graph v.ds v.id v.draft.object made disk.old disk.new space.new result }
    ensures ends { spec.CommitsSo D.Disk (roots_top at.0 own.now root.now) commit_calls commit_tries disk.old disk.new
        space.old space.new result }
    ensures untried { IfErr result (λ t. t ≡ troubles.Disk false
        → (space.new ≡ space.old) × OnlyReads D.Disk (1 + changed_reads) disk.old disk.new) }
{
    match changed(disk, at, own, root, &mut taken, dropped) {
        Ok(()) => {}
        Err(trouble) => return Err(trouble),
    }
    commit_listed(disk, space, at, root, taken, dropped.as_slice(), created)
}
