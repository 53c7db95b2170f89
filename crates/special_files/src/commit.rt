//! How a draft is committed.
ghost use Rattle.std.specs.Prelude.{◌≡◌, ◌≢◌, ◌<◌, ◌≤◌, ◌+◌, ◌*◌, ◌++◌, ◌∷◌, [], ℕ, false, length, option_to_list};
ghost use Rattle.std.specs.Prelude.{Option, None, Some, IfErr, OnOk};
ghost use Rattle.std.specs.List.{All};
ghost use Rattle.cfs_base.specs.Calls.{MakesAtMost};
ghost use Rattle.cyl_alloc.specs.Left.{LeftCommit};
ghost use Rattle.cfs_base.specs.Run.{IsSettled, Tells};
ghost use Rattle.cfs_base.specs.declared.refusal.Trouble.TheVariants as troubles;
ghost use Rattle.special_files.specs.Committing as spec;
ghost use Rattle.special_files.specs.Drafting.{Drafting, number_if};
ghost use Rattle.leaf_changes.specs.Tops.{still_top};
ghost use Rattle.special_files.specs.Limits.{begun_calls, begun_tries, blocks_limit};
ghost use Rattle.special_files.specs.Refusal.{roots_top};
ghost use Rattle.special_files.specs.View.{DraftView};

use crate::blocks::Blocks;
use crate::changed::changed;
use crate::commit_bit::decide;
use crate::leaf::write_own;
use block_tree::Root;
use cfs_base::{BlockNo, Disk, Trouble};
use cyl_alloc::Space;

/// Returns the blocks whose entries a commit changes past its bit, the shadow root last.
fn rest_of(
    taken: Blocks,
    dropped: &[u32],
    created: Option<BlockNo>,
    shadow: BlockNo,
) -> cyl_alloc::Blocks
    requires few { length taken + length dropped.now ≤ 2 * blocks_limit }
    ensures { result ≡ taken ++ (dropped.now ++ (option_to_list (number_if created) ++ shadow.0 ∷ [])) }
{
    let mut rest = taken;
    rest.add_all(dropped);
    if let Some(block) = created {
        rest.add(block.0);
    }
    rest.add(shadow.0);
    rest.into_rest()
}

/// Makes a draft its object. Its shadow root was written.
///
/// The commit bit is set, and what is left is kept.
pub(crate) fn finish<D: Disk>(
    disk: &mut D,
    space: &mut Space,
    at: BlockNo,
    shadow: BlockNo,
    taken: Blocks,
    dropped: &[u32],
    created: Option<BlockNo>,
) -> Result<(), Trouble>
    requires size { D.blocks disk.old ≡ 64 * length space.old.free }
    requires on_disk { at.0 < D.blocks disk.old }
    requires shadow_on_disk { shadow.0 < D.blocks disk.old }
    requires taken_on_disk { All (λ n. n < D.blocks disk.old) taken }
    requires dropped_on_disk { All (λ n. n < D.blocks disk.old) dropped.now }
    requires created_on_disk { (n : ℕ) → number_if created ≡ Some n → n < D.blocks disk.old }
    requires left { space.old.left ≡ None }
    requires few { length taken + length dropped.now ≤ 2 * blocks_limit }
    ensures finishes { spec.FinishesCommit D.Disk at.0 shadow.0 taken dropped.now (number_if created) disk.old disk.new
        space.old space.new result }
    ensures fails { IfErr result (spec.CommitFails D.Disk (still_top at.0) disk.old disk.new space.new) }
    ensures settled { Tells D.Disk disk.old → OnOk result (IsSettled D.Disk disk.new) }
    ensures cylinders { length space.new.free ≡ length space.old.free }
    ensures left { OnOk result ((l : LeftCommit) × spec.IsNoted at.0 space.new.left l) }
    ensures calls { MakesAtMost D.Disk (2 * length dropped.now + 4) (length dropped.now + 3) disk.old disk.new }
{
    match decide(disk, space.known(), at, dropped) {
        Ok(()) => {}
        Err(trouble) => return Err(trouble),
    }
    space.note(at, shadow, rest_of(taken, dropped, created, shadow));
    Ok(())
}

/// Commits a draft with these parts. Its shadow root is written first.
pub(crate) fn commit_begun<D: Disk>(
    disk: &mut D,
    space: &mut Space,
    at: BlockNo,
    shadow: BlockNo,
    own: &Root,
    root: &Root,
    mut taken: Blocks,
    dropped: &mut Blocks,
    created: Option<BlockNo>,
) -> Result<(), Trouble>
    requires on_disk { at.0 < D.blocks disk.old }
    requires size { D.blocks disk.old ≡ 64 * length space.old.free }
    requires shadow_on_disk { shadow.0 < D.blocks disk.old }
    requires created_on_disk { (n : ℕ) → number_if created ≡ Some n → n < D.blocks disk.old }
    requires left { space.old.left ≡ None }
    ensures commits { (was : Drafting) (v : DraftView D.Disk disk.old space.old was) (made : Option spec.Making)
        → spec.AreDraftParts was at.0 (Some shadow.0) own.now root.now (number_if created)
        → spec.Makes (D.content disk.old) (number_if created) made
        → spec.CommitEnds D.Disk v.graph v.ds v.id v.draft.object made disk.old disk.new space.new result }
    ensures ends { spec.CommitsSo D.Disk (roots_top at.0 own.now root.now) begun_calls begun_tries disk.old disk.new
        space.old space.new result }
    // No device call comes before the first try.
    ensures untried { IfErr result (λ t. t ≢ troubles.Disk false) }
{
    let content = root.encode();
    match write_own(disk, shadow, &content) {
        Ok(()) => {}
        Err(_) => return Err(Trouble::Disk { tried: true }),
    }
    match changed(disk, at, own, root, &mut taken, dropped) {
        Ok(()) => {}
        Err(trouble) => return Err(trouble.after_try()),
    }
    finish(disk, space, at, shadow, taken, dropped.as_slice(), created)
}
