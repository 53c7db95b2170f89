//! A draft given up.
ghost use Rattle.std.specs.Prelude.{◌≡◌, ◌<◌, ◌+◌, ◌*◌, ℕ, length, option_to_list, Some, IfErr};
ghost use Rattle.std.specs.List.{All};
ghost use Rattle.cfs_base.specs.Calls.{MakesAtMost};
ghost use Rattle.intentions.specs.declared.change.EntryChange.TheVariants.{Undo};
ghost use Rattle.special_files.specs.Changed.{AreTaken};
ghost use Rattle.special_files.specs.Committing as spec;
ghost use Rattle.special_files.specs.Drafting.{Drafting, number_if, opened_as};
ghost use Rattle.leaf_changes.specs.Tops.{still_top};
ghost use Rattle.special_files.specs.View.{DraftView};

use crate::becoming::part_on_disk;
use crate::blocks::Blocks;
use crate::changed::changed;
use crate::commit_bit::flip_made;
use crate::draft::ObjectDraft;
use crate::flips::{flip_all, give_all};
use block_tree::Root;
use cfs_base::{BlockNo, Disk, Trouble};
use cyl_alloc::{KnownMaps, Space};
use intentions::{EntryChange, barrier};

/// Takes back what was claimed for a draft: its nodes and leaves, its shadow root, and the root of an object that it
/// makes.
fn undo_all<D: Disk>(
    disk: &mut D,
    known: &mut KnownMaps,
    taken: &[u32],
    shadow: Option<BlockNo>,
    created: Option<BlockNo>,
) -> Result<(), Trouble>
    requires taken_on_disk { All (λ n. n < D.blocks disk.old) taken.now }
    requires shadow_on_disk { (n : ℕ) → number_if shadow ≡ Some n → n < D.blocks disk.old }
    requires created_on_disk { (n : ℕ) → number_if created ≡ Some n → n < D.blocks disk.old }
    ensures flips { spec.Flips D.Disk (2 * length taken.now + (2 + 2)) (length taken.now + (1 + 1))
        Undo (spec.undoing taken.now (number_if shadow) (number_if created)) disk.old disk.new result }
{
    flip_all(disk, known, taken, EntryChange::Undo)?;
    flip_made(disk, known, shadow, EntryChange::Undo)?;
    flip_made(disk, known, created, EntryChange::Undo)
}

/// Counts a block as Free again, if there is one.
fn give_made(space: &mut Space, block: Option<BlockNo>)
    requires on_disk { (n : ℕ) → number_if block ≡ Some n → n < 64 * length space.old.free }
    ensures given { space.new ≡ spec.given_all space.old (option_to_list (number_if block)) }
    ensures cylinders { length space.new.free ≡ length space.old.free }
    ensures left { space.new.left ≡ space.old.left }
{
    if let Some(block) = block {
        space.gave(block, 1);
    }
}

/// Gives up a draft whose own blocks these are.
fn give_up<D: Disk>(
    disk: &mut D,
    space: &mut Space,
    taken: &[u32],
    shadow: Option<BlockNo>,
    created: Option<BlockNo>,
) -> Result<(), Trouble>
    requires size { D.blocks disk.old ≡ 64 * length space.old.free }
    requires taken_on_disk { All (λ n. n < D.blocks disk.old) taken.now }
    requires shadow_on_disk { (n : ℕ) → number_if shadow ≡ Some n → n < D.blocks disk.old }
    requires created_on_disk { (n : ℕ) → number_if created ≡ Some n → n < D.blocks disk.old }
    ensures ends { (was : Drafting) (v : DraftView D.Disk disk.old space.old was)
        → was.shadow ≡ number_if shadow → was.created ≡ number_if created
        → AreTaken (D.content disk.old) v.id (opened_as was v.draft) taken.now
        → spec.AbortEnds D.Disk v.graph v.ds v.id was.created disk.old disk.new space.new result }
    ensures fails { (at : ℕ) → IfErr result (spec.CommitFails D.Disk (still_top at) disk.old disk.new space.new) }
    ensures cylinders { length space.new.free ≡ length space.old.free }
    ensures left { space.new.left ≡ space.old.left }
    ensures calls { MakesAtMost D.Disk (2 * length taken.now + (2 + 2)) (length taken.now + (1 + 1)) disk.old disk.new }
{
    match undo_all(disk, space.known(), taken, shadow, created) {
        Ok(()) => {
            give_all(space, taken);
            give_made(space, shadow);
            give_made(space, created);
            Ok(())
        }
        Err(trouble) => Err(trouble),
    }
}

/// Gives up a draft with these parts.
fn abort_parts<D: Disk>(
    disk: &mut D,
    space: &mut Space,
    at: BlockNo,
    shadow: Option<BlockNo>,
    own: &Root,
    root: &Root,
    taken: &mut Blocks,
    dropped: &mut Blocks,
    created: Option<BlockNo>,
) -> Result<(), Trouble>
    requires on_disk { at.0 < D.blocks disk.old }
    requires size { D.blocks disk.old ≡ 64 * length space.old.free }
    ensures ends { (was : Drafting) (v : DraftView D.Disk disk.old space.old was)
        → spec.AreDraftParts was at.0 (number_if shadow) own.now root.now (number_if created)
        → spec.AbortEnds D.Disk v.graph v.ds v.id was.created disk.old disk.new space.new result }
    ensures call { (was : Drafting)
        → spec.AreDraftParts was at.0 (number_if shadow) own.now root.now (number_if created)
        → spec.AbortCall D.Disk was disk.old disk.new space.old space.new result }
{
    match part_on_disk(disk, at, shadow) {
        Ok(()) => {}
        Err(trouble) => return Err(trouble),
    }
    match part_on_disk(disk, at, created) {
        Ok(()) => {}
        Err(trouble) => return Err(trouble),
    }
    match barrier(disk) {
        Ok(()) => {}
        Err(trouble) => return Err(trouble),
    }
    match changed(disk, at, own, root, taken, dropped) {
        Ok(()) => {}
        Err(trouble) => return Err(trouble.after_try()),
    }
    give_up(disk, space, taken.as_slice(), shadow, created)
}

impl ObjectDraft {
    /// Gives up the draft. Its blocks are Free then, and so is the root of an object that it was to make.
    ///
    /// If it is refused the draft is gone all the same, and each image that a crash leaves has the object as it was.
    /// `Damaged` as in `commit`.
    pub fn abort<D: Disk>(mut self, disk: &mut D, space: &mut Space) -> Result<(), Trouble>
        requires on_disk { self.at < D.blocks disk.old }
        requires size { D.blocks disk.old ≡ 64 * length space.old.free }
        // The store has no draft of the object, and makes none with it.
        ensures aborts { (v : DraftView D.Disk disk.old space.old self)
            → spec.AbortEnds D.Disk v.graph v.ds v.id self.created disk.old disk.new space.new result }
        ensures call { spec.AbortCall D.Disk self disk.old disk.new space.old space.new result }
    {
        let draft = &mut self;
        abort_parts(
            disk,
            space,
            draft.at,
            draft.shadow,
            &draft.own,
            &draft.root,
            &mut draft.taken,
            &mut draft.dropped,
            draft.created,
        )
    }
}
