//! The commit bit of a draft whose root is in its shadow root.
ghost use Rattle.intentions.specs.Entries.{FitsEntry};
ghost use Rattle.std.specs.Prelude.{◌≡◌, ◌<◌, ◌+◌, ◌*◌, ◌++◌, ℕ, List, [], ◌∷◌, false, length, option_to_list};
ghost use Rattle.std.specs.Prelude.{Option, None, Some, IfErr, OnOk};
ghost use Rattle.std.specs.List.{All};
ghost use Rattle.cfs_base.specs.Calls.{MakesAtMost};
ghost use Rattle.cfs_base.specs.Run.{IsSettled, Leaves, Tells};
ghost use Rattle.cyl_alloc.specs.Space.{Kept};
ghost use Rattle.intentions.specs.Runs.{runs};
ghost use Rattle.leaf_changes.specs.Tops.{still_top};
ghost use Rattle.special_files.specs.Committing as spec;
ghost use Rattle.special_files.specs.Drafting.{number_if};
ghost use Rattle.block_tree.specs.Reads.{is_damage};
ghost use Rattle.ufs_model.specs.Graph.{Graph};
ghost use Rattle.ufs_model.specs.declared.object.Object.{Object};
ghost use Rattle.vol_image.specs.Run.{Carries};

use crate::flips::{flip, flip_all};
use cfs_base::{BlockNo, Disk, Trouble};
use cyl_alloc::KnownMaps;
use intentions::{EntryChange, commit};

/// Changes the entry of the root of an object that is made, if one is.
pub(crate) fn flip_made<D: Disk>(
    disk: &mut D,
    known: &mut KnownMaps,
    created: Option<BlockNo>,
    how: EntryChange,
) -> Result<(), Trouble>
    requires on_disk { (n : ℕ) → number_if created ≡ Some n → n < D.blocks disk.old }
    requires fits { FitsEntry how }
    ensures flips { spec.Flips D.Disk 2 1 how (option_to_list (number_if created)) disk.old disk.new result }
{
    match created {
        Some(block) => flip(disk, known, block, how),
        None => Ok(()),
    }
}

/// Marks what is dropped as to be given up, and sets the commit bit: the draft is the object from then on.
pub(crate) fn decide<D: Disk>(
    disk: &mut D,
    known: &mut KnownMaps,
    at: BlockNo,
    dropped: &[u32],
) -> Result<(), Trouble>
    requires on_disk { at.0 < D.blocks disk.old }
    requires dropped_on_disk { All (λ n. n < D.blocks disk.old) dropped.now }
    ensures put { (graph full : Graph) (word : ℕ) (was o : Object) (s : ℕ) (taken : List ℕ) (created : Option ℕ)
        → Carries D.Disk graph disk.old
        → spec.IsReady (D.content disk.old) full (spec.puid_at at.0 word) was o s taken dropped.now created
        → OnOk result (D.content disk.new ≡ spec.bit_set (D.content disk.old) at.0 dropped.now) }
    ensures leaves { (graph full : Graph) (word : ℕ) (was o : Object) (s : ℕ) (taken : List ℕ) (created : Option ℕ)
        → Carries D.Disk graph disk.old
        → spec.IsReady (D.content disk.old) full (spec.puid_at at.0 word) was o s taken dropped.now created
        → Leaves D.Disk disk.old disk.new (spec.IsOldOrNew graph full (spec.puid_at at.0 word) o) }
    ensures sound { (graph full : Graph) (word : ℕ) (was o : Object) (s : ℕ) (taken : List ℕ) (created : Option ℕ)
        → Carries D.Disk graph disk.old
        → spec.IsReady (D.content disk.old) full (spec.puid_at at.0 word) was o s taken dropped.now created
        → IfErr result (λ t. is_damage t ≡ false) }
    ensures settled { Tells D.Disk disk.old → OnOk result (IsSettled D.Disk disk.new) }
    ensures fails { (kept : Kept) → IfErr result (spec.CommitFails D.Disk (still_top at.0) disk.old disk.new kept) }
    ensures calls { MakesAtMost D.Disk (2 * length dropped.now + 4) (length dropped.now + 3) disk.old disk.new }
    // The entries of consecutive blocks in one map cost one read and one write.
    ensures by_map { MakesAtMost D.Disk (2 * runs dropped.now + 4) (runs dropped.now + 3) disk.old disk.new }
{
    flip_all(disk, known, dropped, EntryChange::Release)?;
    match commit(disk, known, at) {
        Ok(()) => Ok(()),
        Err(trouble) => Err(trouble.after_try()),
    }
}
