//! An object made in the draft of an index.
ghost use Rattle.std.specs.Prelude.{◌≡◌, ◌≢◌, ◌+◌, ◌*◌, ◌<◌, ◌≤◌, ℕ, false, length, sum, IfErr, OnOk};
ghost use Rattle.cfs_base.specs.Calls.{HasTried};
ghost use Rattle.cyl_alloc.specs.Space.{IsLeastFree};
ghost use Rattle.index_drafts.specs.Creates as spec;
ghost use Rattle.intentions.specs.Store.{StoreHas};
ghost use Rattle.leaf_changes.specs.Tops.{still_top};
ghost use Rattle.special_files.specs.Committing.{puid_at};
ghost use Rattle.special_files.specs.Creates.{IsBare};
ghost use Rattle.special_files.specs.Ends.{EndsCall};
ghost use Rattle.special_files.specs.Refusal.{is_full_refusal};
ghost use Rattle.special_files.specs.View.{GoesHolding};
ghost use Rattle.ufs_model.specs.Graph.{Graph};
ghost use Rattle.vol_image.specs.Reading.{bare_object};
ghost use Rattle.vol_owners.specs.Account.{Drafts};

use crate::draft::IndexDraft;
use block_tree::Root;
use cfs_base::{BlockNo, Disk, Place, Puid, Refused};
use cyl_alloc::Space;
use intentions::barrier;
use special_files::{ObjectDraft, least, write_root};

/// Makes the least-numbered Free block the root of a new object.
///
/// It is Allocated and written, and then both survive a crash. Until then nobody has the block, as recovery sees it.
fn make_at<D: Disk>(
    disk: &mut D,
    space: &mut Space,
    block: BlockNo,
    root: &Root,
) -> Result<(), Refused>
    requires some { block.0 ≢ 0 }
    requires on_disk { block.0 < D.blocks disk.old }
    requires size { D.blocks disk.old ≡ 64 * length space.old.free }
    requires room { 1 ≤ sum space.old.free }
    ensures makes { (graph : Graph) (ds : Drafts) → StoreHas D.Disk graph ds disk.old space.old
        → IsLeastFree (D.content disk.old) block.0 → IsBare root.now
        → GoesHolding D.Disk graph
        (spec.MakesAlone D.Disk graph ds (puid_at block.0 root.now.word) (bare_object root.now)
        disk.old disk.new space.new) disk.old disk.new result }
    ensures tried { OnOk result (HasTried D.Disk disk.old disk.new) }
    ensures spare { IfErr result (λ e. is_full_refusal e ≡ false) }
    ensures ends { (at : ℕ) → EndsCall D.Disk (still_top at) 0 4 3 1 disk.old disk.new space.old space.new result }
{
    space.claim(disk, Place::Root, block.0)?; // again the least, which is this one
    write_root(disk, block, root)?;
    barrier(disk)?;
    Ok(())
}

/// Makes the object with this root, and puts its identifier into a slot of an index's draft.
///
/// The root is a `bare_root`, and the slot may hold anything. The object exists at once, with its root at the
/// least-numbered Free block, and an abort of the draft leaves it. `Full` exactly if fewer blocks are Free than 1
/// more than `put_in` takes, plus the floor. Nothing was done then. `Damaged` as in `put_in`, and it names block 0,
/// with code 2, if that map says that its own block is Free.
///
/// If it is refused once the object exists, it returns `Disk` that was tried: the object may exist then, with its
/// identifier in no slot. Takes no memory.
pub fn create_in<D: Disk>(
    draft: &mut ObjectDraft,
    disk: &mut D,
    space: &mut Space,
    slot: u64,
    root: &Root,
    floor: u32,
) -> Result<Puid, Refused>
    requires on_disk { draft.old.at < D.blocks disk.old }
    requires size { D.blocks disk.old ≡ 64 * length space.old.free }
    requires within { 8 * slot + 8 ≤ draft.old.root.size }
    requires root { IsBare root.now }
    ensures { spec.CreatesIn D.Disk slot (bare_object root.now) root.now.word floor disk.old disk.new space.old
        space.new draft.old draft.new result }
{
    space.has_room(1 + draft.slot_takes(slot), floor)?;
    let block = least(disk, space)?;
    make_at(disk, space, block, root)?;
    let made = Puid {
        block: block.0,
        word: root.word,
    };
    draft
        .fill(disk, space, slot, Some(made))
        .map_err(Refused::after_try)?;
    Ok(made)
}

impl IndexDraft {
    /// Makes the object with this root, and puts its identifier into a slot.
    ///
    /// The root is a `bare_root`, and the slot may hold anything. The object exists at once, with its root at the
    /// least-numbered Free block, and an abort of the draft leaves it. `Full` exactly if fewer blocks are Free than 1
    /// more than `retain` takes, plus the floor. Nothing was done then. `Damaged` as in `retain`, and it names block
    /// 0, with code 2, if that map says that its own block is Free.
    ///
    /// If it is refused once the object exists, it returns `Disk` that was tried: the object may exist then, with its
    /// identifier in no slot. Takes no memory.
    pub fn create<D: Disk>(
        &mut self,
        disk: &mut D,
        space: &mut Space,
        slot: u64,
        root: &Root,
        floor: u32,
    ) -> Result<Puid, Refused>
        requires on_disk { self.old.at < D.blocks disk.old }
        requires size { D.blocks disk.old ≡ 64 * length space.old.free }
        requires within { 8 * slot + 8 ≤ self.old.root.size }
        requires root { IsBare root.now }
        ensures { spec.CreatesIn D.Disk slot (bare_object root.now) root.now.word floor disk.old disk.new space.old
            space.new self.old self.new result }
    {
        create_in(&mut self.draft, disk, space, slot, root, floor)
    }
}
