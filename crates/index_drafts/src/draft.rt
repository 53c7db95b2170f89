//! The draft of an index: how it begins, is read, committed and given up.
ghost use Rattle.std.specs.Prelude.{◌≡◌, ◌≢◌, ◌+◌, ◌*◌, ◌/◌, ◌<◌, ◌≤◌, None, false, length, IfErr};
ghost use Rattle.cfs_base.specs.Disk.{Image};
ghost use Rattle.cfs_base.specs.declared.identifier.Puid.{Puid};
ghost use Rattle.cfs_base.specs.declared.refusal.Trouble.TheVariants as troubles;
ghost use Rattle.index_drafts.specs.Puts.{IndexView};
ghost use Rattle.special_files.specs.Begins.{BeginCall, BeginsDraft};
ghost use Rattle.special_files.specs.Committing.{AbortCall, AbortEnds, CommitCall, CommitEnds};
ghost use Rattle.special_files.specs.Drafting.{opened_as};
ghost use Rattle.special_files.specs.Looks.{FindsSlot, ReadCall};
ghost use Rattle.special_files.specs.View.{DraftSeen, GoesTo, ObjectView};
ghost use Rattle.ufs_model.specs.declared.object.Draft as drafts;
ghost use Rattle.ufs_model.specs.declared.object.Index.{Index};
ghost use Rattle.ufs_model.specs.declared.object.Object.TheVariants as objects;
ghost use Rattle.vol_owners.specs.Account.{HasDraft};

use block_tree::Root;
use cfs_base::{BlockNo, Disk, Puid, Refused, Trouble};
use cyl_alloc::Space;
use special_files::{ObjectDraft, Room};
use std::marker::Model;

/// A changed index beside the index as it is.
///
/// It has a shadow root from its beginning on.
#[derive(Debug, Drop)]
pub struct IndexDraft {
    pub(crate) draft: ObjectDraft,
}

impl Model for IndexDraft {
    ghost use Rattle.std.specs.Prelude.{◌≡◌, ◌≢◌, None};
    ghost use Rattle.special_files.specs.Drafting.{Drafting};

    ghost Value = { Drafting };

    ghost view = { λ a. a.draft };

    ghost invariant = { λ a. (a.draft.shadow ≢ None) × (a.draft.created ≡ None) };
}

impl IndexDraft {
    /// Begins a draft of the index whose root is at this block, equal to the index.
    ///
    /// It claims the least-numbered Free block as the shadow root. `room` is all memory that the draft will need, so
    /// it takes none. `Full` if fewer blocks are Free than 1 plus the floor. Nothing was written then. `Damaged`
    /// names the root block, with code 3, if it is no root block, or the map in which no Free block was found: with
    /// code 2 if it is no map, else with code 12.
    pub fn begin<D: Disk>(
        room: Room,
        disk: &mut D,
        space: &mut Space,
        at: BlockNo,
        floor: u32,
    ) -> Result<IndexDraft, Refused>
        requires some { at.0 ≢ 0 }
        requires on_disk { at.0 < D.blocks disk.old }
        requires size { D.blocks disk.old ≡ 64 * length space.old.free }
        ensures begins { (v : ObjectView D.Disk disk.old space.old at.0)
            → GoesTo D.Disk v.graph (BeginsDraft v disk.new space.new) disk.old disk.new result }
        ensures call { BeginCall D.Disk at.0 floor disk.old disk.new space.old space.new result }
    {
        let draft = ObjectDraft::begin(room, disk, space, at, floor)?;
        Ok(IndexDraft { draft })
    }

    /// Returns how many slots the index has.
    pub fn slots(&self) -> u64
        ensures size { result ≡ self.now.root.size / 8 }
        ensures count { (image : Image) (id : Puid) (d : drafts.Draft) (i : Index)
            → HasDraft image id (opened_as self.now d) → d.object ≡ objects.Index i → result ≡ length i.slots }
    {
        self.draft.size() / 8
    }

    /// Returns the root that the index is to get.
    pub fn root(&self) -> &Root
        ensures { result.now ≡ self.now.root }
    {
        self.draft.root()
    }

    /// Returns what a slot holds in the draft, or `None` if it is empty.
    ///
    /// Another object's commit may be unfinished. `Damaged` names the root block, or a node, with code 4, if a
    /// pointer of it leads past the disk.
    pub fn retrieve<D: Disk>(&self, disk: &mut D, slot: u64) -> Result<Option<Puid>, Trouble>
        requires on_disk { self.now.at < D.blocks disk.old }
        requires within { 8 * slot + 8 ≤ self.now.root.size }
        ensures looks { (v : DraftSeen D.Disk disk.old self.now) → FindsSlot v slot result }
        ensures call { ReadCall D.Disk 2 disk.old disk.new self.now result }
    {
        self.draft.slot(disk, slot)
    }

    /// Makes the draft its index.
    ///
    /// When it is done, all is durable, and once the commit that the space keeps is carried out the index's blocks
    /// are exactly those of the draft. If it is refused the draft is gone, and each image that a crash leaves has the
    /// index old or new.
    ///
    /// `Damaged` names a map block, with code 2, if it is no map, or a node or the root block, with code 4, if a
    /// pointer leads past the disk.
    pub fn commit<D: Disk>(self, disk: &mut D, space: &mut Space) -> Result<(), Trouble>
        requires on_disk { self.at < D.blocks disk.old }
        requires size { D.blocks disk.old ≡ 64 * length space.old.free }
        // No commit is kept.
        requires left { space.old.left ≡ None }
        ensures commits { (i : IndexView D.Disk disk.old space.old self)
            → CommitEnds D.Disk i.view.graph i.view.ds i.view.id (objects.Index i.index) None disk.old disk.new
            space.new result }
        ensures call { CommitCall D.Disk self disk.old disk.new space.old space.new result }
        // If a device call failed, a write or a barrier was tried.
        ensures tried { IfErr result (λ trouble. trouble ≢ troubles.Disk false) }
    {
        self.draft.commit(disk, space)
    }

    /// Gives up the draft. Its blocks are Free then, and an object that was made in it stays.
    ///
    /// If it is refused the draft is gone all the same, and each image that a crash leaves has all objects as they
    /// were. `Damaged` as in `commit`.
    pub fn abort<D: Disk>(self, disk: &mut D, space: &mut Space) -> Result<(), Trouble>
        requires on_disk { self.at < D.blocks disk.old }
        requires size { D.blocks disk.old ≡ 64 * length space.old.free }
        ensures aborts { (i : IndexView D.Disk disk.old space.old self)
            → AbortEnds D.Disk i.view.graph i.view.ds i.view.id None disk.old disk.new space.new result }
        ensures call { AbortCall D.Disk self disk.old disk.new space.old space.new result }
    {
        self.draft.abort(disk, space)
    }
}
