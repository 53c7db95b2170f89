//! Requests that make an object.
ghost use Rattle.std.specs.Prelude.{◌≡◌, ◌≢◌, ◌+◌, ◌*◌, ◌<◌, ◌≤◌, ℕ, length, sum, Err};
ghost use Rattle.cfs_base.specs.declared.refusal.Refused.TheVariants as refusals;
ghost use Rattle.cfs_core.specs.Calls.{Tries, TriesOn};
ghost use Rattle.cfs_core.specs.Makes.{IsMaking, NamesMade, made_kind};
ghost use Rattle.index_ops.specs.Creates.{PutsObject};
ghost use Rattle.special_files.specs.Creates.{MayBeMade, made_of};
ghost use Rattle.block_tree.specs.Pointers.{size_limit};
ghost use Rattle.cfs_core.specs.Kernel.{Kernel};
ghost use Rattle.cfs_core.specs.Visits.{CameTo};
ghost use Rattle.ufs_model.specs.declared.asked.Request.TheVariants as asks;
ghost use Rattle.ufs_model.specs.declared.asked.Request.{Request};

use crate::changing::index_since;
use crate::finishing::{finish, since, take_room};
use crate::kernel::Core;
use crate::looking::has_slot;
use crate::visiting::{There, Visited};
use crate::way::Way;
use cfs_base::{BlockNo, Damage, Disk, FileKind, Kind, Puid, Refused, Session, code};
use index_ops::create;
use special_files::{ObjectDraft, bare_root};
use std::alloc::Global;
use ufs_model::{MOST_SLOTS, Ref, Reply, Wanted};

/// Returns the kind of an object that is such a file.
pub(crate) fn kind_of(kind: FileKind) -> Kind
    ensures { result ≡ made_kind kind }
{
    match kind {
        FileKind::Normal => Kind::Normal,
        FileKind::Special => Kind::Special,
    }
}

impl<D: Disk> Core<D> {
    /// Makes a file of no bytes.
    pub(crate) fn create_file(
        &mut self,
        alloc: Global,
        who: Session,
        kind: FileKind,
        fill: u8,
        to: Ref,
        slot: u64,
    ) -> Result<Reply, Refused>
        requires words { self.old.words.drawn < 4294967295 }
        ensures { Tries D.Disk self.old self.new who (asks.CreateFile kind fill to slot) result }
    {
        let way = Way {
            to,
            also: None,
            changes: true,
        };
        match self.visit(who, way, Wanted::AnIndex)? {
            Visited::Refused(reply) => Ok(reply),
            Visited::Draft(grant) => self.create_file_drafted(grant, kind, fill, slot),
            Visited::Object(there) => {
                if !has_slot(&there.root, slot) {
                    return Ok(Reply::Slot);
                }
                self.make(alloc, &there, slot, kind_of(kind), fill, 0)
            }
        }
    }

    /// Makes an index of empty slots.
    pub(crate) fn create_index(
        &mut self,
        alloc: Global,
        who: Session,
        slots: u64,
        to: Ref,
        slot: u64,
    ) -> Result<Reply, Refused>
        requires words { self.old.words.drawn < 4294967295 }
        ensures { Tries D.Disk self.old self.new who (asks.CreateIndex slots to slot) result }
    {
        let way = Way {
            to,
            also: None,
            changes: true,
        };
        match self.visit(who, way, Wanted::AnIndex)? {
            Visited::Refused(reply) => Ok(reply),
            Visited::Draft(grant) => self.create_index_drafted(grant, slots, slot),
            Visited::Object(there) => {
                if !has_slot(&there.root, slot) {
                    return Ok(Reply::Slot);
                }
                if slots == 0 || slots > MOST_SLOTS {
                    return Ok(Reply::Range);
                }
                self.make(alloc, &there, slot, Kind::Index, 0, 8 * slots)
            }
        }
    }

    /// Makes an object, and puts its identifier into a slot that the index has. The index's root was read before.
    fn make(
        &mut self,
        alloc: Global,
        there: &There,
        slot: u64,
        kind: Kind,
        fill: u8,
        size: u64,
    ) -> Result<Reply, Refused>
        requires on_disk { there.now.id.block < D.blocks self.old.disk }
        requires some { there.now.id.block ≢ 0 }
        requires within { 8 * slot + 8 ≤ there.now.root.size }
        requires limit { there.now.root.size ≤ size_limit }
        requires made { MayBeMade kind fill size }
        requires words { self.old.words.drawn < 4294967295 }
        ensures { (n : ℕ) (k : Kernel D) (request : Request) → IsMaking request slot (made_of kind fill size)
            → CameTo D.Disk n k self.old there.now.id there.now.root
            → TriesOn D.Disk k self.new there.now.id slot request result }
    {
        let new = bare_root(kind, fill, size, self.words.ahead());
        let room = take_room(alloc)?;
        let tried = finish(&mut self.disk, &mut self.space)?;
        let at = BlockNo(there.id.block);
        let root = since(
            tried,
            index_since(&mut self.disk, at, tried, &there.root, slot),
        )?;
        let draft = ObjectDraft::direct(room, at, &root);
        let made = create(draft, &mut self.disk, &mut self.space, slot, &new);
        let id = since(tried, made)?;
        since(tried, self.name(id, kind))
    }

    /// Names an object that was made, with the word that is drawn for it.
    ///
    /// On a disk that lies its root block may be another object's, or past the disk's end.
    pub(crate) fn name(&mut self, id: Puid, kind: Kind) -> Result<Reply, Refused>
        requires words { self.old.words.drawn < 4294967295 }
        ensures { NamesMade self.old self.new id kind result }
    {
        if id.block == 0 || id.block >= self.directory.room() || self.directory.has_root(id.block) {
            return Err(Refused::Damaged(Damage {
                block: id.block,
                code: code::NOT_OWNED,
            }));
        }
        self.directory.add(id, kind);
        self.words.next();
        Ok(Reply::Id(id))
    }
}
