//! Requests that change an index.
ghost use Rattle.std.specs.Prelude.{◌≡◌, ◌≢◌, ℕ, ◌+◌, ◌*◌, ◌<◌, ◌≤◌};
ghost use Rattle.block_tree.specs.Pointers.{size_limit};
ghost use Rattle.cfs_core.specs.Calls.{Tries, TriesOn, delete_floor, done_or};
ghost use Rattle.ufs_model.specs.Plain.{is_id};
ghost use Rattle.ufs_model.specs.declared.asked.Ref.{Ref};
ghost use Rattle.cfs_core.specs.Rereads.{RereadsIndex};
ghost use Rattle.cfs_core.specs.Visits.{CameTo};
ghost use Rattle.cfs_core.specs.Kernel.{Kernel};
ghost use Rattle.ufs_model.specs.declared.asked.Request.TheVariants as asks;

use crate::finishing::{finish, since, take_room};
use crate::kernel::Core;
use crate::looking::{has_slot, look};
use crate::visiting::{There, Visited, root_in};
use crate::way::Way;
use block_tree::Root;
use cfs_base::{BlockNo, Damage, Disk, Puid, Refused, Session, code};
use index_ops::{delete, retain};
use special_files::ObjectDraft;
use std::alloc::Global;
use ufs_model::{RESERVE, Ref, Reply, Wanted};

/// Returns how many blocks must stay Free beside those that a delete takes.
///
/// It is none if the delete goes through no grant.
fn floor_for(to: Ref) -> u32
    ensures { result ≡ delete_floor to }
{
    match to {
        Ref::Direct(_) => 0,
        Ref::Through(_) => RESERVE,
    }
}

/// Returns whether this reply says that a slot holds an identifier.
pub(crate) fn holds_something(reply: &Reply) -> bool
    ensures { result ≡ is_id reply.now }
{
    match reply {
        Reply::Id(_) => true,
        _ => false,
    }
}

/// Returns the reply to a request that was done, of which nothing else is reported.
pub(crate) fn done(ended: Result<(), Refused>) -> Result<Reply, Refused>
    ensures { result ≡ done_or ended }
{
    ended?;
    Ok(Reply::Done)
}

/// Returns the root of the index at a block, which has the slot.
///
/// It is the root that was read, or the present one if parts of a commit were made since.
pub(crate) fn index_since<D: Disk>(
    disk: &mut D,
    at: BlockNo,
    tried: bool,
    read: &Root,
    slot: u64,
) -> Result<Root, Refused>
    requires on_disk { at.0 < D.blocks disk.old }
    requires within { 8 * slot + 8 ≤ read.now.size }
    requires limit { read.now.size ≤ size_limit }
    ensures { RereadsIndex D.Disk at.0 tried read.now slot disk.old disk.new result }
{
    if !tried {
        return Ok(*read);
    }
    let root = root_in(disk, at)?;
    if !has_slot(&root, slot) {
        return Err(Refused::Damaged(Damage {
            block: at.0,
            code: code::NO_ROOT,
        }));
    }
    Ok(root)
}

impl<D: Disk> Core<D> {
    /// Puts an identifier of an object into a slot.
    pub(crate) fn retain(
        &mut self,
        alloc: Global,
        who: Session,
        to: Ref,
        slot: u64,
        id: Puid,
    ) -> Result<Reply, Refused>
        ensures { Tries D.Disk self.old self.new who (asks.Retain to slot id) result }
    {
        let way = Way {
            to,
            also: Some(id),
            changes: true,
        };
        match self.visit(who, way, Wanted::AnIndex)? {
            Visited::Refused(reply) => Ok(reply),
            Visited::Draft(grant) => self.retain_draft(grant, slot, id),
            Visited::Object(there) => {
                if !has_slot(&there.root, slot) {
                    return Ok(Reply::Slot);
                }
                self.put(alloc, &there, slot, id)
            }
        }
    }

    /// Empties a slot.
    pub(crate) fn delete(
        &mut self,
        alloc: Global,
        who: Session,
        to: Ref,
        slot: u64,
    ) -> Result<Reply, Refused>
        ensures { Tries D.Disk self.old self.new who (asks.Delete to slot) result }
    {
        let way = Way {
            to,
            also: None,
            changes: true,
        };
        match self.visit(who, way, Wanted::AnIndex)? {
            Visited::Refused(reply) => Ok(reply),
            Visited::Draft(grant) => self.delete_draft(grant, slot),
            Visited::Object(there) => {
                let at = self.space.shown(BlockNo(there.id.block));
                let reply = look(&mut self.disk, at, &there.root, slot)?;
                if !holds_something(&reply) {
                    return Ok(reply);
                }
                self.empty(alloc, &there, slot, floor_for(to))
            }
        }
    }

    /// Puts an identifier into a slot that the index has. The index's root was read before.
    fn put(&mut self, alloc: Global, there: &There, slot: u64, id: Puid) -> Result<Reply, Refused>
        requires on_disk { there.now.id.block < D.blocks self.old.disk }
        requires some { there.now.id.block ≢ 0 }
        requires within { 8 * slot + 8 ≤ there.now.root.size }
        requires limit { there.now.root.size ≤ size_limit }
        requires id { id.block ≢ 0 }
        ensures { (n : ℕ) (k : Kernel D) (to : Ref) → CameTo D.Disk n k self.old there.now.id there.now.root
            → TriesOn D.Disk k self.new there.now.id slot (asks.Retain to slot id) result }
    {
        let room = take_room(alloc)?;
        let tried = finish(&mut self.disk, &mut self.space)?;
        let at = BlockNo(there.id.block);
        let root = since(
            tried,
            index_since(&mut self.disk, at, tried, &there.root, slot),
        )?;
        let draft = ObjectDraft::direct(room, at, &root);
        let ended = retain(draft, &mut self.disk, &mut self.space, slot, id);
        since(tried, done(ended))
    }

    /// Empties a slot that holds something. `floor` blocks stay Free beside it.
    ///
    /// On a disk that lies too few blocks may be Free for it.
    fn empty(
        &mut self,
        alloc: Global,
        there: &There,
        slot: u64,
        floor: u32,
    ) -> Result<Reply, Refused>
        requires on_disk { there.now.id.block < D.blocks self.old.disk }
        requires some { there.now.id.block ≢ 0 }
        requires within { 8 * slot + 8 ≤ there.now.root.size }
        requires limit { there.now.root.size ≤ size_limit }
        requires floor { floor ≤ 4 }
        ensures { (n : ℕ) (k : Kernel D) (to : Ref) → floor ≡ delete_floor to
            → CameTo D.Disk n k self.old there.now.id there.now.root
            → TriesOn D.Disk k self.new there.now.id slot (asks.Delete to slot) result }
    {
        let room = take_room(alloc)?;
        let tried = finish(&mut self.disk, &mut self.space)?;
        if self.space.free() < 3 {
            return Err(Refused::Damaged(Damage {
                block: 0,
                code: code::TOO_FULL,
            }));
        }
        self.space.has_room(3, floor)?;
        let at = BlockNo(there.id.block);
        let root = since(
            tried,
            index_since(&mut self.disk, at, tried, &there.root, slot),
        )?;
        let draft = ObjectDraft::direct(room, at, &root);
        let ended = delete(draft, &mut self.disk, &mut self.space, slot);
        since(tried, done(ended))
    }
}
