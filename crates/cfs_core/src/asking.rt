//! How a request is answered.
ghost use Rattle.std.specs.Prelude.{◌≡◌, ◌<◌, option_to_list};
ghost use Rattle.cfs_core.specs.Asked.{Asks, stopped_by, reply_to};
ghost use Rattle.cfs_core.specs.Calls.{Tries};
ghost use Rattle.cfs_core.specs.Rescues.{AreRescued, HasRoomFor, ended_of, rescue_of};

use crate::kernel::Core;
use cfs_base::{Disk, Puid, Refused, Session};
use std::alloc::Global;
use ufs_model::{Reply, Request};

impl<D: Disk> Core<D> {
    /// Answers a request of a session, as one event of the definitions.
    ///
    /// Memory is taken before anything is written. A request that changes something first carries out what was left
    /// of a commit. A commit is done at its bit, and is carried out later.
    ///
    /// After `Disk` without a doubt and after `Memory` all is as it was, and after `Full` all except what was left of
    /// a commit. After `Disk` with a doubt, and after `Damaged`, the core has stopped: it answers `Stopped` from then
    /// on, and makes no call of the disk.
    pub fn ask(&mut self, alloc: Global, who: Session, request: &Request) -> Reply
        requires words { self.old.words.drawn < 4294967295 }
        ensures { Asks D.Disk self.old self.new who request.now result }
    {
        if let Some(stop) = self.stop {
            return Reply::Stopped {
                moment: stop.moment,
            };
        }
        if let Err(_) = self.collections.make_room(request) {
            return Reply::Memory;
        }
        let index = self.aim(who, request);
        let closed = self.closes(who, request);
        match self.answer(alloc, who, request) {
            Ok(reply) => self.tell(index, closed, request, reply),
            Err(refused) => self.refuse(refused),
        }
    }

    /// Tries to answer a request.
    fn answer(&mut self, alloc: Global, who: Session, request: &Request) -> Result<Reply, Refused>
        requires words { self.old.words.drawn < 4294967295 }
        ensures { Tries D.Disk self.old self.new who request.now result }
    {
        match request {
            Request::Retain { index, slot, id } => self.retain(alloc, who, *index, *slot, *id),
            Request::Retrieve { index, slot } => self.retrieve(who, *index, *slot),
            Request::Delete { index, slot } => self.delete(alloc, who, *index, *slot),
            Request::Slots { index } => self.slots(who, *index),
            Request::CreateFile {
                kind,
                fill,
                index,
                slot,
            } => self.create_file(alloc, who, *kind, *fill, *index, *slot),
            Request::CreateIndex { slots, index, slot } => {
                self.create_index(alloc, who, *slots, *index, *slot)
            }
            Request::OpenFor { id, mode } => self.open_for(alloc, who, *id, *mode),
            Request::Close { grant, commit } => self.close(who, *grant, *commit),
            Request::Read {
                file,
                offset,
                count,
            } => self.read(alloc, who, *file, *offset, *count),
            Request::Write {
                file,
                offset,
                bytes,
            } => self.write(alloc, who, *file, *offset, bytes.as_slice()),
            Request::Size { file } => self.size(who, *file),
            Request::Resize { file, size } => self.resize(alloc, who, *file, *size),
        }
    }

    /// Lets the collector know what was put into this index, or opened, or that a grant on this object ended.
    fn tell(
        &mut self,
        index: Option<Puid>,
        closed: Option<Puid>,
        request: &Request,
        reply: Reply,
    ) -> Reply
        requires room { HasRoomFor request.now self.old.collections.collector }
        ensures told { result ≡ reply }
        ensures new { self.new ≡ record self.old { collections = self.new.collections } }
        ensures rescued { AreRescued self.old.collections.collector self.new.collections.collector
            (option_to_list (rescue_of index request.now reply)) (ended_of closed reply) }
        ensures called { self.new.collections.called ≡ self.old.collections.called }
        ensures finished { self.new.collections.finished ≡ self.old.collections.finished }
    {
        self.collections.rescue(index, request, &reply);
        if let (Some(id), Reply::Done) = (closed, &reply) {
            self.collections.draft_ended(id);
        }
        reply
    }

    /// Returns the reply to a request that was refused by a layer below.
    ///
    /// The core stops if what was asked may have been done, and at a damage.
    pub(crate) fn refuse(&mut self, refused: Refused) -> Reply
        ensures told { result ≡ reply_to refused (D.moment self.old.disk) }
        ensures stop { self.new
            ≡ record self.old { stop = stopped_by (reply_to refused (D.moment self.old.disk)) self.old.stop } }
    {
        match refused {
            Refused::Full(need) => Reply::Full(need),
            Refused::Memory => Reply::Memory,
            Refused::Disk { tried } => Reply::Disk {
                doubt: self.stop_in_doubt(tried),
            },
            Refused::Damaged(damage) => Reply::Damaged {
                damage,
                moment: self.stop_at(damage),
            },
        }
    }
}
