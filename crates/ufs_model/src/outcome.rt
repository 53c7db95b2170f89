//! What the slow server answers to a request that it doesn't refuse.
ghost use Rattle.std.specs.Prelude.{◌≡◌, ◌<◌, IfOk, OnErr, None, false, true};
ghost use Rattle.ufs_model.specs.Graph.{has_block};
ghost use Rattle.ufs_model.specs.Outcome.{creates, outcome_of};
ghost use Rattle.ufs_model.specs.Refusal.{refusal_of};
ghost use Rattle.ufs_model.specs.WellFormed.{IsState};

use crate::asked::{Ref, Reply, Request};
use crate::change::Change;
use crate::object::{File, Index, Object};
use crate::server::Server;
use cfs_base::{Bytes, NoMemory, Session};
use std::alloc::Global;

impl Server {
    /// Makes the outcome of the definitions, in which a new object takes this block, and returns its reply.
    ///
    /// For want of memory nothing is changed.
    pub fn outcome(
        &mut self,
        alloc: Global,
        who: Session,
        request: &Request,
        block: u32,
    ) -> Result<Reply, NoMemory>
        requires words { self.old.state.drawn < 4294967295 }
        requires state { IsState self.old.state }
        requires refused { refusal_of self.old.state who request.now ≡ None }
        requires free { creates request.now ≡ true → has_block self.old.state.graph.objects block ≡ false }
        ensures ok { IfOk result (λ reply. outcome_of self.old.seed self.old.state who request.now block
            ≡ (reply, self.new.state)) }
        ensures err { OnErr result (self.new ≡ self.old) }
        ensures seed { self.new.seed ≡ self.old.seed }
    {
        match request {
            Request::CreateFile {
                kind,
                fill,
                index,
                slot,
            } => {
                let made = Object::File(File::empty(alloc, *kind, *fill));
                let id = self.create(alloc, who, *index, *slot, made, block)?;
                Ok(Reply::Id(id))
            }
            Request::CreateIndex { slots, index, slot } => {
                let made = Object::Index(Index::of_slots(alloc, *slots as usize)?);
                let id = self.create(alloc, who, *index, *slot, made, block)?;
                Ok(Reply::Id(id))
            }
            Request::Retain { index, slot, id } => {
                self.is_quiet();
                let what = Some(*id);
                self.change(alloc, who, *index, &Change::Fill { slot: *slot, what })?;
                Ok(Reply::Done)
            }
            Request::Delete { index, slot } => {
                let what = None;
                self.change(alloc, who, *index, &Change::Fill { slot: *slot, what })?;
                Ok(Reply::Done)
            }
            Request::Write {
                file,
                offset,
                bytes,
            } => {
                let bytes = Bytes::new(bytes.as_slice().to_vec(alloc)?);
                let offset = *offset;
                self.change(alloc, who, *file, &Change::Overwrite { offset, bytes })?;
                Ok(Reply::Done)
            }
            Request::Resize { file, size } => {
                self.change(alloc, who, *file, &Change::SetSize { size: *size })?;
                Ok(Reply::Done)
            }
            Request::OpenFor { id, mode } => {
                Ok(Reply::Grant(self.open(alloc, who, *id, *mode)?))
            }
            Request::Close { grant, commit } => {
                self.close(who, *grant, *commit);
                Ok(Reply::Done)
            }
            Request::Retrieve { index, slot } => Ok(match self.slot_seen(who, *index, *slot) {
                Some(id) => Reply::Id(id),
                None => Reply::Empty,
            }),
            Request::Slots { index } => Ok(Reply::Number(self.slots_seen(who, *index))),
            Request::Read {
                file,
                offset,
                count,
            } => Ok(Reply::Content(self.read(alloc, who, *file, *offset, *count)?)),
            Request::Size { file } => Ok(Reply::Number(self.bytes_seen(who, *file).len() as u64)),
        }
    }
}
