//! What is put into an index, or opened, while a collection marks.
ghost use Rattle.std.specs.Prelude.{◌≡◌, [], ◌∷◌, OnOk, option_to_list};
ghost use Rattle.cfs_core.specs.Kernel.{marks_in};
ghost use Rattle.cfs_core.specs.Rescues as spec;
ghost use Rattle.cfs_core.specs.Rescues.{AreRescued, HasRoomFor};
ghost use Rattle.cfs_core.specs.StandsFor.{ServesIs};
ghost use Rattle.marking.specs.Meanwhile as meanwhile;
ghost use Rattle.ufs_model.specs.State.{State};
ghost use Rattle.ufs_model.specs.declared.asked.Reply as asked;

use crate::collecting::Collections;
use crate::kernel::Core;
use cfs_base::{Disk, NoMemory, Puid, Session};
use collector_steps::{Collector, Phase};
use marking::Rescue;
use ufs_model::{Ref, Reply, Request};

/// Returns whether a request puts an object into an index, or opens one.
fn may_rescue(request: &Request) -> bool
    ensures { result ≡ spec.may_rescue request.now }
{
    match request {
        Request::CreateFile { .. }
        | Request::CreateIndex { .. }
        | Request::Retain { .. }
        | Request::OpenFor { .. } => true,
        _ => false,
    }
}

/// Returns whether a reply says that all was done that was asked.
fn is_done(reply: &Reply) -> bool
    ensures { result ≡ meanwhile.is_carried_out reply.now }
{
    match reply {
        Reply::Done | Reply::Id(_) | Reply::Grant(_) => true,
        _ => false,
    }
}

/// Returns the identifier that a reply names, if it names one.
fn id_in(reply: &Reply) -> Option<Puid>
    ensures { result ≡ spec.replied_id reply.now }
{
    match reply {
        Reply::Id(id) => Some(*id),
        _ => None,
    }
}

/// Returns what was put into this index, or opened, if anything was.
fn rescue_of(index: Option<Puid>, request: &Request, reply: &Reply) -> Option<Rescue>
    ensures { result ≡ spec.rescue_of index request.now reply.now }
{
    if !is_done(reply) {
        return None;
    }
    match request {
        Request::CreateFile { .. } | Request::CreateIndex { .. } => match id_in(reply) {
            Some(id) => Some(Rescue { index, id }),
            None => None,
        },
        Request::Retain { id, .. } => Some(Rescue { index, id: *id }),
        Request::OpenFor { id, .. } => Some(Rescue {
            index: None,
            id: *id,
        }),
        _ => None,
    }
}

/// Returns whether a collection marks.
fn is_marking(collector: &Collector) -> bool
    ensures { result ≡ marks_in collector.now.phase }
{
    match collector.phase() {
        Phase::Marking => true,
        _ => false,
    }
}

impl Collections {
    /// Makes room for the rescue that a request may add, if a collection marks.
    pub(crate) fn make_room(&mut self, request: &Request) -> Result<(), NoMemory>
        ensures room { OnOk result (HasRoomFor request.now self.new.collector) }
        ensures same { AreRescued self.old.collector self.new.collector [] [] }
        ensures called { self.new.called ≡ self.old.called }
        ensures finished { self.new.finished ≡ self.old.finished }
    {
        match &mut self.collector {
            Some(collector) => {
                if is_marking(collector) && may_rescue(request) {
                    collector.reserve()
                } else {
                    Ok(())
                }
            }
            None => Ok(()),
        }
    }

    /// Adds what an answered request put into this index, or opened, as a rescue, if a collection marks.
    pub(crate) fn rescue(&mut self, index: Option<Puid>, request: &Request, reply: &Reply)
        requires room { HasRoomFor request.now self.old.collector }
        ensures rescued { AreRescued self.old.collector self.new.collector
            (option_to_list (spec.rescue_of index request.now reply.now)) [] }
        ensures called { self.new.called ≡ self.old.called }
        ensures finished { self.new.finished ≡ self.old.finished }
    {
        if let Some(collector) = &mut self.collector {
            if is_marking(collector) {
                if let Some(rescue) = rescue_of(index, request, reply) {
                    collector.rescue(rescue.index, rescue.id);
                }
            }
        }
    }

    /// Records that a grant on this object ended.
    ///
    /// If a draft of it was being read, the reading goes on at its own first leaf.
    pub(crate) fn draft_ended(&mut self, id: Puid)
        ensures ended { AreRescued self.old.collector self.new.collector [] (id ∷ []) }
        ensures called { self.new.called ≡ self.old.called }
        ensures finished { self.new.finished ≡ self.old.finished }
    {
        if let Some(collector) = &mut self.collector {
            collector.draft_ended(id);
        }
    }
}

impl<D: Disk> Core<D> {
    /// Returns the index into which a request of a session would put an object, if there is one.
    pub(crate) fn aim(&self, who: Session, request: &Request) -> Option<Puid>
        ensures { (s : State) → ServesIs D.Disk self.now s → (reply : asked.Reply)
            → option_to_list (spec.rescue_of result request.now reply) ≡ meanwhile.rescues_of s who request.now reply }
    {
        match request {
            Request::CreateFile { index, .. }
            | Request::CreateIndex { index, .. }
            | Request::Retain { index, .. } => self.goes_to(who, *index),
            _ => None,
        }
    }

    /// Returns the object whose grant a request of a session ends, if it ends one.
    pub(crate) fn closes(&self, who: Session, request: &Request) -> Option<Puid>
        ensures { (s : State) → ServesIs D.Disk self.now s → (reply : asked.Reply)
            → spec.ended_of result reply ≡ spec.ended_by s who request.now reply }
    {
        match request {
            Request::Close { grant, .. } => self.goes_to(who, Ref::Through(*grant)),
            _ => None,
        }
    }
}
