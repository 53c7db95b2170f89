//! When the slow server refuses: by the first condition that holds.
ghost use Rattle.std.specs.Prelude.{◌≡◌, ◌==◌, filter, length};
ghost use Rattle.ufs_model.specs.Refusal.{finds_empty, goes_nowhere, has_all_grants, has_no_grant, has_no_object};
ghost use Rattle.ufs_model.specs.Refusal.{has_no_slot, is_locked, is_open, is_open_for_writing, is_out_of_range};
ghost use Rattle.ufs_model.specs.Refusal.{is_range, is_read_only, names_file, names_index, refusal_of, retains_nothing};

use crate::asked::{Ref, Reply, Request, Wanted};
use crate::limits::{MOST_AT_ONCE, MOST_BYTES, MOST_GRANTS, MOST_SLOTS};
use crate::object::Object;
use crate::server::Server;
use cfs_base::{Mode, Puid, Session};

/// Returns whether `count` is 1 to 4,096 and the bytes are within the size.
fn is_range(size: u64, offset: u64, count: u64) -> bool
    ensures { result ≡ is_range size offset count }
{
    0 < count && count <= MOST_AT_ONCE && offset <= size && count <= size - offset
}

impl Server {
    /// Returns the refusal of the definitions, if there is one.
    pub fn refusal(&self, who: Session, request: &Request) -> Option<Reply>
        ensures { result ≡ refusal_of self.now.state who request.now }
    {
        if self.has_no_grant(who, request) {
            Some(Reply::NoGrant)
        } else if self.has_no_object(request) {
            Some(Reply::NoObject)
        } else if self.names_file(who, request) {
            Some(Reply::NotIndex)
        } else if self.names_index(who, request) {
            Some(Reply::NotFile)
        } else if self.is_read_only(who, request) {
            Some(Reply::ReadOnly)
        } else if self.is_locked(who, request) {
            Some(Reply::Locked)
        } else if self.has_no_slot(who, request) {
            Some(Reply::Slot)
        } else if self.finds_empty(who, request) {
            Some(Reply::Empty)
        } else if self.is_out_of_range(who, request) {
            Some(Reply::Range)
        } else if self.has_all_grants(who, request) {
            Some(Reply::Grants)
        } else {
            None
        }
    }

    fn has_no_grant(&self, who: Session, request: &Request) -> bool
        ensures { result ≡ has_no_grant self.now.state who request.now }
    {
        match request.target() {
            Ref::Direct(_) => false,
            Ref::Through(t) => self.grant(who, t).is_none(),
        }
    }

    fn has_no_object(&self, request: &Request) -> bool
        ensures { result ≡ has_no_object self.now.state request.now }
    {
        self.goes_nowhere(request.target()) || self.retains_nothing(request)
    }

    fn goes_nowhere(&self, reference: Ref) -> bool
        ensures { result ≡ goes_nowhere self.now.state reference }
    {
        match reference {
            Ref::Direct(id) => !self.is_there(id),
            Ref::Through(_) => false,
        }
    }

    fn retains_nothing(&self, request: &Request) -> bool
        ensures { result ≡ retains_nothing self.now.state request.now }
    {
        match request {
            Request::Retain { id, .. } => !self.is_there(*id),
            _ => false,
        }
    }

    fn names_file(&self, who: Session, request: &Request) -> bool
        ensures { result ≡ names_file self.now.state who request.now }
    {
        match self.object(who, request.target()) {
            Some(Object::File(_)) => request.wanted() == Wanted::AnIndex,
            _ => false,
        }
    }

    fn names_index(&self, who: Session, request: &Request) -> bool
        ensures { result ≡ names_index self.now.state who request.now }
    {
        match self.object(who, request.target()) {
            Some(Object::Index(_)) => request.wanted() == Wanted::AFile,
            _ => false,
        }
    }

    fn is_read_only(&self, who: Session, request: &Request) -> bool
        ensures { result ≡ is_read_only self.now.state who request.now }
    {
        let Ref::Through(t) = request.target() else {
            return false;
        };
        match self.grant(who, t) {
            Some(grant) => request.is_changing() && grant.mode == Mode::Reading,
            None => false,
        }
    }

    fn is_open(&self, id: Puid) -> bool
        ensures { result ≡ is_open self.now.state id }
    {
        self.grants.iter().any(|g| id == g.id)
    }

    fn is_open_for_writing(&self, id: Puid) -> bool
        ensures { result ≡ is_open_for_writing self.now.state id }
    {
        self.grants
            .iter()
            .any(|g| id == g.id && g.mode == Mode::Writing)
    }

    fn is_locked(&self, who: Session, request: &Request) -> bool
        ensures { result ≡ is_locked self.now.state who request.now }
    {
        let Ref::Direct(id) = request.target() else {
            return false;
        };
        if request.is_changing() || request.opens_for_writing() {
            self.is_open(id)
        } else {
            self.is_open_for_writing(id)
        }
    }

    fn has_no_slot(&self, who: Session, request: &Request) -> bool
        ensures { result ≡ has_no_slot self.now.state who request.now }
    {
        match request.slot_named() {
            Some(slot) => self.slots_seen(who, request.target()) <= slot,
            None => false,
        }
    }

    fn finds_empty(&self, who: Session, request: &Request) -> bool
        ensures { result ≡ finds_empty self.now.state who request.now }
    {
        match request {
            Request::Retrieve { index, slot } | Request::Delete { index, slot } => {
                self.slot_seen(who, *index, *slot).is_none()
            }
            _ => false,
        }
    }

    fn is_out_of_range(&self, who: Session, request: &Request) -> bool
        ensures { result ≡ is_out_of_range self.now.state who request.now }
    {
        match request {
            Request::CreateIndex { slots, .. } => *slots == 0 || *slots > MOST_SLOTS,
            Request::Read {
                file,
                offset,
                count,
            } => !is_range(self.bytes_seen(who, *file).len() as u64, *offset, *count),
            Request::Write {
                file,
                offset,
                bytes,
            } => !is_range(
                self.bytes_seen(who, *file).len() as u64,
                *offset,
                bytes.as_slice().len() as u64,
            ),
            Request::Resize { size, .. } => *size > MOST_BYTES,
            _ => false,
        }
    }

    fn has_all_grants(&self, who: Session, request: &Request) -> bool
        ensures { result ≡ has_all_grants self.now.state who request.now }
    {
        match request {
            Request::OpenFor { .. } => { self.grants_of(who) as u64 >= MOST_GRANTS }
            _ => false,
        }
    }

    /// Returns how many grants the session has.
    fn grants_of(&self, who: Session) -> usize
        ensures { result ≡ length (filter (λ g. g.session == who) self.now.state.grants) }
    {
        self.grants.iter().filter(|g| g.session == who).count()
    }
}
