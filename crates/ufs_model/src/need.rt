//! How many blocks a request may take.
ghost use Rattle.std.specs.Prelude.{◌≡◌, ◌+◌, ◌<◌, ◌&&◌, ◌==◌, not, is_none, IfOk, None, nat_lt};
ghost use Rattle.ufs_model.specs.Graph.{object_at};
ghost use Rattle.ufs_model.specs.Limits.{reserve};
ghost use Rattle.ufs_model.specs.Next.{is_direct_delete};
ghost use Rattle.ufs_model.specs.Need.{change_need, in_place_need, is_normal, need_of, takes_draft};
ghost use Rattle.ufs_model.specs.Object.{IsInside, held_levels};
ghost use Rattle.ufs_model.specs.Refusal.{refusal_of};
ghost use Rattle.ufs_model.specs.State.{seen};
ghost use Rattle.ufs_model.specs.WellFormed.{IsState};
ghost use Rattle.std.specs.Option.{option_copied};

use crate::asked::{Ref, Request};
use crate::change::Change;
use crate::limits::RESERVE;
use crate::numbers::Levels;
use crate::object::{Index, Object};
use crate::server::Server;
use cfs_base::{Bytes, FileKind, Mode, Need, NoMemory, Puid, Session};
use std::alloc::{AllocError, Global};

impl Object {
    /// Returns whether the object is a normal file.
    fn is_normal(&self) -> bool
        ensures { result ≡ is_normal self.now }
    {
        matches!(self, Object::File(file) if file.kind == FileKind::Normal)
    }

    /// Returns the leaves that the object holds, and the nodes above them.
    fn held_levels(&self, alloc: Global) -> Result<Levels, AllocError>
        ensures { IfOk result (λ levels. levels ≡ held_levels self.now) }
    {
        Levels::above(alloc, self.held().copy(alloc)?)
    }
}

/// Returns whether so few blocks are Free that the request would take one of the last four.
fn is_short(need: Need) -> bool
    ensures { result ≡ nat_lt need.free (need.need + reserve) }
{
    u64::from(need.free) < u64::from(need.need) + u64::from(RESERVE)
}

/// Returns whether an object that is opened in this mode gets a draft.
pub(crate) fn takes_draft(object: Option<&Object>, mode: Mode) -> bool
    ensures { result ≡ takes_draft mode (option_copied object.entry) }
{
    match object {
        Some(Object::File(file)) => mode == Mode::Writing && file.kind == FileKind::Special,
        Some(Object::Index(_)) => mode == Mode::Writing,
        None => false,
    }
}

/// Returns whether the request is a delete that goes through no grant.
fn is_direct_delete(request: &Request) -> bool
    ensures { result ≡ is_direct_delete request.now }
{
    matches!(
        request,
        Request::Delete {
            index: Ref::Direct(_),
            ..
        }
    )
}

impl Server {
    /// Returns whether the request may be refused for want of blocks.
    pub fn is_full(
        &self,
        alloc: Global,
        who: Session,
        request: &Request,
        need: Need,
    ) -> Result<bool, NoMemory>
        requires { IsState self.now.state }
        ensures { IfOk result (λ full. full ≡ (is_none (refusal_of self.now.state who request.now)
            && not (is_direct_delete request.now)
            && (need.need == need_of self.now.state who request.now) && nat_lt need.free (need.need + reserve))) }
    {
        if self.refusal(who, request).is_some() {
            return Ok(false);
        }
        if is_direct_delete(request) {
            return Ok(false);
        }
        let needed = self.need(alloc, who, request)?;
        Ok(u128::from(need.need) == needed && is_short(need))
    }

    /// Returns how many blocks the request may take, if it is not refused.
    pub fn need(&self, alloc: Global, who: Session, request: &Request) -> Result<u128, NoMemory>
        requires state { IsState self.now.state }
        requires refused { refusal_of self.now.state who request.now ≡ None }
        ensures { IfOk result (λ need. need ≡ need_of self.now.state who request.now) }
    {
        match request {
            Request::CreateFile { index, slot, .. } | Request::CreateIndex { index, slot, .. } => {
                let what = None;
                let need = self.change_need(
                    alloc,
                    who,
                    *index,
                    &Change::Fill { slot: *slot, what },
                )?;
                Ok(1 + need)
            }
            Request::Retain { index, slot, id } => {
                let what = Some(*id);
                self.change_need(alloc, who, *index, &Change::Fill { slot: *slot, what })
            }
            Request::Delete { index, slot } => {
                let what = None;
                self.change_need(alloc, who, *index, &Change::Fill { slot: *slot, what })
            }
            Request::Write {
                file,
                offset,
                bytes,
            } => {
                let bytes = Bytes::new(bytes.as_slice().to_vec(alloc)?);
                let offset = *offset;
                self.change_need(alloc, who, *file, &Change::Overwrite { offset, bytes })
            }
            Request::Resize { file, size } => {
                self.change_need(alloc, who, *file, &Change::SetSize { size: *size })
            }
            Request::OpenFor { id, mode } => { Ok(u128::from(self.drafts(*id, *mode))) }
            _ => Ok(0),
        }
    }

    /// Returns whether the object with this identifier gets a draft when it is opened in this mode.
    fn drafts(&self, id: Puid, mode: Mode) -> bool
        ensures { result ≡ takes_draft mode (object_at self.now.state.graph id) }
    {
        takes_draft(self.objects.get(&id), mode)
    }

    /// Returns how many blocks a change of what the reference shows may take.
    fn change_need(
        &self,
        alloc: Global,
        who: Session,
        reference: Ref,
        change: &Change,
    ) -> Result<u128, NoMemory>
        requires { IsInside change.now (seen self.now.state who reference).object }
        ensures need { IfOk result (λ need. need ≡ change_need self.now.state who reference change.now) }
        ensures small { IfOk result (λ need. need < 340282366920938463463374607431768211455) }
    {
        let nothing = Object::Index(Index::of_slots(alloc, 0)?);
        let none = Levels::empty(alloc);
        let object = self.seen(who, reference).unwrap_or(&nothing);
        if object.is_normal() {
            return Ok(in_place_need(alloc, object, change)?);
        }
        match self.draft(who, reference) {
            Some(draft) => {
                let anew = object.written_anew(alloc, change, &draft.fresh)?;
                Ok(anew.missing(alloc, &draft.fresh))
            }
            None => {
                let anew = object.written_anew(alloc, change, &none)?;
                Ok(anew.missing(alloc, &none) + 1)
            }
        }
    }
}

/// Returns how many blocks a change of a normal file takes: those that the file doesn't hold yet.
fn in_place_need(alloc: Global, object: &Object, change: &Change) -> Result<u128, AllocError>
    requires { IsInside change.now object.now }
    ensures need { IfOk result (λ need. need ≡ in_place_need change.now object.now) }
    ensures small { IfOk result (λ need. need < 340282366920938463463374607431768211455) }
{
    let Change::Overwrite { .. } = change else {
        return Ok(0);
    };
    let anew = object.written_anew(alloc, change, &Levels::empty(alloc))?;
    Ok(anew.missing(alloc, &object.held_levels(alloc)?))
}
