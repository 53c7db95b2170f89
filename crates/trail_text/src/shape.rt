//! The shapes of events that fit a line.
ghost use Rattle.std.specs.Prelude.{◌≡◌};
ghost use Rattle.ufs_model.specs.Identifier.{ids_rise, rise_from};
ghost use Rattle.trail_text.specs.EventLine.{event_shaped, form_told, reply_shaped, request_shaped};

use cfs_base::Puid;
use std::cmp::Ordering;
use ufs_model::{Event, Reply, Request};

/// What an ok reports.
#[derive(Clone, Copy, Debug, PartialEq, Eq)]
pub enum Form {
    /// Only that the request was done.
    Nothing,
    /// An identifier.
    Id,
    /// A grant's identifier.
    Grant,
    /// A number.
    Number,
    /// Bytes.
    Content,
}

/// Returns what an ok to the request reports.
pub fn form_of(request: &Request) -> Form
    ensures { result ≡ form_told request.now }
{
    match request {
        Request::CreateFile { .. } | Request::CreateIndex { .. } => Form::Id,
        Request::Retrieve { .. } => Form::Id,
        Request::OpenFor { .. } => Form::Grant,
        Request::Slots { .. } | Request::Size { .. } => Form::Number,
        Request::Read { .. } => Form::Content,
        _ => Form::Nothing,
    }
}

/// Returns whether an event has the shape of one that fits a line.
///
/// An ok reply has the form that its request asks for, what is read or written has at least one byte, and each
/// identifier that vanishes is above the one before it.
pub fn is_shaped(event: &Event) -> bool
    ensures { result ≡ event_shaped event.now }
{
    match event {
        Event::Ask { request, reply, .. } => {
            is_request_shaped(request) && is_reply_shaped(reply, form_of(request))
        }
        Event::Vanish { ids } => ids_rise(ids.as_slice()),
        _ => true,
    }
}

fn is_request_shaped(request: &Request) -> bool
    ensures { result ≡ request_shaped request.now }
{
    match request {
        Request::Write { bytes, .. } => !bytes.as_slice().is_empty(),
        _ => true,
    }
}

fn is_reply_shaped(reply: &Reply, form: Form) -> bool
    ensures { result ≡ reply_shaped reply.now form }
{
    match reply {
        Reply::Done => matches!(form, Form::Nothing),
        Reply::Id(_) => matches!(form, Form::Id),
        Reply::Grant(_) => matches!(form, Form::Grant),
        Reply::Number(_) => matches!(form, Form::Number),
        Reply::Content(bytes) => matches!(form, Form::Content) && !bytes.as_slice().is_empty(),
        _ => true,
    }
}

/// Returns whether each identifier is above the one before it.
fn ids_rise(ids: &[Puid]) -> bool
    ensures { result ≡ ids_rise ids.now }
{
    match ids {
        [] => true,
        [first, rest @ ..] => rise_from(*first, rest),
    }
}

/// Returns whether each identifier is above the one before it, and the first above `last`.
fn rise_from(mut last: Puid, ids: &[Puid]) -> bool
    ensures { result ≡ rise_from last ids.now }
{
    'ids: for id in ids {
        match last.cmp(id) {
            Ordering::Less => last = *id,
            Ordering::Equal | Ordering::Greater => return false,
        }
    }
    true
}
