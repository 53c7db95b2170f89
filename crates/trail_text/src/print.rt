//! Events as lines.
ghost use Rattle.std.specs.Prelude.{◌≡◌, ◌++◌, ◌∷◌, IfOk, OnOk, codes, map, true};
ghost use Rattle.std.specs.List.{list_all};
ghost use Rattle.std.specs.String.{string_bytes};
ghost use Rattle.ufs_model.specs.declared.asked.Event.TheVariants as events;
ghost use Rattle.trail_text.specs.EventLine.{event_line, event_within, letters, spaced, word_within};

use crate::print_ask::{put_reply, put_request};
use crate::word::Word::{self, Number, Small, Text, To, Why};
use crate::word::put;
use cfs_base::{NoMemory, Puid, Session};
use std::alloc::Global;
use ufs_model::{Event, Ref, Reply, Request};

/// Returns the line of an event, without its end.
///
/// `NoMemory` comes only for want of memory.
pub fn print_event(alloc: Global, event: &Event) -> Result<String, NoMemory>
    ensures { IfOk result (λ line. string_bytes line ≡ event_line event.now) }
{
    print_within(alloc, event)
}

/// Returns the line of an event, as `print_event` does. An event that gets one is within its widths.
pub fn print_within(alloc: Global, event: &Event) -> Result<String, NoMemory>
    ensures line { IfOk result (λ line. string_bytes line ≡ event_line event.now) }
    ensures within { IfOk result (λ line. event_within event.now ≡ true) }
{
    match event {
        Event::Unread { session, why } => {
            line_of(alloc, "unread", &[Small(*session), Why(*why)])
        }
        Event::Ask {
            session,
            request,
            reply,
        } => print_ask(alloc, *session, request, reply),
        Event::Leave {
            session,
            stopped: None,
        } => line_of(alloc, "leave", &[Small(*session)]),
        Event::Leave {
            session,
            stopped: Some(moment),
        } => line_of(alloc, "leave", &[Small(*session), Number(*moment)]),
        Event::Began => line_of(alloc, "began", &[]),
        Event::Vanish { ids } => print_vanish(alloc, ids.as_slice()),
        Event::Finished => line_of(alloc, "finished", &[]),
        Event::Halted { moment } => line_of(alloc, "halted", &[Number(*moment)]),
    }
}

/// Returns the line of these words.
pub fn line_of(alloc: Global, verb: &str, words: &[Word<'_>]) -> Result<String, NoMemory>
    ensures line { IfOk result (λ line. string_bytes line ≡ verb.now ++ spaced (map letters words.now)) }
    ensures within { IfOk result (λ line. list_all word_within words.now ≡ true) }
{
    let mut line = String::from_str(alloc, verb)?;
    put(&mut line, words)?;
    Ok(line)
}

fn print_ask(
    alloc: Global,
    session: Session,
    request: &Request,
    reply: &Reply,
) -> Result<String, NoMemory>
    ensures line { IfOk result (λ line. string_bytes line ≡ event_line (events.Ask session request.now reply.now)) }
    ensures within { IfOk result (λ line. event_within (events.Ask session request.now reply.now) ≡ true) }
{
    let mut line = line_of(alloc, "ask", &[Small(session)])?;
    put_request(&mut line, request)?;
    put(&mut line, &[Text("=")])?;
    put_reply(&mut line, reply)?;
    Ok(line)
}

fn print_vanish(alloc: Global, ids: &[Puid]) -> Result<String, NoMemory>
    ensures line { IfOk result (λ line. string_bytes line ≡ event_line (events.Vanish ids.now)) }
    ensures within { IfOk result (λ line. event_within (events.Vanish ids.now) ≡ true) }
{
    let mut line = line_of(alloc, "vanish", &[Number(ids.len() as u64)])?;
    'ids: for id in ids {
        put(&mut line, &[To(Ref::Direct(*id))])?;
    }
    Ok(line)
}
