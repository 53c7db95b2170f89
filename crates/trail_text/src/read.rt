//! Lines read as events.
//!
//! The one event whose line it can be is made from the words, and then its line must be this one.
ghost use Rattle.std.specs.Prelude.{◌≡◌, ◌&&◌, true, IfErr, IfOk, map};
ghost use Rattle.std.specs.Str.{bytes_eq};
ghost use Rattle.trail_text.specs.EventLine.{event_line, fits};
ghost use Rattle.trail_text.specs.Read.{IsNoLine, ask_read, event_read, id_read, small_event_read, texts, unread_read};
ghost use Rattle.trail_text.specs.declared.fault.TrailFault.TheVariants as faults;

use crate::fault::TrailFault;
use crate::print::print_within;
use crate::read_ask::{reply_in, request_in, words_taken};
use crate::read_word::{
    id_in, number_if_any, number_in, number_in_32, word_at, words_from, words_in,
};
use crate::shape::{form_of, is_shaped};
use cfs_base::{Ids, NoMemory};
use std::alloc::Global;
use ufs_model::{Event, Unread};

/// Reads the event that fits and has this line, which is handed in without its end.
///
/// `BadLine` comes exactly if there is none. `Memory` may come in the place of any result.
pub fn read_event(alloc: Global, line: &[u8]) -> Result<Event, TrailFault>
    ensures fits { IfOk result (λ event. fits event ≡ true) }
    ensures line { IfOk result (λ event. line.now ≡ event_line event) }
    ensures bad { IfErr result (λ fault. fault ≡ faults.BadLine → IsNoLine line.now) }
{
    let words = words_in(alloc, line)?;
    let event = event_in(alloc, words.as_slice())?;
    if !is_line_of(alloc, line, &event)? {
        return Err(TrailFault::BadLine);
    }
    Ok(event)
}

/// Returns whether the event fits and this is its line.
fn is_line_of(alloc: Global, line: &[u8], event: &Event) -> Result<bool, NoMemory>
    ensures { IfOk result (λ is. is ≡ (fits event.now && bytes_eq line.now (event_line event.now))) }
{
    let printed = print_within(alloc, event)?;
    Ok(is_shaped(event) && line == printed.as_bytes())
}

/// Returns the only event that these words can be of.
fn event_in(alloc: Global, words: &[&[u8]]) -> Result<Event, NoMemory>
    ensures { IfOk result (λ event. event ≡ event_read (texts words.now)) }
{
    let verb = word_at(words, 0);
    if verb == b"ask".as_slice() {
        ask_in(alloc, words)
    } else if verb == b"vanish".as_slice() {
        let ids = ids_in(alloc, words_from(words, 2))?;
        Ok(Event::Vanish { ids })
    } else {
        Ok(small_event_in(words))
    }
}

/// Returns the only event without a request and without a list that these words can be of.
fn small_event_in(words: &[&[u8]]) -> Event
    ensures { result ≡ small_event_read (texts words.now) }
{
    let verb = word_at(words, 0);
    let a = word_at(words, 1);
    if verb == b"unread".as_slice() {
        Event::Unread {
            session: number_in_32(a),
            why: unread_in(word_at(words, 2)),
        }
    } else if verb == b"leave".as_slice() {
        Event::Leave {
            session: number_in_32(a),
            stopped: number_if_any(word_at(words, 2)),
        }
    } else if verb == b"began".as_slice() {
        Event::Began
    } else if verb == b"finished".as_slice() {
        Event::Finished
    } else {
        Event::Halted {
            moment: number_in(a),
        }
    }
}

fn ask_in(alloc: Global, words: &[&[u8]]) -> Result<Event, NoMemory>
    ensures { IfOk result (λ event. event ≡ ask_read (texts words.now)) }
{
    let asked = words_from(words, 2);
    let request = request_in(alloc, asked)?;
    let told = words_from(words_from(asked, words_taken(&request)), 1);
    let reply = reply_in(alloc, form_of(&request), told)?;
    Ok(Event::Ask {
        session: number_in_32(word_at(words, 1)),
        request,
        reply,
    })
}

fn ids_in(alloc: Global, words: &[&[u8]]) -> Result<Ids, NoMemory>
    ensures { IfOk result (λ ids. ids ≡ map id_read (texts words.now)) }
{
    let mut ids = Vec::new(alloc);
    'words: for word in words {
        ids.push(id_in(word))?;
    }
    Ok(Ids::new(ids))
}

fn unread_in(word: &[u8]) -> Unread
    ensures { result ≡ unread_read word.now }
{
    if word == b"syntax".as_slice() {
        Unread::Syntax
    } else if word == b"name".as_slice() {
        Unread::NoName
    } else {
        Unread::Memory
    }
}
