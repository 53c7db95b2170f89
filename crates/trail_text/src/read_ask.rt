//! Requests, read by their verbs, and replies, read by their words and the form of an ok.
ghost use Rattle.std.specs.Prelude.{◌≡◌, IfOk, length};
ghost use Rattle.trail_text.specs.EventLine.{request_words};
ghost use Rattle.trail_text.specs.Read.{ok_read, refusal_read, reply_read, request_of, request_on, request_read, texts};

use crate::read_word::{
    byte_in, bytes_in, grant_in, grant_of, id_in, kind_in, mode_in, number_if_any, number_in,
    number_in_8, number_in_32, ref_in, word_at,
};
use crate::shape::Form;
use cfs_base::{Damage, Need, NoMemory};
use std::alloc::Global;
use ufs_model::{Ref, Reply, Request};

/// Returns the only request that can begin with these words.
pub fn request_in(alloc: Global, words: &[&[u8]]) -> Result<Request, NoMemory>
    ensures { IfOk result (λ request. request ≡ request_read (texts words.now)) }
{
    let verb = word_at(words, 0);
    let a = word_at(words, 1);
    let b = word_at(words, 2);
    let c = word_at(words, 3);
    if verb == b"write".as_slice() {
        let bytes = bytes_in(alloc, c)?;
        return Ok(Request::Write {
            file: ref_in(a),
            offset: number_in(b),
            bytes,
        });
    }
    Ok(request_of(verb, a, b, c, word_at(words, 4)))
}

/// Returns that request by its verb and the words after it, unless it has bytes.
fn request_of(verb: &[u8], a: &[u8], b: &[u8], c: &[u8], d: &[u8]) -> Request
    ensures { result ≡ request_of verb.now a.now b.now c.now d.now }
{
    if verb == b"create-file".as_slice() {
        Request::CreateFile {
            kind: kind_in(a),
            fill: byte_in(b),
            index: ref_in(c),
            slot: number_in(d),
        }
    } else if verb == b"create-index".as_slice() {
        let (slots, index, slot) = (number_in(a), ref_in(b), number_in(c));
        Request::CreateIndex { slots, index, slot }
    } else if verb == b"open".as_slice() {
        let (id, mode) = (id_in(a), mode_in(b));
        Request::OpenFor { id, mode }
    } else if verb == b"close".as_slice() {
        let (grant, commit) = (grant_in(a), b == b"commit".as_slice());
        Request::Close { grant, commit }
    } else {
        request_on(verb, ref_in(a), number_in(b), c)
    }
}

/// Returns that request if it names an object first, and then a slot of it or a place in it, if any.
fn request_on(verb: &[u8], to: Ref, at: u64, c: &[u8]) -> Request
    ensures { result ≡ request_on verb.now to at c.now }
{
    let (index, slot, file, offset) = (to, at, to, at);
    if verb == b"retain".as_slice() {
        let id = id_in(c);
        Request::Retain { index, slot, id }
    } else if verb == b"retrieve".as_slice() {
        Request::Retrieve { index, slot }
    } else if verb == b"delete".as_slice() {
        Request::Delete { index, slot }
    } else if verb == b"slots".as_slice() {
        Request::Slots { index }
    } else if verb == b"read".as_slice() {
        Request::Read {
            file,
            offset,
            count: number_in(c),
        }
    } else if verb == b"size".as_slice() {
        Request::Size { file }
    } else {
        Request::Resize { file, size: at }
    }
}

/// Returns how many words a request has.
pub fn words_taken(request: &Request) -> usize
    ensures { result ≡ length (request_words request.now) }
{
    match request {
        Request::Slots { .. } | Request::Size { .. } => 2,
        Request::CreateIndex { .. } | Request::Retain { .. } => 4,
        Request::Read { .. } | Request::Write { .. } => 4,
        Request::CreateFile { .. } => 5,
        _ => 3,
    }
}

/// Returns the only reply that these words can be, if an ok has this form.
pub fn reply_in(alloc: Global, form: Form, words: &[&[u8]]) -> Result<Reply, NoMemory>
    ensures { IfOk result (λ reply. reply ≡ reply_read form (texts words.now)) }
{
    if word_at(words, 0) == b"ok".as_slice() {
        ok_in(alloc, form, word_at(words, 1))
    } else {
        Ok(refusal_in(words))
    }
}

/// Returns an ok of this form.
fn ok_in(alloc: Global, form: Form, word: &[u8]) -> Result<Reply, NoMemory>
    ensures { IfOk result (λ reply. reply ≡ ok_read form word.now) }
{
    Ok(match form {
        Form::Nothing => Reply::Done,
        Form::Id => Reply::Id(id_in(word)),
        Form::Grant => Reply::Grant(grant_of(word)),
        Form::Number => Reply::Number(number_in(word)),
        Form::Content => Reply::Content(bytes_in(alloc, word)?),
    })
}

fn refusal_in(words: &[&[u8]]) -> Reply
    ensures { result ≡ refusal_read (texts words.now) }
{
    let why = word_at(words, 1);
    let a = word_at(words, 2);
    let b = word_at(words, 3);
    if why == b"memory".as_slice() {
        Reply::Memory
    } else if why == b"stopped".as_slice() {
        let moment = number_in(a);
        Reply::Stopped { moment }
    } else if why == b"grant".as_slice() {
        Reply::NoGrant
    } else if why == b"object".as_slice() {
        Reply::NoObject
    } else if why == b"not-index".as_slice() {
        Reply::NotIndex
    } else if why == b"not-file".as_slice() {
        Reply::NotFile
    } else if why == b"read-only".as_slice() {
        Reply::ReadOnly
    } else if why == b"locked".as_slice() {
        Reply::Locked
    } else if why == b"slot".as_slice() {
        Reply::Slot
    } else if why == b"empty".as_slice() {
        Reply::Empty
    } else if why == b"range".as_slice() {
        Reply::Range
    } else if why == b"grants".as_slice() {
        Reply::Grants
    } else if why == b"full".as_slice() {
        let (free, need) = (number_in_32(a), number_in_32(b));
        Reply::Full(Need { free, need })
    } else if why == b"disk".as_slice() {
        let doubt = number_if_any(a);
        Reply::Disk { doubt }
    } else {
        let (block, code) = (number_in_32(a), number_in_8(b));
        let (damage, moment) = (Damage { block, code }, number_in(word_at(words, 4)));
        Reply::Damaged { damage, moment }
    }
}
