//! Requests and replies as they are written in a line.
ghost use Rattle.std.specs.Prelude.{◌≡◌, ◌++◌, ◌∷◌, OnOk, codes, map, true};
ghost use Rattle.std.specs.List.{list_all};
ghost use Rattle.std.specs.String.{string_bytes};
ghost use Rattle.trail_text.specs.EventLine.{letters, reply_within, reply_words, request_within, request_words, spaced};
ghost use Rattle.trail_text.specs.EventLine.{word_within};

use crate::word::Word::{self, Byte, Code, Commit, For, Hex, Kind, Number, Small, Text, To};
use crate::word::put;
use cfs_base::{NoMemory, Puid};
use ufs_model::{Ref, Reply, Request};

/// Appends the request to the line.
pub fn put_request(line: &mut String, request: &Request) -> Result<(), NoMemory>
    ensures line { OnOk result (string_bytes line.new ≡ string_bytes line.old ++ spaced (request_words request.now)) }
    ensures within { OnOk result (request_within request.now ≡ true) }
{
    match request {
        Request::CreateFile {
            kind,
            fill,
            index,
            slot,
        } => {
            let (kind, fill) = (Kind(*kind), Byte(*fill));
            let words = [Text("create-file"), kind, fill, To(*index), Number(*slot)];
            put(line, &words)
        }
        Request::CreateIndex { slots, index, slot } => put(
            line,
            &[
                Text("create-index"),
                Number(*slots),
                To(*index),
                Number(*slot),
            ],
        ),
        Request::Retain { index, slot, id } => {
            let id = To(Ref::Direct(*id));
            put(line, &[Text("retain"), To(*index), Number(*slot), id])
        }
        Request::Retrieve { index, slot } => {
            put(line, &[Text("retrieve"), To(*index), Number(*slot)])
        }
        Request::Delete { index, slot } => {
            put(line, &[Text("delete"), To(*index), Number(*slot)])
        }
        Request::Slots { index } => put(line, &[Text("slots"), To(*index)]),
        Request::OpenFor { id, mode } => {
            put(line, &[Text("open"), To(Ref::Direct(*id)), For(*mode)])
        }
        Request::Close { grant, commit } => {
            let grant = To(Ref::Through(*grant));
            put(line, &[Text("close"), grant, Commit(*commit)])
        }
        Request::Read {
            file,
            offset,
            count,
        } => put(
            line,
            &[Text("read"), To(*file), Number(*offset), Number(*count)],
        ),
        Request::Write {
            file,
            offset,
            bytes,
        } => {
            let bytes = Hex(bytes.as_slice());
            put(line, &[Text("write"), To(*file), Number(*offset), bytes])
        }
        Request::Size { file } => put(line, &[Text("size"), To(*file)]),
        Request::Resize { file, size } => put(line, &[Text("resize"), To(*file), Number(*size)]),
    }
}

/// Appends a refusal to the line.
fn put_no(line: &mut String, why: &str, numbers: &[Word<'_>]) -> Result<(), NoMemory>
    ensures line { OnOk result (string_bytes line.new
        ≡ string_bytes line.old ++ spaced (codes "no" ∷ why.now ∷ map letters numbers.now)) }
    ensures within { OnOk result (list_all word_within numbers.now ≡ true) }
{
    put(line, &[Text("no"), Text(why)])?;
    put(line, numbers)
}

/// Appends the reply to the line.
pub fn put_reply(line: &mut String, reply: &Reply) -> Result<(), NoMemory>
    ensures line { OnOk result (string_bytes line.new ≡ string_bytes line.old ++ spaced (reply_words reply.now)) }
    ensures within { OnOk result (reply_within reply.now ≡ true) }
{
    match reply {
        Reply::Done => put(line, &[Text("ok")]),
        Reply::Id(id) => put(line, &[Text("ok"), To(Ref::Direct(*id))]),
        Reply::Grant(grant) => {
            let (block, word) = (grant.draw, grant.word);
            put(line, &[Text("ok"), To(Ref::Direct(Puid { block, word }))])
        }
        Reply::Number(number) => put(line, &[Text("ok"), Number(*number)]),
        Reply::Content(bytes) => put(line, &[Text("ok"), Hex(bytes.as_slice())]),
        Reply::Memory => put_no(line, "memory", &[]),
        Reply::Stopped { moment } => put_no(line, "stopped", &[Number(*moment)]),
        Reply::NoGrant => put_no(line, "grant", &[]),
        Reply::NoObject => put_no(line, "object", &[]),
        Reply::NotIndex => put_no(line, "not-index", &[]),
        Reply::NotFile => put_no(line, "not-file", &[]),
        Reply::ReadOnly => put_no(line, "read-only", &[]),
        Reply::Locked => put_no(line, "locked", &[]),
        Reply::Slot => put_no(line, "slot", &[]),
        Reply::Empty => put_no(line, "empty", &[]),
        Reply::Range => put_no(line, "range", &[]),
        Reply::Grants => put_no(line, "grants", &[]),
        Reply::Full(need) => put_no(line, "full", &[Small(need.free), Small(need.need)]),
        Reply::Disk { doubt: None } => put_no(line, "disk", &[]),
        Reply::Disk {
            doubt: Some(moment),
        } => put_no(line, "disk", &[Number(*moment)]),
        Reply::Damaged { damage, moment } => {
            let (block, code) = (Small(damage.block), Code(damage.code));
            put_no(line, "damaged", &[block, code, Number(*moment)])
        }
    }
}
