//! Replies, written into a vector that has room for them. Nothing here takes memory.
ghost use Rattle.std.specs.Prelude.{◌≡◌, ◌+◌, ◌*◌, ◌≤◌, ◌++◌, ◌∷◌, [], length, map, codes};
ghost use Rattle.std.specs.Vec.{vec_len, vec_capacity};
ghost use Rattle.std.specs.Fmt.{decimal};
ghost use Rattle.std.specs.Int.{w32, to_be_bytes};
ghost use Rattle.hex.specs.Hex.{encode_lower};
ghost use Rattle.ufs_model.specs.Printed.{line_of, reply_line, unread_line};
ghost use Rattle.cfs_script.specs.Room.{FitsLine};

use itoa::Buffer;
use ufs_model::{Reply, Unread};

/// How many bytes of room `print_reply` needs.
pub const REPLY_ROOM: usize = 8_256;

/// Appends the text.
fn put(into: &mut Vec<u8>, text: &[u8])
    requires { vec_len into.old + length text.now ≤ vec_capacity into.old }
    ensures items { into.new.items ≡ into.old.items ++ text.now }
    ensures len { vec_len into.new ≡ vec_len into.old + length text.now }
    ensures capacity { vec_capacity into.old ≤ vec_capacity into.new }
{
    let _ = into.extend_from_slice(text);
}

/// Appends a space and the number.
fn put_number(into: &mut Vec<u8>, number: u64)
    requires { vec_len into.old + 21 ≤ vec_capacity into.old }
    ensures items { into.new.items ≡ into.old.items ++ 32 ∷ decimal number }
    ensures len { vec_len into.new ≤ vec_len into.old + 21 }
    ensures capacity { vec_capacity into.old ≤ vec_capacity into.new }
{
    let mut buffer = Buffer::new();
    let digits = buffer.format(number).as_bytes();
    put(into, b" ");
    put(into, digits);
}

/// Appends the bytes as hexadecimal digits.
fn put_hex(into: &mut Vec<u8>, bytes: &[u8])
    requires { vec_len into.old + 2 * length bytes.now ≤ vec_capacity into.old }
    ensures items { into.new.items ≡ into.old.items ++ encode_lower bytes.now }
    ensures len { vec_len into.new ≡ vec_len into.old + 2 * length bytes.now }
    ensures capacity { vec_capacity into.old ≤ vec_capacity into.new }
{
    let start = into.len();
    let _ = into.resize(start + 2 * bytes.len(), 0);
    let _ = hex::encode_to_slice(bytes, &mut into.as_mut_slice()[start..]);
}

/// Appends the line of these words and numbers. Takes no memory.
pub fn put_line(into: &mut Vec<u8>, words: &[u8], numbers: &[u64])
    requires { vec_len into.old + length words.now + 21 * length numbers.now + 1 ≤ vec_capacity into.old }
    ensures items { into.new.items ≡ into.old.items ++ line_of (words.now ∷ map decimal numbers.now) }
    ensures capacity { vec_capacity into.old ≤ vec_capacity into.new }
{
    put(into, words);
    for number in numbers {
        put_number(into, *number);
    }
    put(into, b"\n");
}

/// Appends the line of an ok and these bytes.
fn put_ok(into: &mut Vec<u8>, bytes: &[u8])
    requires { vec_len into.old + 2 * length bytes.now + 4 ≤ vec_capacity into.old }
    ensures items { into.new.items ≡ into.old.items ++ line_of (codes "ok" ∷ encode_lower bytes.now ∷ []) }
    ensures capacity { vec_capacity into.old ≤ vec_capacity into.new }
{
    put(into, b"ok ");
    put_hex(into, bytes);
    put(into, b"\n");
}

/// Returns the bytes of an identifier.
fn id_bytes(high: u32, low: u32) -> [u8; 8]
    ensures { result ≡ to_be_bytes w32 high ++ to_be_bytes w32 low }
{
    let [a, b, c, d] = high.to_be_bytes();
    let [e, f, g, h] = low.to_be_bytes();
    [a, b, c, d, e, f, g, h]
}

/// Appends the line of the reply. Takes no memory.
pub fn print_reply(reply: &Reply, into: &mut Vec<u8>)
    requires room { vec_len into.old + REPLY_ROOM ≤ vec_capacity into.old }
    requires fits { FitsLine reply.now }
    ensures line { into.new.items ≡ into.old.items ++ reply_line reply.now }
    ensures capacity { vec_capacity into.old ≤ vec_capacity into.new }
{
    match reply {
        Reply::Done => put_line(into, b"ok", &[]),
        Reply::Id(id) => put_ok(into, &id_bytes(id.block, id.word)),
        Reply::Grant(grant) => put_ok(into, &id_bytes(grant.draw, grant.word)),
        Reply::Number(number) => put_line(into, b"ok", &[*number]),
        Reply::Content(bytes) => put_ok(into, bytes.as_slice()),
        Reply::Memory => put_line(into, b"no memory", &[]),
        Reply::Stopped { moment } => put_line(into, b"no stopped", &[*moment]),
        Reply::NoGrant => put_line(into, b"no grant", &[]),
        Reply::NoObject => put_line(into, b"no object", &[]),
        Reply::NotIndex => put_line(into, b"no not-index", &[]),
        Reply::NotFile => put_line(into, b"no not-file", &[]),
        Reply::ReadOnly => put_line(into, b"no read-only", &[]),
        Reply::Locked => put_line(into, b"no locked", &[]),
        Reply::Slot => put_line(into, b"no slot", &[]),
        Reply::Empty => put_line(into, b"no empty", &[]),
        Reply::Range => put_line(into, b"no range", &[]),
        Reply::Grants => put_line(into, b"no grants", &[]),
        Reply::Full(need) => put_line(into, b"no full", &[need.free as u64, need.need as u64]),
        Reply::Disk { doubt: None } => put_line(into, b"no disk", &[]),
        Reply::Disk {
            doubt: Some(moment),
        } => put_line(into, b"no disk", &[*moment]),
        Reply::Damaged { damage, moment } => put_line(
            into,
            b"no damaged",
            &[damage.block as u64, damage.code as u64, *moment],
        ),
    }
}

/// Appends the reply to a request line that is no request. Takes no memory.
pub fn print_unread(why: Unread, into: &mut Vec<u8>)
    requires { vec_len into.old + length (unread_line why) ≤ vec_capacity into.old }
    ensures line { into.new.items ≡ into.old.items ++ unread_line why }
    ensures capacity { vec_capacity into.old ≤ vec_capacity into.new }
{
    match why {
        Unread::Syntax => put(into, b"no syntax\n"),
        Unread::NoName => put(into, b"no name\n"),
        Unread::Memory => put(into, b"no memory\n"),
    }
}
