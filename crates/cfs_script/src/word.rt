//! What single words say.
ghost use Rattle.std.specs.Prelude.{◌≡◌, ◌*◌, Ok, IsErr, MatchOption, length, unwrap_or};
ghost use Rattle.std.specs.Bool.{MatchBool};
ghost use Rattle.hex.specs.Hex.{decode_of, hex_digit_value};
ghost use Rattle.std.specs.List.{list_all};
ghost use Rattle.std.specs.Char.{is_ascii_digit};
ghost use Rattle.ufs_model.specs.Spoken.{Bad, Is, Reading, ◌⊛◌};
ghost use Rattle.ufs_model.specs.Spoken.{byte_in, hex_in, commit_in, digits_in, grant_in, id_in, kind_in, mode_in};
ghost use Rattle.ufs_model.specs.Spoken.{number_in, ref_in};
ghost use Rattle.cfs_script.specs.NameTable.{names_of};
ghost use Rattle.cfs_script.specs.Read.{AnswersReading};

use crate::fault::ScriptFault;
use crate::name::{is_id_digits, is_name};
use crate::names::Names;
use cfs_base::{Bytes, FileKind, Mode, Puid, Tuid};
use hex::FromHex;
use std::alloc::Global;
use ufs_model::{Bound, Ref};

/// Returns whether the word has only decimal digits.
fn has_digits(word: &[u8]) -> bool
    ensures { result ≡ list_all is_ascii_digit word.now }
{
    word.iter().all(|byte| byte.is_ascii_digit())
}

/// Returns the number that the word writes: 1 to 20 decimal digits, within a u64.
pub fn number_of(word: &[u8]) -> Option<u64>
    ensures { MatchOption result (number_in word.now ≡ Bad) (λ number. number_in word.now ≡ Is number) }
{
    if word.is_empty() || word.len() > 20 || !has_digits(word) {
        return None;
    }
    let Ok(text) = str::from_utf8(word) else {
        return None;
    };
    match text.parse() {
        Ok(number) => Some(number),
        Err(_) => None,
    }
}

/// Reads such a number as a word of a line.
pub fn number_in(word: &[u8]) -> Result<u64, ScriptFault>
    ensures { AnswersReading result (number_in word.now) }
{
    match number_of(word) {
        Some(number) => Ok(number),
        None => Err(ScriptFault::Syntax),
    }
}

/// Returns the value of a hexadecimal digit, or 16 for another byte.
fn digit_value(byte: u8) -> u8
    ensures { result ≡ unwrap_or (hex_digit_value byte) 16 }
{
    match byte {
        b'0'..=b'9' => byte - b'0',
        b'a'..=b'f' => byte - b'a' + 10,
        b'A'..=b'F' => byte - b'A' + 10,
        _ => 16,
    }
}

/// Reads two digits for each byte, without a branch on them, and returns whether all were digits.
fn read_digits(digits: &[u8], into: &mut [u8]) -> bool
    requires { length digits.now ≡ 2 * length into.old }
    ensures { MatchBool result (decode_of digits.now ≡ Ok into.new) (IsErr (decode_of digits.now)) }
{
    let mut most: u8 = 0;
    'bytes: for at in 0..into.len() {
        let high = digit_value(digits[2 * at]);
        let low = digit_value(digits[2 * at + 1]);
        most = most.max(high).max(low);
        into[at] = high.wrapping_mul(16).wrapping_add(low);
    }
    most < 16
}

/// Reads the bytes that the word writes: two hexadecimal digits or more, of an even number.
pub fn bytes_in(alloc: Global, word: &[u8]) -> Result<Bytes, ScriptFault>
    ensures { AnswersReading result (hex_in word.now) }
{
    if word.is_empty() || word.len() % 2 != 0 {
        return Err(ScriptFault::Syntax);
    }
    let Ok(mut bytes) = vec![in alloc; 0; word.len() / 2] else {
        return Err(ScriptFault::Memory);
    };
    if !read_digits(word, bytes.as_mut_slice()) {
        return Err(ScriptFault::Syntax);
    }
    Ok(Bytes::new(bytes))
}

/// Reads the byte that the word writes: two hexadecimal digits.
pub fn byte_in(word: &[u8]) -> Result<u8, ScriptFault>
    ensures { AnswersReading result (byte_in word.now) }
{
    let Ok(bytes) = <[u8; 1]>::from_hex(word) else {
        return Err(ScriptFault::Syntax);
    };
    let [byte] = bytes;
    Ok(byte)
}

/// Reads the kind of file that the word names.
pub fn kind_in(word: &[u8]) -> Result<FileKind, ScriptFault>
    ensures { AnswersReading result (kind_in word.now) }
{
    if word == b"normal".as_slice() {
        Ok(FileKind::Normal)
    } else if word == b"special".as_slice() {
        Ok(FileKind::Special)
    } else {
        Err(ScriptFault::Syntax)
    }
}

/// Reads how an object is to be opened.
pub fn mode_in(word: &[u8]) -> Result<Mode, ScriptFault>
    ensures { AnswersReading result (mode_in word.now) }
{
    if word == b"read".as_slice() {
        Ok(Mode::Reading)
    } else if word == b"write".as_slice() {
        Ok(Mode::Writing)
    } else {
        Err(ScriptFault::Syntax)
    }
}

/// Reads whether a draft is to become the file.
pub fn commit_in(word: &[u8]) -> Result<bool, ScriptFault>
    ensures { AnswersReading result (commit_in word.now) }
{
    if word == b"commit".as_slice() {
        Ok(true)
    } else if word == b"abort".as_slice() {
        Ok(false)
    } else {
        Err(ScriptFault::Syntax)
    }
}

/// Returns the identifier that the word writes: 16 hexadecimal digits.
pub fn id_of(word: &[u8]) -> Option<Puid>
    ensures { MatchOption result (digits_in word.now ≡ Bad) (λ id. digits_in word.now ≡ Is id) }
{
    let Ok(bytes) = <[u8; 8]>::from_hex(word) else {
        return None;
    };
    let [a, b, c, d, e, f, g, h] = bytes;
    Some(Puid {
        block: u32::from_be_bytes([a, b, c, d]),
        word: u32::from_be_bytes([e, f, g, h]),
    })
}

/// Reads such an identifier as a word of a line.
fn digits_in(word: &[u8]) -> Result<Puid, ScriptFault>
    ensures { AnswersReading result (digits_in word.now) }
{
    match id_of(word) {
        Some(id) => Ok(id),
        None => Err(ScriptFault::Syntax),
    }
}

/// Reads the identifier of a word: `root`, 16 hexadecimal digits, or a name.
pub fn id_in(names: &Names, word: &[u8]) -> Result<Puid, ScriptFault>
    ensures { AnswersReading result (id_in (names_of names.now) word.now) }
{
    if word == b"root".as_slice() {
        return Ok(names.root());
    }
    if is_id_digits(word) {
        return digits_in(word);
    }
    if !is_name(word) {
        return Err(ScriptFault::Syntax);
    }
    match names.find(word) {
        Some(Bound::Permanent(id)) => Ok(id),
        _ => Err(ScriptFault::NoName),
    }
}

/// Reads what a request goes to: a word as in `id_in`, or a name that is bound to a grant.
pub fn ref_in(names: &Names, word: &[u8]) -> Result<Ref, ScriptFault>
    ensures { AnswersReading result (ref_in (names_of names.now) word.now) }
{
    if word == b"root".as_slice() {
        return Ok(Ref::Direct(names.root()));
    }
    if is_id_digits(word) {
        return Ok(Ref::Direct(digits_in(word)?));
    }
    if !is_name(word) {
        return Err(ScriptFault::Syntax);
    }
    match names.find(word) {
        Some(Bound::Permanent(id)) => Ok(Ref::Direct(id)),
        Some(Bound::Temporary(grant)) => Ok(Ref::Through(grant)),
        None => Err(ScriptFault::NoName),
    }
}

/// Reads the grant to which the name is bound.
pub fn grant_in(names: &Names, word: &[u8]) -> Result<Tuid, ScriptFault>
    ensures { AnswersReading result (grant_in (names_of names.now) word.now) }
{
    if !is_name(word) {
        return Err(ScriptFault::Syntax);
    }
    match names.find(word) {
        Some(Bound::Temporary(grant)) => Ok(grant),
        _ => Err(ScriptFault::NoName),
    }
}

/// Returns both, if both could be read.
///
/// `Syntax` comes before `Memory`, and `Memory` before `NoName`.
pub fn both<A: Drop, B: Drop>(
    a: Result<A, ScriptFault>,
    b: Result<B, ScriptFault>,
) -> Result<(A, B), ScriptFault>
    ensures { (r : Reading A) (s : Reading B) → AnswersReading a r → AnswersReading b s
        → AnswersReading result (Is (λ x y. (x, y)) ⊛ r ⊛ s) }
{
    match (a, b) {
        (Ok(a), Ok(b)) => Ok((a, b)),
        (Err(ScriptFault::Syntax), _) | (_, Err(ScriptFault::Syntax)) => Err(ScriptFault::Syntax),
        (Err(ScriptFault::Memory), _) | (_, Err(ScriptFault::Memory)) => Err(ScriptFault::Memory),
        (Err(ScriptFault::NoName), _) | (_, Err(ScriptFault::NoName)) => Err(ScriptFault::NoName),
    }
}
