//! Words, each read as what its place wants. A word that can't be read so counts as nothing.
ghost use Rattle.std.specs.Prelude.{◌≡◌, ◌<◌, ◌==◌, IfOk, drop, length};
ghost use Rattle.trail_text.specs.Read.{as_grant, byte_read, bytes_read, grant_read, id_read, kind_read, mode_read};
ghost use Rattle.trail_text.specs.Read.{number_if_any, number_read, read_32, read_8, ref_read, texts, word_at};
ghost use Rattle.trail_text.specs.Read.{words_in};

use cfs_base::{Bytes, FileKind, Mode, NoMemory, Puid, Tuid};
use cfs_script::number_of;
use hex::{FromHex, FromHexError};
use std::alloc::Global;
use ufs_model::Ref;

/// Returns the parts of the line between spaces.
pub fn words_in(alloc: Global, line: &[u8]) -> Result<Vec<&[u8]>, NoMemory>
    ensures { IfOk result (λ words. texts words.items ≡ words_in line.now) }
{
    Ok(line.split(|byte| *byte == b' ').collect(alloc)?)
}

/// Returns the word at this place, which is empty past the last.
pub fn word_at<'a>(words: &[&'a [u8]], at: usize) -> &'a [u8]
    ensures { result.now ≡ word_at (texts words.now) at }
{
    match words.get(at) {
        Some(word) => word,
        None => &[],
    }
}

/// Returns the words from this place on.
pub fn words_from<'a>(words: &'a [&'a [u8]], at: usize) -> &'a [&'a [u8]]
    ensures { texts result.now ≡ drop at (texts words.now) }
{
    &words[at.min(words.len())..]
}

/// Returns the number that the word writes, or 0.
pub fn number_in(word: &[u8]) -> u64
    ensures { result ≡ number_read word.now }
{
    number_of(word).unwrap_or(0)
}

/// Returns the number of 32 bits that the word writes, or 0.
pub fn number_in_32(word: &[u8]) -> u32
    ensures { result ≡ read_32 word.now }
{
    u32::try_from(number_in(word)).unwrap_or(0)
}

/// Returns the number of 8 bits that the word writes, or 0.
pub fn number_in_8(word: &[u8]) -> u8
    ensures { result ≡ read_8 word.now }
{
    u8::try_from(number_in(word)).unwrap_or(0)
}

/// Returns the number, if there is a word.
pub fn number_if_any(word: &[u8]) -> Option<u64>
    ensures { result ≡ number_if_any word.now }
{
    if word.is_empty() {
        return None;
    }
    Some(number_in(word))
}

/// Returns the byte that two hexadecimal digits write, or 0.
pub fn byte_in(word: &[u8]) -> u8
    ensures { result ≡ byte_read word.now }
{
    let Ok(bytes) = <[u8; 1]>::from_hex(word) else {
        return 0;
    };
    let [byte] = bytes;
    byte
}

/// Returns the bytes that hexadecimal digits write, or none.
pub fn bytes_in(alloc: Global, word: &[u8]) -> Result<Bytes, NoMemory>
    ensures { IfOk result (λ bytes. bytes ≡ bytes_read word.now) }
{
    match hex::decode(alloc, word) {
        Ok(bytes) => Ok(Bytes::new(bytes)),
        Err(FromHexError::OutOfMemory) => Err(NoMemory),
        Err(_) => Ok(Bytes::new(Vec::new(alloc))),
    }
}

/// Returns the identifier that 16 hexadecimal digits write, or that of block 0 and word 0.
pub fn id_in(word: &[u8]) -> Puid
    ensures { result ≡ id_read word.now }
{
    let Ok(bytes) = <[u8; 8]>::from_hex(word) else {
        return Puid { block: 0, word: 0 };
    };
    let [a, b, c, d, e, f, g, h] = bytes;
    Puid {
        block: u32::from_be_bytes([a, b, c, d]),
        word: u32::from_be_bytes([e, f, g, h]),
    }
}

/// Returns the grant with these digits.
pub fn grant_of(digits: &[u8]) -> Tuid
    ensures { result ≡ as_grant (id_read digits.now) }
{
    let id = id_in(digits);
    Tuid {
        draw: id.block,
        word: id.word,
    }
}

/// Returns the grant with the digits after a mark.
pub fn grant_in(word: &[u8]) -> Tuid
    ensures { result ≡ grant_read word.now }
{
    grant_of(word.get(1..).unwrap_or(&[]))
}

/// Returns the reference that a word writes. A grant has one byte more than an identifier.
pub fn ref_in(word: &[u8]) -> Ref
    ensures { result ≡ ref_read word.now }
{
    if word.len() == 17 {
        Ref::Through(grant_in(word))
    } else {
        Ref::Direct(id_in(word))
    }
}

/// Returns `Normal` for the word `normal`, and `Special` for any other.
pub fn kind_in(word: &[u8]) -> FileKind
    ensures { result ≡ kind_read word.now }
{
    if word == b"normal".as_slice() {
        FileKind::Normal
    } else {
        FileKind::Special
    }
}

/// Returns `Reading` for the word `read`, and `Writing` for any other.
pub fn mode_in(word: &[u8]) -> Mode
    ensures { result ≡ mode_read word.now }
{
    if word == b"read".as_slice() {
        Mode::Reading
    } else {
        Mode::Writing
    }
}
