//! The words of which lines are made.
ghost use Rattle.std.specs.Prelude.{◌≡◌, ◌++◌, ◌∷◌, OnOk, codes, map, true};
ghost use Rattle.std.specs.List.{list_all};
ghost use Rattle.std.specs.Fmt.{decimal};
ghost use Rattle.std.specs.Int.{w32, to_be_bytes};
ghost use Rattle.hex.specs.Hex.{encode_lower};
ghost use Rattle.std.specs.String.{string_bytes};
ghost use Rattle.ufs_model.specs.Printed.{id_digits};
ghost use Rattle.trail_text.specs.EventLine.{letters, spaced, word_within};

use cfs_base::{FileKind, Mode, NoMemory};
use itoa::Buffer;
use std::alloc::Global;
use ufs_model::{Ref, Unread};

/// A word, as it is to be put into a line.
#[derive(Clone, Copy)]
pub enum Word<'a> {
    /// A word as it is.
    Text(&'a str),
    /// `normal` or `special`.
    Kind(FileKind),
    /// `read` or `write`.
    For(Mode),
    /// `commit` or `abort`.
    Commit(bool),
    /// `syntax`, `name` or `memory`.
    Why(Unread),
    /// A number, in decimal digits.
    Number(u64),
    /// A number of 32 bits, in decimal digits.
    Small(u32),
    /// A number of 8 bits, in decimal digits.
    Code(u8),
    /// An identifier in 16 hexadecimal digits, or a grant in as many after a `g`.
    To(Ref),
    /// A byte, in two hexadecimal digits.
    Byte(u8),
    /// Bytes, in two hexadecimal digits each.
    Hex(&'a [u8]),
}

/// Appends the words to the line, with a space before each.
///
/// On an error the line has some of them.
pub fn put(line: &mut String, words: &[Word<'_>]) -> Result<(), NoMemory>
    ensures line { OnOk result (string_bytes line.new ≡ string_bytes line.old ++ spaced (map letters words.now)) }
    // Each is as wide as its type.
    ensures within { OnOk result (list_all word_within words.now ≡ true) }
{
    'words: for word in words {
        line.push_str(" ")?;
        put_word(line, word)?;
    }
    Ok(())
}

fn put_word(line: &mut String, word: &Word<'_>) -> Result<(), NoMemory>
    ensures line { OnOk result (string_bytes line.new ≡ string_bytes line.old ++ letters word.now) }
    ensures within { OnOk result (word_within word.now ≡ true) }
{
    match word {
        Word::Text(text) => line.push_str(text)?,
        Word::Kind(FileKind::Normal) => line.push_str("normal")?,
        Word::Kind(FileKind::Special) => line.push_str("special")?,
        Word::For(Mode::Reading) => line.push_str("read")?,
        Word::For(Mode::Writing) => line.push_str("write")?,
        Word::Commit(commit) => line.push_str(if *commit { "commit" } else { "abort" })?,
        Word::Why(Unread::Syntax) => line.push_str("syntax")?,
        Word::Why(Unread::NoName) => line.push_str("name")?,
        Word::Why(Unread::Memory) => line.push_str("memory")?,
        Word::Number(number) => put_number(line, *number)?,
        Word::Small(number) => put_number(line, u64::from(*number))?,
        Word::Code(number) => put_number(line, u64::from(*number))?,
        Word::To(Ref::Direct(id)) => put_digits(line, id.block, id.word)?,
        Word::To(Ref::Through(grant)) => {
            line.push_str("g")?;
            put_digits(line, grant.draw, grant.word)?;
        }
        Word::Byte(byte) => put_hex(line, &[*byte])?,
        Word::Hex(bytes) => {
            ufs_model::laws::are_bytes(bytes);
            put_hex(line, bytes)?;
        }
    }
    Ok(())
}

fn put_number(line: &mut String, number: u64) -> Result<(), NoMemory>
    ensures { OnOk result (string_bytes line.new ≡ string_bytes line.old ++ decimal number) }
{
    let mut buffer = Buffer::new();
    line.push_str(buffer.format(number))?;
    Ok(())
}

fn put_hex(line: &mut String, bytes: &[u8]) -> Result<(), NoMemory>
    ensures { OnOk result (string_bytes line.new ≡ string_bytes line.old ++ encode_lower bytes.now) }
{
    let digits = hex::encode(*line.allocator(), bytes)?;
    line.push_str(digits.as_str())?;
    Ok(())
}

fn put_digits(line: &mut String, high: u32, low: u32) -> Result<(), NoMemory>
    ensures { OnOk result (string_bytes line.new ≡ string_bytes line.old ++ id_digits high low) }
{
    let [a, b, c, d] = high.to_be_bytes();
    let [e, f, g, h] = low.to_be_bytes();
    put_hex(line, &[a, b, c, d, e, f, g, h])
}
