//! Names that a session gives.
ghost use Rattle.std.specs.Prelude.{◌≡◌, ◌&&◌, ◌||◌, ◌==◌, nat_le, IfOk, IsTrue};
ghost use Rattle.std.specs.Str.{byte};
ghost use Rattle.std.specs.Char.{is_ascii_digit};
ghost use Rattle.std.specs.List.{list_all};
ghost use Rattle.hex.specs.Hex.{is_hex_digit};
ghost use Rattle.ufs_model.specs.Names.{is_id_digits, is_name};

use cfs_base::NoMemory;
use std::alloc::Global;
use std::marker::Model;
use ufs_model::MOST_NAME;

/// A name: 1 to 32 letters, digits and dashes that begin with a letter.
///
/// It is neither `root` nor 16 hexadecimal digits.
#[derive(Debug, Drop)]
pub struct Name {
    letters: Vec<u8>,
}

impl Model for Name {
    ghost use Rattle.std.specs.Prelude.{List, ℕ, IsTrue};
    ghost use Rattle.ufs_model.specs.Names.{is_name};

    ghost Value = { List ℕ };

    ghost view = { λ a. a.letters.items };

    ghost invariant = { λ a. IsTrue (is_name a.letters.items) };
}

impl Name {
    /// Returns the name of these letters.
    pub fn new(alloc: Global, letters: &[u8]) -> Result<Name, NoMemory>
        requires { IsTrue (is_name letters.now) }
        ensures { IfOk result (λ name. name ≡ letters.now) }
    {
        let letters = Vec::from_slice(alloc, letters)?;
        Ok(Name { letters })
    }

    /// Returns the letters.
    pub fn as_slice(&self) -> &[u8]
        ensures letters { result.now ≡ self.now }
        ensures named { IsTrue (is_name self.now) }
    {
        self.letters.as_slice()
    }

    /// Returns the vector inside. Takes no memory.
    pub fn into_vec(self) -> Vec<u8>
        ensures { result.items ≡ self }
    {
        let Name { letters } = self;
        letters
    }
}

/// Returns whether the word is a name.
pub fn is_name(word: &[u8]) -> bool
    ensures { result ≡ is_name word.now }
{
    matches!(word, [b'a'..=b'z', ..])
        && word.len() <= MOST_NAME as usize
        && has_name_bytes(word)
        && word != b"root".as_slice()
        && !is_id_digits(word)
}

/// Returns whether the word has only letters, digits and dashes.
fn has_name_bytes(word: &[u8]) -> bool
    ensures { result ≡ list_all
        (λ c. (nat_le (byte "a") c && nat_le c (byte "z")) || is_ascii_digit c || (c == byte "-")) word.now }
{
    word.iter()
        .all(|c| matches!(*c, b'a'..=b'z' | b'0'..=b'9' | b'-'))
}

/// Returns whether the word is 16 hexadecimal digits.
pub fn is_id_digits(word: &[u8]) -> bool
    ensures { result ≡ is_id_digits word.now }
{
    word.len() == 16 && has_hex_digits(word)
}

fn has_hex_digits(word: &[u8]) -> bool
    ensures { result ≡ list_all is_hex_digit word.now }
{
    word.iter().all(|c| c.is_ascii_hexdigit())
}
