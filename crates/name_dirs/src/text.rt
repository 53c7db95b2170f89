//! Names, and lists of them in the order of their bytes.
ghost use Rattle.std.specs.Prelude.{◌≡◌, [], IfOk, IsTrue, MatchOption, OnErr, false, true};
ghost use Rattle.std.specs.Cmp.Lexicographic.{slice_cmp};
ghost use Rattle.std.specs.List.{list_all};
ghost use Rattle.std.specs.Ordering.{nat_cmp};
ghost use Rattle.name_dirs.specs.Text as spec;
ghost use Rattle.name_dirs.specs.Text.{AddsText, names_rise};

use cfs_base::NoMemory;
use std::alloc::{AllocError, Global};
use std::cmp::Ordering;
use std::marker::Model;

/// The number of bytes of the longest name.
pub(crate) const LONGEST_NAME: usize = 63;

/// Returns whether each byte is a graphic one other than `/`.
pub(crate) fn has_name_bytes(bytes: &[u8]) -> bool
    ensures { result ≡ list_all spec.is_name_byte bytes.now }
{
    bytes
        .iter()
        .all(|byte| matches!(*byte, 0x21..=0x7e) && *byte != b'/')
}

/// Returns whether these are 1 to 63 graphic bytes without `/`.
pub fn is_text(bytes: &[u8]) -> bool
    ensures { result ≡ spec.is_text bytes.now }
{
    !bytes.is_empty() && bytes.len() <= LONGEST_NAME && has_name_bytes(bytes)
}

/// A name: 1 to 63 graphic bytes without `/`.
#[derive(Debug, Drop)]
pub struct Text {
    bytes: Vec<u8>,
}

impl Model for Text {
    ghost use Rattle.std.specs.Prelude.{List, ℕ, IsTrue};
    ghost use Rattle.name_dirs.specs.Text.{is_text};

    ghost Value = { List ℕ };

    ghost view = { λ t. t.bytes.items };

    ghost invariant = { λ t. IsTrue (is_text t.bytes.items) };
}

impl Text {
    /// Returns the name of these bytes, if they are one. Takes no memory.
    pub fn new(bytes: Vec<u8>) -> Option<Text>
        ensures { MatchOption result (spec.is_text bytes.items ≡ false)
            (λ text. (spec.is_text bytes.items ≡ true) × (text ≡ bytes.items)) }
    {
        if !is_text(bytes.as_slice()) {
            return None;
        }
        Some(Text { bytes })
    }

    /// Returns the name of a copy of these bytes, if they are one.
    pub fn copied(alloc: Global, bytes: &[u8]) -> Result<Option<Text>, AllocError>
        ensures { IfOk result (λ text. MatchOption text (spec.is_text bytes.now ≡ false)
            (λ text. (spec.is_text bytes.now ≡ true) × (text ≡ bytes.now))) }
    {
        Ok(Text::new(Vec::from_slice(alloc, bytes)?))
    }

    /// Returns the bytes of the name.
    pub fn as_slice(&self) -> &[u8]
        ensures bytes { result.now ≡ self.now }
        ensures text { IsTrue (spec.is_text self.now) }
    {
        self.bytes.as_slice()
    }

    /// Returns the vector inside. Takes no memory.
    pub fn into_vec(self) -> Vec<u8>
        ensures { result.items ≡ self }
    {
        let Text { bytes } = self;
        bytes
    }
}

/// Names in the order of their bytes, none of them twice.
#[derive(Debug, Drop)]
pub struct Texts {
    texts: Vec<Text>,
}

impl Model for Texts {
    ghost use Rattle.std.specs.Prelude.{List, ℕ, IsTrue};
    ghost use Rattle.name_dirs.specs.Text.{names_rise};

    ghost Value = { List (List ℕ) };

    ghost view = { λ t. t.texts.items };

    ghost invariant = { λ t. IsTrue (names_rise t.texts.items) };
}

impl Texts {
    /// Makes a list of no names. Takes no memory.
    pub fn new(alloc: Global) -> Texts
        ensures { result ≡ [] }
    {
        Texts {
            texts: Vec::new(alloc),
        }
    }

    /// Returns the names as a slice.
    pub fn as_slice(&self) -> &[Text]
        ensures texts { result.now ≡ self.now }
        ensures rise { IsTrue (names_rise self.now) }
    {
        self.texts.as_slice()
    }

    /// Puts a name in its place, and returns whether it was new.
    pub fn add(&mut self, text: Text) -> Result<bool, NoMemory>
        ensures added { IfOk result (AddsText self.old self.new text) }
        ensures memory { OnErr result (self.new ≡ self.old) }
    {
        let name = text.as_slice();
        let by_name = |other: &Text| -> Ordering
            ensures { result ≡ slice_cmp nat_cmp other.now name.entry.now }
        { other.as_slice().cmp(name) };
        match self.texts.binary_search_by(by_name) {
            Ok(_) => Ok(false),
            Err(at) => {
                self.texts.insert(at, text)?;
                Ok(true)
            }
        }
    }
}
