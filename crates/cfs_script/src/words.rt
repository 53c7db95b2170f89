//! The words of a line, one after another.
ghost use Rattle.std.specs.Prelude.{◌≡◌, ◌≢◌, ◌<◌, ◌∷◌, [], ◌||◌, not, length, position, IfSome, MatchOption};
ghost use Rattle.std.specs.List.{list_all};
ghost use Rattle.ufs_model.specs.Script.{is_blank, is_graphic, is_readable, words_of};
ghost use Rattle.cfs_script.specs.Read.{BeginsWord};

use crate::line::is_blank;
use std::marker::Model;
use ufs_model::MOST_LINE;

/// What is left of a line. Contracts see its words.
#[derive(Debug, Drop)]
pub struct Words<'a> {
    rest: &'a [u8],
}

impl<'a> Model for Words<'a> {
    ghost use Rattle.std.specs.Prelude.{List, ℕ};
    ghost use Rattle.ufs_model.specs.Script.{words_of};

    ghost Value = { List (List ℕ) };

    ghost view = { λ a. words_of a.rest.now };
}

impl<'a> Words<'a> {
    /// Returns the words of a line.
    pub fn of(line: &'a [u8]) -> Words<'a>
        ensures { result ≡ words_of line.now }
    {
        Words { rest: line }
    }

    /// Removes the first word and returns it.
    pub fn next(&mut self) -> Option<&'a [u8]>
        ensures { MatchOption result (self.old ≡ []) (λ word. self.old ≡ word.now ∷ self.new) }
    {
        let text = from_first_word(self.rest)?;
        let (word, rest) = cut_word(text);
        self.rest = rest;
        Some(word)
    }

    /// Returns the one word that is left, if there are no more.
    pub fn one(mut self) -> Option<&'a [u8]>
        ensures { MatchOption result (length self.entry ≢ 1) (λ word. self.entry ≡ word.now ∷ []) }
    {
        let word = self.next()?;
        if self.next().is_some() {
            return None;
        }
        Some(word)
    }

    /// Returns the two words that are left, if there are no more.
    pub fn two(mut self) -> Option<(&'a [u8], &'a [u8])>
        ensures { MatchOption result (length self.entry ≢ 2) (λ words. self.entry ≡ words.0.now ∷ words.1.now ∷ []) }
    {
        let first = self.next()?;
        let second = self.one()?;
        Some((first, second))
    }

    /// Returns the three words that are left, if there are no more.
    pub fn three(mut self) -> Option<(&'a [u8], &'a [u8], &'a [u8])>
        ensures { MatchOption result (length self.entry ≢ 3)
            (λ words. self.entry ≡ words.0.now ∷ words.1.now ∷ words.2.now ∷ []) }
    {
        let first = self.next()?;
        let (second, third) = self.two()?;
        Some((first, second, third))
    }

    /// Returns the four words that are left, if there are no more.
    pub fn four(mut self) -> Option<(&'a [u8], &'a [u8], &'a [u8], &'a [u8])>
        ensures { MatchOption result (length self.entry ≢ 4)
            (λ words. self.entry ≡ words.0.now ∷ words.1.now ∷ words.2.now ∷ words.3.now ∷ []) }
    {
        let first = self.next()?;
        let (second, third, fourth) = self.three()?;
        Some((first, second, third, fourth))
    }
}

/// Returns the place of the first byte of a word.
fn word_start(text: &[u8]) -> Option<usize>
    ensures value { result ≡ position (λ c. not (is_blank c)) text.now }
    ensures within { IfSome result (λ at. at < length text.now) }
{
    text.iter().position(|byte| !is_blank(*byte))
}

/// Returns the place of the first blank.
fn word_end(text: &[u8]) -> Option<usize>
    ensures value { result ≡ position is_blank text.now }
    ensures within { IfSome result (λ at. at < length text.now) }
{
    text.iter().position(|byte| is_blank(*byte))
}

/// Returns the text from its first word on.
fn from_first_word(text: &[u8]) -> Option<&[u8]>
    ensures { MatchOption result (words_of text.now ≡ [])
        (λ rest. (words_of rest.now ≡ words_of text.now) × BeginsWord rest.now) }
{
    let start = word_start(text)?;
    Some(&text[start..])
}

/// Returns the word with which the text begins, and what follows it.
fn cut_word(text: &[u8]) -> (&[u8], &[u8])
    requires { BeginsWord text.now }
    ensures { words_of text.now ≡ result.0.now ∷ words_of result.1.now }
{
    match word_end(text) {
        Some(end) => (&text[..end], &text[end..]),
        None => (text, &[]),
    }
}

/// Returns whether each byte is a blank or one of a word.
fn has_line_bytes(line: &[u8]) -> bool
    ensures { result ≡ list_all (λ c. is_blank c || is_graphic c) line.now }
{
    line.iter()
        .all(|byte| is_blank(*byte) || matches!(*byte, 0x21..=0x7e))
}

/// Returns whether the line is short enough, and has only such bytes.
pub fn is_readable(line: &[u8]) -> bool
    ensures { result ≡ is_readable line.now }
{
    line.len() <= MOST_LINE as usize && has_line_bytes(line)
}
