//! Lines as they are read.
ghost use Rattle.std.specs.Prelude.{◌≡◌, ◌==◌, IfOk, map};
ghost use Rattle.std.specs.List.{slice_split};
ghost use Rattle.std.specs.Str.{byte};
ghost use Rattle.name_lines.specs.Spoken as spec;

use crate::line::{Capacity, Line, NameAt, Pathname};
use cfs_base::NoMemory;
use cfs_script::{Words, id_of, is_readable, number_of};
use name_dirs::Text;
use std::alloc::{AllocError, Global};

fn parts_of(alloc: Global, text: &[u8]) -> Result<Vec<&[u8]>, AllocError>
    ensures { IfOk result (λ parts. map (λ part. part.now) parts.items ≡ slice_split (λ c. c == byte "/") text.now) }
{
    text.split(|byte| *byte == b'/').collect(alloc)
}

/// Returns the names of these parts, if each is a name.
fn names_of(alloc: Global, parts: &[&[u8]]) -> Result<Option<Pathname>, NoMemory>
    ensures { IfOk result (λ path. path ≡ spec.if_texts (map (λ part. part.now) parts.now)) }
{
    let mut names = Vec::new(alloc);
    'parts: for part in parts {
        let Some(name) = Text::copied(alloc, part)? else {
            return Ok(None);
        };
        names.push(name)?;
    }
    Ok(Some(Pathname::new(names)))
}

/// Returns the path of a word: `/`, or names with `/` before each.
fn path_in(alloc: Global, word: &[u8]) -> Result<Option<Pathname>, NoMemory>
    ensures { IfOk result (λ path. path ≡ spec.path_in word.now) }
{
    match word {
        [b'/'] => Ok(Some(Pathname::new(Vec::new(alloc)))),
        [b'/', rest @ ..] => names_of(alloc, parts_of(alloc, rest)?.as_slice()),
        _ => Ok(None),
    }
}

/// Returns the name and the directory of a path that isn't `/` itself.
fn place_in(alloc: Global, word: &[u8]) -> Result<Option<NameAt>, NoMemory>
    ensures { IfOk result (λ place. place ≡ spec.place_in word.now) }
{
    let Some(path) = path_in(alloc, word)? else {
        return Ok(None);
    };
    Ok(path.into_place())
}

fn capacity_in(word: &[u8]) -> Option<Capacity>
    ensures { result ≡ spec.capacity_in word.now }
{
    Capacity::new(number_of(word)?)
}

/// Returns what `mkdir` of a path asks.
fn mkdir(path: Pathname, capacity: Capacity) -> Line
    ensures { result ≡ spec.mkdir path capacity }
{
    match path.into_place() {
        Some(place) => Line::MakeDir { place, capacity },
        None => Line::MakeTop { capacity },
    }
}

fn one_word(alloc: Global, verb: &[u8], word: &[u8]) -> Result<Option<Line>, NoMemory>
    ensures { IfOk result (λ line. line ≡ spec.one_word verb.now word.now) }
{
    if verb == b"look".as_slice() {
        Ok(place_in(alloc, word)?.map(|place| Line::Look { place }))
    } else if verb == b"unbind".as_slice() {
        Ok(place_in(alloc, word)?.map(|place| Line::Unbind { place }))
    } else if verb == b"list".as_slice() {
        Ok(path_in(alloc, word)?.map(|path| Line::ListDir { path }))
    } else {
        Ok(None)
    }
}

fn two_words(alloc: Global, verb: &[u8], path: &[u8], word: &[u8]) -> Result<Option<Line>, NoMemory>
    ensures { IfOk result (λ line. line ≡ spec.two_words verb.now path.now word.now) }
{
    if verb == b"mkdir".as_slice() {
        match (path_in(alloc, path)?, capacity_in(word)) {
            (Some(path), Some(capacity)) => Ok(Some(mkdir(path, capacity))),
            _ => Ok(None),
        }
    } else if verb == b"bind".as_slice() {
        match (place_in(alloc, path)?, id_of(word)) {
            (Some(place), Some(id)) => Ok(Some(Line::Bind { place, id })),
            _ => Ok(None),
        }
    } else {
        Ok(None)
    }
}

/// Returns what a line asks, or `None` if it has none of the forms.
///
/// `NoMemory` may come in the place of either.
pub fn read_line(alloc: Global, text: &[u8]) -> Result<Option<Line>, NoMemory>
    ensures { IfOk result (λ line. line ≡ spec.line_in text.now) }
{
    if !is_readable(text) {
        return Ok(None);
    }
    if let Some((verb, word)) = Words::of(text).two() {
        return one_word(alloc, verb, word);
    }
    if let Some((verb, path, word)) = Words::of(text).three() {
        return two_words(alloc, verb, path, word);
    }
    Ok(None)
}
