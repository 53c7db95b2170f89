//! A line that was read.
ghost use Rattle.std.specs.Prelude.{◌≡◌, IfOk};
ghost use Rattle.std.specs.Option.{option_map};
ghost use Rattle.ufs_model.specs.Script.{words_of};
ghost use Rattle.ufs_model.specs.Spoken.{name_spoken, reading_of};
ghost use Rattle.cfs_script.specs.Language.{forms_of};
ghost use Rattle.cfs_script.specs.NameTable.{names_of};
ghost use Rattle.cfs_script.specs.Read.{AnswersReading, asked};

use crate::fault::ScriptFault;
use crate::name::Name;
use crate::names::Names;
use crate::request::request_in;
use crate::verb::{Verb, verb_of};
use crate::words::{Words, is_readable};
use std::alloc::Global;
use ufs_model::Request;

/// A request that was read, and the name that an ok reply to it binds.
#[derive(Debug, Drop)]
pub struct Spoken {
    pub request: Request,
    pub name: Option<Name>,
}

/// Returns the word that is a name to bind.
fn name_word<'a>(language: &[Verb], mut words: Words<'a>) -> Option<&'a [u8]>
    ensures { option_map (λ word. word.now) result ≡ name_spoken (forms_of language.now) words.entry }
{
    let verb = verb_of(language, words.next()?)?;
    if !verb.binds() {
        return None;
    }
    words.next()
}

/// Reads a line of this language, once.
///
/// What names are bound to stays. `Syntax` if the line has none of the forms, and only then. `NoName` if a name in it
/// is bound to nothing, or to the wrong kind of thing. `Memory` may come in the place of any result.
pub fn read_line(
    alloc: Global,
    language: &[Verb],
    line: &[u8],
    names: &Names,
) -> Result<Spoken, ScriptFault>
    ensures request { AnswersReading (asked result) (reading_of (forms_of language.now) (names_of names.now) line.now) }
    ensures name { IfOk result (λ spoken. spoken.name ≡ name_spoken (forms_of language.now) (words_of line.now)) }
{
    if !is_readable(line) {
        return Err(ScriptFault::Syntax);
    }
    let request = request_in(alloc, language, Words::of(line), names)?;
    let Some(letters) = name_word(language, Words::of(line)) else {
        return Ok(Spoken {
            request,
            name: None,
        });
    };
    let Ok(name) = Name::new(alloc, letters) else {
        return Err(ScriptFault::Memory);
    };
    Ok(Spoken {
        request,
        name: Some(name),
    })
}
