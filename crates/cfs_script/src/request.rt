//! What the words of a line ask, with a function for each form.
ghost use Rattle.std.specs.Prelude.{◌≡◌};
ghost use Rattle.ufs_model.specs.Spoken.{spoken, create_file_form, create_index_form, retain_form, retrieve_form};
ghost use Rattle.ufs_model.specs.Spoken.{delete_form, slots_form};
ghost use Rattle.ufs_model.specs.Spoken.{open_form, close_form, read_form, write_form, size_form, resize_form};
ghost use Rattle.cfs_script.specs.Language.{form_of_verb, forms_of};
ghost use Rattle.cfs_script.specs.NameTable.{names_of};
ghost use Rattle.cfs_script.specs.Read.{AnswersReading};

use crate::fault::ScriptFault;
use crate::name::is_name;
use crate::names::Names;
use crate::verb::{Verb, verb_of};
use crate::word::{
    both, byte_in, bytes_in, commit_in, grant_in, id_in, kind_in, mode_in, number_in, ref_in,
};
use crate::words::Words;
use std::alloc::Global;
use ufs_model::Request;

/// Reads what the words of a line of this language ask.
pub fn request_in(
    alloc: Global,
    language: &[Verb],
    mut words: Words<'_>,
    names: &Names,
) -> Result<Request, ScriptFault>
    ensures { AnswersReading result (spoken (forms_of language.now) (names_of names.now) words.entry) }
{
    let Some(first) = words.next() else {
        return Err(ScriptFault::Syntax);
    };
    let Some(verb) = verb_of(language, first) else {
        return Err(ScriptFault::Syntax);
    };
    if verb.binds() {
        let Some(name) = words.next() else {
            return Err(ScriptFault::Syntax);
        };
        if !is_name(name) {
            return Err(ScriptFault::Syntax);
        }
    }
    request_of(alloc, verb, words, names)
}

/// Reads what the words ask after this verb, and after its name.
fn request_of(
    alloc: Global,
    verb: Verb,
    words: Words<'_>,
    names: &Names,
) -> Result<Request, ScriptFault>
    ensures { AnswersReading result ((form_of_verb verb).reads (names_of names.now) words.entry) }
{
    match verb {
        Verb::CreateFile => create_file(words, names),
        Verb::CreateIndex => create_index(words, names),
        Verb::Retain => retain(words, names),
        Verb::Retrieve => retrieve(words, names),
        Verb::Delete => delete(words, names),
        Verb::Slots => slots(words, names),
        Verb::Open => open(words, names),
        Verb::Close => close(words, names),
        Verb::Read => read(words, names),
        Verb::Write => write(alloc, words, names),
        Verb::Size => size(words, names),
        Verb::Resize => resize(words, names),
    }
}

fn create_file(words: Words<'_>, names: &Names) -> Result<Request, ScriptFault>
    ensures { AnswersReading result (create_file_form.reads (names_of names.now) words.entry) }
{
    let Some((kind, fill, index, slot)) = words.four() else {
        return Err(ScriptFault::Syntax);
    };
    let kind_and_fill = both(kind_in(kind), byte_in(fill));
    let and_index = both(kind_and_fill, ref_in(names, index));
    let (((kind, fill), index), slot) = both(and_index, number_in(slot))?;
    Ok(Request::CreateFile {
        kind,
        fill,
        index,
        slot,
    })
}

fn create_index(words: Words<'_>, names: &Names) -> Result<Request, ScriptFault>
    ensures { AnswersReading result (create_index_form.reads (names_of names.now) words.entry) }
{
    let Some((slots, index, slot)) = words.three() else {
        return Err(ScriptFault::Syntax);
    };
    let slots_and_index = both(number_in(slots), ref_in(names, index));
    let ((slots, index), slot) = both(slots_and_index, number_in(slot))?;
    Ok(Request::CreateIndex { slots, index, slot })
}

fn retain(words: Words<'_>, names: &Names) -> Result<Request, ScriptFault>
    ensures { AnswersReading result (retain_form.reads (names_of names.now) words.entry) }
{
    let Some((index, slot, id)) = words.three() else {
        return Err(ScriptFault::Syntax);
    };
    let index_and_slot = both(ref_in(names, index), number_in(slot));
    let ((index, slot), id) = both(index_and_slot, id_in(names, id))?;
    Ok(Request::Retain { index, slot, id })
}

fn retrieve(words: Words<'_>, names: &Names) -> Result<Request, ScriptFault>
    ensures { AnswersReading result (retrieve_form.reads (names_of names.now) words.entry) }
{
    let Some((index, slot)) = words.two() else {
        return Err(ScriptFault::Syntax);
    };
    let (index, slot) = both(ref_in(names, index), number_in(slot))?;
    Ok(Request::Retrieve { index, slot })
}

fn delete(words: Words<'_>, names: &Names) -> Result<Request, ScriptFault>
    ensures { AnswersReading result (delete_form.reads (names_of names.now) words.entry) }
{
    let Some((index, slot)) = words.two() else {
        return Err(ScriptFault::Syntax);
    };
    let (index, slot) = both(ref_in(names, index), number_in(slot))?;
    Ok(Request::Delete { index, slot })
}

fn slots(words: Words<'_>, names: &Names) -> Result<Request, ScriptFault>
    ensures { AnswersReading result (slots_form.reads (names_of names.now) words.entry) }
{
    let Some(index) = words.one() else {
        return Err(ScriptFault::Syntax);
    };
    let index = ref_in(names, index)?;
    Ok(Request::Slots { index })
}

fn open(words: Words<'_>, names: &Names) -> Result<Request, ScriptFault>
    ensures { AnswersReading result (open_form.reads (names_of names.now) words.entry) }
{
    let Some((id, mode)) = words.two() else {
        return Err(ScriptFault::Syntax);
    };
    let (id, mode) = both(id_in(names, id), mode_in(mode))?;
    Ok(Request::OpenFor { id, mode })
}

fn close(words: Words<'_>, names: &Names) -> Result<Request, ScriptFault>
    ensures { AnswersReading result (close_form.reads (names_of names.now) words.entry) }
{
    let Some((grant, commit)) = words.two() else {
        return Err(ScriptFault::Syntax);
    };
    let (grant, commit) = both(grant_in(names, grant), commit_in(commit))?;
    Ok(Request::Close { grant, commit })
}

fn read(words: Words<'_>, names: &Names) -> Result<Request, ScriptFault>
    ensures { AnswersReading result (read_form.reads (names_of names.now) words.entry) }
{
    let Some((file, offset, count)) = words.three() else {
        return Err(ScriptFault::Syntax);
    };
    let file_and_offset = both(ref_in(names, file), number_in(offset));
    let ((file, offset), count) = both(file_and_offset, number_in(count))?;
    Ok(Request::Read {
        file,
        offset,
        count,
    })
}

fn write(alloc: Global, words: Words<'_>, names: &Names) -> Result<Request, ScriptFault>
    ensures { AnswersReading result (write_form.reads (names_of names.now) words.entry) }
{
    let Some((file, offset, bytes)) = words.three() else {
        return Err(ScriptFault::Syntax);
    };
    let file_and_offset = both(ref_in(names, file), number_in(offset));
    let ((file, offset), bytes) = both(file_and_offset, bytes_in(alloc, bytes))?;
    Ok(Request::Write {
        file,
        offset,
        bytes,
    })
}

fn size(words: Words<'_>, names: &Names) -> Result<Request, ScriptFault>
    ensures { AnswersReading result (size_form.reads (names_of names.now) words.entry) }
{
    let Some(file) = words.one() else {
        return Err(ScriptFault::Syntax);
    };
    let file = ref_in(names, file)?;
    Ok(Request::Size { file })
}

fn resize(words: Words<'_>, names: &Names) -> Result<Request, ScriptFault>
    ensures { AnswersReading result (resize_form.reads (names_of names.now) words.entry) }
{
    let Some((file, size)) = words.two() else {
        return Err(ScriptFault::Syntax);
    };
    let (file, size) = both(ref_in(names, file), number_in(size))?;
    Ok(Request::Resize { file, size })
}
