//! The words of a command.
ghost use Rattle.std.specs.Prelude.{◌≡◌, ◌≤◌, [], ◌∷◌, length, map, option_map, string_bytes, true};
ghost use Rattle.std.specs.List.{list_all};
ghost use Rattle.ufs_model.specs.Spoken.{number_in};
ghost use Rattle.cfs_serve.specs.Commands.{asked_of, conversation, format_of, names_service, played_service};
ghost use Rattle.cfs_serve.specs.Commands.{served_service, spin_of};
ghost use Rattle.cfs_serve.specs.Words as spec;
ghost use Rattle.cfs_serve.specs.Words.{asked_by, asked_in, audit_in, check_in, converse_in, dirs_in, files_in};
ghost use Rattle.cfs_serve.specs.Words.{format_in, inputs_in, is_file_word, mend_in, outputs_in, page_in, play_in};
ghost use Rattle.cfs_serve.specs.Words.{read_or_none, serve_in, spin_in, streams_in};

use crate::command::{Command, Converse, Dirs, Format, Play, Serve, Spin};
use crate::limits::{
    MOST_COLLECTIONS, MOST_CYLINDERS, MOST_FILE_CYLINDERS, MOST_LINES, MOST_PAIR_CYLINDERS,
    MOST_SESSIONS,
};
use crate::page::Page;
use cfs_script::number_of;

/// Returns the number that a word writes: 1 to 20 decimal digits, within a `u64`.
fn number(word: &str) -> Option<u64>
    ensures { result ≡ read_or_none (number_in word.now) }
{
    number_of(word.as_bytes())
}

/// Returns whether a word names a standard stream.
fn is_stream(word: &str) -> bool
    ensures { result ≡ spec.is_stream word.now }
{
    word == "-"
}

/// Returns whether each word names a file.
fn name_files(words: &[String]) -> bool
    ensures { result ≡ list_all is_file_word (map string_bytes words.now) }
{
    words.iter().all(|word| !word.is_empty())
}

/// Returns how many of the inputs are standard streams, and how many of the outputs.
fn count_streams(words: &[String]) -> (usize, usize)
    ensures inputs { result.0 ≡ streams_in (inputs_in (map string_bytes words.now)) }
    ensures outputs { result.1 ≡ streams_in (outputs_in (map string_bytes words.now)) }
{
    let mut inputs = 0;
    let mut outputs = 0;
    let mut rest = words;
    'files: while let [input, output, others @ ..] = rest {
        if is_stream(input.as_str()) {
            inputs += 1;
        }
        if is_stream(output.as_str()) {
            outputs += 1;
        }
        rest = others;
    }
    (inputs, outputs)
}

/// Returns whether these are 1 to 64 pairs of file words, in which at most one input and one output is a standard
/// stream.
fn are_files(words: &[String]) -> bool
    ensures are { result ≡ spec.are_files (map string_bytes words.now) }
    ensures few { result ≡ true → length (files_in (map string_bytes words.now)) ≤ 64 }
{
    if words.len() % 2 != 0 || words.is_empty() || words.len() > 2 * MOST_SESSIONS {
        return false;
    }
    if !name_files(words) {
        return false;
    }
    let (inputs, outputs) = count_streams(words);
    inputs <= 1 && outputs <= 1
}

/// Parses the word of a page.
fn page(word: &str) -> Option<Page>
    ensures { result ≡ page_in (word.now ∷ []) }
{
    match word {
        "--help" => Some(Page::Help),
        "--version" => Some(Page::Version),
        _ => None,
    }
}

/// Parses an audit, and returns the name of its trail.
fn audit<'a>(verb: &str, trail: &'a str) -> Option<&'a str>
    ensures { option_map (λ t. t.now) result ≡ audit_in (verb.now ∷ trail.now ∷ []) }
{
    if verb == "audit" && !trail.is_empty() && !is_stream(trail) {
        Some(trail)
    } else {
        None
    }
}

/// Parses a check, and returns the name of its volume.
fn check<'a>(verb: &str, volume: &'a str) -> Option<&'a str>
    ensures { option_map (λ v. v.now) result ≡ check_in (verb.now ∷ volume.now ∷ []) }
{
    if verb == "check" && !volume.is_empty() && !is_stream(volume) {
        Some(volume)
    } else {
        None
    }
}

/// Parses a mending, and returns the name of its volume.
fn mend<'a>(verb: &str, volume: &'a str) -> Option<&'a str>
    ensures { option_map (λ v. v.now) result ≡ mend_in (verb.now ∷ volume.now ∷ []) }
{
    if verb == "mend" && !volume.is_empty() && !is_stream(volume) {
        Some(volume)
    } else {
        None
    }
}

/// Parses a form of two words that names a volume.
fn inspection<'a>(verb: &str, volume: &'a str) -> Option<Command<'a>>
    requires { audit_in (verb.now ∷ volume.now ∷ []) ≡ None }
    ensures { asked_of result ≡ asked_in (verb.now ∷ volume.now ∷ []) }
{
    match check(verb, volume) {
        Some(volume) => Some(Command::Check(volume)),
        None => Some(Command::Mend(mend(verb, volume)?)),
    }
}

/// Parses a volume that is to be made.
fn format<'a>(verb: &str, volume: &'a str, cylinders: &str, seed: &str) -> Option<Format<'a>>
    ensures { option_map format_of result ≡ format_in (verb.now ∷ volume.now ∷ cylinders.now ∷ seed.now ∷ []) }
{
    let (pair, most) = match verb {
        "format" => (false, MOST_FILE_CYLINDERS),
        "pair-format" => (true, MOST_PAIR_CYLINDERS),
        _ => return None,
    };
    let cylinders = number(cylinders)?;
    let seed = number(seed)?;
    if volume.is_empty() || is_stream(volume) || cylinders == 0 || cylinders > most {
        return None;
    }
    Some(Format {
        volume,
        cylinders: cylinders as u32,
        seed,
        pair,
    })
}

/// Parses a spin.
fn spin(verb: &str, cylinders: &str, seed: &str, count: &str) -> Option<Spin>
    ensures { option_map spin_of result ≡ spin_in (verb.now ∷ cylinders.now ∷ seed.now ∷ count.now ∷ []) }
{
    if verb != "spin" {
        return None;
    }
    let cylinders = number(cylinders)?;
    let seed = number(seed)?;
    let count = number(count)?;
    if cylinders == 0 || cylinders > MOST_CYLINDERS {
        return None;
    }
    if count > 63 * cylinders || 12 * count + 64 > 63 * cylinders {
        return None;
    }
    Some(Spin {
        cylinders: cylinders as u32,
        seed,
        count,
    })
}

/// Parses sessions on a volume in memory.
fn play<'a>(
    verb: &str,
    cylinders: &str,
    seed: &str,
    collections: &str,
    files: &'a [String],
) -> Option<Play<'a>>
    ensures { option_map played_service result ≡ play_in (verb.now ∷ cylinders.now ∷ seed.now ∷ collections.now
        ∷ map string_bytes files.now) }
{
    let traced = match verb {
        "play" => false,
        "trace" => true,
        _ => return None,
    };
    let cylinders = number(cylinders)?;
    let seed = number(seed)?;
    let collections = number(collections)?;
    if cylinders == 0 || cylinders > MOST_CYLINDERS || collections > MOST_COLLECTIONS {
        return None;
    }
    if !are_files(files) {
        return None;
    }
    Some(Play {
        cylinders: cylinders as u32,
        seed,
        collections: collections as u32,
        files,
        traced,
    })
}

/// Parses sessions on a volume in a file.
fn serve<'a>(
    verb: &str,
    volume: &'a str,
    seed: &str,
    collections: &str,
    files: &'a [String],
) -> Option<Serve<'a>>
    ensures { option_map served_service result ≡ serve_in (verb.now ∷ volume.now ∷ seed.now ∷ collections.now
        ∷ map string_bytes files.now) }
{
    let pair = match verb {
        "serve" => false,
        "pair-serve" => true,
        _ => return None,
    };
    let seed = number(seed)?;
    let collections = number(collections)?;
    if volume.is_empty() || is_stream(volume) || collections > MOST_COLLECTIONS {
        return None;
    }
    if !are_files(files) {
        return None;
    }
    Some(Serve {
        volume,
        seed,
        collections: collections as u32,
        files,
        pair,
    })
}

/// Parses lines of names on a volume in a file.
fn dirs<'a>(
    verb: &str,
    volume: &'a str,
    seed: &str,
    input: &'a str,
    outputs: &'a [String],
) -> Option<Dirs<'a>>
    ensures { option_map names_service result ≡ dirs_in (verb.now ∷ volume.now ∷ seed.now ∷ input.now
        ∷ map string_bytes outputs.now) }
{
    let [output] = outputs else {
        return None;
    };
    if verb != "dirs" {
        return None;
    }
    let seed = number(seed)?;
    if volume.is_empty() || is_stream(volume) || input.is_empty() || output.is_empty() {
        return None;
    }
    Some(Dirs {
        volume,
        seed,
        input,
        output: output.as_str(),
    })
}

/// Parses a conversation on a volume in a file.
fn converse<'a>(
    verb: &str,
    volume: &'a str,
    seed: &str,
    every: &str,
    ends: &'a [String],
) -> Option<Converse<'a>>
    ensures { option_map conversation result ≡ converse_in (verb.now ∷ volume.now ∷ seed.now ∷ every.now
        ∷ map string_bytes ends.now) }
{
    let [input, output] = ends else {
        return None;
    };
    if verb != "converse" {
        return None;
    }
    let seed = number(seed)?;
    let every = number(every)?;
    if volume.is_empty() || is_stream(volume) || every > MOST_LINES {
        return None;
    }
    if input.is_empty() || output.is_empty() {
        return None;
    }
    Some(Converse {
        volume,
        seed,
        every,
        input: input.as_str(),
        output: output.as_str(),
    })
}

/// Parses a form of two words.
fn two<'a>(verb: &str, file: &'a str) -> Option<Command<'a>>
    ensures { asked_of result ≡ asked_in (verb.now ∷ file.now ∷ []) }
{
    match audit(verb, file) {
        Some(trail) => Some(Command::Audit(trail)),
        None => inspection(verb, file),
    }
}

/// Parses a form of four words.
fn four<'a>(verb: &str, first: &'a str, second: &str, third: &str) -> Option<Command<'a>>
    ensures { asked_of result ≡ asked_in (verb.now ∷ first.now ∷ second.now ∷ third.now ∷ []) }
{
    match format(verb, first, second, third) {
        Some(format) => Some(Command::Format(format)),
        None => Some(Command::Spin(spin(verb, first, second, third)?)),
    }
}

/// Parses a form with a volume and files.
fn with_volume<'a>(
    verb: &str,
    volume: &'a str,
    seed: &str,
    third: &'a str,
    files: &'a [String],
) -> Option<Command<'a>>
    requires other { play_in (verb.now ∷ volume.now ∷ seed.now ∷ third.now ∷ map string_bytes files.now) ≡ None }
    requires some { 1 ≤ length files.now }
    ensures { asked_of result ≡ asked_in (verb.now ∷ volume.now ∷ seed.now ∷ third.now ∷ map string_bytes files.now) }
{
    if let Some(serve) = serve(verb, volume, seed, third, files) {
        return Some(Command::Serve(serve));
    }
    match dirs(verb, volume, seed, third, files) {
        Some(dirs) => Some(Command::Dirs(dirs)),
        None => Some(Command::Converse(converse(verb, volume, seed, third, files)?)),
    }
}

/// Parses a form with files.
fn with_files<'a>(
    verb: &str,
    first: &'a str,
    second: &str,
    third: &'a str,
    files: &'a [String],
) -> Option<Command<'a>>
    requires { 1 ≤ length files.now }
    ensures { asked_of result ≡ asked_in (verb.now ∷ first.now ∷ second.now ∷ third.now ∷ map string_bytes files.now) }
{
    match play(verb, first, second, third, files) {
        Some(play) => Some(Command::Play(play)),
        None => with_volume(verb, first, second, third, files),
    }
}

impl<'a> Command<'a> {
    /// Parses the words after the program's name. Returns `None` if they are of no form.
    pub fn parse(words: &'a [String]) -> Option<Command<'a>>
        ensures { asked_of result ≡ asked_by words.now }
    {
        match words {
            [] => None,
            [word] => Some(Command::Page(page(word.as_str())?)),
            [verb, file] => two(verb.as_str(), file.as_str()),
            [_verb, _first, _second] => None,
            [verb, first, second, third] => four(
                verb.as_str(),
                first.as_str(),
                second.as_str(),
                third.as_str(),
            ),
            [verb, first, second, third, files @ ..] => with_files(
                verb.as_str(),
                first.as_str(),
                second.as_str(),
                third.as_str(),
                files,
            ),
        }
    }
}
