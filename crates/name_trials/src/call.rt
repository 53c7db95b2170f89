//! Lines of rows.
use crate::fault::Fault;
use crate::printed::{done, found, listed, replied};
use crate::served::{Slow, fresh, text};
use cfs_script::number_of;
use name_dirs::{DirFault, Text};
use std::alloc::Global;

/// Returns the first word of a line, and what follows it.
fn split(line: &str) -> (&str, &str) {
    match line.split_once(' ') {
        Some((word, rest)) => (word, rest),
        None => (line, ""),
    }
}

fn small(word: &str) -> Result<u32, Fault> {
    let number = number_of(word.as_bytes()).ok_or(Fault::Syntax)?;
    u32::try_from(number).map_err(|_| Fault::Syntax)
}

/// Returns a path without its last name, and that name.
fn cut(alloc: Global, path: &str) -> Result<(&str, Text), Fault> {
    let (above, last) = path.rsplit_once('/').ok_or(Fault::Syntax)?;
    Ok((above, text(alloc, last)?))
}

/// Returns the path of a directory, with no name for `/`.
fn names_of(path: &str) -> &str {
    match path {
        "/" => "",
        path => path,
    }
}

fn make(served: &mut Slow, alloc: Global, path: &str, word: &str) -> Result<String, Fault> {
    let capacity = small(word)?;
    if path == "/" {
        return found(alloc, served.make_root(alloc, capacity)?);
    }
    let (above, name) = cut(alloc, path)?;
    let dir = served.walk(alloc, above)?;
    found(alloc, served.make(alloc, dir, &name, capacity)?)
}

fn bind(served: &mut Slow, alloc: Global, path: &str, word: &str) -> Result<String, Fault> {
    let (above, name) = cut(alloc, path)?;
    let id = served.id_of(alloc, word)?;
    let dir = served.walk(alloc, above)?;
    served.bind(alloc, dir, &name, id)?;
    done(alloc)
}

fn look(served: &mut Slow, alloc: Global, path: &str) -> Result<String, Fault> {
    let (above, name) = cut(alloc, path)?;
    let dir = served.walk(alloc, above)?;
    found(alloc, served.look(alloc, dir, &name)?)
}

fn unbind(served: &mut Slow, alloc: Global, path: &str) -> Result<String, Fault> {
    let (above, name) = cut(alloc, path)?;
    let dir = served.walk(alloc, above)?;
    served.unbind(alloc, dir, &name)?;
    done(alloc)
}

fn list(served: &mut Slow, alloc: Global, path: &str) -> Result<String, Fault> {
    let dir = served.walk(alloc, names_of(path))?;
    listed(alloc, &served.list(alloc, dir)?)
}

/// Makes a call with a path.
fn called(served: &mut Slow, alloc: Global, verb: &str, rest: &str) -> Result<String, Fault> {
    let (path, word) = split(rest);
    if !path.starts_with('/') {
        return Err(Fault::Syntax);
    }
    match verb {
        "mkdir" => make(served, alloc, path, word),
        "bind" => bind(served, alloc, path, word),
        "look" if word.is_empty() => look(served, alloc, path),
        "unbind" if word.is_empty() => unbind(served, alloc, path),
        "list" if word.is_empty() => list(served, alloc, path),
        _ => Err(Fault::Syntax),
    }
}

/// Returns the answer. For a refusal that hands a reply on, that is the text of the reply.
fn told(alloc: Global, answer: Result<String, Fault>) -> Result<String, Fault> {
    match answer {
        Err(Fault::Refused(DirFault::Asked(reply))) => replied(alloc, &reply),
        answer => answer,
    }
}

/// Makes the call of a line, and returns its answer.
pub fn answer(served: &mut Option<Slow>, alloc: Global, line: &str) -> Result<String, Fault> {
    let (verb, rest) = split(line);
    if verb == "new" {
        *served = Some(fresh(alloc)?);
        return done(alloc);
    }
    let Some(served) = served else {
        return Err(Fault::Closed);
    };
    if verb == "ask" {
        let (who, line) = split(rest);
        return served.ask(alloc, small(who)?, line);
    }
    told(alloc, called(served, alloc, verb, rest))
}
