//! A server to which sessions speak in lines.
use crate::fault::Fault;
use crate::printed::{Said, replied, unread};
use cfs_base::{Puid, Session};
use cfs_script::{Name, Names, ScriptFault, Spoken, all_verbs, read_line};
use std::alloc::Global;
use ufs_model::{Asker, Bound, Reply, Request, Unread};

/// Sessions have the numbers below this.
pub const MOST_SESSIONS: Session = 64;

/// A server, and what the names of its sessions are bound to.
#[derive(Drop)]
pub struct Desk<A: Asker + Drop> {
    pub server: A,
    pub root: Puid,
    names: Vec<Names>,
}

/// Returns the names of a session.
fn names_of(
    names: &mut Vec<Names>,
    alloc: Global,
    root: Puid,
    who: Session,
) -> Result<&mut Names, Fault> {
    if who >= MOST_SESSIONS {
        return Err(Fault::Place);
    }
    for _ in names.len()..MOST_SESSIONS as usize {
        names.push(Names::new(alloc, root))?;
    }
    match names.get_mut(who as usize) {
        Some(names) => Ok(names),
        None => Err(Fault::Place),
    }
}

/// Binds the name of a request to what is in this answer.
fn bind(names: &mut Names, name: Option<Name>, reply: &Reply) -> Result<(), Fault> {
    let Some(name) = name else {
        return Ok(());
    };
    names.reserve()?;
    match reply {
        Reply::Id(id) => names.bind(name, Bound::Permanent(*id)),
        Reply::Grant(grant) => names.bind(name, Bound::Temporary(*grant)),
        _ => {}
    }
    Ok(())
}

/// Returns the answer of a server. A word that is not drawn yet must be left.
pub fn ask<A: Asker>(
    server: &mut A,
    alloc: Global,
    who: Session,
    request: &Request,
) -> Result<Reply, Fault> {
    if server.drawn() == u32::MAX {
        return Err(Fault::Spent);
    }
    Ok(server.ask(alloc, who, request))
}

impl<A: Asker + Drop> Desk<A> {
    /// Makes a desk at which no session has spoken.
    pub fn new(alloc: Global, server: A, root: Puid) -> Desk<A> {
        Desk {
            server,
            root,
            names: Vec::new(alloc),
        }
    }

    /// Lets a session say a line, and returns the answer.
    pub fn say(&mut self, alloc: Global, who: Session, line: &str) -> Result<Said, Fault> {
        let names = names_of(&mut self.names, alloc, self.root, who)?;
        match read_line(alloc, &all_verbs(), line.as_bytes(), names) {
            Ok(Spoken { request, name }) => {
                let reply = ask(&mut self.server, alloc, who, &request)?;
                bind(names, name, &reply)?;
                replied(alloc, &reply)
            }
            Err(ScriptFault::Syntax) => unread(alloc, Unread::Syntax),
            Err(ScriptFault::NoName) => unread(alloc, Unread::NoName),
            Err(ScriptFault::Memory) => Err(Fault::Memory),
        }
    }
}
