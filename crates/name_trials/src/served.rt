//! A server, and single calls on it.
use crate::fault::Fault;
use crate::printed::{replied, unread};
use cfs_base::{Puid, Session};
use cfs_script::{Name, Names, ScriptFault, Spoken, all_verbs, read_line};
use name_dirs::{DirFault, MOST_CAPACITY, Text, Texts, bind, list, look, make, make_root, unbind};
use std::alloc::Global;
use ufs_model::{Asker, Bound, Plain, Ref, Reply, Request, Unread};

/// The session that makes the calls.
const WHO: Session = 0;

/// How many words may have been drawn before a call.
const MOST_DRAWN: u32 = 4_294_967_289;

/// A server, and what the names in request lines are bound to.
#[derive(Drop)]
pub struct Served<A: Asker + Drop> {
    server: A,
    names: Names,
}

/// The slow server.
pub type Slow = Served<Plain>;

/// Makes a fresh slow server.
///
/// The word of its root index is the first that seed 0 gives.
pub fn fresh(alloc: Global) -> Result<Slow, Fault> {
    let root = Puid {
        block: 2,
        word: 0xade0_b876,
    };
    let server = Plain::new(alloc, root, 0)?;
    Ok(Served {
        server,
        names: Names::new(alloc, root),
    })
}

/// Returns the name of a word.
pub fn text(alloc: Global, word: &str) -> Result<Text, Fault> {
    Text::copied(alloc, word.as_bytes())?.ok_or(Fault::Syntax)
}

/// Binds the name of a request to what is in this answer.
fn let_stand(names: &mut Names, name: Option<Name>, reply: &Reply) -> Result<(), Fault> {
    let Some(name) = name else {
        return Ok(());
    };
    names.reserve()?;
    match reply {
        Reply::Id(id) => names.bind(name, Bound::Permanent(*id)),
        Reply::Grant(grant) => names.bind(name, Bound::Temporary(*grant)),
        _ => {}
    }
    Ok(())
}

impl<A: Asker + Drop> Served<A> {
    /// Returns the answer to a request.
    fn reply(&mut self, alloc: Global, who: Session, request: &Request) -> Result<Reply, Fault> {
        if self.server.drawn() > MOST_DRAWN {
            return Err(Fault::Spent);
        }
        Ok(self.server.ask(alloc, who, request))
    }

    /// Lets a session say a request line, and returns the answer.
    pub fn ask(&mut self, alloc: Global, who: Session, line: &str) -> Result<String, Fault> {
        match read_line(alloc, &all_verbs(), line.as_bytes(), &self.names) {
            Ok(Spoken { request, name }) => {
                let reply = self.reply(alloc, who, &request)?;
                let_stand(&mut self.names, name, &reply)?;
                replied(alloc, &reply)
            }
            Err(ScriptFault::Syntax) => unread(alloc, Unread::Syntax),
            Err(ScriptFault::NoName) => unread(alloc, Unread::NoName),
            Err(ScriptFault::Memory) => Err(Fault::Memory),
        }
    }

    /// Returns the identifier that a word spells in a request line.
    pub fn id_of(&self, alloc: Global, word: &str) -> Result<Puid, Fault> {
        let line = format!(in alloc; "slots {word}")?;
        match read_line(alloc, &all_verbs(), line.as_bytes(), &self.names) {
            Ok(
                Spoken {
                    request: Request::Slots {
                        index: Ref::Direct(id),
                    },
                    ..
                },
            ) => Ok(id),
            _ => Err(Fault::Syntax),
        }
    }

    /// Returns what slot 0 of the root index holds.
    fn top(&mut self, alloc: Global) -> Result<Puid, Fault> {
        let request = Request::Retrieve {
            index: Ref::Direct(self.server.root()),
            slot: 0,
        };
        match self.reply(alloc, WHO, &request)? {
            Reply::Id(id) => Ok(id),
            Reply::Empty => Err(Fault::Refused(DirFault::NotDirectory)),
            reply => Err(Fault::Refused(DirFault::Asked(reply))),
        }
    }

    /// Returns what a path of names, each after a `/`, leads to.
    pub fn walk(&mut self, alloc: Global, path: &str) -> Result<Puid, Fault> {
        let mut at = self.top(alloc)?;
        for name in path.split('/').skip(1) {
            let name = text(alloc, name)?;
            at = self.look(alloc, at, &name)?;
        }
        Ok(at)
    }

    /// Returns what a name leads to.
    pub fn look(&mut self, alloc: Global, dir: Puid, name: &Text) -> Result<Puid, Fault> {
        if self.server.drawn() > MOST_DRAWN {
            return Err(Fault::Spent);
        }
        Ok(look(&mut self.server, alloc, WHO, dir, name)?)
    }

    /// Returns the names of a directory.
    pub fn list(&mut self, alloc: Global, dir: Puid) -> Result<Texts, Fault> {
        if self.server.drawn() > MOST_DRAWN {
            return Err(Fault::Spent);
        }
        Ok(list(&mut self.server, alloc, WHO, dir)?)
    }

    /// Binds a name to an object.
    pub fn bind(&mut self, alloc: Global, dir: Puid, name: &Text, id: Puid) -> Result<(), Fault> {
        if self.server.drawn() > MOST_DRAWN {
            return Err(Fault::Spent);
        }
        Ok(bind(&mut self.server, alloc, WHO, dir, name, id)?)
    }

    /// Unbinds a name.
    pub fn unbind(&mut self, alloc: Global, dir: Puid, name: &Text) -> Result<(), Fault> {
        if self.server.drawn() > MOST_DRAWN {
            return Err(Fault::Spent);
        }
        Ok(unbind(&mut self.server, alloc, WHO, dir, name)?)
    }

    /// Makes a directory under a name.
    pub fn make(
        &mut self,
        alloc: Global,
        dir: Puid,
        name: &Text,
        capacity: u32,
    ) -> Result<Puid, Fault> {
        if self.server.drawn() > MOST_DRAWN {
            return Err(Fault::Spent);
        }
        if capacity == 0 || capacity > MOST_CAPACITY {
            return Err(Fault::Syntax);
        }
        Ok(make(&mut self.server, alloc, WHO, dir, name, capacity)?)
    }

    /// Makes a directory in slot 0 of the root index.
    pub fn make_root(&mut self, alloc: Global, capacity: u32) -> Result<Puid, Fault> {
        if self.server.drawn() > MOST_DRAWN {
            return Err(Fault::Spent);
        }
        if capacity == 0 || capacity > MOST_CAPACITY {
            return Err(Fault::Syntax);
        }
        Ok(make_root(&mut self.server, alloc, WHO, capacity)?)
    }
}
