//! Reply lines, as the program prints them.
ghost use Rattle.std.specs.Prelude.{◌≤◌, IsTrue};
ghost use Rattle.cfs_script.specs.Room.{FitsLine};

use crate::fault::Fault;
use cfs_base::Puid;
use cfs_script::{REPLY_ROOM, print_reply, print_unread};
use std::alloc::Global;
use ufs_model::{MOST_AT_ONCE, Reply, Unread};

/// An answer, without the end of its line, and the identifier in it, if there is one.
#[derive(Drop)]
pub struct Said {
    pub text: String,
    pub id: Option<Puid>,
}

impl Said {
    /// Returns an answer that names no identifier.
    pub fn of(text: String) -> Said {
        Said { text, id: None }
    }

    /// Returns whether another server answered the same.
    ///
    /// Their identifiers may be at other blocks.
    pub fn is_like(&self, other: &Said) -> bool {
        match (self.id, other.id) {
            (Some(id), Some(also)) => id.word == also.word,
            _ => self.text == other.text,
        }
    }
}

/// Returns whether a reply line has room for it.
fn fits(reply: &Reply) -> bool
    ensures { IsTrue result → FitsLine reply.now }
{
    match reply {
        Reply::Content(bytes) => bytes.as_slice().len() <= MOST_AT_ONCE as usize,
        _ => true,
    }
}

/// Returns a copy of a text.
pub fn owned(alloc: Global, text: &str) -> Result<String, Fault> {
    Ok(String::from_str(alloc, text)?)
}

/// Returns the text of a line.
fn text_of(alloc: Global, line: &[u8]) -> Result<String, Fault> {
    let mut text = String::new(alloc);
    for byte in line {
        if *byte != b'\n' {
            text.push(*byte as char)?;
        }
    }
    Ok(text)
}

/// Returns the text of a reply.
pub fn replied(alloc: Global, reply: &Reply) -> Result<Said, Fault> {
    if !fits(reply) {
        return Err(Fault::Place);
    }
    let mut line = Vec::with_capacity(alloc, REPLY_ROOM)?;
    print_reply(reply, &mut line);
    let text = text_of(alloc, line.as_slice())?;
    let id = match reply {
        Reply::Id(id) => Some(*id),
        _ => None,
    };
    Ok(Said { text, id })
}

/// Returns the text for a line that is no request.
pub fn unread(alloc: Global, why: Unread) -> Result<Said, Fault> {
    let mut line = Vec::with_capacity(alloc, REPLY_ROOM)?;
    print_unread(why, &mut line);
    Ok(Said::of(text_of(alloc, line.as_slice())?))
}
