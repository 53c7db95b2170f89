//! Answers, without the end of their line.
ghost use Rattle.std.specs.Prelude.{◌≤◌, IsTrue};
ghost use Rattle.cfs_script.specs.Room.{FitsLine};

use crate::fault::Fault;
use cfs_base::Puid;
use cfs_script::{REPLY_ROOM, print_reply, print_unread};
use name_dirs::Texts;
use std::alloc::Global;
use ufs_model::{MOST_AT_ONCE, Reply, Unread};

/// Returns whether a reply line has room for it.
fn fits(reply: &Reply) -> bool
    ensures { IsTrue result → FitsLine reply.now }
{
    match reply {
        Reply::Content(bytes) => bytes.as_slice().len() <= MOST_AT_ONCE as usize,
        _ => true,
    }
}

/// Returns the text of a line.
fn text_of(alloc: Global, line: &[u8]) -> Result<String, Fault> {
    let mut text = String::new(alloc);
    for byte in line {
        if *byte != b'\n' {
            text.push(*byte as char)?;
        }
    }
    Ok(text)
}

/// Returns the text of a reply.
pub fn replied(alloc: Global, reply: &Reply) -> Result<String, Fault> {
    if !fits(reply) {
        return Err(Fault::Long);
    }
    let mut line = Vec::with_capacity(alloc, REPLY_ROOM)?;
    print_reply(reply, &mut line);
    text_of(alloc, line.as_slice())
}

/// Returns the text for a line that is no request.
pub fn unread(alloc: Global, why: Unread) -> Result<String, Fault> {
    let mut line = Vec::with_capacity(alloc, REPLY_ROOM)?;
    print_unread(why, &mut line);
    text_of(alloc, line.as_slice())
}

/// Returns the text for a call that was done.
pub fn done(alloc: Global) -> Result<String, Fault> {
    replied(alloc, &Reply::Done)
}

/// Returns the text for an identifier.
pub fn found(alloc: Global, id: Puid) -> Result<String, Fault> {
    replied(alloc, &Reply::Id(id))
}

/// Returns the text for names, each after a space.
pub fn listed(alloc: Global, names: &Texts) -> Result<String, Fault> {
    let mut text = done(alloc)?;
    for name in names.as_slice() {
        text.push(' ')?;
        text.push_str(text_of(alloc, name.as_slice())?.as_str())?;
    }
    Ok(text)
}
