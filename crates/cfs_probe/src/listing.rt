//! What is reached from the root of a server, as one line: a slow reader over requests alone.
use crate::desk::ask;
use crate::fault::Fault;
use cfs_base::{Puid, Session};
use std::alloc::Global;
use ufs_model::{Asker, MOST_AT_ONCE, Ref, Reply, Request};

/// The session that looks. It has no grant.
const LOOKER: Session = u32::MAX;

/// How many slots of an index are read at most, and how many bytes of a file.
const SLOTS: u64 = 256;

const BYTES: u64 = 65_536;

fn put_run(out: &mut String, run: Option<(u8, u64)>) -> Result<(), Fault> {
    if let Some((byte, count)) = run {
        write!(out, " {byte:02x}*{count}")?;
    }
    Ok(())
}

/// Appends bytes, as runs of equal ones.
pub fn put_bytes(out: &mut String, bytes: &[u8]) -> Result<(), Fault> {
    let mut run: Option<(u8, u64)> = None;
    for byte in bytes {
        run = match run {
            Some((last, count)) if last == *byte => Some((last, count.saturating_add(1))),
            other => {
                put_run(out, other)?;
                Some((*byte, 1u64))
            }
        };
    }
    put_run(out, run)
}

/// Lists the word and the content of each object, in the order in which it is found.
///
/// For an index that is its number of slots, and the words in the filled ones. For a file it is its size and its
/// bytes.
pub fn listing<A: Asker>(server: &mut A, alloc: Global, root: Puid) -> Result<String, Fault> {
    let mut out = String::new(alloc);
    let mut found = vec![in alloc; root; 1]?;
    for at in 0..usize::MAX {
        let Some(id) = found.get(at).copied() else {
            break;
        };
        if at > 0 {
            out.push_str("; ")?;
        }
        write!(out, "{:08x}", id.word)?;
        put_object(server, alloc, id, &mut found, &mut out)?;
    }
    Ok(out)
}

fn put_object<A: Asker>(
    server: &mut A,
    alloc: Global,
    id: Puid,
    found: &mut Vec<Puid>,
    out: &mut String,
) -> Result<(), Fault> {
    let index = Ref::Direct(id);
    match ask(server, alloc, LOOKER, &Request::Slots { index })? {
        Reply::Number(slots) => {
            write!(out, " index {slots}")?;
            put_slots(server, alloc, index, slots, found, out)
        }
        Reply::NotIndex => put_file(server, alloc, index, out),
        _ => Ok(out.push_str(" unread")?),
    }
}

fn put_slots<A: Asker>(
    server: &mut A,
    alloc: Global,
    index: Ref,
    slots: u64,
    found: &mut Vec<Puid>,
    out: &mut String,
) -> Result<(), Fault> {
    for slot in 0..slots.min(SLOTS) {
        match ask(server, alloc, LOOKER, &Request::Retrieve { index, slot })? {
            Reply::Id(id) => put_slot(slot, id, found, out)?,
            Reply::Empty => {}
            _ => out.push_str(" unread")?,
        }
    }
    Ok(())
}

fn put_slot(slot: u64, id: Puid, found: &mut Vec<Puid>, out: &mut String) -> Result<(), Fault> {
    write!(out, " {slot}={:08x}", id.word)?;
    if !found.contains(&id) {
        found.push(id)?;
    }
    Ok(())
}

fn put_file<A: Asker>(
    server: &mut A,
    alloc: Global,
    file: Ref,
    out: &mut String,
) -> Result<(), Fault> {
    match ask(server, alloc, LOOKER, &Request::Size { file })? {
        Reply::Number(size) => {
            write!(out, " file {size}")?;
            let content = content_of(server, alloc, file, size.min(BYTES))?;
            put_bytes(out, content.as_slice())
        }
        _ => Ok(out.push_str(" locked")?),
    }
}

/// Returns the first bytes of a file.
fn content_of<A: Asker>(
    server: &mut A,
    alloc: Global,
    file: Ref,
    size: u64,
) -> Result<Vec<u8>, Fault> {
    let mut content = Vec::new(alloc);
    for piece in 0..size.div_ceil(MOST_AT_ONCE) {
        let offset = MOST_AT_ONCE.saturating_mul(piece);
        let count = size.saturating_sub(offset).min(MOST_AT_ONCE);
        let request = Request::Read {
            file,
            offset,
            count,
        };
        if let Reply::Content(bytes) = ask(server, alloc, LOOKER, &request)? {
            content.extend_from_slice(bytes.as_slice())?;
        }
    }
    Ok(content)
}
