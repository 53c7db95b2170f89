//! How tables are read whole.
ghost use Rattle.std.specs.Prelude.{◌≡◌, ◌*◌, ◌<◌, IfOk};
ghost use Rattle.name_dirs.specs.Directory.{are_rows};
ghost use Rattle.name_dirs.specs.Faults.{OnAnyAsker};
ghost use Rattle.name_dirs.specs.Opening as spec;

use crate::asking::{bytes_of, size_of, slot_of, slots_of};
use crate::fault::DirFault;
use crate::row::{header, letters_of, row_at};
use crate::table::Table;
use crate::text::{Text, Texts};
use cfs_base::{Bytes, Kind, NoMemory, Puid, Session};
use std::alloc::Global;
use std::marker::Model;
use ufs_model::{Asker, MOST_AT_ONCE};

/// Reads the bytes of a file of this size.
fn read_bytes<A: Asker>(
    asker: &mut A,
    alloc: Global,
    who: Session,
    file: Puid,
    size: u64,
) -> Result<Bytes, DirFault>
    requires words { A.words asker.old < 4294967294 }
    ensures went { spec.ReadsWhole A.Asker who file size asker.old asker.new result }
    ensures spends { OnAnyAsker A.Asker 0 asker.old asker.new result }
{
    let mut bytes = Vec::new(alloc);
    let mut at = 0;
    'pieces: while at < size {
        let count = (size - at).min(MOST_AT_ONCE);
        let piece = bytes_of(asker, alloc, who, file, at, count)?;
        bytes.extend_from_slice(piece.as_slice())?;
        at += count;
    }
    Ok(Bytes::new(bytes))
}

/// Returns whether these are the rows of a table of `slots` slots.
fn are_rows(alloc: Global, bytes: &[u8], slots: u64) -> Result<bool, NoMemory>
    requires { 64 * slots < 18446744073709551616 }
    ensures { IfOk result (λ b. b ≡ are_rows bytes.now slots) }
{
    if bytes.len() as u64 != 64 * slots || slots == 0 || row_at(bytes, 0) != header().as_slice() {
        return Ok(false);
    }
    let mut names = Texts::new(alloc);
    'rows: for place in 1..slots as usize {
        let Some(letters) = letters_of(row_at(bytes, place)) else {
            return Ok(false);
        };
        let Some(name) = Text::copied(alloc, letters)? else {
            continue;
        };
        if !names.add(name)? {
            return Ok(false);
        }
    }
    Ok(true)
}

/// Reads the table of a directory.
///
/// `NotDirectory` if the object is none.
pub(crate) fn open<A: Asker>(
    asker: &mut A,
    alloc: Global,
    who: Session,
    dir: Puid,
) -> Result<Table, DirFault>
    requires words { A.words asker.old < 4294967294 }
    ensures went { spec.Opens A.Asker who dir asker.old asker.new result }
    ensures spends { OnAnyAsker A.Asker 0 asker.old asker.new result }
{
    let slots = slots_of(asker, alloc, who, dir)?;
    let file = slot_of(asker, alloc, who, dir, 0)?.ok_or(DirFault::NotDirectory)?;
    if asker.kind(file) != Some(Kind::Special) {
        return Err(DirFault::NotDirectory);
    }
    let size = size_of(asker, alloc, who, file)?;
    if size % 64 != 0 || size / 64 != slots {
        return Err(DirFault::NotDirectory);
    }
    let bytes = read_bytes(asker, alloc, who, file, size)?;
    if !are_rows(alloc, bytes.as_slice(), slots)? {
        return Err(DirFault::NotDirectory);
    }
    Ok(Table { file, slots, bytes })
}
