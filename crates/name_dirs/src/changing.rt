//! Single requests that change an object.
ghost use Rattle.std.specs.Prelude.{◌≡◌, ◌+◌, ◌<◌, ◌≤◌, length};
ghost use Rattle.name_dirs.specs.Changing as spec;
ghost use Rattle.name_dirs.specs.Faults.{OnAnyAsker};
ghost use Rattle.name_dirs.specs.Text.{row_size};
ghost use Rattle.ufs_model.specs.Limits.{most_slots};
ghost use Rattle.ufs_model.specs.Object.{new_index};
ghost use Rattle.ufs_model.specs.declared.object.Object.TheVariants as objects;

use crate::fault::{DirFault, fault_told};
use crate::row::ROW;
use cfs_base::{Bytes, FileKind, Puid, Session};
use std::alloc::Global;
use std::marker::Model;
use ufs_model::{Asker, Ref, Reply, Request};

fn done(reply: Reply) -> Result<(), DirFault>
    ensures { result ≡ spec.done_told reply }
{
    match reply {
        Reply::Done => Ok(()),
        reply => Err(fault_told(reply)),
    }
}

fn id(reply: Reply) -> Result<Puid, DirFault>
    ensures { result ≡ spec.id_told reply }
{
    match reply {
        Reply::Id(id) => Ok(id),
        reply => Err(fault_told(reply)),
    }
}

/// Puts an identifier into a slot.
pub(crate) fn retain<A: Asker>(
    asker: &mut A,
    alloc: Global,
    who: Session,
    index: Puid,
    slot: u64,
    id: Puid,
) -> Result<(), DirFault>
    requires words { A.words asker.old < 4294967294 }
    ensures went { spec.Retains A.Asker who index slot id asker.old asker.new result }
    ensures spends { OnAnyAsker A.Asker 0 asker.old asker.new result }
{
    done(asker.ask(
        alloc,
        who,
        &Request::Retain {
            index: Ref::Direct(index),
            slot,
            id,
        },
    ))
}

/// Empties a slot.
pub(crate) fn empty<A: Asker>(
    asker: &mut A,
    alloc: Global,
    who: Session,
    index: Puid,
    slot: u64,
) -> Result<(), DirFault>
    requires words { A.words asker.old < 4294967294 }
    ensures went { spec.Empties A.Asker who index slot asker.old asker.new result }
    ensures spends { OnAnyAsker A.Asker 0 asker.old asker.new result }
{
    done(asker.ask(
        alloc,
        who,
        &Request::Delete {
            index: Ref::Direct(index),
            slot,
        },
    ))
}

/// Writes a row of a table.
pub(crate) fn write_row<A: Asker>(
    asker: &mut A,
    alloc: Global,
    who: Session,
    table: Puid,
    place: u64,
    row: &[u8; ROW],
) -> Result<(), DirFault>
    requires words { A.words asker.old < 4294967294 }
    requires small { place < 288230376151711744 }
    ensures went { spec.WritesRow A.Asker who table place row.now asker.old asker.new result }
    ensures spends { OnAnyAsker A.Asker 0 asker.old asker.new result }
{
    let bytes = Vec::from_slice(alloc, row)?;
    done(asker.ask(
        alloc,
        who,
        &Request::Write {
            file: Ref::Direct(table),
            offset: 64 * place,
            bytes: Bytes::new(bytes),
        },
    ))
}

/// Sets the size of a table of no bytes.
pub(crate) fn lengthen<A: Asker>(
    asker: &mut A,
    alloc: Global,
    who: Session,
    file: Puid,
    size: u64,
) -> Result<(), DirFault>
    requires words { A.words asker.old < 4294967294 }
    ensures went { spec.Lengthens A.Asker who file size asker.old asker.new result }
    ensures spends { OnAnyAsker A.Asker 0 asker.old asker.new result }
{
    done(asker.ask(
        alloc,
        who,
        &Request::Resize {
            file: Ref::Direct(file),
            size,
        },
    ))
}

/// Makes an index of empty slots in a slot.
pub(crate) fn create_index<A: Asker>(
    asker: &mut A,
    alloc: Global,
    who: Session,
    slots: u64,
    index: Puid,
    slot: u64,
) -> Result<Puid, DirFault>
    requires words { A.words asker.old < 4294967294 }
    requires some { (1 ≤ slots) × (slots ≤ most_slots) }
    ensures went { spec.PutsNew A.Asker who (objects.Index (new_index slots)) index slot asker.old asker.new result }
    ensures spends { OnAnyAsker A.Asker 1 asker.old asker.new result }
{
    id(asker.ask(
        alloc,
        who,
        &Request::CreateIndex {
            slots,
            index: Ref::Direct(index),
            slot,
        },
    ))
}

/// Makes a special file of no bytes in slot 0 of an index.
pub(crate) fn create_table<A: Asker>(
    asker: &mut A,
    alloc: Global,
    who: Session,
    index: Puid,
) -> Result<Puid, DirFault>
    requires words { A.words asker.old < 4294967294 }
    ensures went { spec.PutsNew A.Asker who (objects.File spec.new_table) index 0 asker.old asker.new result }
    ensures spends { OnAnyAsker A.Asker 1 asker.old asker.new result }
{
    id(asker.ask(
        alloc,
        who,
        &Request::CreateFile {
            kind: FileKind::Special,
            fill: 0,
            index: Ref::Direct(index),
            slot: 0,
        },
    ))
}
