//! Single requests that read.
ghost use Rattle.std.specs.Prelude.{◌≡◌, ◌+◌, ◌<◌, ◌≤◌, ℕ};
ghost use Rattle.name_dirs.specs.Faults.{OnAnyAsker};
ghost use Rattle.name_dirs.specs.Reading as spec;

use crate::fault::{DirFault, fault_told};
use cfs_base::{Bytes, Puid, Session};
use std::alloc::Global;
use std::marker::Model;
use ufs_model::{Asker, Ref, Reply, Request};

fn number(reply: Reply) -> Result<u64, DirFault>
    ensures { result ≡ spec.number_told reply }
{
    match reply {
        Reply::Number(number) => Ok(number),
        reply => Err(fault_told(reply)),
    }
}

fn held(reply: Reply) -> Result<Option<Puid>, DirFault>
    ensures { result ≡ spec.slot_told reply }
{
    match reply {
        Reply::Id(id) => Ok(Some(id)),
        Reply::Empty => Ok(None),
        reply => Err(fault_told(reply)),
    }
}

fn content(reply: Reply) -> Result<Bytes, DirFault>
    ensures { result ≡ spec.content_told reply }
{
    match reply {
        Reply::Content(bytes) => Ok(bytes),
        reply => Err(fault_told(reply)),
    }
}

/// Returns how many slots an index has.
///
/// `NotDirectory` if the object is no index.
pub(crate) fn slots_of<A: Asker>(
    asker: &mut A,
    alloc: Global,
    who: Session,
    index: Puid,
) -> Result<u64, DirFault>
    requires words { A.words asker.old < 4294967294 }
    ensures went { spec.LooksAtIndex A.Asker who index asker.old asker.new result }
    ensures spends { OnAnyAsker A.Asker 0 asker.old asker.new result }
{
    number(asker.ask(
        alloc,
        who,
        &Request::Slots {
            index: Ref::Direct(index),
        },
    ))
}

/// Returns what a slot of an index holds.
pub(crate) fn slot_of<A: Asker>(
    asker: &mut A,
    alloc: Global,
    who: Session,
    index: Puid,
    slot: u64,
) -> Result<Option<Puid>, DirFault>
    requires words { A.words asker.old < 4294967294 }
    ensures went { spec.LooksAtSlot A.Asker who index slot asker.old asker.new result }
    ensures spends { OnAnyAsker A.Asker 0 asker.old asker.new result }
{
    held(asker.ask(
        alloc,
        who,
        &Request::Retrieve {
            index: Ref::Direct(index),
            slot,
        },
    ))
}

/// Returns how many bytes a file has.
pub(crate) fn size_of<A: Asker>(
    asker: &mut A,
    alloc: Global,
    who: Session,
    file: Puid,
) -> Result<u64, DirFault>
    requires words { A.words asker.old < 4294967294 }
    ensures went { spec.LooksAtFile A.Asker who file asker.old asker.new result }
    ensures spends { OnAnyAsker A.Asker 0 asker.old asker.new result }
{
    number(asker.ask(
        alloc,
        who,
        &Request::Size {
            file: Ref::Direct(file),
        },
    ))
}

/// Reads 1 to 4,096 bytes of a file.
pub(crate) fn bytes_of<A: Asker>(
    asker: &mut A,
    alloc: Global,
    who: Session,
    file: Puid,
    offset: u64,
    count: u64,
) -> Result<Bytes, DirFault>
    requires words { A.words asker.old < 4294967294 }
    requires few { (1 ≤ count) × (count ≤ 4096) }
    ensures went { spec.LooksAtBytes A.Asker who file offset (offset + count) asker.old asker.new result }
    ensures spends { OnAnyAsker A.Asker 0 asker.old asker.new result }
{
    content(asker.ask(
        alloc,
        who,
        &Request::Read {
            file: Ref::Direct(file),
            offset,
            count,
        },
    ))
}
