//! Names bound and unbound.
ghost use Rattle.std.specs.Prelude.{◌≡◌, ◌<◌, Some, None};
ghost use Rattle.name_dirs.specs.Calls as spec;
ghost use Rattle.name_dirs.specs.Faults.{OnAnyAsker, StopsWith};
ghost use Rattle.ufs_model.specs.State.{State};

use crate::asking::slot_of;
use crate::changing::{empty, retain, write_row};
use crate::fault::DirFault;
use crate::opening::open;
use crate::row::{NO_NAME, row_of};
use crate::text::Text;
use cfs_base::{Puid, Session};
use std::alloc::Global;
use std::marker::Model;
use ufs_model::Asker;

/// Binds a name to an object.
///
/// A row with the name gets the object by one retain. If there is none, the first row without a name is taken: first
/// comes the retain, then the name, so that what the row's slot held never appears under it.
pub fn bind<A: Asker>(
    asker: &mut A,
    alloc: Global,
    who: Session,
    dir: Puid,
    name: &Text,
    id: Puid,
) -> Result<(), DirFault>
    requires words { A.words asker.old < 4294967290 }
    ensures went { (s : State) → A.stands asker.old s
        → (t : State) × spec.Renames A.Asker who dir name.now (Some id) asker.old asker.new s t
        × StopsWith s t result × spec.Binds (A.cylinders asker.old) s t dir name.now id result }
    ensures spends { OnAnyAsker A.Asker 0 asker.old asker.new result }
{
    let table = open(asker, alloc, who, dir)?;
    let row = row_of(name.as_slice());
    if let Some(place) = table.place_of(&row) {
        return retain(asker, alloc, who, dir, place, id);
    }
    let Some(place) = table.place_of(&NO_NAME) else {
        return Err(table.full());
    };
    retain(asker, alloc, who, dir, place, id)?;
    write_row(asker, alloc, who, table.file, place, &row)
}

/// Unbinds a name: first the name is removed, then what its slot holds.
pub fn unbind<A: Asker>(
    asker: &mut A,
    alloc: Global,
    who: Session,
    dir: Puid,
    name: &Text,
) -> Result<(), DirFault>
    requires words { A.words asker.old < 4294967290 }
    ensures went { (s : State) → A.stands asker.old s
        → (t : State) × spec.Renames A.Asker who dir name.now None asker.old asker.new s t
        × StopsWith s t result × spec.Unbinds (A.cylinders asker.old) s t dir name.now result }
    ensures spends { OnAnyAsker A.Asker 0 asker.old asker.new result }
{
    let table = open(asker, alloc, who, dir)?;
    let Some(place) = table.place_of(&row_of(name.as_slice())) else {
        return Err(DirFault::NoName);
    };
    if slot_of(asker, alloc, who, dir, place)?.is_none() {
        return Err(DirFault::NoName);
    }
    write_row(asker, alloc, who, table.file, place, &NO_NAME)?;
    empty(asker, alloc, who, dir, place)
}
