//! How directories are made.
ghost use Rattle.std.specs.Prelude.{◌≡◌, ◌<◌, ◌≤◌, IfOk};
ghost use Rattle.name_dirs.specs.Calls as spec;
ghost use Rattle.name_dirs.specs.Faults.{OnAnyAsker, StopsWith};
ghost use Rattle.name_dirs.specs.Making.{LooksAtTop, MakesDirectory, TakesPlace, if_other, most_capacity};
ghost use Rattle.ufs_model.specs.State.{State};

use crate::asking::slot_of;
use crate::changing::{create_index, create_table, lengthen, write_row};
use crate::fault::DirFault;
use crate::opening::open;
use crate::row::{NO_NAME, ROW, header, row_of};
use crate::table::Table;
use crate::text::Text;
use cfs_base::{Puid, Session};
use std::alloc::Global;
use std::marker::Model;
use ufs_model::Asker;

/// The most entries that a new directory may have.
pub const MOST_CAPACITY: u32 = 4095;

/// Makes a directory of `capacity` entries under a new name, and returns its identifier.
///
/// The name is written last.
pub fn make<A: Asker>(
    asker: &mut A,
    alloc: Global,
    who: Session,
    dir: Puid,
    name: &Text,
    capacity: u32,
) -> Result<Puid, DirFault>
    requires words { A.words asker.old < 4294967290 }
    requires capacity { (1 ≤ capacity) × (capacity ≤ most_capacity) }
    ensures went { (s : State) → A.stands asker.old s
        → (t : State) × spec.MakesIn A.Asker who dir name.now asker.old asker.new s t × StopsWith s t result
        × spec.MakesNamed (A.cylinders asker.old) s t dir name.now capacity result }
    ensures spends { OnAnyAsker A.Asker 2 asker.old asker.new result }
{
    let table = open(asker, alloc, who, dir)?;
    let row = row_of(name.as_slice());
    let place = place_for(asker, alloc, who, dir, &table, &row)?;
    let made = make_directory(asker, alloc, who, dir, place, capacity)?;
    write_row(asker, alloc, who, table.file, place, &row)?;
    Ok(made)
}

/// Makes a directory of `capacity` entries in slot 0 of the root index, and returns its identifier.
///
/// Anything there that is no directory is replaced.
pub fn make_root<A: Asker>(
    asker: &mut A,
    alloc: Global,
    who: Session,
    capacity: u32,
) -> Result<Puid, DirFault>
    requires words { A.words asker.old < 4294967290 }
    requires capacity { (1 ≤ capacity) × (capacity ≤ most_capacity) }
    ensures went { (s : State) → A.stands asker.old s
        → (t : State) × spec.MakesOnTop A.Asker who asker.old asker.new s t × StopsWith s t result
        × spec.MakesTop (A.cylinders asker.old) s t capacity result }
    ensures spends { OnAnyAsker A.Asker 2 asker.old asker.new result }
{
    let root = asker.root();
    if has_top(asker, alloc, who, root)? {
        return Err(DirFault::Exists);
    }
    make_directory(asker, alloc, who, root, 0, capacity)
}

/// Returns whether slot 0 of the root index holds a directory.
fn has_top<A: Asker>(
    asker: &mut A,
    alloc: Global,
    who: Session,
    root: Puid,
) -> Result<bool, DirFault>
    requires words { A.words asker.old < 4294967294 }
    requires root { root ≡ A.top asker.old }
    ensures went { LooksAtTop A.Asker who asker.old asker.new result }
    ensures spends { OnAnyAsker A.Asker 0 asker.old asker.new result }
{
    let Some(top) = slot_of(asker, alloc, who, root, 0)? else {
        return Ok(false);
    };
    match open(asker, alloc, who, top) {
        Ok(_) => Ok(true),
        Err(fault) => if_other(fault),
    }
}

/// Returns false if the fault says that something is no directory, which may be replaced.
fn if_other(fault: DirFault) -> Result<bool, DirFault>
    ensures { result ≡ if_other fault }
{
    match fault {
        DirFault::NotDirectory => Ok(false),
        fault => Err(fault),
    }
}

/// Returns where a new directory with this row goes.
///
/// A row with the name whose slot is empty loses its name, and is taken.
fn place_for<A: Asker>(
    asker: &mut A,
    alloc: Global,
    who: Session,
    dir: Puid,
    table: &Table,
    row: &[u8; ROW],
) -> Result<u64, DirFault>
    requires words { A.words asker.old < 4294967294 }
    ensures went { TakesPlace A.Asker who dir table.now.file table.now.bytes row.now asker.old asker.new result }
    ensures within { IfOk result (λ place. place < table.now.slots) }
    ensures spends { OnAnyAsker A.Asker 0 asker.old asker.new result }
{
    let Some(place) = table.place_of(row) else {
        return table.place_of(&NO_NAME).ok_or(table.full());
    };
    if slot_of(asker, alloc, who, dir, place)?.is_some() {
        return Err(DirFault::Exists);
    }
    write_row(asker, alloc, who, table.file, place, &NO_NAME)?;
    Ok(place)
}

/// Makes a directory of `capacity` entries in a slot.
///
/// The header is written last, and until then it is no directory.
fn make_directory<A: Asker>(
    asker: &mut A,
    alloc: Global,
    who: Session,
    index: Puid,
    slot: u64,
    capacity: u32,
) -> Result<Puid, DirFault>
    requires words { A.words asker.old < 4294967292 }
    requires capacity { (1 ≤ capacity) × (capacity ≤ most_capacity) }
    ensures went { MakesDirectory A.Asker who index slot capacity asker.old asker.new result }
    ensures spends { OnAnyAsker A.Asker 2 asker.old asker.new result }
{
    let slots = u64::from(capacity) + 1;
    let made = create_index(asker, alloc, who, slots, index, slot)?;
    let table = create_table(asker, alloc, who, made)?;
    lengthen(asker, alloc, who, table, 64 * slots)?;
    write_row(asker, alloc, who, table, 0, &header())?;
    Ok(made)
}
