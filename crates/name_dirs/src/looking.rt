//! How names are looked up and listed, and where their paths begin.
ghost use Rattle.std.specs.Prelude.{◌≡◌, ◌<◌};
ghost use Rattle.name_dirs.specs.Calls as spec;
ghost use Rattle.name_dirs.specs.Faults.{OnAnyAsker, StopsWith};
ghost use Rattle.ufs_model.specs.State.{State};

use crate::asking::slot_of;
use crate::fault::DirFault;
use crate::opening::open;
use crate::row::row_of;
use crate::text::{Text, Texts};
use cfs_base::{Puid, Session};
use std::alloc::Global;
use std::marker::Model;
use ufs_model::Asker;

/// Returns what a name leads to.
pub fn look<A: Asker>(
    asker: &mut A,
    alloc: Global,
    who: Session,
    dir: Puid,
    name: &Text,
) -> Result<Puid, DirFault>
    requires words { A.words asker.old < 4294967290 }
    ensures went { (s : State) → A.stands asker.old s → (t : State) × spec.ReadsOn A.Asker who asker.old asker.new s t
        × StopsWith s t result × spec.LooksUp s t dir name.now result }
    ensures spends { OnAnyAsker A.Asker 0 asker.old asker.new result }
{
    let table = open(asker, alloc, who, dir)?;
    let Some(place) = table.place_of(&row_of(name.as_slice())) else {
        return Err(DirFault::NoName);
    };
    slot_of(asker, alloc, who, dir, place)?.ok_or(DirFault::NoName)
}

/// Returns the names that lead to something, in the order of their bytes.
pub fn list<A: Asker>(
    asker: &mut A,
    alloc: Global,
    who: Session,
    dir: Puid,
) -> Result<Texts, DirFault>
    requires words { A.words asker.old < 4294967290 }
    ensures went { (s : State) → A.stands asker.old s → (t : State) × spec.ReadsOn A.Asker who asker.old asker.new s t
        × StopsWith s t result × spec.Lists s t dir result }
    ensures spends { OnAnyAsker A.Asker 0 asker.old asker.new result }
{
    let table = open(asker, alloc, who, dir)?;
    let mut names = Texts::new(alloc);
    'places: for place in 1..table.slots {
        let Some(name) = table.name_at(alloc, place)? else {
            continue;
        };
        if slot_of(asker, alloc, who, dir, place)?.is_some() {
            names.add(name)?;
        }
    }
    Ok(names)
}

/// Returns what slot 0 of the root index holds, where the paths of names begin.
///
/// `NotDirectory` if the slot is empty.
pub fn top<A: Asker>(asker: &mut A, alloc: Global, who: Session) -> Result<Puid, DirFault>
    requires words { A.words asker.old < 4294967290 }
    ensures went { (s : State) → A.stands asker.old s → (t : State) × spec.ReadsOn A.Asker who asker.old asker.new s t
        × StopsWith s t result × spec.FindsTop s t result }
    ensures spends { OnAnyAsker A.Asker 0 asker.old asker.new result }
{
    let root = asker.root();
    slot_of(asker, alloc, who, root, 0)?.ok_or(DirFault::NotDirectory)
}
