//! Paths.
ghost use Rattle.std.specs.Prelude.{◌≡◌, ◌<◌};
ghost use Rattle.name_dirs.specs.Faults.{OnAnyAsker};
ghost use Rattle.name_lines.specs.Walking as spec;

use crate::line::Pathname;
use cfs_base::{Puid, Session};
use name_dirs::{DirFault, look, top};
use std::alloc::Global;
use std::marker::Model;
use ufs_model::Asker;

/// Returns what a path leads to. `/` leads to what is in slot 0 of the root index.
pub(crate) fn walk<A: Asker>(
    asker: &mut A,
    alloc: Global,
    who: Session,
    path: &Pathname,
) -> Result<Puid, DirFault>
    requires words { A.words asker.old < 4294967290 }
    ensures went { spec.WalksPath A.Asker who path.now asker.old asker.new result }
    ensures spends { OnAnyAsker A.Asker 0 asker.old asker.new result }
{
    let mut at = top(asker, alloc, who)?;
    'names: for name in path.as_slice() {
        at = look(asker, alloc, who, at, name)?;
    }
    Ok(at)
}
