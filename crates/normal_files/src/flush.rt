//! A barrier after writes.
ghost use Rattle.std.specs.Prelude.{◌≡◌, ℕ, IfErr, IsTrue, OnOk, true};
ghost use Rattle.cfs_base.specs.Disk.{Nothing};
ghost use Rattle.cfs_base.specs.Run.{IsSettled, Leaves as LeavesOf};
ghost use Rattle.cfs_base.specs.declared.refusal.Trouble.TheVariants as troubles;
ghost use Rattle.normal_files.specs.Steps.{ComesOrStops};

use cfs_base::{Disk, Trouble};

/// Makes what was written survive a crash.
pub(crate) fn flush<D: Disk>(disk: &mut D) -> Result<(), Trouble>
    ensures settled { OnOk result (IsTrue (D.honest disk.old) → IsSettled D.Disk disk.new) }
    ensures content { D.content disk.new ≡ D.content disk.old }
    ensures told { (n : ℕ) → IsTrue (D.told disk.old n) → IsTrue (D.told disk.new n) }
    ensures images { LeavesOf D.Disk disk.old disk.new Nothing }
    ensures failed { IfErr result (λ t. t ≡ troubles.Disk true) }
    ensures ends { ComesOrStops D.Disk 1 1 disk.old disk.new result (λ done. true) }
{
    disk.barrier().map_err(|_| Trouble::Disk { tried: true })
}
