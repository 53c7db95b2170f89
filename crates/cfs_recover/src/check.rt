//! A volume checked by reads alone.
ghost use Rattle.std.specs.Prelude.{◌≡◌, ◌⊎◌, ◌+◌, ◌*◌, IfErr, OnOk};
ghost use Rattle.cfs_base.specs.Calls.{OnlyReads};
ghost use Rattle.cfs_base.specs.Run.{Tells};
ghost use Rattle.ufs_model.specs.Graph.{Graph};
ghost use Rattle.vol_image.specs.Sound.{IsSound, IsSoundAs};
ghost use Rattle.cfs_recover.specs.Grounds.{IsOpenFault};
ghost use Rattle.cfs_recover.specs.Reads.{reads_of_volume};
ghost use Rattle.cfs_recover.specs.Refusals.{IsCaused};
ghost use Rattle.cfs_recover.specs.Walk.{reads_by_block};

use crate::fault::RecoverFault;
use crate::survey::survey_volume;
use cfs_base::Disk;
use std::alloc::Global;

/// Checks that a disk holds a sound volume, by all tests that recovery makes before it writes.
///
/// Reads once the label, each map, each root and the shadow root that stands for it, each node, each leaf of an index
/// that is reached, and of a file the leaf in which it ends. Refused for the first fault that is found, for a device
/// call that failed, or for want of memory.
pub fn check_volume<D: Disk>(alloc: Global, disk: &mut D) -> Result<(), RecoverFault>
    ensures sound { Tells D.Disk disk.old → OnOk result (IsSound (D.content disk.old)) }
    ensures refused { Tells D.Disk disk.old → IfErr result (IsOpenFault (D.content disk.old)) }
    // A sound volume is refused for nothing else.
    ensures free { Tells D.Disk disk.old → IsSound (D.content disk.old)
        → IfErr result (λ e. (e ≡ RecoverFault.Disk) ⊎ (e ≡ RecoverFault.Memory)) }
    ensures cause { IfErr result (IsCaused D.Disk disk.old disk.new) }
    ensures reads { OnlyReads D.Disk (1 + reads_by_block * D.blocks disk.old) disk.old disk.new }
    // Of a sound volume no more is read than that.
    ensures by_object { Tells D.Disk disk.old → (g : Graph) → IsSoundAs (D.content disk.old) g
        → OnOk result (OnlyReads D.Disk (reads_of_volume (D.blocks disk.old) g) disk.old disk.new) }
{
    survey_volume(alloc, disk)?;
    Ok(())
}
