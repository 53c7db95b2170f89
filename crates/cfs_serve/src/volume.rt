//! How volumes are opened.
ghost use Rattle.std.specs.Prelude.{◌≡◌, ◌*◌, ◌≤◌, IfErr, IfOk, IfSome, IsTrue, None, length};
ghost use Rattle.cfs_core.specs.Opened.{IsOpenedCore};
ghost use Rattle.cfs_serve.specs.Disks.{IsLater};
ghost use Rattle.cfs_serve.specs.Opening.{IsOpeningRefusal, disk_refused, opening_cause};
ghost use Rattle.cfs_recover.specs.Recovered.{IsUntouched, LeavesSinceBarrier};
ghost use Rattle.cfs_serve.specs.declared.report.VolumeFault as volume_faults;
ghost use Rattle.vol_image.specs.Sound.{IsSound, IsSoundAs};
ghost use Rattle.ufs_model.specs.Graph.{Graph};
ghost use Rattle.cfs_serve.specs.Volume.{IsNewCore};

use crate::report::{Cause, VolumeFault};
use crate::sure_disk::SureDisk;
use cfs_base::Disk;
use cfs_core::{Core, OpenFault};
use cfs_recover::RecoverFault;
use std::alloc::Global;

/// Makes a volume of `cylinders` cylinders in memory, and opens it. Returns `None` for want of memory.
pub(crate) fn new_volume(alloc: Global, cylinders: u32, seed: u64) -> Option<Core<SureDisk>>
    requires some { 1 ≤ cylinders }
    requires most { cylinders ≤ 1024 }
    ensures { IfSome result (IsNewCore ⟦<SureDisk as Disk>⟧ cylinders seed) }
{
    let mut disk = SureDisk::new(alloc, 64 * cylinders).ok()?;
    let Ok(()) = Core::format(&mut disk, seed) else {
        unreachable!();
    };
    Core::open(alloc, disk, seed).ok()
}

/// A volume that was not opened: the cause to report, and the disk.
#[derive(Drop)]
pub(crate) struct Unopened<D> {
    pub cause: Cause,
    pub disk: D,
}

/// Returns the cause to report of a volume that was not opened.
fn told_by(why: RecoverFault) -> Cause
    ensures { result ≡ opening_cause why }
{
    match why {
        RecoverFault::Disk => Cause::Disk(None),
        RecoverFault::NotVolume => Cause::Volume(VolumeFault::NotVolume),
        RecoverFault::Version { found } => Cause::Volume(VolumeFault::Version(found)),
        RecoverFault::Damaged(damage) => Cause::Volume(VolumeFault::Damaged(damage)),
        RecoverFault::Memory => Cause::Memory,
    }
}

/// Opens the volume of a disk, as a crash may have left it.
///
/// If it can't be opened, the error has the cause to report, and the disk.
pub(crate) fn open_volume<D: Disk>(
    alloc: Global,
    disk: D,
    seed: u64,
) -> Result<Core<D>, Unopened<D>>
    ensures opened { IsTrue (D.honest disk) → (graph : Graph) → IsSoundAs (D.content disk) graph
        → IfOk result (IsOpenedCore D.Disk graph seed) }
    ensures begins { IfOk result (λ core. (core.words ≡ record { seed = seed; drawn = 0 }) × (core.stop ≡ None)) }
    ensures idle { IfOk result (λ core. core.collections ≡ record { collector = None; called = 0; finished = 0 }) }
    ensures sound { IsTrue (D.honest disk) → IfOk result (λ core. IsSound (D.content disk)) }
    ensures size { IfOk result (λ core. D.blocks disk ≡ 64 * length core.space.free) }
    // If the volume is refused for what is wrong with it, or isn't sound, nothing was written.
    ensures untouched { IsTrue (D.honest disk) → IfErr result (λ e. (fault : volume_faults.VolumeFault)
        → e.cause ≡ Cause.Volume fault → IsUntouched D.Disk disk e.disk) }
    ensures unsound { IsTrue (D.honest disk) → ¬ IsSound (D.content disk)
        → IsUntouched D.Disk disk (disk_refused result) }
    // What is reported of a refusal: a failed call only if one failed, a fault of the volume only if it isn't sound.
    ensures refused { IfErr result (λ e. IsOpeningRefusal D.Disk disk e.disk e.cause) }
    ensures images { IsTrue (D.honest disk) → (graph : Graph) → IsSoundAs (D.content disk) graph
        → LeavesSinceBarrier D.Disk disk (disk_refused result) (λ c. IsSoundAs c graph) }
    ensures later { IsLater D.Disk disk (disk_refused result) }
{
    match Core::open(alloc, disk, seed) {
        Ok(core) => Ok(core),
        Err(OpenFault { why, disk }) => Err(Unopened {
            cause: told_by(why),
            disk,
        }),
    }
}
