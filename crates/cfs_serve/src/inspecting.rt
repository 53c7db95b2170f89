//! Volumes that are checked or mended.
ghost use Rattle.std.specs.Prelude.{◌≡◌, ◌≢◌, ◌≤◌, [], IfErr, IsOk, List, None, IfOk, MatchResult};
ghost use Rattle.cfs_base.specs.Disk.{Image as Content};
ghost use Rattle.cfs_base.specs.declared.refusal.Damage.{Damage as Pair};
ghost use Rattle.cfs_check.specs.Checked.{IsChecked};
ghost use Rattle.cfs_serve.specs.Inspected.{ChecksVolume, MendsVolume, TellsFound, load_cause, mend_cause};
ghost use Rattle.cfs_serve.specs.Report.{untold};
ghost use Rattle.cfs_serve.specs.declared.report.Cause.TheVariants as causes;

use crate::report::{Cause, Report, VolumeFault};
use cfs_base::{Disk, NoMemory};
use cfs_check::{Checked, Damages, LoadFault, MendFault, load, mend, report};
use std::alloc::Global;
use std::thread::Threads;

impl From<LoadFault> for Cause {
    ghost from_gives = { λ fault cause. cause ≡ load_cause fault };

    fn from(fault: LoadFault) -> Cause {
        match fault {
            LoadFault::Disk => Cause::Disk(None),
            LoadFault::Large { .. } => Cause::LongVolume,
            LoadFault::Memory => Cause::Memory,
        }
    }
}

impl From<MendFault> for Cause {
    ghost from_gives = { λ fault cause. cause ≡ mend_cause fault };

    fn from(fault: MendFault) -> Cause {
        match fault {
            MendFault::Disk => Cause::Disk(None),
            MendFault::NotVolume => Cause::Volume(VolumeFault::NotVolume),
            MendFault::Version { found } => Cause::Volume(VolumeFault::Version(found)),
            MendFault::Damaged(damage) => Cause::Volume(VolumeFault::Damaged(damage)),
            MendFault::Memory => Cause::Memory,
        }
    }
}

impl From<NoMemory> for Cause {
    ghost from_gives = { λ _ cause. cause ≡ causes.Memory };

    fn from(_want: NoMemory) -> Cause {
        Cause::Memory
    }
}

/// Returns the report on a volume with these faults, of which the first is the cause.
fn tell_faults(faults: Damages) -> Report
    requires { faults ≢ [] }
    ensures counts { result.counts ≡ None }
    ensures told { (image : Content) → IsChecked image (Checked.Faults faults)
        → TellsFound image result.cause result.faults }
{
    let [first, ..] = faults.as_slice() else {
        unreachable!();
    };
    Report {
        counts: None,
        cause: Cause::Volume(VolumeFault::Damaged(*first)),
        faults,
    }
}

/// Returns the report on what was found of a volume.
fn tell(alloc: Global, checked: Checked) -> Report
    requires { (faults : List Pair) → checked ≡ Checked.Faults faults → faults ≢ [] }
    ensures counts { result.counts ≡ None }
    ensures told { (image : Content) → IsChecked image checked → TellsFound image result.cause result.faults }
{
    let cause = match checked {
        Checked::NotVolume => Cause::Volume(VolumeFault::NotVolume),
        Checked::Version { found } => Cause::Volume(VolumeFault::Version(found)),
        Checked::Faults(faults) => return tell_faults(faults),
        Checked::Sound { objects, left } => Cause::Sound { objects, left },
    };
    Report::untold(alloc, cause)
}

/// Loads the volume of a disk, and returns the report on what is found.
///
/// If it can't be loaded or checked, the error is the cause to report.
fn check<D: Disk, R: Threads + Sync>(rt: &R, alloc: Global, disk: &mut D) -> Result<Report, Cause>
    ensures counts { IfOk result (λ told. told.counts ≡ None) }
    ensures checked { MatchResult result (λ told. ChecksVolume D.Disk told disk.old disk.new)
        (λ cause. ChecksVolume D.Disk (untold cause) disk.old disk.new) }
{
    let image = load(alloc, disk)?;
    let checked = report(rt, alloc, &image)?;
    Ok(tell(alloc, checked))
}

/// Checks the volume of a disk, and returns the report.
///
/// It lists all faults, or says that the volume is sound, or why it could not be checked. Nothing is written.
pub(crate) fn check_volume<D: Disk, R: Threads + Sync>(
    rt: &R,
    alloc: Global,
    disk: &mut D,
) -> Report
    ensures counts { result.counts ≡ None }
    ensures checked { ChecksVolume D.Disk result disk.old disk.new }
{
    match check(rt, alloc, disk) {
        Ok(told) => told,
        Err(cause) => Report::untold(alloc, cause),
    }
}

/// Loads the volume of a disk and mends it.
///
/// If it can't be loaded or mended, the error is the cause to report.
fn load_and_mend<D: Disk, R: Threads + Sync>(
    rt: &R,
    alloc: Global,
    disk: &mut D,
) -> Result<(), Cause>
    ensures { MatchResult result (λ _. MendsVolume D.Disk (untold causes.Nothing) disk.old disk.new)
        (λ cause. MendsVolume D.Disk (untold cause) disk.old disk.new) }
{
    let image = load(alloc, disk)?;
    mend(rt, alloc, disk, &image)?;
    Ok(())
}

/// Mends the volume of a disk, and returns the report.
///
/// Its cause is `Nothing`, or why the volume isn't mended. If a fault can't be healed or memory is wanting, nothing is
/// written.
pub(crate) fn mend_volume<D: Disk, R: Threads + Sync>(rt: &R, alloc: Global, disk: &mut D) -> Report
    ensures counts { result.counts ≡ None }
    ensures mended { MendsVolume D.Disk result disk.old disk.new }
{
    let cause = match load_and_mend(rt, alloc, disk) {
        Ok(()) => Cause::Nothing,
        Err(cause) => cause,
    };
    Report::untold(alloc, cause)
}
