//! A volume opened: what a crash left of it is distinguished from damage, and tidied.
ghost use Rattle.std.specs.Prelude.{◌≡◌, ◌≢◌, ◌⊎◌, ◌+◌, ◌*◌, length, replicate, None, IsTrue, IfErr, IfOk, OnErr, OnOk};
ghost use Rattle.cfs_base.specs.Calls.{HasFailed, MakesAtMost};
ghost use Rattle.cfs_base.specs.Disk.{Image};
ghost use Rattle.cfs_base.specs.Run.{IsSettled, Tells};
ghost use Rattle.ufs_model.specs.Graph.{Graph};
ghost use Rattle.vol_image.specs.Sound.{IsSound, IsSoundAs};
ghost use Rattle.cfs_recover.specs.Grounds.{IsOpenFault};
ghost use Rattle.cfs_recover.specs.Keeps.{Leads};
ghost use Rattle.cfs_recover.specs.Recovered.{IsRecovered, IsUntouched, LeavesSinceBarrier, WritesWhatDiffers};
ghost use Rattle.cfs_recover.specs.Reads.{reads_of_volume};
ghost use Rattle.cfs_recover.specs.Refusals.{IsCaused};
ghost use Rattle.cfs_recover.specs.Survey.{FitsSurvey, IsSurvey};
ghost use Rattle.cfs_recover.specs.Walk.{calls_by_block};

use crate::fault::RecoverFault;
use crate::survey::{Survey, survey_volume};
use crate::tidy::tidy_maps;
use crate::writes::{copy_roots, flush};
use cfs_base::{Disk, Failed};
use cyl_alloc::Space;
use puid_space::Directory;
use std::alloc::Global;
use vol_label::Label;

/// A volume that was opened.
#[derive(Debug, Drop)]
pub struct Recovered {
    /// The label.
    pub label: Label,
    /// The identifiers of the objects, with their kinds.
    pub directory: Directory,
    /// How many blocks of each cylinder are Free.
    pub space: Space,
}

/// Copies the roots and tidies the maps of a volume that was surveyed, and counts what is Free.
fn tidy_volume<D: Disk>(disk: &mut D, survey: &Survey, space: &mut Space) -> Result<(), Failed>
    requires fits { FitsSurvey (D.blocks disk.old) survey.now }
    requires none { space.old.free ≡ replicate (length survey.now.grounds.maps.items) 0 }
    ensures recovered { (a : Image) → IsSettled D.Disk disk.old → D.content disk.old ≡ a → IsSurvey a survey.now
        → OnOk result (IsRecovered D.Disk a disk.new survey.now.grounds.label survey.now.walked.walk.directory space.new
        × WritesWhatDiffers D.Disk 2 disk.old disk.new) }
    ensures leads { (a : Image) (g : Graph) → IsSettled D.Disk disk.old → D.content disk.old ≡ a → IsSurvey a survey.now
        → IsSoundAs a g → Leads D.Disk (λ c. IsSoundAs c g) disk.old disk.new }
    ensures size { OnOk result (length space.new.free ≡ length survey.now.grounds.maps.items) }
    ensures left { space.new.left ≡ space.old.left }
    ensures cause { OnErr result (HasFailed D.Disk disk.old disk.new) }
    ensures calls { MakesAtMost D.Disk (2 * D.blocks disk.old + 2) (2 * D.blocks disk.old + 2) disk.old disk.new }
{
    copy_roots(disk, &survey.grounds.maps, &survey.walked)?;
    tidy_maps(disk, &survey.grounds.maps, &survey.walked.walk.held, space)?;
    Ok(())
}

/// Returns what was surveyed, without what only recovery needs.
fn hand_over(survey: Survey, space: Space) -> Recovered
    ensures label { result.label ≡ survey.grounds.label }
    ensures directory { result.directory ≡ survey.walked.walk.directory }
    ensures space { result.space ≡ space }
{
    let label = survey.grounds.label;
    let walked = survey.walked;
    let walk = walked.walk;
    let directory = walk.directory;
    Recovered {
        label,
        directory,
        space,
    }
}

/// Opens the volume on a disk on which no write waits for a barrier.
fn open_settled<D: Disk>(alloc: Global, disk: &mut D) -> Result<Recovered, RecoverFault>
    ensures opened { IsSettled D.Disk disk.old → IfOk result (λ r.
        IsRecovered D.Disk (D.content disk.old) disk.new r.label r.directory r.space
        × WritesWhatDiffers D.Disk 2 disk.old disk.new) }
    ensures refused { Tells D.Disk disk.old → IfErr result (IsOpenFault (D.content disk.old)) }
    ensures untouched { IfErr result (λ e. e ≢ RecoverFault.Disk → IsUntouched D.Disk disk.old disk.new) }
    ensures unsound { Tells D.Disk disk.old → ¬ IsSound (D.content disk.old) → IsUntouched D.Disk disk.old disk.new }
    ensures leads { (g : Graph) → IsSettled D.Disk disk.old → IsSoundAs (D.content disk.old) g
        → Leads D.Disk (λ c. IsSoundAs c g) disk.old disk.new }
    ensures size { IfOk result (λ r. D.blocks disk.old ≡ 64 * length r.space.free) }
    ensures left { IfOk result (λ r. r.space.left ≡ None) }
    ensures cause { IfErr result (IsCaused D.Disk disk.old disk.new) }
    ensures calls { MakesAtMost D.Disk (calls_by_block * D.blocks disk.old + 3) (2 * D.blocks disk.old + 2) disk.old
        disk.new }
    ensures by_object { (g : Graph) → IsSettled D.Disk disk.old → IsSoundAs (D.content disk.old) g
        → OnOk result (MakesAtMost D.Disk (reads_of_volume (D.blocks disk.old) g + 2 * D.blocks disk.old + 2)
        (2 * D.blocks disk.old + 2) disk.old disk.new) }
{
    let survey = survey_volume(alloc, disk)?;
    let mut space = Space::none(alloc, survey.grounds.maps.len() as u32)?;
    tidy_volume(disk, &survey, &mut space)?;
    Ok(hand_over(survey, space))
}

/// Opens the volume on a disk that a crash left.
///
/// It makes a barrier, and all tests. Then it writes the root by which each object is read to the object's root
/// block, if that root is elsewhere, and makes a barrier. Then it writes each map that isn't that of the objects
/// alone, and makes a barrier. It may be stopped anywhere and begun again.
///
/// Refused for the first fault that is found, for a device call that failed, or for want of memory.
pub fn recover<D: Disk>(alloc: Global, disk: &mut D) -> Result<Recovered, RecoverFault>
    ensures opened { IsTrue (D.honest disk.old) → IfOk result (λ r.
        IsRecovered D.Disk (D.content disk.old) disk.new r.label r.directory r.space) }
    ensures refused { IsTrue (D.honest disk.old) → IfErr result (IsOpenFault (D.content disk.old)) }
    // A sound volume is refused for nothing else.
    ensures free { IsTrue (D.honest disk.old) → IsSound (D.content disk.old)
        → IfErr result (λ e. (e ≡ RecoverFault.Disk) ⊎ (e ≡ RecoverFault.Memory)) }
    // If it is refused for another reason than a device call, or the volume isn't sound, nothing was written.
    ensures untouched { IfErr result (λ e. e ≢ RecoverFault.Disk → IsUntouched D.Disk disk.old disk.new) }
    ensures unsound { IsTrue (D.honest disk.old) → ¬ IsSound (D.content disk.old)
        → IsUntouched D.Disk disk.old disk.new }
    // A sound volume reads as it did, on the disk and in each image since the first barrier, `Ok` or not.
    ensures reading { IsTrue (D.honest disk.old) → (g : Graph) → IsSoundAs (D.content disk.old) g
        → IsSoundAs (D.content disk.new) g }
    ensures images { IsTrue (D.honest disk.old) → (g : Graph) → IsSoundAs (D.content disk.old) g
        → LeavesSinceBarrier D.Disk disk.old disk.new (λ c. IsSoundAs c g) }
    // Beside three barriers, only what differs is written: on a clean volume nothing.
    ensures writes { IsTrue (D.honest disk.old) → OnOk result (WritesWhatDiffers D.Disk 3 disk.old disk.new) }
    // On any disk the space is one of its cylinders.
    ensures size { IfOk result (λ r. D.blocks disk.new ≡ 64 * length r.space.free) }
    // No commit is left to be carried out.
    ensures left { IfOk result (λ r. r.space.left ≡ None) }
    ensures cause { IfErr result (IsCaused D.Disk disk.old disk.new) }
    ensures calls { MakesAtMost D.Disk (calls_by_block * D.blocks disk.old + 4) (2 * D.blocks disk.old + 3) disk.old
        disk.new }
    // Of a sound volume no more is read than the label, each map, and of each object its root, a shadow root, its
    // nodes, and the leaves of an index, or of a file the one in which it ends.
    ensures by_object { IsTrue (D.honest disk.old) → (g : Graph) → IsSoundAs (D.content disk.old) g
        → OnOk result (MakesAtMost D.Disk (reads_of_volume (D.blocks disk.old) g + 2 * D.blocks disk.old + 3)
        (2 * D.blocks disk.old + 3) disk.old disk.new) }
{
    flush(disk)?;
    open_settled(alloc, disk)
}
