//! What is found of a volume, reported.
ghost use Rattle.std.specs.Prelude.{◌≡◌, ◌∷◌, [], IfOk};
ghost use Rattle.cfs_base.specs.Codes as codes;
ghost use Rattle.cfs_base.specs.Disk.{Image as Content};
ghost use Rattle.cfs_recover.specs.Entries.{damage};
ghost use Rattle.cfs_recover.specs.Grounds.{IsLabelled};
ghost use Rattle.cfs_check.specs.Checked.{IsChecked};
ghost use Rattle.cfs_check.specs.Sized.{AreSized};
ghost use Rattle.cfs_check.specs.Surveyed.{IsSurveyed};

use crate::checked::Checked;
use crate::damages::Damages;
use crate::image::Image;
use crate::survey::Surveyed;
use crate::surveying::{label_of, survey_volume};
use cfs_base::{Damage, NoMemory, code};
use std::alloc::Global;
use std::thread::Threads;
use vol_label::LabelFault;

/// Reports that the size which the label names isn't the disk's. Nothing else is looked at then.
fn tell_size(alloc: Global) -> Result<Damages, NoMemory>
    ensures { IfOk result (λ faults. faults ≡ damage 1 codes.wrong_size ∷ []) }
{
    let mut faults = Vec::new(alloc);
    faults.push(Damage {
        block: 1,
        code: code::WRONG_SIZE,
    })?;
    Ok(Damages::of(faults))
}

/// Reports what was found: the faults, or that there is none.
fn tell(alloc: Global, surveyed: &Surveyed) -> Result<Checked, NoMemory>
    ensures { (image : Content) → IsLabelled image → IsSurveyed image surveyed.now → AreSized image
        → IfOk result (IsChecked image) }
{
    let survey = &surveyed.survey;
    let faults = survey.marks.list(alloc)?;
    if !faults.as_slice().is_empty() {
        return Ok(Checked::Faults(faults));
    }
    Ok(Checked::Sound {
        objects: survey.roots.count(),
        left: survey.uses.left(),
    })
}

/// Reports what is found of a volume.
///
/// The image holds no volume, or one of another version, or it has these faults, all of them, or it is sound. The
/// blocks of many objects are looked at side by side, in as many threads as there are processors. The answer is the
/// same for any number. Refused for want of memory.
pub fn report<R: Threads + Sync>(rt: &R, alloc: Global, image: &Image) -> Result<Checked, NoMemory>
    ensures { IfOk result (IsChecked image.now) }
{
    let label = match label_of(image) {
        Err(LabelFault::NotVolume) => return Ok(Checked::NotVolume),
        Err(LabelFault::Version { found }) => return Ok(Checked::Version { found }),
        Ok(label) => label,
    };
    if 64 * label.cylinders as u64 != image.blocks() as u64 {
        return Ok(Checked::Faults(tell_size(alloc)?));
    }
    let surveyed = survey_volume(rt, alloc, image, label)?;
    tell(alloc, &surveyed)
}
