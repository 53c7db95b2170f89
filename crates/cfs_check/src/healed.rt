//! The faults that maps heal.
ghost use Rattle.std.specs.Prelude.{◌≡◌, ◌≢◌, ◌<◌, length, IfErr, IfOk, MatchResult};
ghost use Rattle.std.specs.List.{Contains};
ghost use Rattle.cfs_base.specs.declared.refusal.Damage as damages;
ghost use Rattle.cfs_check.specs.Findings.{Decides};
ghost use Rattle.cfs_check.specs.Mended.{IsMendFault};
ghost use Rattle.cfs_check.specs.Repair as spec;

use crate::image::Image;
use crate::mended::MendFault;
use crate::survey::Surveyed;
use crate::surveying::{label_of, survey_volume};
use crate::uses::{Use, Uses};
use cfs_base::{Damage, code};
use std::alloc::Global;
use std::thread::Threads;
use vol_label::LabelFault;

/// Returns whether maps don't heal a fault.
///
/// It isn't of an entry then, or it is of the entry of a block that is used twice.
fn is_unhealed(uses: &Uses, fault: Damage) -> bool
    requires { fault.block < length uses.now }
    ensures { Decides result (spec.IsUnhealed uses.now fault) }
{
    if fault.code == code::NOT_OWNED {
        return uses.of(fault.block) == Use::Twice;
    }
    fault.code != code::NO_ENTRY
}

/// Checks that maps heal all of these faults. Refused with the first that they don't heal.
fn check_healed(uses: &Uses, faults: &[Damage]) -> Result<(), Damage>
    requires { (d : damages.Damage) → Contains faults.now d → d.block < length uses.now }
    ensures { MatchResult result (λ _. spec.AreHealed uses.now faults.now (length faults.now))
        (spec.IsFirstOf uses.now faults.now) }
{
    for fault in faults {
        if is_unhealed(uses, *fault) {
            return Err(*fault);
        }
    }
    Ok(())
}

/// Surveys a volume, and returns all that is found if maps can mend it.
pub(crate) fn survey_mendable<R: Threads + Sync>(
    rt: &R,
    alloc: Global,
    image: &Image,
) -> Result<Surveyed, MendFault>
    ensures mendable { IfOk result (spec.IsMendable image.now) }
    ensures refused { IfErr result (IsMendFault image.now) }
    ensures no_call { IfErr result (λ e. e ≢ MendFault.Disk) }
{
    let label = match label_of(image) {
        Err(LabelFault::NotVolume) => return Err(MendFault::NotVolume),
        Err(LabelFault::Version { found }) => return Err(MendFault::Version { found }),
        Ok(label) => label,
    };
    if 64 * label.cylinders as u64 != image.blocks() as u64 {
        return Err(MendFault::Damaged(Damage {
            block: 1,
            code: code::WRONG_SIZE,
        }));
    }
    let surveyed = survey_volume(rt, alloc, image, label)?;
    let faults = surveyed.survey.marks.list(alloc)?;
    check_healed(&surveyed.survey.uses, faults.as_slice())?;
    Ok(surveyed)
}
