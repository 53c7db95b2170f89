//! What is found as a volume is surveyed.
ghost use Rattle.cfs_check.specs.Sizes.{IsSurveyOf};

use crate::marks::Marks;
use crate::roots::Roots;
use crate::uses::Uses;
use cfs_recover::Standing;

/// The faults that were found, what blocks are used for, and the root blocks.
#[derive(Debug, Drop)]
pub(crate) struct Survey {
    pub marks: Marks,
    pub uses: Uses,
    pub roots: Roots,
    ghost sized: { IsSurveyOf marks uses roots.room },
}

/// All that is found of a volume whose size is right, with the shadow roots that stand for objects.
#[derive(Debug, Drop)]
pub(crate) struct Surveyed {
    pub survey: Survey,
    pub standing: Standing,
}
