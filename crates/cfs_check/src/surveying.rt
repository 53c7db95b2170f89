//! A volume surveyed: its entries, its rooted objects, and what they leave.
ghost use Rattle.std.specs.Prelude.{◌≡◌, ◌*◌, ◌<◌, ◌≤◌, length, IfOk, MatchResult};
ghost use Rattle.vol_image.specs.Fault.{HasLabel};
ghost use Rattle.cfs_check.specs.Marks.{AddsMarks};
ghost use Rattle.cfs_check.specs.Sized.{AreSized};
ghost use Rattle.cfs_check.specs.Surveyed as spec;

use crate::entries::{note_entries, note_shadows};
use crate::findings::names_nothing;
use crate::image::Image;
use crate::marks::Marks;
use crate::object::ROOT_BLOCK;
use crate::roots::Roots;
use crate::survey::{Survey, Surveyed};
use crate::uses::Uses;
use crate::walk::walk_all;
use cfs_base::{NoMemory, code};
use cfs_recover::Standing;
use std::alloc::Global;
use std::thread::Threads;
use vol_label::{Label, LabelFault};

/// Returns the label of an image.
pub(crate) fn label_of(image: &Image) -> Result<Label, LabelFault>
    ensures told { MatchResult result (HasLabel image.now) (spec.IsLabelFault image.now) }
    ensures long { IfOk result (λ _. 3 ≤ length image.now) }
{
    if image.blocks() < 3 {
        return Err(LabelFault::NotVolume);
    }
    Label::decode(image.block(1))
}

/// Begins the survey of a volume of `blocks` blocks, of which only the root index is found. Takes all memory.
fn begin_survey(alloc: Global, blocks: u32) -> Result<Survey, NoMemory>
    requires { 2 < blocks }
    ensures { IfOk result (spec.IsSurveyBegun blocks) }
{
    let marks = Marks::none(alloc, blocks)?;
    let uses = Uses::none(alloc, blocks)?;
    let mut roots = Roots::none(alloc, blocks)?;
    roots.add(ROOT_BLOCK)?;
    Ok(Survey { marks, uses, roots })
}

/// Starts the survey of a volume with this label.
///
/// It marks what is wrong with the entries and the label, and notes the shadow roots that stand for objects.
fn start_survey(alloc: Global, image: &Image, label: Label) -> Result<Surveyed, NoMemory>
    requires label { HasLabel image.now label }
    requires size { 64 * label.cylinders ≡ length image.now }
    ensures { IfOk result (spec.IsStarted image.now label) }
{
    let blocks = image.blocks();
    let mut standing = Standing::none(alloc, blocks)?;
    let mut survey = begin_survey(alloc, blocks)?;
    note_entries(image, &mut standing, &mut survey.marks);
    let bad = names_nothing(image, label.root);
    survey.marks.note_if(bad, code::NAMES_NOTHING, 1);
    Ok(Surveyed { survey, standing })
}

/// Ends the survey of a volume.
///
/// It marks what is wrong with the shadow roots of the objects that were found, and marks if fewer than 4 blocks are
/// left.
fn end_survey(image: &Image, survey: &mut Survey)
    requires some { 0 < length image.now }
    requires room { survey.old.roots.room ≡ length image.now }
    ensures faults { AddsMarks (spec.LastFault image.now survey.old.roots.blocks survey.old.uses) survey.old.marks
        survey.new.marks }
    ensures uses { survey.new.uses ≡ survey.old.uses }
    ensures roots { survey.new.roots ≡ survey.old.roots }
{
    note_shadows(image, &survey.roots, &mut survey.marks);
    let full = survey.uses.left() < 4;
    survey.marks.note_if(full, code::TOO_FULL, 0);
}

/// Surveys a volume with this label, whose size is right.
pub(crate) fn survey_volume<R: Threads + Sync>(
    rt: &R,
    alloc: Global,
    image: &Image,
    label: Label,
) -> Result<Surveyed, NoMemory>
    requires label { HasLabel image.now label }
    requires size { 64 * label.cylinders ≡ length image.now }
    requires whole { AreSized image.now }
    ensures { IfOk result (spec.IsSurveyed image.now) }
{
    let mut surveyed = start_survey(alloc, image, label)?;
    walk_all(rt, alloc, image, &surveyed.standing, &mut surveyed.survey)?;
    end_survey(image, &mut surveyed.survey);
    Ok(surveyed)
}
