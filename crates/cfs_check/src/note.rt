//! How the findings of blocks of objects' trees are noted.
ghost use Rattle.std.specs.Prelude.{◌≡◌, ◌+◌, ◌*◌, ◌<◌, ◌≤◌, ◌∷◌, [], ◌++◌, ℕ, true, Bool, List, length, map, OnOk};
ghost use Rattle.std.specs.List.{AllZip};
ghost use Rattle.cfs_check.specs.Findings as spec;
ghost use Rattle.cfs_check.specs.Items.{AtTwig, Item, Knows};
ghost use Rattle.cfs_check.specs.Marks.{AddsMarks};
ghost use Rattle.cfs_check.specs.Roots.{AddsRoots, Extends, HasAll};

use crate::findings::{Findings, names_nothing};
use crate::image::Image;
use crate::marks::Marks;
use crate::roots::Roots;
use crate::survey::Survey;
use crate::twig::{Extent, Twig};
use cfs_base::{Block, Kind, NoMemory, Place, code};
use leaf_changes::slot_at;

/// Marks what was found of a block.
fn note_findings(marks: &mut Marks, block: u32, found: Findings)
    requires { 12 * block + 12 ≤ length marks.old }
    ensures { AddsMarks (spec.IsToldBy found block) marks.old marks.new }
{
    marks.note_if(found.not_owned, code::NOT_OWNED, block);
    marks.note_if(found.names_nothing, code::NAMES_NOTHING, block);
    marks.note_if(found.late_leaf, code::LATE_LEAF, block);
    marks.note_if(found.late_byte, code::LATE_BYTE, block);
    marks.note_if(found.dead_end, code::DEAD_END, block);
}

/// Notes the root block that a slot of a leaf names.
fn note_slot(image: &Image, roots: &mut Roots, content: &Block, slot: usize) -> Result<(), NoMemory>
    requires small { slot < 64 }
    requires room { roots.old.room ≡ length image.now }
    ensures named { OnOk result (AddsRoots (spec.IsNamedInSlot image.now content.now slot) roots.old roots.new) }
    ensures room { roots.new.room ≡ roots.old.room }
{
    let Some(id) = slot_at(content, slot) else {
        return Ok(());
    };
    if id.block < image.blocks() && roots.has(id.block) {
        return Ok(());
    }
    if names_nothing(image, id) {
        return Ok(());
    }
    roots.add(id.block)?;
    Ok(())
}

/// Notes the root blocks that those slots of a leaf name which are within the size.
fn note_slots(
    image: &Image,
    roots: &mut Roots,
    extent: Extent,
    leaf: u32,
    content: &Block,
) -> Result<(), NoMemory>
    requires { roots.old.room ≡ length image.now }
    ensures named { OnOk result
        (AddsRoots (spec.IsNamedBy image.now extent leaf content.now 64) roots.old roots.new) }
    ensures room { roots.new.room ≡ roots.old.room }
{
    for slot in 0..64usize {
        if 512 * leaf as u64 + 8 * slot as u64 >= extent.size {
            continue;
        }
        note_slot(image, roots, content, slot)?;
    }
    Ok(())
}

/// Notes the root blocks that a block names, if it was found to name new ones.
fn note_names(
    image: &Image,
    roots: &mut Roots,
    twig: &Twig,
    names_new: bool,
) -> Result<(), NoMemory>
    requires on_disk { twig.now.spot.block < length image.now }
    requires room { roots.old.room ≡ length image.now }
    ensures named { spec.NamesOnlyKnown image.now roots.old.blocks twig.now names_new
        → OnOk result (AddsRoots (spec.IsNamedByTwig image.now twig.now) roots.old roots.new) }
    ensures room { roots.new.room ≡ roots.old.room }
{
    if !names_new || twig.extent.kind != Kind::Index {
        return Ok(());
    }
    let Place::Leaf(leaf) = twig.spot.place else {
        return Ok(());
    };
    note_slots(
        image,
        roots,
        twig.extent,
        leaf,
        image.block(twig.spot.block),
    )?;
    Ok(())
}

/// Notes what was found of a block.
///
/// The findings were made with the root blocks that were known then. More may have been found since.
fn note_twig(
    image: &Image,
    survey: &mut Survey,
    twig: &Twig,
    found: Findings,
) -> Result<(), NoMemory>
    requires holder { twig.now.spot.holder < length image.now }
    requires room { survey.old.roots.room ≡ length image.now }
    ensures known { (before : List Bool) (items : List Item) (known : List ℕ) → Knows image.now before items survey.old
        → spec.IsLookAt image.now known twig.now found → HasAll known survey.old.roots.blocks
        → OnOk result (Knows image.now before (items ++ AtTwig twig.now ∷ []) survey.new
        × Extends survey.old.roots survey.new.roots) }
    ensures room { survey.new.roots.room ≡ survey.old.roots.room }
{
    let spot = twig.spot;
    if spot.block >= image.blocks() {
        survey.marks.note_if(true, code::PAST_DISK, spot.holder);
        return Ok(());
    }
    note_findings(&mut survey.marks, spot.block, found);
    survey.uses.take(spot.block, spot.owner, spot.place);
    note_names(image, &mut survey.roots, twig, found.names_new)?;
    Ok(())
}

/// Notes what was found of blocks, in their order.
pub(crate) fn note_all(
    image: &Image,
    survey: &mut Survey,
    twigs: &[Twig],
    found: &[Findings],
) -> Result<(), NoMemory>
    requires holders { spec.HoldersAreOn image.now twigs.now }
    requires count { length found.now ≡ length twigs.now }
    requires room { survey.old.roots.room ≡ length image.now }
    ensures known { (before : List Bool) (items : List Item) → Knows image.now before items survey.old
        → AllZip (λ t f. spec.IsLookAt image.now survey.old.roots.blocks t f) twigs.now found.now
        → OnOk result (Knows image.now before (items ++ map AtTwig twigs.now) survey.new
        × Extends survey.old.roots survey.new.roots) }
    ensures room { survey.new.roots.room ≡ survey.old.roots.room }
{
    for at in 0..twigs.len() {
        note_twig(image, survey, &twigs[at], found[at])?;
    }
    Ok(())
}
