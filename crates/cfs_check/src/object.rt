//! Objects that are opened: the root by which each is read, and the list of its blocks.
ghost use Rattle.std.specs.Prelude.{◌≡◌, ◌*◌, ◌<◌, ◌≤◌, ◌∷◌, [], ◌++◌, ℕ, Bool, List, length, MatchOption, OnOk};
ghost use Rattle.block_tree.specs.Root.{IsRootBlock};
ghost use Rattle.block_tree.specs.declared.root.Root as roots;
ghost use Rattle.cfs_base.specs.Disk.{block_at};
ghost use Rattle.vol_image.specs.Fault as fault;
ghost use Rattle.cfs_check.specs.Findings.{Decides, HoldersAreOn};
ghost use Rattle.cfs_check.specs.Items.{AtRoot, Item, Knows, RootFault};
ghost use Rattle.cfs_check.specs.Marks.{AddsMarks};
ghost use Rattle.cfs_check.specs.Opened as spec;
ghost use Rattle.cfs_check.specs.Twigs.{IsShownBy};

use crate::entry::{has_own_bit, is_in_place};
use crate::image::Image;
use crate::marks::Marks;
use crate::survey::Survey;
use crate::twig::{Twig, list_tree};
use block_tree::Root;
use cfs_base::{NoMemory, Place, code};
use cfs_recover::{Head, Shadow, Spot, Standing, check_root_index, check_shadow};

/// The root block of the root index.
pub(crate) const ROOT_BLOCK: u32 = 2;

/// Returns the block from which an object is read.
///
/// It is its one shadow root, if its commit bit is set, and else its root block.
pub(crate) fn reader_of(image: &Image, standing: &Standing, block: u32) -> u32
    requires table { spec.IsStandingOf image.now standing.now }
    requires below { block < length image.now }
    ensures is { result ≡ fault.reader image.now block }
    ensures below { result < length image.now }
{
    if !has_own_bit(image, block) {
        return block;
    }
    match standing.of(block) {
        Shadow::None => block,
        Shadow::One(shadow) => shadow,
        Shadow::Several => block,
    }
}

/// Returns whether two shadow roots stand for an object.
fn has_two_shadows(image: &Image, standing: &Standing, block: u32) -> bool
    requires table { spec.IsStandingOf image.now standing.now }
    requires below { block < length image.now }
    ensures { Decides result (2 ≤ length (fault.standing image.now block)) }
{
    if !has_own_bit(image, block) {
        return false;
    }
    match standing.of(block) {
        Shadow::None => false,
        Shadow::One(_) => false,
        Shadow::Several => true,
    }
}

/// Returns the root by which an object is read whose own root is this one, with the block that holds it.
fn shown_root(image: &Image, standing: &Standing, block: u32, own: &Root) -> Option<Head>
    requires table { spec.IsStandingOf image.now standing.now }
    requires below { block < length image.now }
    requires own { IsRootBlock (block_at image.now block) own.now }
    ensures { MatchOption result ((root : roots.Root) → ¬ fault.IsShownRoot image.now block root)
        (spec.IsReadFrom image.now block) }
{
    let from = reader_of(image, standing, block);
    if from == block {
        return Some(Head { from, root: *own });
    }
    match check_shadow(own, from, image.block(from)) {
        Ok(root) => Some(Head { from, root }),
        Err(_) => None,
    }
}

/// Returns whether the root index, if this is its root block, is anything but an index of 64 slots.
fn is_other_index(block: u32, root: &Root) -> bool
    ensures { Decides result ((block ≡ 2) × ¬ fault.HasRootSlots root.now) }
{
    block == ROOT_BLOCK && check_root_index(root).is_err()
}

/// Marks what is wrong with a root block, except with its shadow roots.
///
/// Returns the root by which the object is read, if it is shown.
fn note_root(image: &Image, standing: &Standing, marks: &mut Marks, block: u32) -> Option<Head>
    requires table { spec.IsStandingOf image.now standing.now }
    requires below { block < length image.now }
    requires marks { length marks.old ≡ 12 * length image.now }
    ensures faults { AddsMarks (RootFault image.now block) marks.old marks.new }
    ensures shown { MatchOption result ((root : roots.Root) → ¬ IsShownBy image.now block root)
        (spec.IsHeadOf image.now block) }
    ensures or_not { spec.IsShownOrNot image.now block }
{
    let spot = Spot {
        holder: block,
        block,
        owner: block,
        place: Place::Root,
    };
    marks.note_if(!is_in_place(image, spot), code::NOT_OWNED, block);
    marks.note_if(
        has_two_shadows(image, standing, block),
        code::TWO_SHADOWS,
        block,
    );
    let Ok(own) = Root::decode(image.block(block)) else {
        marks.note_if(true, code::NO_ROOT, block);
        return None;
    };
    let head = shown_root(image, standing, block, &own)?;
    if is_other_index(block, &head.root) {
        marks.note_if(true, code::NAMES_NOTHING, block);
        return None;
    }
    Some(head)
}

/// Opens an object: marks what is wrong with its root block, and lists its blocks if it is shown.
pub(crate) fn open_root(
    image: &Image,
    standing: &Standing,
    survey: &mut Survey,
    twigs: &mut Vec<Twig>,
    block: u32,
) -> Result<(), NoMemory>
    requires table { spec.IsStandingOf image.now standing.now }
    requires below { block < length image.now }
    requires room { survey.old.roots.room ≡ length image.now }
    ensures known { (before : List Bool) (items : List Item) → Knows image.now before items survey.old
        → OnOk result (Knows image.now before (items ++ AtRoot block ∷ []) survey.new) }
    ensures lists { OnOk result (spec.ListsTree image.now block twigs.old.items twigs.new.items) }
    ensures holders { HoldersAreOn image.now twigs.old.items → OnOk result (HoldersAreOn image.now twigs.new.items) }
    ensures roots { survey.new.roots ≡ survey.old.roots }
{
    survey.uses.take(block, block, Place::Root);
    let Some(head) = note_root(image, standing, &mut survey.marks, block) else {
        return Ok(());
    };
    list_tree(image, block, head.from, &head.root, twigs)?;
    Ok(())
}
