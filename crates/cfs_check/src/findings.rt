//! What is found of a block of an object's tree, looked at by itself.
ghost use Rattle.std.specs.Prelude.{◌≡◌, ◌<◌, ℕ, length, MatchBool};
ghost use Rattle.block_tree.specs.Pointers.{leaf_pointers};
ghost use Rattle.block_tree.specs.Tree.{pointer};
ghost use Rattle.cfs_base.specs.Disk.{block_at};
ghost use Rattle.vol_image.specs.Fault.{HasNoRoot, NamesNothing, NamesRoot};
ghost use Rattle.cfs_check.specs.Findings as spec;

use crate::entry::is_in_place;
use crate::image::Image;
use crate::roots::Roots;
use crate::twig::{Extent, Twig};
use block_tree::{Node, Root};
use cfs_base::{Block, Kind, Place, Puid};
use cfs_recover::{check_node, first_late_byte};
use leaf_changes::slot_at;

/// What is found of a block to which a pointer of an object leads, if it is on the disk.
#[derive(Clone, Copy, Debug, PartialEq, Eq)]
pub(crate) struct Findings {
    /// Its entry isn't that of its owner and place.
    pub not_owned: bool,
    /// It is a leaf of an index, and an identifier in a slot names nothing.
    pub names_nothing: bool,
    /// It is a leaf that begins at the size or past it.
    pub late_leaf: bool,
    /// It is a leaf that has a byte past the size which isn't the fill byte.
    pub late_byte: bool,
    /// It is a node that leads to nothing.
    pub dead_end: bool,
    /// It is a leaf of an index, and an identifier in a slot names a root block that wasn't found yet.
    pub names_new: bool,
}

/// What is found of slots: whether one names nothing, and whether one names a root block that wasn't found yet.
#[derive(Clone, Copy)]
struct Slots {
    bad: bool,
    new: bool,
}

const NOTHING: Findings = Findings {
    not_owned: false,
    names_nothing: false,
    late_leaf: false,
    late_byte: false,
    dead_end: false,
    names_new: false,
};

/// Returns whether a block is a root.
///
/// It is a function of its own, so that room for a root is made only if one is decoded.
fn is_root(content: &Block) -> bool
    ensures { MatchBool result (spec.IsSomeRoot content.now) (HasNoRoot content.now) }
{
    Root::decode(content).is_ok()
}

/// Returns whether a block is a root of another word. It is decoded only if the word differs.
fn is_other_root(image: &Image, block: u32, word: u32) -> bool
    requires { block < length image.now }
    ensures { MatchBool result (spec.IsOtherRoot (block_at image.now block) word)
        (spec.IsNoOtherRoot (block_at image.now block) word) }
{
    if image.word(block) == word {
        return false;
    }
    is_root(image.block(block))
}

/// Returns whether an identifier names nothing.
pub(crate) fn names_nothing(image: &Image, id: Puid) -> bool
    ensures { MatchBool result (NamesNothing image.now id) (NamesRoot image.now id) }
{
    if id.block == 0 || id.block >= image.blocks() {
        return true;
    }
    is_other_root(image, id.block, id.word)
}

/// Returns what is found of one slot of a leaf.
fn look_at_slot(image: &Image, roots: &Roots, content: &Block, slot: usize) -> Slots
    requires small { slot < 64 }
    requires room { roots.now.room ≡ length image.now }
    ensures { spec.IsLookAtSlot image.now roots.now.blocks content.now slot result.bad result.new }
{
    let Some(id) = slot_at(content, slot) else {
        return Slots {
            bad: false,
            new: false,
        };
    };
    if names_nothing(image, id) {
        return Slots {
            bad: true,
            new: false,
        };
    }
    Slots {
        bad: false,
        new: !roots.has(id.block),
    }
}

/// Returns what is found of the slots of a leaf that are within the size.
fn look_at_slots(image: &Image, roots: &Roots, extent: Extent, leaf: u32, content: &Block) -> Slots
    requires { roots.now.room ≡ length image.now }
    ensures { spec.IsLookAtSlots image.now roots.now.blocks extent leaf content.now 64 result.bad result.new }
{
    let mut bad = false;
    let mut new = false;
    for slot in 0..64usize {
        if 512 * leaf as u64 + 8 * slot as u64 >= extent.size {
            continue;
        }
        let at = look_at_slot(image, roots, content, slot);
        bad = bad | at.bad;
        new = new | at.new;
    }
    Slots { bad, new }
}

/// Returns what is found of a leaf, without its entry.
fn look_at_leaf(
    image: &Image,
    roots: &Roots,
    extent: Extent,
    leaf: u32,
    content: &Block,
) -> Findings
    requires { roots.now.room ≡ length image.now }
    ensures { spec.IsLookAtLeaf image.now roots.now.blocks extent leaf content.now result }
{
    let late = Findings {
        late_leaf: extent.size <= 512 * leaf as u64,
        late_byte: first_late_byte(extent.size, extent.fill, leaf, content).is_some(),
        ..NOTHING
    };
    if extent.kind != Kind::Index {
        return late;
    }
    let slots = look_at_slots(image, roots, extent, leaf, content);
    Findings {
        names_nothing: slots.bad,
        names_new: slots.new,
        ..late
    }
}

/// Returns whether a node leads to nothing.
fn leads_nowhere(content: &Block) -> bool
    ensures { spec.Decides result ((j : ℕ) → pointer leaf_pointers content.now j ≡ 0) }
{
    check_node(0, &Node::decode(content)).is_err()
}

/// Returns what is found of a block that is on the disk, without its entry.
fn look_at_content(image: &Image, roots: &Roots, twig: &Twig) -> Findings
    requires on_disk { twig.now.spot.block < length image.now }
    requires room { roots.now.room ≡ length image.now }
    ensures { spec.IsLookAtContent image.now roots.now.blocks twig.now result }
{
    let content = image.block(twig.spot.block);
    match twig.spot.place {
        Place::Leaf(leaf) => look_at_leaf(image, roots, twig.extent, leaf, content),
        Place::Node(_) => Findings {
            dead_end: leads_nowhere(content),
            ..NOTHING
        },
        Place::Root | Place::ShadowRoot | Place::Span(_) => NOTHING,
    }
}

/// Returns what is found of a block to which a pointer leads, if these root blocks were found before.
pub(crate) fn look_at(image: &Image, roots: &Roots, twig: &Twig) -> Findings
    requires { roots.now.room ≡ length image.now }
    ensures { spec.IsLookAt image.now roots.now.blocks twig.now result }
{
    if twig.spot.block >= image.blocks() {
        return NOTHING;
    }
    Findings {
        not_owned: !is_in_place(image, twig.spot),
        ..look_at_content(image, roots, twig)
    }
}
