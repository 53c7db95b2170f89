//! What is wrong with the entries of an image, and with the shadow roots by them.
ghost use Rattle.std.specs.Prelude.{◌≡◌, ◌+◌, ◌*◌, ◌<◌, ◌≤◌, length, Some};
ghost use Rattle.cyl_map.specs.Volume.{entry_in};
ghost use Rattle.cyl_map.specs.declared.entry.MapEntry as entries;
ghost use Rattle.vol_image.specs.Fault.{IsOtherShadow};
ghost use Rattle.cfs_recover.specs.Entries.{AreStanding};
ghost use Rattle.cfs_check.specs.Findings.{Decides};
ghost use Rattle.cfs_check.specs.Marks.{AddsMarks};
ghost use Rattle.cfs_check.specs.Surveyed as spec;

use crate::entry::{entry_of, has_own_bit};
use crate::image::Image;
use crate::marks::Marks;
use crate::roots::Roots;
use block_tree::Root;
use cfs_base::{Place, code};
use cfs_recover::{RESERVED, Standing, is_fixed, note_standing, stands};
use cyl_map::{Map, MapEntry};

/// Returns whether the bytes of a block's entry spell none, or the entry is of a root whose owner is another block.
fn is_no_entry(block: u32, entry: Option<MapEntry>) -> bool
    ensures { Decides result (spec.IsNoEntry block entry) }
{
    match entry {
        None => true,
        Some(entry) => entry.place == Some(Place::Root) && entry.owner != block,
    }
}

/// Returns whether a block is a map block or the label, but not reserved.
fn is_not_reserved(block: u32, entry: Option<MapEntry>) -> bool
    ensures { Decides result (spec.IsNotReserved block entry) }
{
    match entry {
        None => is_fixed(block),
        Some(entry) => is_fixed(block) && entry != RESERVED,
    }
}

/// Marks what is wrong with the entry of a block.
fn mark_entry(marks: &mut Marks, block: u32, entry: Option<MapEntry>)
    requires { 12 * block + 12 ≤ length marks.old }
    ensures { AddsMarks (spec.WrongEntry block entry) marks.old marks.new }
{
    marks.note_if(is_no_entry(block, entry), code::NO_ENTRY, 64 * (block / 64));
    marks.note_if(is_not_reserved(block, entry), code::NOT_OWNED, block);
}

/// Notes what the entry of a block says: marks what is wrong with it, and notes the object for which it stands.
fn note_entry(image: &Image, standing: &mut Standing, marks: &mut Marks, block: u32)
    requires below { block < length image.now }
    requires standing { length standing.old ≡ length image.now }
    requires marks { length marks.old ≡ 12 * length image.now }
    ensures faults { AddsMarks (spec.EntryFaultAt image.now block) marks.old marks.new }
    ensures stand { AreStanding image.now block standing.old → AreStanding image.now (block + 1) standing.new }
    ensures size { length standing.new ≡ length standing.old }
{
    let entry = entry_of(image, block);
    mark_entry(marks, block, entry);
    if let Some(entry) = entry {
        note_standing(standing, block, entry);
    }
}

/// Notes what all entries say.
pub(crate) fn note_entries(image: &Image, standing: &mut Standing, marks: &mut Marks)
    requires standing { length standing.old ≡ length image.now }
    requires marks { length marks.old ≡ 12 * length image.now }
    ensures faults { AddsMarks (spec.IsEntryFault image.now (length image.now)) marks.old marks.new }
    ensures stand { AreStanding image.now 0 standing.old
        → AreStanding image.now (length image.now) standing.new }
    ensures size { length standing.new ≡ length standing.old }
{
    for block in 0..image.blocks() {
        note_entry(image, standing, marks, block);
    }
}

/// Returns whether a shadow root of an object is no root, or has another kind or word than the object's own root.
fn is_other_shadow(image: &Image, root: u32, shadow: u32) -> bool
    requires root { root < length image.now }
    requires shadow { shadow < length image.now }
    ensures { Decides result (IsOtherShadow image.now root shadow) }
{
    let Ok(shadow) = Root::decode(image.block(shadow)) else {
        return true;
    };
    match Root::decode(image.block(root)) {
        Ok(own) => shadow.kind != own.kind || shadow.word != own.word,
        Err(_) => false,
    }
}

/// Returns the place in a block's entry, if its eight bytes spell one. They aren't tested.
fn said_place(image: &Image, block: u32) -> Option<Place>
    requires { block < length image.now }
    ensures { (e : entries.MapEntry) → entry_in image.now block ≡ Some e → e.place ≡ result }
{
    Map::entry_in(image.block(64 * (block / 64)), (block % 64) as u8).place
}

/// Returns whether a block is a shadow root that stands for an object that was found, and isn't like its root.
fn is_bad_shadow(image: &Image, roots: &Roots, block: u32) -> bool
    requires below { block < length image.now }
    requires room { roots.now.room ≡ length image.now }
    ensures { Decides result (spec.IsBadShadow image.now roots.now.blocks block) }
{
    if said_place(image, block) != Some(Place::ShadowRoot) {
        return false;
    }
    let Some(entry) = entry_of(image, block) else {
        return false;
    };
    let root = entry.owner;
    if root >= image.blocks() {
        return false;
    }
    if !stands(entry, root) || !roots.has(root) || !has_own_bit(image, root) {
        return false;
    }
    is_other_shadow(image, root, block)
}

/// Marks the shadow roots that stand for objects that were found, and aren't like their roots.
pub(crate) fn note_shadows(image: &Image, roots: &Roots, marks: &mut Marks)
    requires room { roots.now.room ≡ length image.now }
    requires marks { length marks.old ≡ 12 * length image.now }
    ensures { AddsMarks (spec.IsShadowFault image.now roots.now.blocks (length image.now)) marks.old marks.new }
{
    for block in 0..image.blocks() {
        marks.note_if(is_bad_shadow(image, roots, block), code::NO_ROOT, block);
    }
}
