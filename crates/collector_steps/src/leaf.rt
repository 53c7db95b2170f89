//! The slots of an index's leaf.
ghost use Rattle.std.specs.Prelude.{◌≡◌, ◌<◌, ◌≤◌, option_to_list};
ghost use Rattle.collector_marks.specs.Kept.{blocks_marked, colours_of};
ghost use Rattle.collector_steps.specs.Scan.{ids_from};
ghost use Rattle.marking.specs.Colours.{all_shaded};
ghost use Rattle.vol_image.specs.Reading.{slot_in};

use crate::shading::shade_one;
use cfs_base::Block;
use collector_marks::Marks;
use leaf_changes::slot_at;
use puid_space::Directory;

/// How many slots a leaf has.
const SLOTS: usize = 64;

/// Shades the object in a slot, if there is one.
fn shade_slot(marks: &mut Marks, directory: &Directory, content: &Block, slot: usize)
    requires slot { slot < 64 }
    requires blocks { directory.now.room ≤ blocks_marked marks.old }
    ensures shaded { colours_of marks.new
        ≡ all_shaded directory.now.named (option_to_list (slot_in content.now slot)) (colours_of marks.old) }
    ensures blocks { blocks_marked marks.new ≡ blocks_marked marks.old }
{
    if let Some(id) = slot_at(content, slot) {
        shade_one(marks, directory, id);
    }
}

/// Shades each object in a leaf with these bytes. Takes no memory.
pub fn shade_leaf(marks: &mut Marks, directory: &Directory, content: &Block)
    requires blocks { directory.now.room ≤ blocks_marked marks.old }
    ensures shaded { colours_of marks.new
        ≡ all_shaded directory.now.named (ids_from content.now 0) (colours_of marks.old) }
    ensures blocks { blocks_marked marks.new ≡ blocks_marked marks.old }
{
    for slot in 0..SLOTS {
        shade_slot(marks, directory, content, slot);
    }
}
