//! Objects shaded by their identifiers.
ghost use Rattle.std.specs.Prelude.{◌≡◌, ◌<◌, ◌≤◌, IfSome};
ghost use Rattle.collector_marks.specs.Kept.{blocks_marked, colours_of};
ghost use Rattle.marking.specs.Colours.{all_shaded, shaded_in};
ghost use Rattle.marking.specs.Steps.{is_live, rescued};
ghost use Rattle.puid_space.specs.Directory.{directory_kind};

use cfs_base::{Kind, Puid};
use collector_marks::{Marks, Rescue};
use puid_space::Directory;

/// Returns the kind of an object if it is there. There is room for its root block then.
fn kind_of(directory: &Directory, id: Puid) -> Option<Kind>
    ensures kind { result ≡ directory_kind directory.now.named id }
    ensures inside { IfSome result (λ _. id.block < directory.now.room) }
{
    puid_space::laws::directories_are_listings(directory);
    directory.kind(id)
}

/// Shades an object. Does nothing if it isn't there. Takes no memory.
pub fn shade_one(marks: &mut Marks, directory: &Directory, id: Puid)
    requires blocks { directory.now.room ≤ blocks_marked marks.old }
    ensures shaded { colours_of marks.new ≡ shaded_in directory.now.named id (colours_of marks.old) }
    ensures blocks { blocks_marked marks.new ≡ blocks_marked marks.old }
{
    if let Some(kind) = kind_of(directory, id) {
        marks.shade(id, kind);
    }
}

/// Shades each of these objects. Takes no memory.
pub fn shade_all(marks: &mut Marks, directory: &Directory, ids: &[Puid])
    requires blocks { directory.now.room ≤ blocks_marked marks.old }
    ensures shaded { colours_of marks.new ≡ all_shaded directory.now.named ids.now (colours_of marks.old) }
    ensures blocks { blocks_marked marks.new ≡ blocks_marked marks.old }
{
    for id in ids {
        shade_one(marks, directory, *id);
    }
}

/// Returns whether an object found here is to be shaded: there is no index, or the index is marked.
fn is_live(marks: &Marks, index: Option<Puid>) -> bool
    ensures { result ≡ is_live index (colours_of marks.now) }
{
    match index {
        None => true,
        Some(index) => marks.is_marked(index.block),
    }
}

/// Shades the object of a rescue, if it has no index or its index is marked. Takes no memory.
pub fn shade_rescued(marks: &mut Marks, directory: &Directory, rescue: Rescue)
    requires blocks { directory.now.room ≤ blocks_marked marks.old }
    ensures shaded { colours_of marks.new ≡ rescued directory.now.named rescue (colours_of marks.old) }
    ensures blocks { blocks_marked marks.new ≡ blocks_marked marks.old }
{
    if is_live(marks, rescue.index) {
        shade_one(marks, directory, rescue.id);
    }
}
