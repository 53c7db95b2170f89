//! The walk over all objects of a volume.
ghost use Rattle.std.specs.Prelude.{◌≡◌, ◌*◌, ◌<◌, ◌≤◌, ℕ, [], length, IfErr, MatchResult, OnOk};
ghost use Rattle.cfs_base.specs.Calls.{OnlyReads};
ghost use Rattle.cfs_base.specs.Disk.{Image};
ghost use Rattle.vol_image.specs.Fault.{HasLabel};
ghost use Rattle.vol_label.specs.declared.label.Label.{Label};
ghost use Rattle.cfs_recover.specs.Copies.{HasKept};
ghost use Rattle.cfs_recover.specs.Entries.{AreStanding};
ghost use Rattle.cfs_recover.specs.Found.{Grows, IsFaultOf};
ghost use Rattle.cfs_recover.specs.Reads.{HasRead};
ghost use Rattle.cfs_recover.specs.Refusals.{IsCaused, NamesDamage};
ghost use Rattle.cfs_recover.specs.Walk.{Walks, reads_of_object};

use crate::copies::{Piece, note_copy};
use crate::fault::RecoverFault;
use crate::found::Walk;
use crate::standing::Standing;
use crate::walk_object::walk_object;
use cfs_base::Disk;
use cyl_map::Map;

/// Walks all objects on the list, and those to which they lead.
///
/// `kept` gets the pieces of each root that is in another block than its object's root block.
pub(crate) fn walk_all<D: Disk>(
    disk: &mut D,
    maps: &[Map],
    standing: &Standing,
    walk: &mut Walk,
    kept: &mut Vec<Piece>,
) -> Result<(), RecoverFault>
    requires room { D.blocks disk.old ≡ walk.old.directory.room }
    requires maps { D.blocks disk.old ≡ 64 * length maps.now }
    requires standing { D.blocks disk.old ≡ length standing.now }
    requires none { kept.old.items ≡ [] }
    ensures told { (image : Image) (label : Label) → Walks D.Disk disk.old image maps.now walk.old 0
        → AreStanding image (length image) standing.now → HasLabel image label
        → MatchResult result (λ _. Walks D.Disk disk.new image maps.now walk.new (length walk.new.found.items)
        × HasKept image walk.new.found.items (length walk.new.found.items) kept.new.items)
        (NamesDamage (IsFaultOf image)) }
    ensures grows { OnOk result (Grows walk.old walk.new) }
    ensures few { OnOk result (length walk.new.found.items ≤ D.blocks disk.old) }
    ensures cause { IfErr result (IsCaused D.Disk disk.old disk.new) }
    ensures reads { OnlyReads D.Disk (reads_of_object * D.blocks disk.old) disk.old disk.new }
    ensures by_object { (image : Image) (label : Label) → Walks D.Disk disk.old image maps.now walk.old 0
        → AreStanding image (length image) standing.now → HasLabel image label
        → OnOk result (HasRead D.Disk image walk.new.found.items (length walk.new.found.items) disk.old disk.new) }
{
    let mut next = 0;
    while next < walk.found.len() {
        let item = walk.found[next];
        let head = walk_object(disk, maps, standing, walk, item)?;
        note_copy(kept, item.block, &head)?;
        next += 1;
    }
    Ok(())
}
