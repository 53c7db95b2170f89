//! One object of a volume that is walked.
ghost use Rattle.std.specs.Prelude.{◌≡◌, ◌+◌, ◌*◌, ◌<◌, ℕ, true, length, slice_get, Some, IfErr, IfOk, MatchResult};
ghost use Rattle.std.specs.Prelude.{OnOk};
ghost use Rattle.cfs_base.specs.Calls.{OnlyReads};
ghost use Rattle.cfs_base.specs.Codes as codes;
ghost use Rattle.cfs_base.specs.Disk.{Image};
ghost use Rattle.vol_image.specs.Fault.{HasLabel};
ghost use Rattle.vol_label.specs.declared.label.Label.{Label};
ghost use Rattle.cfs_recover.specs.Checks.{HasRootSlots};
ghost use Rattle.cfs_recover.specs.Entries.{AreStanding, damage};
ghost use Rattle.cfs_recover.specs.Found.{Grows, IsFaultOf, IsFoundItem, lists};
ghost use Rattle.cfs_recover.specs.Reads.{IsReadItem};
ghost use Rattle.cfs_recover.specs.Refusals.{IsCaused, NamesDamage};
ghost use Rattle.cfs_recover.specs.Stored.{AreMapsOf, Stores};
ghost use Rattle.cfs_recover.specs.Walk.{IsCopy, IsOpened, IsOwn, Walks, id_of, reads_of_object};
ghost use Rattle.cfs_recover.specs.declared.found.Walk as walks;

use crate::fault::RecoverFault;
use crate::found::{Found, Walk};
use crate::head::{Head, check_root, check_root_index, read_block, read_head};
use crate::spot::{Spot, check_spot};
use crate::standing::Standing;
use crate::walk_below::{Branch, walk_below};
use block_tree::{NODE_LEVELS, Root};
use cfs_base::{Damage, Disk, Place, Puid, code};
use cyl_map::Map;

/// The root block of the root index.
const ROOT_BLOCK: u32 = 2;

/// Reads the root block of an item of the list, and returns the root that it holds.
///
/// That root must have the word of the identifier that is listed.
fn own_root<D: Disk>(disk: &mut D, walk: &Walk, item: Found) -> Result<Root, RecoverFault>
    requires { item.block < D.blocks disk.old }
    ensures told { (image : Image) → Stores D.Disk disk.old image → IsFoundItem image walk.now item
        → MatchResult result (IsOwn image item) (NamesDamage (IsFaultOf image)) }
    ensures listed { IfOk result (λ own. lists walk.now (id_of item own) ≡ true) }
    ensures cause { IfErr result (IsCaused D.Disk disk.old disk.new) }
    ensures reads { OnlyReads D.Disk 1 disk.old disk.new }
{
    let content = read_block(disk, item.block)?;
    let own = check_root(item.block, &content)?;
    let id = Puid {
        block: item.block,
        word: own.word,
    };
    if !walk.lists(id) {
        return Err(RecoverFault::Damaged(Damage {
            block: item.by,
            code: code::NAMES_NOTHING,
        }));
    }
    Ok(own)
}

/// Checks that the root index, if this is its root block, is an index of 64 slots.
fn check_sort(block: u32, root: &Root) -> Result<(), Damage>
    ensures { MatchResult result (λ _. block ≡ 2 → HasRootSlots root.now)
        (λ d. (d ≡ damage 2 codes.names_nothing) × (block ≡ 2) × ¬ HasRootSlots root.now) }
{
    if block != ROOT_BLOCK {
        return Ok(());
    }
    check_root_index(root)
}

/// Reads the root by which an object is read whose own root is this one, with at most one read.
fn open_object<D: Disk>(
    disk: &mut D,
    maps: &[Map],
    standing: &Standing,
    item: Found,
    own: &Root,
) -> Result<Head, RecoverFault>
    requires on_disk { item.block < D.blocks disk.old }
    requires maps { D.blocks disk.old ≡ 64 * length maps.now }
    requires standing { D.blocks disk.old ≡ length standing.now }
    ensures told { (image : Image) (label : Label) → Stores D.Disk disk.old image → AreMapsOf image maps.now
        → AreStanding image (length image) standing.now → HasLabel image label → IsOwn image item own.now
        → MatchResult result (IsOpened image (id_of item own.now)) (NamesDamage (IsFaultOf image)) }
    ensures cause { IfErr result (IsCaused D.Disk disk.old disk.new) }
    ensures reads { OnlyReads D.Disk 1 disk.old disk.new }
{
    let spot = Spot {
        holder: item.by,
        block: item.block,
        owner: item.block,
        place: Place::Root,
    };
    check_spot(maps, spot)?;
    let head = read_head(disk, maps, standing, item.block, own)?;
    check_sort(item.block, &head.root)?;
    Ok(head)
}

/// Checks the next object of the list, each of its blocks with at most one read, and notes them and what they name.
///
/// Returns the root by which the object is read.
pub(crate) fn walk_object<D: Disk>(
    disk: &mut D,
    maps: &[Map],
    standing: &Standing,
    walk: &mut Walk,
    item: Found,
) -> Result<Head, RecoverFault>
    requires on_disk { item.block < D.blocks disk.old }
    requires room { D.blocks disk.old ≡ walk.old.directory.room }
    requires maps { D.blocks disk.old ≡ 64 * length maps.now }
    requires standing { D.blocks disk.old ≡ length standing.now }
    ensures told { (image : Image) (label : Label) (done : ℕ) → Walks D.Disk disk.old image maps.now walk.old done
        → AreStanding image (length image) standing.now → HasLabel image label
        → slice_get walk.old.found.items done ≡ Some item
        → MatchResult result (λ head. Walks D.Disk disk.new image maps.now walk.new (done + 1)
        × IsCopy image item.block head) (NamesDamage (IsFaultOf image)) }
    ensures grows { OnOk result (Grows walk.old walk.new) }
    ensures cause { IfErr result (IsCaused D.Disk disk.old disk.new) }
    ensures reads { OnlyReads D.Disk reads_of_object disk.old disk.new }
    ensures few { (image : Image) (label : Label) (done : ℕ) → Walks D.Disk disk.old image maps.now walk.old done
        → AreStanding image (length image) standing.now → HasLabel image label
        → slice_get walk.old.found.items done ≡ Some item
        → OnOk result ((reads : ℕ) × IsReadItem image item reads × OnlyReads D.Disk reads disk.old disk.new) }
{
    let own = own_root(disk, walk, item)?;
    let head = open_object(disk, maps, standing, item, &own)?;
    walk.hold(item.block);
    let top = Branch {
        block: head.from,
        number: 0,
        height: NODE_LEVELS,
    };
    walk_below(
        disk,
        maps,
        walk,
        item.block,
        &head.root,
        top,
        &head.root.nodes,
    )?;
    let id = Puid {
        block: item.block,
        word: own.word,
    };
    walk.learn(id, head.root.kind);
    Ok(head)
}
