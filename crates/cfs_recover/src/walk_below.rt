//! The blocks below the root of an object that is walked, level by level.
ghost use Rattle.std.specs.Prelude.{◌≡◌, ◌+◌, ◌*◌, ◌<◌, ◌≤◌, ℕ, IfErr, MatchResult, OnOk, length, replicate};
ghost use Rattle.cfs_base.specs.Calls.{OnlyReads};
ghost use Rattle.cfs_base.specs.Disk.{Image};
ghost use Rattle.block_tree.specs.Pointers.{leaf_limit, levels_below, width};
ghost use Rattle.vol_image.specs.Seen.{place_above};
ghost use Rattle.cfs_recover.specs.Found.{Grows, IsFaultOf};
ghost use Rattle.cfs_recover.specs.Reads.{reads_below, reads_through};
ghost use Rattle.cfs_recover.specs.Refusals.{IsCaused, NamesDamage};
ghost use Rattle.cfs_recover.specs.Stored.{Stores};
ghost use Rattle.cfs_recover.specs.Walk.{AreGood, AreGoodBelow, HasBlock, HasPointers, Walks, reads_by_height};

use crate::fault::RecoverFault;
use crate::found::Walk;
use crate::spot::{Spot, check_spot};
use crate::walk_block::{walk_leaf, walk_node};
use block_tree::Root;
use cfs_base::{Disk, Place};
use cyl_map::Map;

/// Pointers of a tree.
#[derive(Clone, Copy)]
pub struct Branch {
    /// The block that holds the pointers.
    pub block: u32,
    /// The number of that block among those of its level.
    pub number: u32,
    /// How many levels are below the blocks to which the pointers lead.
    pub height: u32,
}

/// A block to which a pointer leads.
#[derive(Clone, Copy)]
pub struct Twig {
    /// The block that holds the pointer.
    pub holder: u32,
    /// The block to which the pointer leads.
    pub block: u32,
    /// The number of that block among those of its level.
    pub number: u32,
    /// How many levels are below it.
    pub height: u32,
}

/// Returns the owner and place that the block should have, and its holder.
pub fn spot_of(owner: u32, twig: Twig) -> Spot
    requires { twig.number < leaf_limit }
    ensures { result ≡ record {
      holder = twig.holder;
      block = twig.block;
      owner = owner;
      place = place_above (levels_below twig.height) twig.number;
    } }
{
    let place = if twig.height == 0 {
        Place::Leaf(twig.number)
    } else {
        Place::Node(twig.number as u16)
    };
    Spot {
        holder: twig.holder,
        block: twig.block,
        owner,
        place,
    }
}

/// Checks the block to which a pointer leads and all below it, and notes them and what they name.
///
/// Makes at most one read of each.
#[cycle(levels)]
fn walk_twig<D: Disk>(
    disk: &mut D,
    maps: &[Map],
    walk: &mut Walk,
    owner: u32,
    root: &Root,
    twig: Twig,
) -> Result<(), RecoverFault>
    requires room { D.blocks disk.old ≡ walk.old.directory.room }
    requires maps { D.blocks disk.old ≡ 64 * length maps.now }
    requires fits { (twig.number + 1) * width (levels_below twig.height) ≤ leaf_limit }
    ensures told { (image : Image) (done : ℕ) → Walks D.Disk disk.old image maps.now walk.old done
        → HasBlock image owner root.now twig
        → MatchResult result (λ _. Walks D.Disk disk.new image maps.now walk.new done
        × AreGood image owner root.now walk.new twig.height twig.number twig.block) (NamesDamage (IsFaultOf image)) }
    ensures grows { OnOk result (Grows walk.old walk.new) }
    ensures cause { IfErr result (IsCaused D.Disk disk.old disk.new) }
    ensures reads { OnlyReads D.Disk (reads_by_height twig.height) disk.old disk.new }
    ensures few { (image : Image) → Stores D.Disk disk.old image
        → OnlyReads D.Disk (reads_below image root.now twig.height twig.number twig.block) disk.old disk.new }
{
    check_spot(maps, spot_of(owner, twig))?;
    if twig.height == 0 {
        walk_leaf(disk, walk, root, twig)?;
        return Ok(());
    }
    let node = walk_node(disk, walk, twig)?;
    let at = Branch {
        block: twig.block,
        number: twig.number,
        height: twig.height - 1,
    };
    walk_below(disk, maps, walk, owner, root, at, &node.leaves)?;
    Ok(())
}

/// Checks all blocks to which pointers lead, and all below them, in the same way.
#[cycle(levels)]
pub(crate) fn walk_below<D: Disk>(
    disk: &mut D,
    maps: &[Map],
    walk: &mut Walk,
    owner: u32,
    root: &Root,
    at: Branch,
    pointers: &[u32],
) -> Result<(), RecoverFault>
    requires room { D.blocks disk.old ≡ walk.old.directory.room }
    requires maps { D.blocks disk.old ≡ 64 * length maps.now }
    requires few { (at.number + 1) * length pointers.now ≤ leaf_limit }
    requires fits { (at.number + 1) * (length pointers.now * width (levels_below at.height)) ≤ leaf_limit }
    ensures told { (image : Image) (done : ℕ) → Walks D.Disk disk.old image maps.now walk.old done
        → HasPointers image owner root.now at pointers.now
        → MatchResult result (λ _. Walks D.Disk disk.new image maps.now walk.new done
        × AreGoodBelow image owner root.now walk.new at pointers.now (length pointers.now))
        (NamesDamage (IsFaultOf image)) }
    ensures grows { OnOk result (Grows walk.old walk.new) }
    ensures cause { IfErr result (IsCaused D.Disk disk.old disk.new) }
    ensures reads { OnlyReads D.Disk (length pointers.now * reads_by_height at.height) disk.old disk.new }
    ensures few { (image : Image) → Stores D.Disk disk.old image → OnlyReads D.Disk (reads_through
        (reads_below image root.now at.height) (at.number * length pointers.now) pointers.now) disk.old disk.new }
{
    for place in 0..pointers.len() {
        let block = pointers[place];
        if block == 0 {
            continue;
        }
        let twig = Twig {
            holder: at.block,
            block,
            number: at.number * pointers.len() as u32 + place as u32,
            height: at.height,
        };
        walk_twig(disk, maps, walk, owner, root, twig)?;
    }
    Ok(())
}
