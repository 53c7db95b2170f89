//! Pointers to the leaves that were taken.
ghost use Rattle.std.specs.Prelude.{◌≡◌, ◌<◌, true, set, IfErr, IfOk, OnOk};
ghost use Rattle.block_tree.specs.Pointers.{node_pointers};
ghost use Rattle.cfs_base.specs.Run.{IsSettled, Leaves as LeavesOf};
ghost use Rattle.cfs_base.specs.declared.refusal.Trouble.TheVariants as troubles;
ghost use Rattle.normal_files.specs.Laid.{node_of};
ghost use Rattle.normal_files.specs.Links.{linked_image, linked_root};
ghost use Rattle.normal_files.specs.Plans.{plan_of};
ghost use Rattle.normal_files.specs.Steps.{ComesOrStops};

use crate::flush::flush;
use crate::in_place::{after, write_block};
use crate::lowest::way_node;
use crate::next::Next;
use block_tree::Root;
use cfs_base::{Block, BlockNo, Disk, Trouble};

/// Writes a block, and makes it survive a crash.
pub(crate) fn write_through<D: Disk>(
    disk: &mut D,
    block: u32,
    content: &Block,
) -> Result<(), Trouble>
    requires { block < D.blocks disk.old }
    ensures done { IsSettled D.Disk disk.old
        → OnOk result ((D.content disk.new ≡ set (D.content disk.old) block content.now)
        × IsSettled D.Disk disk.new) }
    ensures images { IsSettled D.Disk disk.old
        → LeavesOf D.Disk disk.old disk.new (λ c. c ≡ set (D.content disk.old) block content.now) }
    ensures failed { IfErr result (λ t. t ≡ troubles.Disk true) }
    ensures ends { ComesOrStops D.Disk 2 2 disk.old disk.new result (λ done. true) }
{
    match write_block(disk, block, content) {
        Ok(()) => {}
        Err(trouble) => return Err(trouble),
    }
    match flush(disk) {
        Ok(()) => Ok(()),
        Err(trouble) => Err(after(true, trouble)),
    }
}

/// Makes the file lead to the leaves of a node that were taken, and returns the root.
///
/// The node is written, or if it is new the root is made to lead to it.
pub(crate) fn link<D: Disk>(
    disk: &mut D,
    at: BlockNo,
    root: &Root,
    number: u32,
    next: &Next,
) -> Result<Root, Trouble>
    requires at { at.0 < D.blocks disk.old }
    requires number { number < node_pointers.count }
    requires near { next.now.grown ≡ true → node_of next.now.root number < D.blocks disk.old }
    requires leads { next.now.root ≡ linked_root root.now number (plan_of number next.now) }
    ensures root { IfOk result (λ r. r ≡ next.now.root) }
    ensures done { IsSettled D.Disk disk.old
        → OnOk result ((D.content disk.new
        ≡ linked_image (D.content disk.old) at.0 root.now number (plan_of number next.now))
        × IsSettled D.Disk disk.new) }
    ensures images { IsSettled D.Disk disk.old
        → LeavesOf D.Disk disk.old disk.new (λ c.
        c ≡ linked_image (D.content disk.old) at.0 root.now number (plan_of number next.now)) }
    ensures ends { ComesOrStops D.Disk 2 2 disk.old disk.new result (λ led. next.now.grown) }
{
    if !next.grown {
        return Ok(next.root);
    }
    if root.nodes[number as usize] != 0 {
        return match write_through(disk, next.block(number), &way_node(&next.way).encode()) {
            Ok(()) => Ok(next.root),
            Err(trouble) => Err(trouble),
        };
    }
    match write_through(disk, at.0, &next.root.encode()) {
        Ok(()) => Ok(next.root),
        Err(trouble) => Err(trouble),
    }
}
