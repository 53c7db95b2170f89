//! A walk over the held leaves of a tree.
ghost use Rattle.std.specs.Prelude.{◌≢◌, ◌+◌, ◌*◌, ◌/◌, ◌<◌, ◌≤◌, IfOk, IfErr, IfSome};
ghost use Rattle.cfs_base.specs.Calls.{OnlyReads};
ghost use Rattle.cfs_base.specs.Run.{Tells};
ghost use Rattle.block_tree.specs.Pointers.{leaf_limit, leaf_pointers, node_levels};
ghost use Rattle.block_tree.specs.Reads.{IsFault};
ghost use Rattle.block_tree.specs.Root.{root_spelling};
ghost use Rattle.block_tree.specs.Tree.{HasNoDeadEnd};
ghost use Rattle.block_tree.specs.Walk.{IsFirstPast, IsFound};

use crate::fault::TreeFault;
use crate::root::Root;
use crate::step::step_held;
use cfs_base::Disk;

/// A leaf that is held, and its block.
#[derive(Clone, Copy, Debug, PartialEq, Eq)]
pub struct HeldLeaf {
    pub leaf: u32,
    pub block: u32,
}

/// Finds the first held leaf at or after the given one.
///
/// If each node that is held leads to a leaf, it makes at most two device calls for each level of nodes, and else as
/// many for each block of leaves.
///
/// `BadPointer` if, before a held leaf is found, a pointer above a leaf from the given one on leads past the disk: it
/// names that block, and the node that has the pointer, or `None` if the root has it. `Disk` if a read fails.
pub fn walk_held<D: Disk>(
    disk: &mut D,
    root: &Root,
    from: u32,
) -> Result<Option<HeldLeaf>, TreeFault>
    ensures found { Tells D.Disk disk.old → IfOk result
        (IsFound (D.content disk.old) (D.blocks disk.old) (root_spelling root.now) from) }
    ensures within { IfOk result (λ found. IfSome found (λ held.
        (from ≤ held.leaf) × (held.leaf < leaf_limit) × (held.block ≢ 0))) }
    ensures refused { IfErr result (IsFault D.Disk disk.old disk.new
        (IsFirstPast (D.content disk.old) (D.blocks disk.old) (root_spelling root.now) from)) }
    ensures reads { OnlyReads D.Disk (node_levels * (leaf_limit / leaf_pointers.count)) disk.old disk.new }
    ensures few { Tells D.Disk disk.old → HasNoDeadEnd (D.content disk.old) (root_spelling root.now)
        → D.calls disk.new ≤ D.calls disk.old + 2 * node_levels }
{
    let mut next = Some(from);
    while let Some(at) = next {
        let step = step_held(disk, root, at)?;
        if let Some(found) = step.found {
            return Ok(Some(found.held));
        }
        next = step.next;
    }
    Ok(None)
}
