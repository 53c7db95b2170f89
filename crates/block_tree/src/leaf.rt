//! Single leaves of a tree.
ghost use Rattle.std.specs.Prelude.{◌≡◌, ◌+◌, ◌/◌, ◌<◌, IfErr, IfOk, OnOk};
ghost use Rattle.block_tree.specs.Pointers.{leaf_limit, leaf_pointers, node_levels};
ghost use Rattle.block_tree.specs.Reads.{IsFault};
ghost use Rattle.block_tree.specs.Root.{root_spelling};
ghost use Rattle.block_tree.specs.Tree.{IsLeafPointer, PastAbove, PastOn, leaf_block, leaf_bytes};
ghost use Rattle.block_tree.specs.declared.follow.Pointer as pointers;
ghost use Rattle.cfs_base.specs.Calls.{OnlyReads};
ghost use Rattle.cfs_base.specs.Run.{Tells};

use crate::along::path_of;
use crate::fault::TreeFault;
use crate::follow::{Pointer, follow_pointer, pointer_on};
use crate::node::LEAVES;
use crate::root::{NODES, Root};
use cfs_base::{Block, Disk};

/// How many leaves a tree may have.
pub const LEAF_LIMIT: u32 = (NODES * LEAVES) as u32;

/// Returns the leaf that has the byte at this offset.
pub fn leaf_of(offset: u64) -> u64
    ensures { result ≡ offset / 512 }
{
    offset / 512
}

/// Returns the node that leads to this leaf.
pub fn node_of(leaf: u32) -> u32
    ensures { result ≡ leaf / leaf_pointers.count }
{
    leaf / LEAVES as u32
}

/// Returns the pointer to a leaf. Reads the nodes on its path.
fn pointer_to<D: Disk>(disk: &mut D, root: &Root, leaf: u32) -> Result<Pointer, TreeFault>
    requires { leaf < leaf_limit }
    ensures pointer { Tells D.Disk disk.old
        → IfOk result (IsLeafPointer (D.content disk.old) (root_spelling root.now) leaf) }
    ensures refused { IfErr result (IsFault D.Disk disk.old disk.new
        (PastAbove (D.content disk.old) (D.blocks disk.old) (root_spelling root.now) leaf)) }
    ensures followed { Tells D.Disk disk.old → OnOk result ((p : pointers.Pointer) →
        ¬ PastAbove (D.content disk.old) (D.blocks disk.old) (root_spelling root.now) leaf p) }
    ensures reads { OnlyReads D.Disk node_levels disk.old disk.new }
{
    let path = path_of(leaf);
    let block = root.nodes[path[0] as usize];
    let top = Pointer {
        holder: None,
        block,
    };
    pointer_on(disk, top, &path[1..])
}

/// Returns the block of a leaf, or 0 if the leaf is absent.
///
/// Makes at most one device call for each level of nodes. The pointer to the leaf is not followed.
///
/// `BadPointer` if the pointer to a node on the leaf's path leads past the disk: it names that block, and the node
/// that has the pointer, or `None` if the root has it. `Disk` if a read fails.
pub fn leaf_at<D: Disk>(disk: &mut D, root: &Root, leaf: u32) -> Result<u32, TreeFault>
    requires { leaf < leaf_limit }
    ensures leaf { Tells D.Disk disk.old → IfOk result (λ n.
        n ≡ leaf_block (D.content disk.old) (root_spelling root.now) leaf) }
    ensures refused { IfErr result (IsFault D.Disk disk.old disk.new
        (PastAbove (D.content disk.old) (D.blocks disk.old) (root_spelling root.now) leaf)) }
    ensures followed { Tells D.Disk disk.old → OnOk result ((p : pointers.Pointer) →
        ¬ PastAbove (D.content disk.old) (D.blocks disk.old) (root_spelling root.now) leaf p) }
    ensures reads { OnlyReads D.Disk node_levels disk.old disk.new }
{
    let pointer = pointer_to(disk, root, leaf)?;
    Ok(pointer.block)
}

/// Reads a leaf. An absent leaf is all fill bytes.
///
/// Makes at most one device call for each level of nodes, and one for the leaf.
///
/// `BadPointer` if a pointer on its path, to a node or to the leaf, leads past the disk: it names that block, and the
/// node that has the pointer, or `None` if the root has it. `Disk` if a read fails. After an error nothing is known
/// of `into`, which may hold anything.
pub fn read_leaf<D: Disk>(
    disk: &mut D,
    root: &Root,
    leaf: u32,
    into: &mut Block,
) -> Result<(), TreeFault>
    requires { leaf < leaf_limit }
    ensures bytes { Tells D.Disk disk.old → OnOk result
        (into.new ≡ leaf_bytes (D.content disk.old) (root_spelling root.now) leaf) }
    ensures refused { IfErr result (IsFault D.Disk disk.old disk.new
        (PastOn (D.content disk.old) (D.blocks disk.old) (root_spelling root.now) leaf)) }
    ensures followed { Tells D.Disk disk.old → OnOk result ((p : pointers.Pointer) →
        ¬ PastOn (D.content disk.old) (D.blocks disk.old) (root_spelling root.now) leaf p) }
    ensures reads { OnlyReads D.Disk (node_levels + 1) disk.old disk.new }
{
    let pointer = pointer_to(disk, root, leaf)?;
    if pointer.block == 0 {
        *into = Block::of([root.fill; 512]);
        return Ok(());
    }
    follow_pointer(disk, pointer, into)
}
