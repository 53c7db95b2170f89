//! Pointers, followed from node to node.
ghost use Rattle.std.specs.Prelude.{◌≡◌, ◌≢◌, ℕ, ◌<◌, IfErr, IfOk, OnOk, get_or, length};
ghost use Rattle.block_tree.specs.Follow.{PastFrom, next_pointer, pointer_from};
ghost use Rattle.block_tree.specs.Pointers.{leaf_pointers, levels_below, pointers_of};
ghost use Rattle.block_tree.specs.Reads.{IsFault, IsPast};
ghost use Rattle.cfs_base.specs.Calls.{OnlyReads};
ghost use Rattle.cfs_base.specs.Disk.{block_at};
ghost use Rattle.cfs_base.specs.Run.{Tells};

use crate::fault::TreeFault;
use crate::node::Node;
use cfs_base::{Block, BlockNo, Disk};

/// A pointer in a tree.
#[derive(Clone, Copy, Debug, PartialEq, Eq)]
pub struct Pointer {
    /// The node that holds the pointer, or `None` if the root does.
    pub holder: Option<u32>,
    /// The block to which the pointer leads, or 0 if it leads nowhere.
    pub block: u32,
}

/// Reads the block to which a pointer leads, by at most one device call.
///
/// `BadPointer` if the pointer leads past the disk: it names that block, and the node that has the pointer, or `None`
/// if the root has it. `Disk` if the read fails. After an error nothing is known of `into`, which may hold anything.
pub fn follow_pointer<D: Disk>(
    disk: &mut D,
    pointer: Pointer,
    into: &mut Block,
) -> Result<(), TreeFault>
    requires { pointer.block ≢ 0 }
    ensures content { Tells D.Disk disk.old → OnOk result (into.new ≡ block_at (D.content disk.old) pointer.block) }
    ensures refused { IfErr result (IsFault D.Disk disk.old disk.new (λ p. p ≡ pointer)) }
    ensures there { OnOk result (pointer.block < D.blocks disk.old) }
    ensures reads { OnlyReads D.Disk 1 disk.old disk.new }
{
    if pointer.block >= disk.blocks() {
        return Err(TreeFault::BadPointer {
            block: pointer.block,
            holder: pointer.holder,
        });
    }
    match disk.read(BlockNo(pointer.block), into) {
        Ok(()) => Ok(()),
        Err(_) => Err(TreeFault::Disk),
    }
}

/// Reads the node to which a pointer leads.
pub(crate) fn node_at<D: Disk>(disk: &mut D, pointer: Pointer) -> Result<Node, TreeFault>
    requires { pointer.block ≢ 0 }
    ensures pointers { Tells D.Disk disk.old → IfOk result (λ node.
        node.leaves ≡ pointers_of leaf_pointers (block_at (D.content disk.old) pointer.block)) }
    ensures refused { IfErr result (IsFault D.Disk disk.old disk.new (λ p. p ≡ pointer)) }
    ensures there { OnOk result (pointer.block < D.blocks disk.old) }
    ensures reads { OnlyReads D.Disk 1 disk.old disk.new }
{
    let mut content = Block::zero();
    follow_pointer(disk, pointer, &mut content)?;
    Ok(Node::decode(&content))
}

/// Returns the pointer at a place of the node to which a pointer leads.
///
/// It is 0 if the pointer leads nowhere.
fn pointer_in<D: Disk>(disk: &mut D, pointer: Pointer, place: u32) -> Result<Pointer, TreeFault>
    requires { place < leaf_pointers.count }
    ensures next { Tells D.Disk disk.old
        → IfOk result (λ next. next ≡ next_pointer (D.content disk.old) leaf_pointers pointer place) }
    ensures refused { IfErr result (IsFault D.Disk disk.old disk.new (λ p. p ≡ pointer)) }
    ensures there { OnOk result (¬ IsPast (D.blocks disk.old) pointer.block) }
    ensures reads { OnlyReads D.Disk 1 disk.old disk.new }
{
    if pointer.block == 0 {
        return Ok(Pointer {
            holder: Some(0),
            block: 0,
        });
    }
    let mut content = Block::zero();
    follow_pointer(disk, pointer, &mut content)?;
    Ok(Pointer {
        holder: Some(pointer.block),
        block: content.u32_at(4 * place as usize),
    })
}

/// Returns the pointer at the end of a path that begins at a pointer. Reads the nodes between.
pub(crate) fn pointer_on<D: Disk>(
    disk: &mut D,
    pointer: Pointer,
    path: &[u32],
) -> Result<Pointer, TreeFault>
    requires { (d : ℕ) → get_or path.now d 0 < leaf_pointers.count }
    ensures end { Tells D.Disk disk.old → IfOk result (λ p.
        p ≡ pointer_from (D.content disk.old) (levels_below (length path.now)) pointer path.now) }
    ensures refused { IfErr result (IsFault D.Disk disk.old disk.new
        (PastFrom (D.content disk.old) (levels_below (length path.now)) (D.blocks disk.old) pointer path.now)) }
    ensures followed { Tells D.Disk disk.old → OnOk result ((p : Pointer)
        → ¬ PastFrom (D.content disk.old) (levels_below (length path.now)) (D.blocks disk.old) pointer path.now p) }
    ensures reads { OnlyReads D.Disk (length path.now) disk.old disk.new }
{
    if path.is_empty() {
        return Ok(pointer);
    }
    let next = pointer_in(disk, pointer, path[0])?;
    pointer_on(disk, next, &path[1..])
}
