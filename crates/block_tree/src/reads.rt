//! The root, the nodes and the leaves of an object, read for calls that report which block is damaged.
ghost use Rattle.std.specs.Prelude.{◌≡◌, ◌<◌, ◌≤◌, ℕ, false, get_or, length, replicate, IfErr, IfOk, IsFalse};
ghost use Rattle.std.specs.Prelude.{IsTrue, OnOk};
ghost use Rattle.std.specs.List.{All};
ghost use Rattle.block_tree.specs.Node.{IsNode};
ghost use Rattle.block_tree.specs.Pointers.{leaf_pointers, node_pointers, pointers_of, size_limit};
ghost use Rattle.block_tree.specs.Reads.{HasStoppedBy, IsNear, IsNodeTrouble, IsRootTrouble, is_damage, leaves_at};
ghost use Rattle.block_tree.specs.Root.{IsRootBlock};
ghost use Rattle.block_tree.specs.Tree.{bytes_in};
ghost use Rattle.block_tree.specs.declared.root.Root as roots;
ghost use Rattle.cfs_base.specs.Calls.{OnlyReads};
ghost use Rattle.cfs_base.specs.Disk.{block_at};
ghost use Rattle.cfs_base.specs.Refusals.{trouble_had_tried};
ghost use Rattle.cfs_base.specs.Run.{Tells};

use crate::node::{LEAVES, Node};
use crate::root::Root;
use cfs_base::{Block, BlockNo, Damage, Disk, Trouble, code};

/// Reads the root of an object.
///
/// `Damaged` names the block, with code 3, if it is no root block.
pub fn read_root<D: Disk>(disk: &mut D, at: BlockNo) -> Result<Root, Trouble>
    requires { at.0 < D.blocks disk.old }
    ensures root { Tells D.Disk disk.old → IfOk result (IsRootBlock (block_at (D.content disk.old) at.0)) }
    ensures pointers { Tells D.Disk disk.old → IfOk result (λ root.
        root.nodes ≡ pointers_of node_pointers (block_at (D.content disk.old) at.0)) }
    ensures limit { IfOk result (λ root. root.size ≤ size_limit) }
    ensures refused { IfErr result (IsRootTrouble D.Disk at.0 disk.old disk.new) }
    ensures untried { IfErr result (λ trouble. trouble_had_tried trouble ≡ false) }
    ensures sound { (root : roots.Root) → Tells D.Disk disk.old → IsRootBlock (block_at (D.content disk.old) at.0) root
        → IfErr result (λ trouble. is_damage trouble ≡ false) }
    ensures reads { OnlyReads D.Disk 1 disk.old disk.new }
{
    let mut content = Block::zero();
    let Ok(()) = disk.read(at, &mut content) else {
        return Err(Trouble::Disk { tried: false });
    };
    match Root::decode(&content) {
        Ok(root) => Ok(root),
        Err(_) => Err(Trouble::Damaged(Damage {
            block: at.0,
            code: code::NO_ROOT,
        })),
    }
}

/// Returns whether a pointer of a node leads past a disk of `blocks` blocks.
///
/// It is computed without a branch on the pointers.
fn leads_past(node: &Node, blocks: u32) -> bool
    ensures past { IsTrue result → (k : ℕ) × (blocks ≤ get_or node.now.leaves k 0) }
    ensures near { IsFalse result → All (λ leaf. leaf < blocks) node.now.leaves }
{
    let mut past = false;
    for leaf in &node.leaves {
        past = past | (*leaf >= blocks);
    }
    past
}

/// Reads the node in a block to which this holder points. If `block` is 0, the node is absent and has no leaf.
///
/// `Damaged` names the holder, with code 4, if the node lies past the disk, and the node if one of its leaves does.
pub fn read_node<D: Disk>(disk: &mut D, block: u32, holder: BlockNo) -> Result<Node, Trouble>
    requires { 0 < D.blocks disk.old }
    ensures node { Tells D.Disk disk.old → IfOk result (λ node. node.leaves ≡ leaves_at (D.content disk.old) block) }
    ensures there { OnOk result (block < D.blocks disk.old) }
    ensures leaves { IfOk result (λ node. All (λ leaf. leaf < D.blocks disk.old) node.leaves) }
    ensures count { IfOk result (λ node. length node.leaves ≡ leaf_pointers.count) }
    ensures good { IfOk result IsNode }
    ensures refused { IfErr result (IsNodeTrouble D.Disk block holder.0 disk.old disk.new) }
    ensures untried { IfErr result (λ trouble. trouble_had_tried trouble ≡ false) }
    ensures sound { Tells D.Disk disk.old → IsNear (D.blocks disk.old) (D.content disk.old) block
        → IfErr result (λ trouble. is_damage trouble ≡ false) }
    ensures reads { OnlyReads D.Disk 1 disk.old disk.new }
{
    if block == 0 {
        return Ok(Node::empty());
    }
    let blocks = disk.blocks();
    if block >= blocks {
        return Err(Trouble::Damaged(Damage {
            block: holder.0,
            code: code::PAST_DISK,
        }));
    }
    let mut content = Block::zero();
    let Ok(()) = disk.read(BlockNo(block), &mut content) else {
        return Err(Trouble::Disk { tried: false });
    };
    let node = Node::decode(&content);
    if leads_past(&node, blocks) {
        return Err(Trouble::Damaged(Damage {
            block,
            code: code::PAST_DISK,
        }));
    }
    Ok(node)
}

/// Reads the block of a leaf. It is all fill bytes if `block` is 0.
pub fn read_block<D: Disk>(disk: &mut D, block: u32, fill: u8) -> Result<Block, Trouble>
    requires { block < D.blocks disk.old }
    ensures content { Tells D.Disk disk.old → IfOk result (λ content.
        content ≡ bytes_in (D.content disk.old) fill block) }
    ensures there { block < D.blocks disk.old }
    ensures refused { IfErr result (HasStoppedBy D.Disk disk.old disk.new) }
    ensures untried { IfErr result (λ trouble. trouble_had_tried trouble ≡ false) }
    ensures reads { OnlyReads D.Disk 1 disk.old disk.new }
{
    let mut content = Block::of([fill; 512]);
    if block == 0 {
        return Ok(content);
    }
    match disk.read(BlockNo(block), &mut content) {
        Ok(()) => Ok(content),
        Err(_) => Err(Trouble::Disk { tried: false }),
    }
}
