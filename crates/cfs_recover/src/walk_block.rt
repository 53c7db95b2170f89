//! One block of an object that is walked: a leaf, or a node.
ghost use Rattle.std.specs.Prelude.{◌≡◌, ◌≢◌, ◌<◌, ℕ, true, IfErr, IfOk, MatchResult, OnOk};
ghost use Rattle.cfs_base.specs.Calls.{OnlyReads};
ghost use Rattle.cfs_base.specs.Disk.{Image, block_at};
ghost use Rattle.cfs_base.specs.declared.kind.Kind.TheVariants as kinds;
ghost use Rattle.block_tree.specs.Pointers.{leaf_pointers, pointers_of};
ghost use Rattle.block_tree.specs.declared.root.Root as roots;
ghost use Rattle.cfs_recover.specs.Found.{AreNamed, AreNoted, Grows, IsFaultOf, IsWalk, holds};
ghost use Rattle.cfs_recover.specs.Reads.{reads_of_leaf};
ghost use Rattle.cfs_recover.specs.Refusals.{IsCaused, NamesDamage};
ghost use Rattle.cfs_recover.specs.Stored.{Stores};
ghost use Rattle.cfs_recover.specs.Walk.{HasBlock, IsGoodLeaf, IsNodeAt, IsReadLeaf};

use crate::fault::RecoverFault;
use crate::found::Walk;
use crate::head::read_block;
use crate::leaf::{check_leaf, check_rest, is_read};
use crate::node::check_node;
use crate::walk_below::Twig;
use block_tree::{Node, Root};
use cfs_base::{Block, Disk, Kind};

/// Notes what the slots of a leaf of this object name, if the object is an index.
fn note_leaf(
    walk: &mut Walk,
    content: &Block,
    root: &Root,
    leaf: u32,
    block: u32,
) -> Result<(), RecoverFault>
    ensures told { (image : Image) (done : ℕ) → IsWalk image walk.old done
        → (root.now.kind ≡ kinds.Index → AreNamed image content.now root.now.size leaf block)
        → MatchResult result (λ _. IsWalk image walk.new done) (NamesDamage (IsFaultOf image)) }
    ensures noted { OnOk result (root.now.kind ≡ kinds.Index → AreNoted walk.new content.now root.now.size leaf) }
    ensures grows { OnOk result (Grows walk.old walk.new) }
    ensures no_call { IfErr result (λ e. e ≢ RecoverFault.Disk) }
{
    if root.kind != Kind::Index {
        return Ok(());
    }
    walk.note_slots(content, root.size, leaf, block)
}

/// Reads a leaf if its content matters, and notes what it names.
fn read_leaf<D: Disk>(
    disk: &mut D,
    walk: &mut Walk,
    root: &Root,
    twig: Twig,
) -> Result<(), RecoverFault>
    requires { twig.block < D.blocks disk.old }
    ensures told { (image : Image) (owner done : ℕ) → Stores D.Disk disk.old image → IsWalk image walk.old done
        → HasBlock image owner root.now twig → twig.height ≡ 0
        → MatchResult result (λ _. IsWalk image walk.new done
        × IsReadLeaf image root.now walk.new twig.number twig.block) (NamesDamage (IsFaultOf image)) }
    ensures grows { OnOk result (Grows walk.old walk.new) }
    ensures cause { IfErr result (IsCaused D.Disk disk.old disk.new) }
    ensures reads { OnlyReads D.Disk 1 disk.old disk.new }
    ensures few { OnlyReads D.Disk (reads_of_leaf root.now twig.number) disk.old disk.new }
{
    if !is_read(root, twig.number) {
        return Ok(());
    }
    let content = read_block(disk, twig.block)?;
    check_rest(root, twig.number, twig.block, &content)?;
    note_leaf(walk, &content, root, twig.number, twig.block)?;
    Ok(())
}

/// Checks a leaf, with at most one read, and notes it and what it names.
pub(crate) fn walk_leaf<D: Disk>(
    disk: &mut D,
    walk: &mut Walk,
    root: &Root,
    twig: Twig,
) -> Result<(), RecoverFault>
    requires room { D.blocks disk.old ≡ walk.old.directory.room }
    requires there { twig.block < D.blocks disk.old }
    ensures told { (image : Image) (owner done : ℕ) → Stores D.Disk disk.old image → IsWalk image walk.old done
        → HasBlock image owner root.now twig → twig.height ≡ 0
        → MatchResult result (λ _. IsWalk image walk.new done
        × IsGoodLeaf image root.now walk.new twig.number twig.block) (NamesDamage (IsFaultOf image)) }
    ensures held { OnOk result (holds walk.new twig.block ≡ true) }
    ensures grows { OnOk result (Grows walk.old walk.new) }
    ensures cause { IfErr result (IsCaused D.Disk disk.old disk.new) }
    ensures reads { OnlyReads D.Disk 1 disk.old disk.new }
    ensures few { OnlyReads D.Disk (reads_of_leaf root.now twig.number) disk.old disk.new }
{
    check_leaf(root, twig.number, twig.block)?;
    read_leaf(disk, walk, root, twig)?;
    walk.hold(twig.block);
    Ok(())
}

/// Reads a node, checks that it leads on, and notes it.
pub(crate) fn walk_node<D: Disk>(
    disk: &mut D,
    walk: &mut Walk,
    twig: Twig,
) -> Result<Node, RecoverFault>
    requires room { D.blocks disk.old ≡ walk.old.directory.room }
    requires there { twig.block < D.blocks disk.old }
    ensures told { (image : Image) (owner done : ℕ) (root : roots.Root) → Stores D.Disk disk.old image
        → IsWalk image walk.old done → HasBlock image owner root twig → twig.height ≢ 0
        → MatchResult result (λ node. IsWalk image walk.new done × IsNodeAt image twig.block node)
        (NamesDamage (IsFaultOf image)) }
    ensures leaves { (image : Image) → Stores D.Disk disk.old image
        → IfOk result (λ node. node.leaves ≡ pointers_of leaf_pointers (block_at image twig.block)) }
    ensures held { OnOk result (holds walk.new twig.block ≡ true) }
    ensures grows { OnOk result (Grows walk.old walk.new) }
    ensures cause { IfErr result (IsCaused D.Disk disk.old disk.new) }
    ensures reads { OnlyReads D.Disk 1 disk.old disk.new }
{
    let content = read_block(disk, twig.block)?;
    let node = Node::decode(&content);
    check_node(twig.block, &node)?;
    walk.hold(twig.block);
    Ok(node)
}
