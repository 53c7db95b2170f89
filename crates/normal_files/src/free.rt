//! Blocks that a file no longer has, given back.
ghost use Rattle.std.specs.Prelude.{ℕ, ◌≡◌, ◌+◌, ◌*◌, ◌<◌, ◌≤◌, ◌==◌, if◌then◌else◌, length};
ghost use Rattle.std.specs.List.{All};
ghost use Rattle.block_tree.specs.Pointers.{leaf_limit, leaf_pointers, node_pointers, size_limit};
ghost use Rattle.block_tree.specs.declared.root.Root as roots;
ghost use Rattle.leaf_changes.specs.Tops.{root_top};
ghost use Rattle.normal_files.specs.Cuts.{IsReadEnd, last_node as node_at};
ghost use Rattle.normal_files.specs.Frees as spec;
ghost use Rattle.normal_files.specs.Limits as limits;
ghost use Rattle.ufs_model.specs.Object.{leaves_in as leaves_of};

use crate::cut::{End, cut_place, last_node};
use crate::lowest::way_node;
use block_tree::{LEAVES, NODES, Node, Root, read_node};
use cfs_base::{BlockNo, Disk, Trouble};
use cyl_alloc::Space;

/// Frees a block, unless it is 0.
fn free<D: Disk>(disk: &mut D, space: &mut Space, block: u32) -> Result<(), Trouble>
    requires size { D.blocks disk.old ≡ 64 * length space.old.free }
    requires on_disk { block < D.blocks disk.old }
    ensures frees { spec.FreesBlock D.Disk block disk.old disk.new space.old space.new result }
    ensures follows { (at : ℕ) (root : roots.Root) → spec.FollowsStart D.Disk (root_top at root) limits.free_calls
        limits.free_tries disk.old disk.new space.old space.new result }
    ensures size { (D.blocks disk.new ≡ D.blocks disk.old) × (length space.new.free ≡ length space.old.free) }
{
    if block == 0 {
        return Ok(());
    }
    space.release(disk, BlockNo(block))?;
    Ok(())
}

/// Frees the leaves of a node from a place on.
fn free_leaves<D: Disk>(
    disk: &mut D,
    space: &mut Space,
    node: &Node,
    from: u32,
) -> Result<(), Trouble>
    requires size { D.blocks disk.old ≡ 64 * length space.old.free }
    requires near { All (λ leaf. leaf < D.blocks disk.old) node.now.leaves }
    requires from { from ≤ leaf_pointers.count }
    ensures frees { (root : roots.Root) (number : ℕ) → spec.FreesTo D.Disk root
        (spec.GivesLeaves root node.now.leaves number from) (leaf_pointers.count * number + from) number
        (leaf_pointers.count * number + leaf_pointers.count) number disk.old disk.new space.old space.new result }
    ensures follows { (at : ℕ) (root : roots.Root) → spec.FollowsStart D.Disk (root_top at root)
        limits.free_leaves_calls limits.free_leaves_tries disk.old disk.new space.old space.new result }
    ensures size { (D.blocks disk.new ≡ D.blocks disk.old) × (length space.new.free ≡ length space.old.free) }
{
    for place in from..LEAVES as u32 {
        free(disk, space, node.leaves[place as usize])?;
    }
    Ok(())
}

/// Frees a node that is held, with all its leaves.
///
/// `Damaged` as in `read_node`.
fn free_node<D: Disk>(
    disk: &mut D,
    space: &mut Space,
    at: BlockNo,
    root: &Root,
    number: u32,
) -> Result<(), Trouble>
    requires size { D.blocks disk.old ≡ 64 * length space.old.free }
    requires some { 0 < D.blocks disk.old }
    requires number { number < node_pointers.count }
    ensures frees { spec.FreesTo D.Disk root.now (spec.GivesNode number)
        (leaf_pointers.count * number) number
        (leaf_pointers.count * number + leaf_pointers.count) (number + 1) disk.old disk.new space.old space.new result }
    ensures follows { spec.FollowsStart D.Disk (root_top at.0 root.now) limits.free_node_calls limits.free_node_tries
        disk.old disk.new space.old space.new result }
{
    let block = root.nodes[number as usize];
    let node = read_node(disk, block, at)?;
    free_leaves(disk, space, &node, 0)?;
    free(disk, space, block)
}

/// Frees the nodes from `from` on, with their leaves.
fn free_nodes<D: Disk>(
    disk: &mut D,
    space: &mut Space,
    at: BlockNo,
    root: &Root,
    from: u32,
) -> Result<(), Trouble>
    requires size { D.blocks disk.old ≡ 64 * length space.old.free }
    requires some { 0 < D.blocks disk.old }
    requires from { from ≤ node_pointers.count }
    ensures frees { spec.FreesTo D.Disk root.now (spec.GivesNodes from)
        (leaf_pointers.count * from) from leaf_limit node_pointers.count disk.old disk.new space.old space.new result }
    ensures follows { spec.FollowsStart D.Disk (root_top at.0 root.now) limits.free_nodes_calls limits.free_nodes_tries
        disk.old disk.new space.old space.new result }
{
    for number in from..NODES as u32 {
        free_node(disk, space, at, root, number)?;
    }
    Ok(())
}

/// Returns the block of the last node if that isn't kept, else 0.
fn gone_block(end: &End, block: u32) -> u32
    ensures { result ≡ (if end.now.kept == 0 then block else 0) }
{
    if end.kept == 0 {
        return block;
    }
    0
}

/// Frees what a file of this size has past its end. The end was read.
///
/// `Damaged` as in `read_node`.
pub(crate) fn free_past<D: Disk>(
    disk: &mut D,
    space: &mut Space,
    at: BlockNo,
    root: &Root,
    end: &End,
    size: u64,
) -> Result<(), Trouble>
    requires size { D.blocks disk.old ≡ 64 * length space.old.free }
    requires some { 0 < D.blocks disk.old }
    requires allowed { size ≤ size_limit }
    requires read { IsReadEnd (D.blocks disk.old) root.now size end.now }
    ensures frees { spec.FreesTo D.Disk root.now (spec.GivesEnd root.now size end.now)
        (leaves_of size) (node_at size) leaf_limit node_pointers.count disk.old disk.new space.old space.new result }
    ensures follows { spec.FollowsStart D.Disk (root_top at.0 root.now) limits.free_past_calls limits.free_past_tries
        disk.old disk.new space.old space.new result }
{
    let last = last_node(size);
    free_leaves(disk, space, way_node(&end.way), cut_place(size))?;
    free(disk, space, gone_block(end, root.nodes[last as usize]))?;
    free_nodes(disk, space, at, root, last + 1)
}
