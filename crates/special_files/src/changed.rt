//! What a commit takes and drops.
ghost use Rattle.std.specs.Prelude.{◌≡◌, ◌+◌, ◌<◌, ◌≤◌, ◌++◌, false, length, IfErr};
ghost use Rattle.std.specs.Prelude.{OnOk};
ghost use Rattle.cfs_base.specs.Calls.{OnlyReads};
ghost use Rattle.cfs_base.specs.Refusals.{trouble_had_tried};
ghost use Rattle.cfs_base.specs.Run.{Tells};
ghost use Rattle.cyl_alloc.specs.Space.{Kept};
ghost use Rattle.special_files.specs.Changed as spec;
ghost use Rattle.special_files.specs.Drafting.{Drafting, opened_as};
ghost use Rattle.block_tree.specs.Reads.{is_damage, IsNear};
ghost use Rattle.special_files.specs.Limits.{blocks_limit, changed_reads, node_blocks};
ghost use Rattle.special_files.specs.Refusal.{IsDraftTrouble, nodes_top, roots_top};
ghost use Rattle.special_files.specs.View.{DraftView};

use crate::blocks::Blocks;
use block_tree::{LEAVES, NODES, Node, Root, read_node};
use cfs_base::{BlockNo, Disk, Trouble};

/// Lists a block, unless it is 0 or the same as the other.
pub(crate) fn add_unlike(list: &mut Blocks, block: u32, other: u32)
    requires { length list.old < blocks_limit }
    ensures { list.new ≡ list.old ++ spec.unlike block other }
{
    if block == 0 || block == other {
        return;
    }
    list.add(block);
}

/// Lists a node and its leaves, except those that the other node has at the same place.
fn add_node(list: &mut Blocks, block: u32, node: &Node, other: u32, other_node: &Node)
    requires { length list.old + node_blocks ≤ blocks_limit }
    ensures { list.new ≡ list.old ++ spec.all_unlike (spec.pointer_table block node.now.leaves)
        (spec.pointer_table other other_node.now.leaves) node_blocks }
{
    add_unlike(list, block, other);
    for leaf in 0..LEAVES {
        add_unlike(list, node.leaves[leaf], other_node.leaves[leaf]);
    }
}

/// Lists what differs between a node of the draft and one of the object. Both are read.
fn add_nodes<D: Disk>(
    disk: &mut D,
    at: BlockNo,
    own: u32,
    new: u32,
    taken: &mut Blocks,
    dropped: &mut Blocks,
) -> Result<(), Trouble>
    requires some { 0 < D.blocks disk.old }
    requires taken { length taken.old + node_blocks ≤ blocks_limit }
    requires dropped { length dropped.old + node_blocks ≤ blocks_limit }
    ensures taken { Tells D.Disk disk.old → OnOk result (taken.new ≡ taken.old
        ++ spec.all_unlike (spec.in_node (D.content disk.old) new) (spec.in_node (D.content disk.old) own)
        node_blocks) }
    ensures dropped { Tells D.Disk disk.old → OnOk result (dropped.new ≡ dropped.old
        ++ spec.all_unlike (spec.in_node (D.content disk.old) own) (spec.in_node (D.content disk.old) new)
        node_blocks) }
    ensures takes { OnOk result (spec.Adds (D.blocks disk.old) node_blocks taken.old taken.new) }
    ensures drops { OnOk result (spec.Adds (D.blocks disk.old) node_blocks dropped.old dropped.new) }
    ensures refused { (kept : Kept)
        → IfErr result (IsDraftTrouble D.Disk (nodes_top at.0 own new) disk.old disk.new kept) }
    ensures untried { IfErr result (λ trouble. trouble_had_tried trouble ≡ false) }
    ensures sound { Tells D.Disk disk.old → IsNear (D.blocks disk.old) (D.content disk.old) own
        → IsNear (D.blocks disk.old) (D.content disk.old) new → IfErr result (λ trouble. is_damage trouble ≡ false) }
    ensures reads { OnlyReads D.Disk 2 disk.old disk.new }
{
    let own_node = match read_node(disk, own, at) {
        Ok(node) => node,
        Err(trouble) => return Err(trouble),
    };
    let node = match read_node(disk, new, at) {
        Ok(node) => node,
        Err(trouble) => return Err(trouble),
    };
    add_node(taken, new, &node, own, &own_node);
    add_node(dropped, own, &own_node, new, &node);
    Ok(())
}

/// Lists what differs between a node of the draft and one of the object.
///
/// If their blocks are the same nothing differs.
fn add_changed<D: Disk>(
    disk: &mut D,
    at: BlockNo,
    own: u32,
    new: u32,
    taken: &mut Blocks,
    dropped: &mut Blocks,
) -> Result<(), Trouble>
    requires some { 0 < D.blocks disk.old }
    requires taken { length taken.old + node_blocks ≤ blocks_limit }
    requires dropped { length dropped.old + node_blocks ≤ blocks_limit }
    ensures taken { Tells D.Disk disk.old → OnOk result (taken.new ≡ taken.old
        ++ spec.all_unlike (spec.in_node (D.content disk.old) new) (spec.in_node (D.content disk.old) own)
        node_blocks) }
    ensures dropped { Tells D.Disk disk.old → OnOk result (dropped.new ≡ dropped.old
        ++ spec.all_unlike (spec.in_node (D.content disk.old) own) (spec.in_node (D.content disk.old) new)
        node_blocks) }
    ensures takes { OnOk result (spec.Adds (D.blocks disk.old) node_blocks taken.old taken.new) }
    ensures drops { OnOk result (spec.Adds (D.blocks disk.old) node_blocks dropped.old dropped.new) }
    ensures refused { (kept : Kept)
        → IfErr result (IsDraftTrouble D.Disk (nodes_top at.0 own new) disk.old disk.new kept) }
    ensures untried { IfErr result (λ trouble. trouble_had_tried trouble ≡ false) }
    ensures sound { Tells D.Disk disk.old → IsNear (D.blocks disk.old) (D.content disk.old) own
        → IsNear (D.blocks disk.old) (D.content disk.old) new → IfErr result (λ trouble. is_damage trouble ≡ false) }
    ensures reads { OnlyReads D.Disk 2 disk.old disk.new }
{
    if own == new {
        return Ok(());
    }
    add_nodes(disk, at, own, new, taken, dropped)
}

/// Lists the draft's own blocks, except its shadow root, and the blocks of the object that the draft doesn't have.
///
/// The object's root is in block `at`, `own` is that root, and `root` is the one that it is to get. Nothing is
/// written. `Damaged` names the object's root block or a node, with code 4, if a pointer of it leads past the disk.
pub(crate) fn changed<D: Disk>(
    disk: &mut D,
    at: BlockNo,
    own: &Root,
    root: &Root,
    taken: &mut Blocks,
    dropped: &mut Blocks,
) -> Result<(), Trouble>
    requires { 0 < D.blocks disk.old }
    ensures changed { (space : Kept) (was : Drafting) (v : DraftView D.Disk disk.old space was)
        → was.own ≡ own.now → was.root ≡ root.now
        → OnOk result (spec.IsChanged (D.content disk.old) v.id (opened_as was v.draft) taken.new dropped.new) }
    // On any disk there are no more than a draft has room for, and each is a block of the disk.
    ensures room { OnOk result ((length taken.new ≤ blocks_limit) × (length dropped.new ≤ blocks_limit)) }
    ensures on_disk { OnOk result (spec.AreOnDisk (D.blocks disk.old) taken.new
        × spec.AreOnDisk (D.blocks disk.old) dropped.new) }
    ensures refused { (kept : Kept) → IfErr result (IsDraftTrouble D.Disk (roots_top at.0 own.now root.now) disk.old
        disk.new kept) }
    ensures untried { IfErr result (λ trouble. trouble_had_tried trouble ≡ false) }
    // There is no damage if the disk holds the object.
    ensures sound { (space : Kept) (was : Drafting) (v : DraftView D.Disk disk.old space was)
        → was.own ≡ own.now → was.root ≡ root.now → IfErr result (λ trouble. is_damage trouble ≡ false) }
    ensures reads { OnlyReads D.Disk changed_reads disk.old disk.new }
{
    taken.clear();
    dropped.clear();
    for number in 0..NODES {
        match add_changed(
            disk,
            at,
            own.nodes[number],
            root.nodes[number],
            taken,
            dropped,
        ) {
            Ok(()) => {}
            Err(trouble) => return Err(trouble),
        }
    }
    Ok(())
}
