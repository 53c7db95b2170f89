//! The draft's own blocks that become Free when leaves are dropped.
ghost use Rattle.std.specs.Prelude.{◌≡◌, ◌+◌, ◌-◌, ◌*◌, ◌/◌, ◌<◌, ◌≤◌, ◌==◌, ◌++◌, if◌then◌else◌, ℕ, IsTrue, false, []};
ghost use Rattle.std.specs.Prelude.{get_or, length, slice_index, Ok, IfErr, IfOk, OnOk};
ghost use Rattle.std.specs.List.{All};
ghost use Rattle.block_tree.specs.Pointers.{leaf_limit, leaf_pointers, node_pointers};
ghost use Rattle.cfs_base.specs.Calls.{OnlyReads};
ghost use Rattle.cfs_base.specs.Refusals.{trouble_after_try, trouble_had_tried};
ghost use Rattle.cfs_base.specs.Run.{Tells};
ghost use Rattle.cfs_base.specs.declared.refusal.Trouble.TheVariants as trouble;
ghost use Rattle.cyl_alloc.specs.Space.{Kept};
ghost use Rattle.intentions.specs.declared.change.EntryChange.TheVariants.{Undo};
ghost use Rattle.special_files.specs.Committing.{Flips};
ghost use Rattle.special_files.specs.Drafting.{Drafting, opened_as};
ghost use Rattle.block_tree.specs.Along.{IsNearTree, IsWay};
ghost use Rattle.block_tree.specs.Reads.{is_damage, leaves_at};
ghost use Rattle.block_tree.specs.Root.{root_spelling};
ghost use Rattle.leaf_changes.specs.Tops.{root_top, still_top};
ghost use Rattle.special_files.specs.Limits.{blocks_limit, node_blocks};
ghost use Rattle.special_files.specs.Nodes.{IsSafeIn};
ghost use Rattle.special_files.specs.Refusal.{IsDraftTrouble};
ghost use Rattle.special_files.specs.Shed as spec;
ghost use Rattle.special_files.specs.View.{DraftView};

use crate::blocks::Blocks;
use crate::flags::Flags;
use block_tree::{LEAVES, NODES, Node, Root, Way};
use cfs_base::{BlockNo, Disk, Trouble};
use cyl_alloc::KnownMaps;
use intentions::{EntryChange, change_entry};

/// Returns a node of a draft with this root. It is read unless the way has it.
fn node_again<D: Disk>(
    disk: &mut D,
    at: BlockNo,
    root: &Root,
    way: &Way,
    number: u32,
) -> Result<Node, Trouble>
    requires below { number < node_pointers.count }
    requires some { 0 < D.blocks disk.old }
    requires safe { IsSafeIn (D.blocks disk.old) root.now way.now }
    ensures node { Tells D.Disk disk.old → IsWay (D.content disk.old) root.now way.now
        → IfOk result (λ node. node.leaves ≡ leaves_at (D.content disk.old) (slice_index root.now.nodes number)) }
    ensures there { OnOk result (slice_index root.now.nodes number < D.blocks disk.old) }
    ensures leaves { IfOk result (λ node. All (λ leaf. leaf < D.blocks disk.old) node.leaves) }
    ensures refused { (kept : Kept)
        → IfErr result (IsDraftTrouble D.Disk (root_top at.0 root.now) disk.old disk.new kept) }
    ensures untried { IfErr result (λ trouble. trouble_had_tried trouble ≡ false) }
    ensures sound { Tells D.Disk disk.old → IsWay (D.content disk.old) root.now way.now
        → IsNearTree (D.blocks disk.old) (D.content disk.old) (root_spelling root.now)
        → IfErr result (λ trouble. is_damage trouble ≡ false) }
    ensures reads { OnlyReads D.Disk 1 disk.old disk.new }
{
    let mut way = *way;
    match way.get(disk, at, root, LEAVES as u32 * number) {
        Ok(_) => Ok(*way.node(0)),
        Err(trouble) => Err(trouble),
    }
}

/// Lists a block if `add` is set.
fn add_if(list: &mut Blocks, add: bool, block: u32)
    requires { length list.old < blocks_limit }
    ensures { list.new ≡ list.old ++ spec.list_if add block }
{
    if add {
        list.add(block);
    }
}

/// Lists a fresh node, if its leaf 0 is dropped, and its fresh leaves from a place on.
fn list_node(list: &mut Blocks, leaves: &Flags, block: u32, node: &Node, number: u32, from: u32)
    requires room { length list.old + node_blocks ≤ blocks_limit }
    requires flags { length leaves.now ≡ leaf_limit }
    requires below { number < node_pointers.count }
    requires place { from ≤ leaf_pointers.count }
    ensures { list.new ≡ list.old ++ (spec.list_if (from == 0) block
        ++ spec.fresh_in leaves.now node.now.leaves number from (leaf_pointers.count - from)) }
{
    add_if(list, from == 0, block);
    for place in from..LEAVES as u32 {
        add_if(
            list,
            leaves.has(LEAVES as u32 * number + place),
            node.leaves[place as usize],
        );
    }
}

/// A draft without the lists that it keeps.
#[derive(Drop)]
pub(crate) struct DraftParts<'a> {
    pub at: BlockNo,
    pub root: &'a Root,
    pub leaves: &'a Flags,
    pub nodes: &'a Flags,
}

/// Lists the fresh leaves from `from` on, and the fresh nodes that have no leaf before it.
pub(crate) fn list_from<D: Disk>(
    disk: &mut D,
    parts: &DraftParts<'_>,
    way: &Way,
    from: u32,
    list: &mut Blocks,
) -> Result<(), Trouble>
    requires some { 0 < D.blocks disk.old }
    requires leaf_flags { length parts.now.leaves.now ≡ leaf_limit }
    requires node_flags { length parts.now.nodes.now ≡ node_pointers.count }
    requires limit { from ≤ leaf_limit }
    requires safe { IsSafeIn (D.blocks disk.old) parts.now.root.now way.now }
    ensures listed { (space : Kept) (was : Drafting) (v : DraftView D.Disk disk.old space was)
        → spec.HasParts was parts.now.root.now parts.now.leaves.now parts.now.nodes.now
        → IsWay (D.content disk.old) parts.now.root.now way.now
        → OnOk result (spec.AreShed (D.content disk.old) v.id (opened_as was v.draft) from list.new) }
    // On any disk there are no more than a draft has room for, and each is a block of the disk.
    ensures room { OnOk result (length list.new ≤ blocks_limit) }
    ensures on_disk { OnOk result (All (λ n. n < D.blocks disk.old) list.new) }
    ensures refused { (kept : Kept)
        → IfErr result (IsDraftTrouble D.Disk (root_top parts.now.at.0 parts.now.root.now) disk.old disk.new kept) }
    ensures untried { IfErr result (λ trouble. trouble_had_tried trouble ≡ false) }
    ensures sound { (space : Kept) (was : Drafting) (v : DraftView D.Disk disk.old space was)
        → spec.HasParts was parts.now.root.now parts.now.leaves.now parts.now.nodes.now
        → IsWay (D.content disk.old) parts.now.root.now way.now
        → IfErr result (λ trouble. is_damage trouble ≡ false) }
    // If no node is fresh there are none, and nothing is read.
    ensures none { ((n : ℕ) → get_or parts.now.nodes.now n false ≡ false)
        → (result ≡ Ok tt) × (list.new ≡ []) × (disk.new ≡ disk.old) }
    ensures reads { OnlyReads D.Disk node_pointers.count disk.old disk.new }
{
    list.clear();
    for number in from / LEAVES as u32..NODES as u32 {
        if parts.nodes.has(number) {
            let node = match node_again(disk, parts.at, parts.root, way, number) {
                Ok(node) => node,
                Err(trouble) => return Err(trouble),
            };
            let place = from.saturating_sub(LEAVES as u32 * number);
            list_node(
                list,
                parts.leaves,
                parts.root.nodes[number as usize],
                &node,
                number,
                place,
            );
        }
    }
    Ok(())
}

/// Returns the trouble of a call that may have tried a write before.
fn since(tried: bool, trouble: Trouble) -> Trouble
    ensures { result ≡ if tried then trouble_after_try trouble else trouble }
{
    if tried { trouble.after_try() } else { trouble }
}

/// Takes back what was claimed for these blocks, one after another.
///
/// A failure before the first write says so.
pub(crate) fn undo_listed<D: Disk>(
    disk: &mut D,
    known: &mut KnownMaps,
    blocks: &[u32],
) -> Result<(), Trouble>
    requires { All (λ n. n < D.blocks disk.old) blocks.now }
    ensures flips { Flips D.Disk (2 * length blocks.now) (length blocks.now) Undo blocks.now
        disk.old disk.new (spec.as_tried result) }
    ensures told { OnOk result ((n : ℕ) → IsTrue (D.told disk.old n) → IsTrue (D.told disk.new n)) }
    ensures refused { (at : ℕ) (kept : Kept)
        → IfErr result (IsDraftTrouble D.Disk (still_top at) disk.old disk.new kept) }
    ensures untried { IfErr result (λ t. t ≡ trouble.Disk false → OnlyReads D.Disk 1 disk.old disk.new) }
    ensures none { blocks.now ≡ [] → disk.new ≡ disk.old }
{
    let mut tried = false;
    for block in blocks {
        match change_entry(disk, known, BlockNo(*block), EntryChange::Undo) {
            Ok(_) => tried = true,
            Err(trouble) => return Err(since(tried, trouble)),
        }
    }
    Ok(())
}
