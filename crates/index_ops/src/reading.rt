//! An index, read.
ghost use Rattle.std.specs.Prelude.{◌≡◌, ◌/◌, ◌<◌, IfErr, IfOk};
ghost use Rattle.block_tree.specs.Pointers.{leaf_limit};
ghost use Rattle.block_tree.specs.Root.{IsRootBlock, root_spelling};
ghost use Rattle.block_tree.specs.Tree.{leaf_bytes};
ghost use Rattle.cfs_base.specs.Calls.{OnlyReads};
ghost use Rattle.cfs_base.specs.Disk.{block_at};
ghost use Rattle.cfs_base.specs.Run.{Tells};
ghost use Rattle.cyl_alloc.specs.Space.{Kept};
ghost use Rattle.index_ops.specs.Causes as causes;
ghost use Rattle.index_ops.specs.Reads as spec;
ghost use Rattle.intentions.specs.Left.{StoreIs};
ghost use Rattle.special_files.specs.View.{ShownView};
ghost use Rattle.ufs_model.specs.Graph.{Graph};
ghost use Rattle.ufs_model.specs.Limits.{most_slots};
ghost use Rattle.ufs_model.specs.declared.object.Index.{Index};
ghost use Rattle.ufs_model.specs.declared.object.Object.TheVariants as objects;
ghost use Rattle.vol_owners.specs.Account.{Drafts};

use block_tree::{Root, read_leaf};
use cfs_base::{Block, BlockNo, Disk, Puid, Trouble};
use leaf_changes::slot_at;

/// Reads a leaf of the index with this root.
fn leaf_content<D: Disk>(
    disk: &mut D,
    index: BlockNo,
    root: &Root,
    leaf: u32,
) -> Result<Block, Trouble>
    requires { leaf < leaf_limit }
    ensures bytes { Tells D.Disk disk.old → IfOk result (λ content.
        content ≡ leaf_bytes (D.content disk.old) (root_spelling root.now) leaf) }
    ensures refused { IfErr result (causes.IsLeafTrouble D.Disk index.0 root.now leaf disk.old disk.new) }
    ensures reads { OnlyReads D.Disk 2 disk.old disk.new }
{
    let mut content = Block::zero();
    read_leaf(disk, root, leaf, &mut content).map_err(|fault| fault.in_tree(index))?;
    Ok(content)
}

/// Returns what a slot of the index with this root holds, or `None` if it is empty.
///
/// The index is shown at block `index`, and the slot is one of its slots. `Damaged` names that block, or a node, with
/// code 4, if the pointer to the slot's leaf leads past the disk.
pub fn retrieve<D: Disk>(
    disk: &mut D,
    index: BlockNo,
    root: &Root,
    slot: u64,
) -> Result<Option<Puid>, Trouble>
    requires few { slot < most_slots }
    ensures finds { (v : ShownView D.Disk disk.old index.0) (i : Index) → v.object ≡ objects.Index i
        → IsRootBlock (block_at (D.content disk.old) index.0) root.now → spec.FindsIn i slot result }
    ensures refused { IfErr result (causes.IsLeafTrouble D.Disk index.0 root.now (slot / 64) disk.old disk.new) }
    ensures store { (graph : Graph) (ds : Drafts) (space : Kept) → StoreIs D.Disk graph ds disk.old space
        → StoreIs D.Disk graph ds disk.new space }
    ensures reads { OnlyReads D.Disk 2 disk.old disk.new }
{
    let content = leaf_content(disk, index, root, (slot / 64) as u32)?;
    Ok(slot_at(&content, (slot % 64) as usize))
}
