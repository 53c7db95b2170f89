//! The leaves of one node that are to be written.
ghost use Rattle.std.specs.Prelude.{◌≡◌, ℕ, ◌+◌, ◌*◌, ◌%◌, ◌<◌, ◌≤◌, false, max, min, slice_index, IfErr, IfOk};
ghost use Rattle.block_tree.specs.Along.{IsNearTree};
ghost use Rattle.block_tree.specs.Pointers.{leaf_pointers, node_pointers};
ghost use Rattle.cfs_base.specs.Calls.{OnlyReads};
ghost use Rattle.cfs_base.specs.Refusals.{trouble_had_tried};
ghost use Rattle.cfs_base.specs.Run.{Tells};
ghost use Rattle.leaf_changes.specs.Tops.{root_top};
ghost use Rattle.normal_files.specs.Laid.{node_of};
ghost use Rattle.block_tree.specs.Reads.{is_damage};
ghost use Rattle.block_tree.specs.Root.{root_spelling};
ghost use Rattle.normal_files.specs.Parts as spec;
ghost use Rattle.normal_files.specs.Refusal.{IsTrouble};
ghost use Rattle.block_tree.specs.Along.{way_leaves};

use crate::lowest::way_node;
use crate::range::Leaves;
use block_tree::{LEAVES, Root, Way};
use cfs_base::{BlockNo, Disk, Trouble};

/// The leaves that bytes touch in one node.
#[derive(Clone, Copy)]
pub(crate) struct Part {
    pub number: u32,
    pub leaves: Leaves,
    /// The way to the first of these leaves, if there is one, as it is.
    pub way: Way,
}

impl Part {
    /// Returns the block of one of the leaves as it is, or 0 if it is absent.
    pub fn block(&self, leaf: u32) -> u32
        ensures block { result ≡ slice_index (way_leaves self.now.way) (leaf % leaf_pointers.count) }
        ensures near { (size : ℕ) → spec.IsReadPart size self.now → self.now.leaves.from < self.now.leaves.to
            → result < size }
    {
        way_node(&self.way).leaves[leaf as usize % LEAVES]
    }

    /// Reads the way to the first touched leaf of the node with this number, unless none is touched.
    ///
    /// `Damaged` as in `Way::get`.
    pub fn read<D: Disk>(
        disk: &mut D,
        at: BlockNo,
        root: &Root,
        touched: Leaves,
        number: u32,
    ) -> Result<Part, Trouble>
        requires some { 0 < D.blocks disk.old }
        requires number { number < node_pointers.count }
        requires order { touched.from ≤ touched.to }
        requires from { touched.from ≤ leaf_pointers.count * number + leaf_pointers.count }
        requires to { leaf_pointers.count * number ≤ touched.to }
        ensures read { IfOk result (spec.IsReadPart (D.blocks disk.old)) }
        ensures part { Tells D.Disk disk.old → IfOk result (spec.IsPart (D.content disk.old) root.now) }
        ensures leaves { IfOk result (λ part. (part.leaves.from ≡ max touched.from (leaf_pointers.count * number))
            × (part.leaves.to ≡ min touched.to (leaf_pointers.count * number + leaf_pointers.count))) }
        ensures there { IfOk result (λ part. part.leaves.from < part.leaves.to
            → node_of root.now number < D.blocks disk.old) }
        ensures refused { IfErr result (IsTrouble D.Disk (root_top at.0 root.now) disk.old disk.new) }
        ensures untried { IfErr result (λ trouble. trouble_had_tried trouble ≡ false) }
        ensures sound { Tells D.Disk disk.old
            → IsNearTree (D.blocks disk.old) (D.content disk.old) (root_spelling root.now)
            → IfErr result (λ trouble. is_damage trouble ≡ false) }
        ensures reads { OnlyReads D.Disk 1 disk.old disk.new }
    {
        let leaves = touched.of_node(number);
        let mut way = Way::new();
        if leaves.from < leaves.to {
            way.get(disk, at, root, leaves.from)?;
        }
        Ok(Part {
            number,
            leaves,
            way,
        })
    }
}
