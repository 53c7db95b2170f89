//! The nodes on the path of a draft's leaf, read.
ghost use Rattle.std.specs.Prelude.{◌≡◌, ◌<◌, IfOk};
ghost use Rattle.block_tree.specs.Along.{pointer_on};
ghost use Rattle.block_tree.specs.Pointers.{leaf_limit, node_levels};
ghost use Rattle.block_tree.specs.Root.{root_spelling};
ghost use Rattle.block_tree.specs.Tree.{leaf_block};
ghost use Rattle.cfs_base.specs.Run.{Tells};
ghost use Rattle.special_files.specs.Nodes as spec;

use crate::draft::ObjectDraft;
use block_tree::Way;
use cfs_base::{Disk, Trouble};

impl ObjectDraft {
    /// Turns a way to a leaf of the draft, and returns the leaf's block, or 0 if it is absent.
    ///
    /// A node that the way has is not read again.
    pub(crate) fn turn_to<D: Disk>(
        &self,
        disk: &mut D,
        way: &mut Way,
        leaf: u32,
    ) -> Result<u32, Trouble>
        requires below { leaf < leaf_limit }
        requires some { 0 < D.blocks disk.old }
        requires safe { spec.IsSafe (D.blocks disk.old) self.now way.old }
        ensures turns { spec.TurnsTo D.Disk self.now leaf 1 disk.old disk.new way.old way.new result }
        ensures block { Tells D.Disk disk.old → spec.IsRead (D.content disk.old) self.now way.old
            → IfOk result (λ n. n ≡ leaf_block (D.content disk.old) (root_spelling self.now.root) leaf) }
        ensures there { IfOk result (λ n. n < D.blocks disk.old) }
    {
        way.get(disk, self.at, &self.root, leaf)
    }
}
