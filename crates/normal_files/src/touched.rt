//! A file that is to be written, read as far as that needs.
ghost use Rattle.std.specs.Prelude.{◌≡◌, ◌+◌, ◌<◌, ◌≤◌, false, IfErr, IfOk};
ghost use Rattle.block_tree.specs.Pointers.{size_limit};
ghost use Rattle.cfs_base.specs.Calls.{OnlyReads};
ghost use Rattle.cfs_base.specs.Refusals.{trouble_had_tried};
ghost use Rattle.cfs_base.specs.Run.{Tells};
ghost use Rattle.leaf_changes.specs.Tops.{root_top};
ghost use Rattle.normal_files.specs.Laid.{node_of};
ghost use Rattle.normal_files.specs.Parts.{AreParts, IsPart};
ghost use Rattle.block_tree.specs.Reads.{is_damage};
ghost use Rattle.normal_files.specs.Refusal.{IsTrouble};
ghost use Rattle.normal_files.specs.Standing.{IsFileAt, IsRootAt};
ghost use Rattle.ufs_model.specs.declared.object.File as files;

use crate::part::Part;
use crate::range::Leaves;
use block_tree::{Root, node_of};
use cfs_base::{BlockNo, Disk, Trouble};

/// The at most two nodes of a file that bytes touch.
#[derive(Clone, Copy)]
pub(crate) struct Touched {
    pub low: Part,
    pub high: Part,
}

impl Touched {
    /// Reads the nodes below the root of the file.
    ///
    /// `Damaged` as in `Way::get`.
    pub fn read<D: Disk>(
        disk: &mut D,
        at: BlockNo,
        root: &Root,
        offset: u64,
        count: u64,
    ) -> Result<Touched, Trouble>
        requires on_disk { at.0 < D.blocks disk.old }
        requires some { 1 ≤ count }
        requires most { count ≤ 4096 }
        requires inside { offset + count ≤ size_limit }
        ensures parts { IfOk result (λ t. AreParts (D.blocks disk.old) offset count t.low t.high) }
        ensures low_is { Tells D.Disk disk.old → IfOk result (λ t. IsPart (D.content disk.old) root.now t.low) }
        ensures high_is { Tells D.Disk disk.old → IfOk result (λ t. IsPart (D.content disk.old) root.now t.high) }
        ensures low_near { IfOk result (λ t. t.low.leaves.from < t.low.leaves.to
            → node_of root.now t.low.number < D.blocks disk.old) }
        ensures high_near { IfOk result (λ t. t.high.leaves.from < t.high.leaves.to
            → node_of root.now t.high.number < D.blocks disk.old) }
        ensures few { IfOk result (λ t. t.high.leaves.to ≤ t.low.leaves.from + 9) }
        ensures refused { IfErr result (IsTrouble D.Disk (root_top at.0 root.now) disk.old disk.new) }
        ensures untried { IfErr result (λ trouble. trouble_had_tried trouble ≡ false) }
        ensures sound { (f : files.File) → Tells D.Disk disk.old → IsFileAt (D.content disk.old) at.0 f
            → IsRootAt (D.content disk.old) at.0 root.now → IfErr result (λ trouble. is_damage trouble ≡ false) }
        ensures reads { OnlyReads D.Disk 2 disk.old disk.new }
    {
        let touched = Leaves::touched(offset, count);
        let low = match Part::read(disk, at, root, touched, node_of(touched.from)) {
            Ok(low) => low,
            Err(trouble) => return Err(trouble),
        };
        let rest = Leaves {
            from: low.leaves.to,
            to: touched.to,
        };
        match Part::read(disk, at, root, rest, node_of(touched.to - 1)) {
            Ok(high) => Ok(Touched { low, high }),
            Err(trouble) => Err(trouble),
        }
    }
}
