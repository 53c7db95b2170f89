//! Bytes of a file, read.
ghost use Rattle.std.specs.Prelude.{◌≡◌, ◌+◌, ◌<◌, ◌≤◌, false, length, slice_range, IfErr, OnOk};
ghost use Rattle.block_tree.specs.Pointers.{size_limit};
ghost use Rattle.cfs_base.specs.Calls.{OnlyReads};
ghost use Rattle.cfs_base.specs.Refusals.{trouble_had_tried};
ghost use Rattle.cfs_base.specs.Run.{Tells};
ghost use Rattle.leaf_changes.specs.Tops.{root_top};
ghost use Rattle.block_tree.specs.Reads.{is_damage};
ghost use Rattle.normal_files.specs.Refusal.{IsTrouble};
ghost use Rattle.normal_files.specs.Standing.{IsFileAt, IsRootAt};
ghost use Rattle.normal_files.specs.Touched.{leaves_touched, nodes_touched};
ghost use Rattle.ufs_model.specs.declared.object.File as files;

use crate::range::Leaves;
use block_tree::{Root, Way, read_block};
use cfs_base::{BlockNo, Disk, Trouble};
use leaf_changes::read_part;

/// Reads bytes of the file with this root, beginning at an offset.
///
/// The range lies within the size. `Damaged` names a block with a pointer past the disk, with code 4. Nothing is
/// written.
pub fn read<D: Disk>(
    disk: &mut D,
    at: BlockNo,
    root: &Root,
    offset: u64,
    into: &mut [u8],
) -> Result<(), Trouble>
    requires on_disk { at.0 < D.blocks disk.old }
    requires inside { offset + length into.old ≤ size_limit }
    ensures read { (f : files.File) → Tells D.Disk disk.old → IsFileAt (D.content disk.old) at.0 f
        → IsRootAt (D.content disk.old) at.0 root.now → offset + length into.old ≤ length f.bytes
        → OnOk result (into.new ≡ slice_range f.bytes offset (offset + length into.old)) }
    ensures long { length into.new ≡ length into.old }
    ensures refused { IfErr result (IsTrouble D.Disk (root_top at.0 root.now) disk.old disk.new) }
    ensures untried { IfErr result (λ trouble. trouble_had_tried trouble ≡ false) }
    ensures sound { (f : files.File) → Tells D.Disk disk.old → IsFileAt (D.content disk.old) at.0 f
        → IsRootAt (D.content disk.old) at.0 root.now → IfErr result (λ trouble. is_damage trouble ≡ false) }
    // one read for each node, and one for each leaf
    ensures reads { OnlyReads D.Disk (nodes_touched offset (length into.old) + leaves_touched offset (length into.old))
        disk.old disk.new }
{
    let leaves = Leaves::touched(offset, into.len() as u64);
    let mut way = Way::new();
    for leaf in leaves.from..leaves.to {
        let block = way.get(disk, at, root, leaf)?;
        let content = read_block(disk, block, root.fill)?;
        read_part(&content, leaf, offset, into);
    }
    Ok(())
}
