//! A file, read.
ghost use Rattle.std.specs.Prelude.{◌≡◌, ◌+◌, ◌<◌, ◌≤◌, false, length, IfErr, IfOk};
ghost use Rattle.block_tree.specs.Pointers.{size_limit};
ghost use Rattle.block_tree.specs.declared.root.Root as roots;
ghost use Rattle.cfs_base.specs.Calls.{OnlyReads};
ghost use Rattle.cfs_base.specs.Refusals.{had_tried, trouble_had_tried};
ghost use Rattle.cfs_base.specs.Run.{Tells};
ghost use Rattle.file_ops.specs.Files as spec;
ghost use Rattle.leaf_changes.specs.Tops.{root_top, still_top};
ghost use Rattle.normal_files.specs.Refusal.{IsTrouble};
ghost use Rattle.normal_files.specs.Standing.{IsRootAt};
ghost use Rattle.normal_files.specs.Touched.{leaves_touched, nodes_touched};
ghost use Rattle.special_files.specs.View.{ShownView};
ghost use Rattle.ufs_model.specs.declared.object.File.{File};
ghost use Rattle.ufs_model.specs.declared.object.Object.TheVariants as objects;

use block_tree::Root;
use cfs_base::{BlockNo, Bytes, Disk, NoMemory, Refused, Trouble};
use std::alloc::Global;

/// Makes `count` zero bytes.
fn zeros(alloc: Global, count: usize) -> Result<Vec<u8>, NoMemory>
    ensures { IfOk result (λ bytes. length bytes.items ≡ count) }
{
    Ok(vec![in alloc; 0u8; count]?)
}

/// Reads `count` bytes of the file with this root, which is shown at a block, beginning at an offset.
///
/// The range lies within the size. All memory is taken first. `Damaged` names a block with a pointer past the disk,
/// with code 4. Never `Full`.
pub fn read<D: Disk>(
    alloc: Global,
    disk: &mut D,
    at: BlockNo,
    root: &Root,
    offset: u64,
    count: usize,
) -> Result<Bytes, Refused>
    requires on_disk { at.0 < D.blocks disk.old }
    requires inside { offset + count ≤ size_limit }
    ensures read { (v : ShownView D.Disk disk.old at.0) (f : File) → v.object ≡ objects.File f
        → IsRootAt (D.content disk.old) at.0 root.now → spec.ReadsFile f offset count result }
    ensures long { IfOk result (λ bytes. length bytes ≡ count) }
    ensures refused { IfErr result (spec.IsReadRefusal D.Disk (root_top at.0 root.now) disk.old disk.new) }
    ensures untried { IfErr result (λ e. had_tried e ≡ false) }
    // one read for each node, and one for each leaf
    ensures reads { OnlyReads D.Disk (nodes_touched offset count + leaves_touched offset count) disk.old disk.new }
{
    let mut bytes = match zeros(alloc, count) {
        Ok(bytes) => bytes,
        Err(want) => return Err(Refused::from(want)),
    };
    match normal_files::read(disk, at, root, offset, bytes.as_mut_slice()) {
        Ok(()) => Ok(Bytes::new(bytes)),
        Err(trouble) => Err(Refused::from(trouble)),
    }
}

/// Reads the root of the file that is shown at a block. It has the file's size in bytes.
///
/// `Damaged` names the block, with code 3, if it is no root block.
pub fn read_root<D: Disk>(disk: &mut D, at: BlockNo) -> Result<Root, Trouble>
    requires { at.0 < D.blocks disk.old }
    ensures root { Tells D.Disk disk.old → IfOk result (IsRootAt (D.content disk.old) at.0) }
    ensures size { (v : ShownView D.Disk disk.old at.0) (f : File) → v.object ≡ objects.File f
        → spec.MeasuresFile (λ (root : roots.Root). root.size) f result }
    ensures limit { IfOk result (λ root. root.size ≤ size_limit) }
    ensures refused { IfErr result (IsTrouble D.Disk (still_top at.0) disk.old disk.new) }
    ensures untried { IfErr result (λ trouble. trouble_had_tried trouble ≡ false) }
    ensures reads { OnlyReads D.Disk 1 disk.old disk.new }
{
    match block_tree::read_root(disk, at) {
        Ok(root) => Ok(root),
        Err(trouble) => Err(trouble),
    }
}

/// Returns the size in bytes of the file that is shown at a block.
///
/// `Damaged` names the block, with code 3, if it is no root block.
pub fn size<D: Disk>(disk: &mut D, at: BlockNo) -> Result<u64, Trouble>
    requires { at.0 < D.blocks disk.old }
    ensures size { (v : ShownView D.Disk disk.old at.0) (f : File) → v.object ≡ objects.File f
        → spec.MeasuresFile (λ size. size) f result }
    ensures limit { IfOk result (λ size. size ≤ size_limit) }
    ensures refused { IfErr result (IsTrouble D.Disk (still_top at.0) disk.old disk.new) }
    ensures untried { IfErr result (λ trouble. trouble_had_tried trouble ≡ false) }
    ensures reads { OnlyReads D.Disk 1 disk.old disk.new }
{
    match read_root(disk, at) {
        Ok(root) => Ok(root.size),
        Err(trouble) => Err(trouble),
    }
}
