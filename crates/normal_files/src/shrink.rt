//! A smaller size, set.
ghost use Rattle.std.specs.Prelude.{◌≡◌, ◌*◌, ◌<◌, ◌≤◌, false, length, IfErr, OnOk};
ghost use Rattle.block_tree.specs.Pointers.{size_limit};
ghost use Rattle.cfs_base.specs.Calls.{MakesAtMost, OnlyReads};
ghost use Rattle.cfs_base.specs.declared.refusal.Trouble.TheVariants as troubles;
ghost use Rattle.leaf_changes.specs.Tops.{root_top};
ghost use Rattle.normal_files.specs.Frees.{IsShrinkTrouble, TakesNone};
ghost use Rattle.normal_files.specs.Limits.{shrink_calls, shrink_tries};
ghost use Rattle.block_tree.specs.Reads.{is_damage};
ghost use Rattle.normal_files.specs.Standing.{Becomes};
ghost use Rattle.normal_files.specs.View.{FileView};
ghost use Rattle.ufs_model.specs.Object.{resized};

use crate::cut::{read_end, trim};
use crate::free::free_past;
use crate::link::write_through;
use block_tree::Root;
use cfs_base::{BlockNo, Disk, Trouble};
use cyl_alloc::Space;

/// Sets the size of a file to less.
///
/// First the leaf in which the file ends and the last node that it keeps are made to survive a crash, then its root.
/// Then what the file no longer has becomes Free, and no barrier follows.
///
/// `Damaged` as in `read_node`, or it names a map block, with code 2, if it is no map.
pub(crate) fn shrink<D: Disk>(
    disk: &mut D,
    space: &mut Space,
    at: BlockNo,
    root: &Root,
    size: u64,
) -> Result<(), Trouble>
    requires size { D.blocks disk.old ≡ 64 * length space.old.free }
    requires on_disk { at.0 < D.blocks disk.old }
    requires allowed { size ≤ size_limit }
    ensures shrunk { (v : FileView D.Disk at.0 root.now disk.old space.old) → size < length v.file.bytes
        → Becomes v (resized v.file size) disk.new space.new result
        × OnOk result (TakesNone (D.content disk.old) (D.content disk.new))
        × IfErr result (λ t. is_damage t ≡ false) }
    ensures refused { IfErr result (IsShrinkTrouble D.Disk (root_top at.0 root.now) disk.old disk.new) }
    ensures untried { IfErr result (λ t. t ≡ troubles.Disk false → (space.new ≡ space.old)
        × OnlyReads D.Disk 2 disk.old disk.new) }
    ensures cylinders { length space.new.free ≡ length space.old.free }
    ensures left { space.new.left ≡ space.old.left }
    ensures calls { MakesAtMost D.Disk shrink_calls shrink_tries disk.old disk.new }
{
    let end = read_end(disk, at, root, size)?;
    let content = end.root.encode();
    trim(disk, &end)?;
    write_through(disk, at.0, &content)?;
    free_past(disk, space, at, root, &end, size).map_err(Trouble::after_try)
}
