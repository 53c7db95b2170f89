//! The size of a file, set.
ghost use Rattle.std.specs.Prelude.{◌≡◌, ◌*◌, ◌<◌, ◌≤◌, true, length, sum, IfErr, OnOk};
ghost use Rattle.block_tree.specs.Pointers.{size_limit};
ghost use Rattle.cfs_base.specs.Calls.{MakesAtMost, OnlyReads};
ghost use Rattle.cfs_base.specs.declared.refusal.Refused.TheVariants as refusals;
ghost use Rattle.leaf_changes.specs.Tops.{disk_top};
ghost use Rattle.normal_files.specs.Calls.{Handed, ResizesFile};
ghost use Rattle.normal_files.specs.Frees.{IsResizeRefusal};
ghost use Rattle.normal_files.specs.Limits.{in_place_resize_calls, in_place_resize_tries};
ghost use Rattle.normal_files.specs.WriteRefusal.{TellsNeed, is_untried};

use crate::grow::grow;
use crate::shrink::shrink;
use block_tree::read_root;
use cfs_base::{BlockNo, Disk, Refused};
use cyl_alloc::Space;

/// Sets the size of a file, in bytes. It takes no block.
///
/// If the size is set to no less than it is, it survives a crash once this is done. If it is set to less, the root
/// does, and the blocks that the file no longer has become Free.
///
/// `Full` if fewer blocks are Free than the floor. `Damaged` names a root block that is none, with code 3, a block
/// with a pointer past the disk, with code 4, or a map block that is no map, with code 2. After a `Disk` that was
/// tried the size and each leaf, read as fill bytes past the end, are old or new. After any other error all is as it
/// was.
pub fn resize<D: Disk>(
    disk: &mut D,
    space: &mut Space,
    at: BlockNo,
    size: u64,
    floor: u32,
) -> Result<(), Refused>
    requires size { D.blocks disk.old ≡ 64 * length space.old.free }
    requires on_disk { at.0 < D.blocks disk.old }
    requires allowed { size ≤ size_limit }
    ensures resizes { (h : Handed D.Disk at.0 disk.old space.old)
        → ResizesFile h size disk.new space.new result }
    // It is full exactly if fewer blocks are Free than the floor: a resize needs none.
    ensures room { OnOk result (floor ≤ sum space.old.free) }
    ensures full { IfErr result (TellsNeed 0) }
    // If a write was tried so many were Free.
    ensures begun { IfErr result (λ e. e ≡ refusals.Disk true → floor ≤ sum space.old.free) }
    ensures refused { IfErr result (IsResizeRefusal D.Disk (disk_top D.Disk at.0 disk.old) floor disk.old disk.new
        space.old) }
    // If nothing was tried, all is as it was.
    ensures untried { IfErr result (λ e. is_untried e ≡ true → (space.new ≡ space.old)
        × OnlyReads D.Disk 3 disk.old disk.new) }
    ensures cylinders { length space.new.free ≡ length space.old.free }
    ensures left { space.new.left ≡ space.old.left }
    ensures calls { MakesAtMost D.Disk in_place_resize_calls in_place_resize_tries disk.old disk.new }
{
    space.has_room(0, floor)?;
    let root = read_root(disk, at)?;
    if root.size <= size {
        grow(disk, at, &root, size)?;
        return Ok(());
    }
    shrink(disk, space, at, &root, size)?;
    Ok(())
}
