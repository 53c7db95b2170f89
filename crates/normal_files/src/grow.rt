//! A size set to no less than it is.
ghost use Rattle.std.specs.Prelude.{◌≡◌, ◌<◌, ◌≤◌, true, length, OnOk};
ghost use Rattle.block_tree.specs.Pointers.{size_limit};
ghost use Rattle.cfs_base.specs.Run.{IsSettled};
ghost use Rattle.cyl_alloc.specs.Space.{Kept};
ghost use Rattle.normal_files.specs.Frees.{TakesNone};
ghost use Rattle.normal_files.specs.Standing.{Becomes};
ghost use Rattle.normal_files.specs.Steps.{ComesOrStops};
ghost use Rattle.normal_files.specs.View.{FileView};
ghost use Rattle.ufs_model.specs.Object.{resized};

use crate::flush::flush;
use crate::in_place::write_block;
use block_tree::Root;
use cfs_base::{BlockNo, Disk, Trouble};

/// Sets the size of a file to no less than it is, and makes it survive a crash.
pub(crate) fn grow<D: Disk>(
    disk: &mut D,
    at: BlockNo,
    root: &Root,
    size: u64,
) -> Result<(), Trouble>
    requires at { at.0 < D.blocks disk.old }
    requires allowed { size ≤ size_limit }
    ensures grown { (kept : Kept) (v : FileView D.Disk at.0 root.now disk.old kept) → length v.file.bytes ≤ size
        → Becomes v (resized v.file size) disk.new kept result
        × OnOk result (IsSettled D.Disk disk.new × TakesNone (D.content disk.old) (D.content disk.new)) }
    ensures ends { ComesOrStops D.Disk 2 2 disk.old disk.new result (λ done. true) }
{
    let mut next = *root;
    next.size = size;
    write_block(disk, at.0, &next.encode())?;
    flush(disk)?;
    Ok(())
}
