//! A file changed, in place or beside itself.
ghost use Rattle.std.specs.Prelude.{◌≡◌, ◌≢◌, ◌+◌, ◌*◌, ◌<◌, ◌≤◌, true, is_some, length, IfErr, None};
ghost use Rattle.block_tree.specs.Pointers.{size_limit};
ghost use Rattle.cfs_base.specs.declared.refusal.Refused.TheVariants as refusals;
ghost use Rattle.file_ops.specs.Changes as spec;
ghost use Rattle.leaf_changes.specs.Tops.{root_top};
ghost use Rattle.normal_files.specs.Standing.{IsRootAt};
ghost use Rattle.ufs_model.specs.declared.change.Change.TheVariants.{Overwrite, SetSize};

use crate::special::{resize_beside, write_beside};
use block_tree::Root;
use cfs_base::{BlockNo, Disk, FileKind, Refused};
use cyl_alloc::Space;
use special_files::Room;

/// Writes bytes into a file of this kind with this root, at an offset.
///
/// The range lies within the size. A normal file is written in place, and takes blocks for those leaves and nodes
/// that it doesn't hold yet. A special file is changed as one commit in the room that is handed in, and takes blocks
/// for all that it writes anew.
///
/// `Full` if fewer blocks are Free than it takes, plus the floor. `Damaged` names a root block that is none, or is
/// that of a special file of fewer bytes, with code 3, a block with a pointer past the disk, with code 4, or a map
/// block that is no map, with code 2, or that has no Free block though some were counted, with code 12.
///
/// After `Full`, `Memory` and a `Disk` that wasn't tried all is as it was. After any other error a special file is
/// old or new, and so is each leaf of a normal one.
pub fn write<D: Disk>(
    room: Option<Room>,
    disk: &mut D,
    space: &mut Space,
    at: BlockNo,
    kind: FileKind,
    root: &Root,
    offset: u64,
    bytes: &[u8],
    floor: u32,
) -> Result<(), Refused>
    requires some { at.0 ≢ 0 }
    requires on_disk { at.0 < D.blocks disk.old }
    requires size { D.blocks disk.old ≡ 64 * length space.old.free }
    // No commit is unfinished.
    requires left { space.old.left ≡ None }
    requires least { 1 ≤ length bytes.now }
    requires most { length bytes.now ≤ 4096 }
    requires inside { offset + length bytes.now ≤ size_limit }
    ensures changes { IsRootAt (D.content disk.old) at.0 root.now → spec.ChangesFile D.Disk at.0 kind floor
        (Overwrite offset bytes.now) disk.old disk.new space.old space.new result }
    // Memory is wanted only if no room was handed in.
    ensures memory { is_some room ≡ true → IfErr result (λ e. e ≢ refusals.Memory) }
    // On a disk that holds another root, or tells nothing, it ends the same way.
    ensures ends { spec.EndsChange D.Disk (root_top at.0 root.now) kind floor (Overwrite offset bytes.now) disk.old
        disk.new space.old space.new result }
{
    match kind {
        FileKind::Normal => normal_files::write(disk, space, at, root, offset, bytes, floor),
        FileKind::Special => match room {
            Some(room) => write_beside(room, disk, space, at, offset, bytes, floor),
            None => Err(Refused::Memory),
        },
    }
}

/// Sets the size of a file of this kind, in bytes.
///
/// Refused as by `write`. For a special file `Damaged` may also name block 0, with code 11, if no block is left for a
/// shadow root. A normal file set to less ends in writes that free what it had, and that no barrier follows. All else
/// survives a crash once it is done.
pub fn resize<D: Disk>(
    room: Option<Room>,
    disk: &mut D,
    space: &mut Space,
    at: BlockNo,
    kind: FileKind,
    size: u64,
    floor: u32,
) -> Result<(), Refused>
    requires some { at.0 ≢ 0 }
    requires on_disk { at.0 < D.blocks disk.old }
    requires size { D.blocks disk.old ≡ 64 * length space.old.free }
    // No commit is unfinished.
    requires left { space.old.left ≡ None }
    requires limit { size ≤ size_limit }
    ensures changes { spec.ChangesFile D.Disk at.0 kind floor (SetSize size) disk.old disk.new space.old space.new
        result }
    ensures memory { is_some room ≡ true → IfErr result (λ e. e ≢ refusals.Memory) }
{
    match kind {
        FileKind::Normal => normal_files::resize(disk, space, at, size, floor),
        FileKind::Special => match room {
            Some(room) => resize_beside(room, disk, space, at, size, floor),
            None => Err(Refused::Memory),
        },
    }
}
