//! What is proved of disks, as the contract of a function that does nothing.
ghost use Rattle.std.specs.Prelude.{◌≡◌, ℕ, IsTrue, length};
ghost use Rattle.cfs_base.specs.Disk.{Image};

use cfs_base::Disk;

/// The content of an honest disk, and each image that a crash may leave, has as many blocks as the disk.
///
/// This is a law: the call does nothing.
pub(crate) fn images_are_whole<D: Disk>()
    ensures sized { (d : D) → IsTrue (D.honest d) → length (D.content d) ≡ D.blocks d }
    ensures left_sized { (d : D) (t : ℕ) (c : Image) → D.left_since d t c → length c ≡ D.blocks d }
{}
