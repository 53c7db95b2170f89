//! Which file of the system a name leads to.
use std::fs::File;
use std::io;
use std::os::unix::fs::{FileTypeExt, MetadataExt};

/// A file or a block device of the system.
///
/// Two names of the same one, as links are, give the same identity.
#[derive(Clone, Copy, Debug, PartialEq, Eq)]
pub enum Identity {
    /// A file: the device that holds it, and its number there.
    File { device: u64, number: u64 },
    /// A block device of this number.
    Device(u64),
}

impl Identity {
    /// Returns the identity of a file.
    ///
    /// It is `None` for what keeps no bytes: a folder, a terminal, a FIFO and the like.
    pub(crate) fn of(file: &File) -> io::Result<Option<Identity>> {
        let found = file.metadata()?;
        if found.is_file() {
            return Ok(Some(Identity::File {
                device: found.dev(),
                number: found.ino(),
            }));
        }
        if found.file_type().is_block_device() {
            return Ok(Some(Identity::Device(found.rdev())));
        }
        Ok(None)
    }
}
