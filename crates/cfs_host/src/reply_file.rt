//! Files of replies.
use crate::identity::Identity;
use std::fs::{self, File};
use std::io::{self, Write};
use std::rt::Files;

/// A file to which replies are written.
///
/// It keeps what it held until its first byte is written, or until it is emptied.
#[derive(Drop)]
pub struct ReplyFile {
    file: File,
    emptied: bool,
}

impl ReplyFile {
    /// Opens the file of this name, or makes an empty one.
    pub(crate) fn open<R: Files<File = File>>(rt: &R, path: &str) -> io::Result<ReplyFile> {
        let file = fs::OpenOptions::new()
            .write(true)
            .create(true)
            .open(rt, path)?;
        Ok(ReplyFile {
            file,
            emptied: false,
        })
    }

    pub(crate) fn identity(&self) -> io::Result<Option<Identity>> {
        Identity::of(&self.file)
    }

    /// Empties the file, once.
    ///
    /// A device or a FIFO is left as it is.
    pub(crate) fn empty(&mut self) -> io::Result<()> {
        if !self.emptied && self.file.metadata()?.is_file() {
            self.file.set_len(0)?;
        }
        self.emptied = true;
        Ok(())
    }
}

impl Write for ReplyFile {
    fn write(&mut self, from: &[u8]) -> io::Result<usize> {
        if !from.is_empty() {
            self.empty()?;
        }
        self.file.write(from)
    }

    fn flush(&mut self) -> io::Result<()> {
        self.file.flush()
    }
}
