//! Where replies go.
ghost use Rattle.std.specs.Prelude.{◌≡◌, IsOk, codes};

use crate::faults::failed;
use crate::identity::Identity;
use crate::reply_file::ReplyFile;
use crate::stream::{Stream, is_standard};
use cfs_base::{Failed, Sink};
use std::fs::File;
use std::io::{self, Write};
use std::rt::Files;

/// A file that is written, or standard output.
///
/// It tells of its bytes what its writer tells, which for the system's files is nothing. It keeps no bytes back: each
/// call is one of the system. A call that fails, or that takes nothing of some bytes, is a fault.
#[derive(Drop)]
pub struct FileSink<W> {
    writer: W,
    faults: u64,
}

impl<S: Write + Drop> FileSink<Stream<ReplyFile, S>> {
    /// Opens the file of this name, or makes it. `-` names standard output, which is handed in.
    ///
    /// A file that exists keeps what it holds until the first byte is written.
    pub fn named<R: Files<File = File>>(
        rt: &R,
        path: &str,
        standard: S,
    ) -> io::Result<FileSink<Stream<ReplyFile, S>>>
        ensures standard { path.now ≡ codes "-" → IsOk result }
    {
        let writer = if is_standard(path) {
            Stream::Standard(standard)
        } else {
            Stream::File(ReplyFile::open(rt, path)?)
        };
        Ok(FileSink { writer, faults: 0 })
    }

    /// Returns which file it is.
    ///
    /// It is `None` for standard output, and for what keeps no bytes.
    pub fn identity(&self) -> io::Result<Option<Identity>> {
        match &self.writer {
            Stream::File(file) => file.identity(),
            Stream::Standard(_) => Ok(None),
        }
    }

    /// Empties the file, unless something was written to it.
    pub fn empty(&mut self) -> io::Result<()> {
        match &mut self.writer {
            Stream::File(file) => file.empty(),
            Stream::Standard(_) => Ok(()),
        }
    }
}

impl<W: Write> Sink for FileSink<W> {
    ghost intake = { λ s. record { taken = W.contents s.writer; faults = s.faults } };

    fn write(&mut self, from: &[u8]) -> Result<usize, Failed> {
        match self.writer.write(from) {
            Ok(count) if count > 0 || from.is_empty() => Ok(count),
            _ => Err(failed(&mut self.faults)),
        }
    }
}
