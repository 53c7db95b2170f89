//! Where request lines come from.
ghost use Rattle.std.specs.Prelude.{◌≡◌, IsOk, codes};

use crate::faults::failed;
use crate::identity::Identity;
use crate::stream::{Stream, is_standard};
use cfs_base::{Failed, Source};
use std::fs::{self, File};
use std::io::{self, Read};
use std::rt::Files;

/// A file that is read, or standard input.
///
/// It tells of its bytes what its reader tells, which for the system's files is nothing. A call of the system that
/// fails is a fault.
#[derive(Drop)]
pub struct FileSource<R> {
    reader: R,
    faults: u64,
}

impl<S: Read + Drop> FileSource<Stream<File, S>> {
    /// Opens the file of this name. `-` names standard input, which is handed in.
    ///
    /// A folder may be opened, and its first read fails.
    pub fn named<R: Files<File = File>>(
        rt: &R,
        path: &str,
        standard: S,
    ) -> io::Result<FileSource<Stream<File, S>>>
        ensures standard { path.now ≡ codes "-" → IsOk result }
    {
        let reader = if is_standard(path) {
            Stream::Standard(standard)
        } else {
            Stream::File(fs::open(rt, path)?)
        };
        Ok(FileSource { reader, faults: 0 })
    }

    /// Returns which file it is.
    ///
    /// It is `None` for standard input, and for what keeps no bytes.
    pub fn identity(&self) -> io::Result<Option<Identity>> {
        match &self.reader {
            Stream::File(file) => Identity::of(file),
            Stream::Standard(_) => Ok(None),
        }
    }
}

impl<R: Read> Source for FileSource<R> {
    ghost supply = { λ s. record { left = R.remaining s.reader; faults = s.faults } };

    fn read(&mut self, into: &mut [u8]) -> Result<usize, Failed> {
        match self.reader.read(into) {
            Ok(count) => Ok(count),
            Err(_) => Err(failed(&mut self.faults)),
        }
    }
}
