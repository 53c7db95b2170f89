//! What a path of the command line names.
ghost use Rattle.std.specs.Prelude.{◌≡◌, ◌↔◌, IsTrue, codes};

use std::io;
use std::io::{Read, Write};

/// A file, or a standard stream in its place.
#[derive(Drop)]
pub enum Stream<F, S> {
    File(F),
    Standard(S),
}

/// Returns whether the path names a standard stream.
pub(crate) fn is_standard(path: &str) -> bool
    ensures { IsTrue result ↔ (path.now ≡ codes "-") }
{
    path == "-"
}

impl<F: Read, S: Read> Read for Stream<F, S> {
    ghost use Rattle.cfs_host.specs.Stream.{of_stream};

    ghost remaining = { λ s. of_stream F.remaining S.remaining s };

    fn read(&mut self, into: &mut [u8]) -> io::Result<usize> {
        match self {
            Stream::File(file) => file.read(into),
            Stream::Standard(standard) => standard.read(into),
        }
    }
}

impl<F: Write, S: Write> Write for Stream<F, S> {
    ghost use Rattle.cfs_host.specs.Stream.{of_stream};

    ghost contents = { λ s. of_stream F.contents S.contents s };

    fn write(&mut self, from: &[u8]) -> io::Result<usize> {
        match self {
            Stream::File(file) => file.write(from),
            Stream::Standard(standard) => standard.write(from),
        }
    }

    fn flush(&mut self) -> io::Result<()> {
        match self {
            Stream::File(file) => file.flush(),
            Stream::Standard(standard) => standard.flush(),
        }
    }
}
