//! Answers to lines.
ghost use Rattle.std.specs.Prelude.{◌≡◌};
ghost use Rattle.name_lines.specs.Printed as spec;

use cfs_base::Puid;
use name_dirs::{DirFault, Texts};
use ufs_model::Reply;

/// The answer to a line.
#[derive(Debug, Drop)]
pub enum Answer {
    /// The name was bound, or unbound.
    Done,
    /// What a name leads to, or a directory that was made.
    Id(Puid),
    /// The names of a directory.
    Names(Texts),
    /// The line has none of the forms.
    Syntax,
    /// The line was refused.
    Refused(DirFault),
}

impl Answer {
    /// Returns whether the answer reports that a call of the disk failed.
    pub fn tells_disk(&self) -> bool
        ensures { result ≡ spec.is_disk_answer self.now }
    {
        matches!(self, Answer::Refused(DirFault::Asked(Reply::Disk { .. })))
    }

    /// Returns whether the answer reports a want of memory.
    pub fn wants_memory(&self) -> bool
        ensures { result ≡ spec.is_memory_answer self.now }
    {
        matches!(self, Answer::Refused(DirFault::Memory))
    }
}
