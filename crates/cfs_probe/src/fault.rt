//! Why a command is not done.
use cfs_base::{Failed, NoMemory};
use cfs_recover::RecoverFault;
use std::alloc::{AllocError, AllocFailed};
use std::fmt;

/// Why a command is not done.
///
/// All is as it was, unless the volume was to be made or opened.
#[derive(Clone, Copy)]
pub enum Fault {
    Memory,
    /// The line has none of the forms of commands.
    Words,
    /// No core serves a volume.
    Closed,
    /// There is no disk without a core that serves it.
    NoDisk,
    /// There is no such block, session or moment.
    Place,
    /// All words are drawn, or too many collections were called for.
    Spent,
    /// The volume was opened again, and the slow server knows nothing of it.
    Alone,
    /// A crash at one moment leaves more images than are opened.
    Many,
    /// A call of the disk failed while a volume was made.
    Disk,
    Volume(RecoverFault),
}

impl Fault {
    fn word(self) -> &'static str {
        match self {
            Fault::Memory => "? memory",
            Fault::Words => "? words",
            Fault::Closed => "? no core",
            Fault::NoDisk => "? no disk",
            Fault::Place => "? no such place",
            Fault::Spent => "? spent",
            Fault::Alone => "? no slow server",
            Fault::Many => "? too many images",
            Fault::Disk => "? disk",
            Fault::Volume(why) => volume_word(why),
        }
    }
}

fn volume_word(why: RecoverFault) -> &'static str {
    match why {
        RecoverFault::Disk => "volume disk",
        RecoverFault::NotVolume => "volume not-volume",
        RecoverFault::Version { .. } => "volume version",
        RecoverFault::Damaged(_) => "volume damaged",
        RecoverFault::Memory => "volume memory",
    }
}

impl fmt::Display for Fault {
    fn fmt<W: fmt::Write>(&self, f: &mut fmt::Formatter<W>) -> fmt::Result {
        let word = self.word();
        match self {
            Fault::Volume(RecoverFault::Version { found }) => write!(f, "{word} {found}"),
            Fault::Volume(RecoverFault::Damaged(damage)) => {
                write!(f, "{word} {} {}", damage.block, damage.code)
            }
            _ => f.write_str(word),
        }
    }
}

impl From<NoMemory> for Fault {
    fn from(_error: NoMemory) -> Fault {
        Fault::Memory
    }
}

impl From<AllocError> for Fault {
    fn from(_error: AllocError) -> Fault {
        Fault::Memory
    }
}

impl<T: Drop> From<AllocFailed<T>> for Fault {
    fn from(_error: AllocFailed<T>) -> Fault {
        Fault::Memory
    }
}

impl From<Failed> for Fault {
    fn from(_error: Failed) -> Fault {
        Fault::Disk
    }
}
