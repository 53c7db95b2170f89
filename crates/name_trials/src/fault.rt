//! Why a call is refused, or isn't made.
use cfs_base::NoMemory;
use name_dirs::DirFault;
use std::alloc::{AllocError, AllocFailed};
use std::fmt;

/// Why a call is refused, or isn't made.
#[derive(Drop)]
pub enum Fault {
    /// The line has none of the forms.
    Syntax,
    /// There is no server yet.
    Closed,
    /// All words are drawn.
    Spent,
    /// A reply has no line.
    Long,
    /// There was no memory, outside of the call.
    Memory,
    /// The call was refused.
    Refused(DirFault),
}

impl fmt::Display for Fault {
    fn fmt<W: fmt::Write>(&self, f: &mut fmt::Formatter<W>) -> fmt::Result {
        match self {
            Fault::Syntax => f.write_str("no syntax"),
            Fault::Closed => f.write_str("? no server"),
            Fault::Spent => f.write_str("? spent"),
            Fault::Long => f.write_str("? long"),
            Fault::Memory => f.write_str("? memory"),
            Fault::Refused(DirFault::NotDirectory) => f.write_str("no directory"),
            Fault::Refused(DirFault::NoName) => f.write_str("no name"),
            Fault::Refused(DirFault::Exists) => f.write_str("no exists"),
            Fault::Refused(DirFault::DirFull { capacity }) => write!(f, "no dir-full {capacity}"),
            Fault::Refused(DirFault::Memory) => f.write_str("no memory"),
            Fault::Refused(DirFault::Asked(_)) => f.write_str("? asked"),
        }
    }
}

impl From<DirFault> for Fault {
    fn from(fault: DirFault) -> Fault {
        Fault::Refused(fault)
    }
}

impl From<NoMemory> for Fault {
    fn from(_error: NoMemory) -> Fault {
        Fault::Memory
    }
}

impl From<AllocError> for Fault {
    fn from(_error: AllocError) -> Fault {
        Fault::Memory
    }
}

impl<T: Drop> From<AllocFailed<T>> for Fault {
    fn from(_error: AllocFailed<T>) -> Fault {
        Fault::Memory
    }
}
