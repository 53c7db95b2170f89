//! Why a command is not done.
use cfs_base::{Damage, Failed, NoMemory};
use cfs_check::{LoadFault, MendFault};
use std::alloc::{AllocError, AllocFailed};
use std::fmt;

/// Why a command is not done.
#[derive(Clone, Copy)]
pub enum Fault {
    /// The line has none of the forms of commands.
    Words,
    /// There is no such block or place.
    Place,
    Disk,
    Large,
    Memory,
    NotVolume,
    Version { found: u32 },
    Damaged(Damage),
    /// What a crash left is mended to other bytes.
    Differs,
}

impl fmt::Display for Fault {
    fn fmt<W: fmt::Write>(&self, f: &mut fmt::Formatter<W>) -> fmt::Result {
        match *self {
            Fault::Words => f.write_str("? words"),
            Fault::Place => f.write_str("? no such place"),
            Fault::Disk => f.write_str("? disk"),
            Fault::Large => f.write_str("? long volume"),
            Fault::Memory => f.write_str("? memory"),
            Fault::NotVolume => f.write_str("not a volume"),
            Fault::Version { found } => write!(f, "version {found}"),
            Fault::Damaged(fault) => write!(f, "damaged {} {}", fault.block, fault.code),
            Fault::Differs => f.write_str("? differs"),
        }
    }
}

impl From<Failed> for Fault {
    fn from(_failed: Failed) -> Fault {
        Fault::Disk
    }
}

impl From<NoMemory> for Fault {
    fn from(_want: NoMemory) -> Fault {
        Fault::Memory
    }
}

impl From<AllocError> for Fault {
    fn from(_error: AllocError) -> Fault {
        Fault::Memory
    }
}

impl<T: Drop> From<AllocFailed<T>> for Fault {
    fn from(_error: AllocFailed<T>) -> Fault {
        Fault::Memory
    }
}

impl From<LoadFault> for Fault {
    fn from(fault: LoadFault) -> Fault {
        match fault {
            LoadFault::Disk => Fault::Disk,
            LoadFault::Large { .. } => Fault::Large,
            LoadFault::Memory => Fault::Memory,
        }
    }
}

impl From<MendFault> for Fault {
    fn from(fault: MendFault) -> Fault {
        match fault {
            MendFault::Disk => Fault::Disk,
            MendFault::NotVolume => Fault::NotVolume,
            MendFault::Version { found } => Fault::Version { found },
            MendFault::Damaged(damage) => Fault::Damaged(damage),
            MendFault::Memory => Fault::Memory,
        }
    }
}
