//! Why a call is refused.
ghost use Rattle.std.specs.Prelude.{◌≡◌};
ghost use Rattle.name_dirs.specs.Faults as spec;

use cfs_base::NoMemory;
use std::alloc::AllocError;
use ufs_model::Reply;

/// Why a call is refused.
///
/// It is the first fault that holds, but `Asked` comes first if the names can't be read.
#[derive(Debug, Drop)]
pub enum DirFault {
    /// The object is no directory.
    NotDirectory,
    /// The directory has no such name.
    NoName,
    /// The directory already has the name, or the root index already has a directory.
    Exists,
    /// A new row is needed, and each of the directory's `capacity` rows has a name.
    DirFull { capacity: u32 },
    /// A request was answered with this reply: `NoObject`, `Locked`, `Full`, `Disk`, `Damaged` or `Stopped`.
    Asked(Reply),
    /// There was no memory, in a request or in the call itself.
    Memory,
}

impl From<NoMemory> for DirFault {
    ghost use Rattle.name_dirs.specs.declared.fault.DirFault.TheVariants as faults;

    ghost from_gives = { λ _ f. f ≡ faults.Memory };

    fn from(_want: NoMemory) -> DirFault {
        DirFault::Memory
    }
}

impl From<AllocError> for DirFault {
    ghost use Rattle.name_dirs.specs.declared.fault.DirFault.TheVariants as faults;

    ghost from_gives = { λ _ f. f ≡ faults.Memory };

    fn from(_want: AllocError) -> DirFault {
        DirFault::Memory
    }
}

/// Returns the fault of a reply that isn't the one expected.
///
/// What names no index leads to no directory.
pub(crate) fn fault_told(reply: Reply) -> DirFault
    ensures { result ≡ spec.fault_told reply }
{
    match reply {
        Reply::Memory => DirFault::Memory,
        Reply::NotIndex => DirFault::NotDirectory,
        reply => DirFault::Asked(reply),
    }
}
