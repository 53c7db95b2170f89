//! Why a volume is not opened.
ghost use Rattle.std.specs.Prelude.{◌≡◌};
ghost use Rattle.cfs_recover.specs.declared.fault.RecoverFault.TheVariants as faults;

use cfs_base::{Damage, Failed, NoMemory};
use std::alloc::{AllocError, AllocFailed};
use thiserror::Error;

/// Why a volume is not opened.
#[derive(Clone, Copy, Debug, PartialEq, Eq, Error)]
pub enum RecoverFault {
    /// A device call failed. What was under way may be begun again.
    #[error("a device call failed")]
    Disk,
    /// The disk holds no volume. Nothing was written.
    #[error("not a volume")]
    NotVolume,
    /// The volume has another version. Nothing was written.
    #[error("a volume of version {found}")]
    Version { found: u32 },
    /// A block of the volume is damaged, as it says. Nothing was written.
    #[error("a damaged volume")]
    Damaged(Damage),
    /// There was no memory. Nothing was written.
    #[error("out of memory")]
    Memory,
}

impl From<Failed> for RecoverFault {
    ghost from_gives = { λ _ fault. fault ≡ faults.Disk };

    fn from(_failed: Failed) -> RecoverFault {
        RecoverFault::Disk
    }
}

impl From<Damage> for RecoverFault {
    ghost from_gives = { λ damage fault. fault ≡ faults.Damaged damage };

    fn from(damage: Damage) -> RecoverFault {
        RecoverFault::Damaged(damage)
    }
}

impl From<NoMemory> for RecoverFault {
    ghost from_gives = { λ _ fault. fault ≡ faults.Memory };

    fn from(_want: NoMemory) -> RecoverFault {
        RecoverFault::Memory
    }
}

impl From<AllocError> for RecoverFault {
    ghost from_gives = { λ _ fault. fault ≡ faults.Memory };

    fn from(_error: AllocError) -> RecoverFault {
        RecoverFault::Memory
    }
}

impl<T: Drop> From<AllocFailed<T>> for RecoverFault {
    ghost from_gives = { λ _ fault. fault ≡ faults.Memory };

    fn from(_error: AllocFailed<T>) -> RecoverFault {
        RecoverFault::Memory
    }
}
