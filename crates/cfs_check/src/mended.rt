//! Why a volume isn't mended.
ghost use Rattle.std.specs.Prelude.{◌≡◌};
ghost use Rattle.cfs_check.specs.declared.mended.MendFault.TheVariants as faults;

use cfs_base::{Damage, Failed, NoMemory};
use thiserror::Error;

/// Why a volume isn't mended.
#[derive(Clone, Copy, Debug, PartialEq, Eq, Error)]
pub enum MendFault {
    /// A device call failed. What was under way may be begun again.
    #[error("a device call failed")]
    Disk,
    /// The image holds no volume. Nothing was written.
    #[error("not a volume")]
    NotVolume,
    /// The volume has another version. Nothing was written.
    #[error("a volume of version {found}")]
    Version { found: u32 },
    /// This is the first fault that maps don't heal. Nothing was written.
    #[error("a damaged volume")]
    Damaged(Damage),
    /// There was no memory. Nothing was written.
    #[error("out of memory")]
    Memory,
}

impl From<Failed> for MendFault {
    ghost from_gives = { λ _ fault. fault ≡ faults.Disk };

    fn from(_failed: Failed) -> MendFault {
        MendFault::Disk
    }
}

impl From<Damage> for MendFault {
    ghost from_gives = { λ damage fault. fault ≡ faults.Damaged damage };

    fn from(damage: Damage) -> MendFault {
        MendFault::Damaged(damage)
    }
}

impl From<NoMemory> for MendFault {
    ghost from_gives = { λ _ fault. fault ≡ faults.Memory };

    fn from(_want: NoMemory) -> MendFault {
        MendFault::Memory
    }
}
