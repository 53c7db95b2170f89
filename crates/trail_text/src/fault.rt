//! Why a line is no event.
ghost use Rattle.std.specs.Prelude.{◌≡◌};
ghost use Rattle.trail_text.specs.declared.fault.TrailFault.TheVariants as faults;

use cfs_base::NoMemory;

/// Why a line is no event.
#[derive(Clone, Copy, Debug, PartialEq, Eq)]
pub enum TrailFault {
    /// It is the line of no event that fits.
    BadLine,
    /// There was no memory.
    Memory,
}

impl From<NoMemory> for TrailFault {
    ghost from_gives = { λ _ fault. fault ≡ faults.Memory };

    fn from(_error: NoMemory) -> TrailFault {
        TrailFault::Memory
    }
}
