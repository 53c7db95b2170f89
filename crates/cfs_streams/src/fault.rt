//! Why a source is not read whole.
ghost use Rattle.std.specs.Prelude.{◌≡◌};
ghost use Rattle.cfs_streams.specs.declared.fault.ReadFault.TheVariants.{Failed, Memory};

use cfs_base::Failed;
use std::alloc::AllocError;

/// Why a source is not read whole.
#[derive(Clone, Copy, Debug, PartialEq, Eq)]
pub enum ReadFault {
    /// A read failed. The source's count of faults rose, and what was read is lost.
    Failed,
    /// The source has more bytes than the limit. One more than the limit was taken of it.
    Long,
    /// There was no memory, at any time. What was read is lost.
    Memory,
}

impl From<Failed> for ReadFault {
    ghost from_gives = { λ _ f. f ≡ Failed };

    fn from(_failed: Failed) -> ReadFault {
        ReadFault::Failed
    }
}

impl From<AllocError> for ReadFault {
    ghost from_gives = { λ _ f. f ≡ Memory };

    fn from(_error: AllocError) -> ReadFault {
        ReadFault::Memory
    }
}
