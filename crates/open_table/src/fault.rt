//! Why a call is refused.
use cfs_base::Mode;

/// Why a grant can't be acquired.
#[derive(Clone, Copy, Debug, PartialEq, Eq)]
pub enum AcquireFault {
    /// A grant that conflicts with it is on the object, in this mode.
    Locked { mode: Mode },
    /// The session has as many grants as it may have.
    Grants,
}

/// The session has no such grant.
#[derive(Clone, Copy, Debug, PartialEq, Eq)]
pub struct NoGrant;
