//! One grant.
use cfs_base::{Mode, Puid, Session, Tuid};

/// A grant: an object that a session has open.
#[derive(Clone, Copy, Debug, PartialEq, Eq)]
pub struct OpenGrant {
    /// The temporary identifier of the grant.
    pub tuid: Tuid,
    /// The session that has the grant.
    pub session: Session,
    /// The permanent identifier of the object.
    pub id: Puid,
    /// Whether the object is open for reading or for writing.
    pub mode: Mode,
}
