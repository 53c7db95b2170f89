//! What a collection that marks remembers beside its marks.

use cfs_base::Puid;

/// An index that is marked and not read to its end.
#[derive(Clone, Copy, Debug, PartialEq, Eq)]
pub struct Grey {
    /// The identifier of the index.
    pub id: Puid,
    /// The number of the leaf at which reading goes on. Those below it were read.
    pub cursor: u32,
}

/// A rescue: an object that was put into an index while a collection marks, or that was opened.
#[derive(Clone, Copy, Debug, PartialEq, Eq)]
pub struct Rescue {
    /// The index into which the object was put, or `None` if the object was opened.
    pub index: Option<Puid>,
    /// The identifier of the object.
    pub id: Puid,
}
