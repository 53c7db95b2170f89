//! The parts in which a commit past its bit is carried out.
use cfs_base::BlockNo;

/// The next part of a commit that is past its bit.
#[derive(Clone, Copy, Debug, PartialEq, Eq)]
pub enum Part {
    /// The content of the shadow root is written into the root.
    Copy { root: BlockNo, shadow: BlockNo },
    /// The intention with a block is carried out: it becomes Allocated, or Free.
    Flip { block: BlockNo },
    /// The commit bit is cleared.
    Clear { root: BlockNo },
}
