//! The calls that a recording disk keeps, and the choice of those that a crash leaves.
use cfs_base::Block;

/// A call that changed the disk or tried to.
#[derive(Debug, Drop)]
pub enum Call {
    /// A write of this block with this content, and whether it was done.
    Write(u32, Block, bool),
    /// A barrier that was done.
    Barrier,
}

/// A call, and the moment at which it was made.
#[derive(Debug, Drop)]
pub struct KeptCall {
    pub moment: u64,
    pub call: Call,
}

/// What a crash leaves of a block.
///
/// If `choice` is 0, it is the content at the last barrier. Else it is that of the `choice`-th write since then,
/// failed ones counted too, or of the last write if there are fewer. The first pick of a block counts.
#[derive(Clone, Copy, Debug, PartialEq, Eq)]
pub struct Pick {
    /// The number of the block.
    pub block: u32,
    /// Which of the block's contents the crash leaves.
    pub choice: u32,
}
