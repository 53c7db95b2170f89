//! The calls that a disk in memory keeps, and the bytes that a crash leaves.
use cfs_base::Block;

/// A call that changed the disk or tried to.
#[derive(Drop)]
pub enum Call {
    /// A write of this block, done or not.
    Write(u32),
    /// A barrier that was done, and the content of the disk at that time.
    Barrier(Vec<Block>),
}

/// A call, and the moment at which it was made.
#[derive(Drop)]
pub struct KeptCall {
    pub moment: u64,
    pub call: Call,
}

/// The bytes that a crash leaves of a block that was written since the last barrier.
#[derive(Clone, Copy, Debug, PartialEq, Eq)]
pub struct TornPick {
    /// The number of the block.
    pub block: u32,
    /// The bytes that the crash leaves.
    pub content: Block,
}
