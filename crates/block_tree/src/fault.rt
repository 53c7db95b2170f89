//! Why a tree can't be read.
use cfs_base::{BlockNo, Damage, Trouble, code};
use thiserror::Error;

/// Why a call that follows pointers is refused. Nothing was written.
#[derive(Clone, Copy, Debug, PartialEq, Eq, Error)]
pub enum TreeFault {
    /// A device call failed.
    #[error("a device call failed")]
    Disk,
    /// A pointer to this block was followed, and the disk has no such block.
    ///
    /// The holder is the node that has the pointer, or `None` if the root has it.
    #[error("a pointer leads to block {block}, which the disk doesn't have")]
    BadPointer { block: u32, holder: Option<u32> },
}

impl TreeFault {
    ghost use Rattle.std.specs.Prelude.{◌≡◌};
    ghost use Rattle.block_tree.specs.Reads.{trouble_of};

    /// Returns the trouble of a call on the tree with its root in this block.
    ///
    /// A pointer past the disk is code 4 of the block that has it.
    pub fn in_tree(self, root: BlockNo) -> Trouble
        ensures { result ≡ trouble_of root.0 self }
    {
        match self {
            TreeFault::Disk => Trouble::Disk { tried: false },
            TreeFault::BadPointer { holder, .. } => Trouble::Damaged(Damage {
                block: holder.unwrap_or(root.0),
                code: code::PAST_DISK,
            }),
        }
    }
}
