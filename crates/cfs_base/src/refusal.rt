//! Why a call of the store is refused.
ghost use Rattle.std.specs.Prelude.{◌≡◌};
ghost use Rattle.cfs_base.specs.Codes as codes;
ghost use Rattle.cfs_base.specs.Refusals as spec;

use std::alloc::{AllocError, AllocFailed};

/// A call of a disk, a source or a sink failed. Its count of faults rose.
#[derive(Clone, Copy, Debug, PartialEq, Eq)]
pub struct Failed;

/// There was no memory. What was handed in is as it was.
#[derive(Clone, Copy, Debug, PartialEq, Eq)]
pub struct NoMemory;

impl From<AllocError> for NoMemory {
    fn from(_error: AllocError) -> NoMemory {
        NoMemory
    }
}

impl<T: Drop> From<AllocFailed<T>> for NoMemory {
    fn from(_error: AllocFailed<T>) -> NoMemory {
        NoMemory
    }
}

/// How many blocks were Free, and how many a request may take.
#[derive(Clone, Copy, Debug, PartialEq, Eq)]
pub struct Need {
    pub free: u32,
    pub need: u32,
}

/// A block with a value that its table doesn't list, or one that doesn't fit what refers to it.
#[derive(Clone, Copy, Debug, PartialEq, Eq)]
pub struct Damage {
    /// The number of the block.
    pub block: u32,
    /// What is wrong with the block, one of the codes in `code`.
    pub code: u8,
}

/// The codes of what is wrong with a block, as `Damage` gives them.
pub mod code {
    /// The label has another number of cylinders than the disk.
    pub const WRONG_SIZE: u8 = 1;
    /// The bytes of a map's entry spell no entry.
    pub const NO_ENTRY: u8 = 2;
    /// A root block, or a shadow root that stands in for it, is invalid.
    pub const NO_ROOT: u8 = 3;
    /// A pointer leads past the end of the disk.
    pub const PAST_DISK: u8 = 4;
    /// A block's map entry has another owner or place than the block.
    pub const NOT_OWNED: u8 = 5;
    /// An identifier names no object.
    pub const NAMES_NOTHING: u8 = 6;
    /// Two shadow roots belong to one object.
    pub const TWO_SHADOWS: u8 = 7;
    /// A leaf has a block though it is at or past the size.
    pub const LATE_LEAF: u8 = 8;
    /// A leaf with a block has a byte past the size that isn't the fill byte.
    pub const LATE_BYTE: u8 = 9;
    /// A node with a block leads to no leaf.
    pub const DEAD_END: u8 = 10;
    /// Fewer than 4 blocks are Free.
    pub const TOO_FULL: u8 = 11;
    /// A map has another number of Free entries than when the volume was opened.
    pub const OTHER_COUNT: u8 = 12;
}

/// Why a call that takes no block and no memory is refused.
#[derive(Clone, Copy, Debug, PartialEq, Eq)]
pub enum Trouble {
    /// A device call failed.
    ///
    /// `tried` says whether the call tried a write or a barrier. If it tried none, the disk is as it was.
    Disk { tried: bool },
    /// A block that was read is damaged.
    Damaged(Damage),
}

/// Why a call that may take blocks or memory is refused.
#[derive(Clone, Copy, Debug, PartialEq, Eq)]
pub enum Refused {
    /// Too few blocks were Free. Nothing was written.
    Full(Need),
    /// A device call failed, as in `Trouble`.
    Disk { tried: bool },
    /// A block that was read is damaged, as in `Trouble`.
    Damaged(Damage),
    /// There was no memory. Nothing was written.
    Memory,
}

impl From<NoMemory> for Refused {
    ghost use Rattle.cfs_base.specs.declared.refusal.Refused.TheVariants as refused;

    ghost from_gives = { λ _ r. r ≡ refused.Memory };

    fn from(_want: NoMemory) -> Refused {
        Refused::Memory
    }
}

impl From<Trouble> for Refused {
    ghost from_gives = { λ t r. r ≡ spec.refused_by t };

    fn from(trouble: Trouble) -> Refused {
        match trouble {
            Trouble::Disk { tried } => Refused::Disk { tried },
            Trouble::Damaged(damage) => Refused::Damaged(damage),
        }
    }
}

impl Trouble {
    /// Returns the same trouble, as of a call that had tried a write or a barrier before.
    pub fn after_try(self) -> Trouble
        ensures { result ≡ spec.trouble_after_try self }
    {
        match self {
            Trouble::Disk { .. } => Trouble::Disk { tried: true },
            Trouble::Damaged(damage) => Trouble::Damaged(damage),
        }
    }
}

impl Refused {
    /// Returns the same refusal, as of a call that had tried a write or a barrier before.
    pub fn after_try(self) -> Refused
        ensures { result ≡ spec.after_try self }
    {
        match self {
            Refused::Disk { .. } => Refused::Disk { tried: true },
            refused => refused,
        }
    }
}
