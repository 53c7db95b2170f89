//! The limits of the server.

/// The number of bytes in a leaf.
pub const LEAF_BYTES: u64 = 512;

/// The number of slots in a leaf, each of 8 bytes.
pub const LEAF_SLOTS: u64 = 64;

/// The number of blocks of the level below to which an inner block leads.
pub const FAN_OUT: u64 = 128;

/// The number of leaves of the largest object.
pub const MOST_LEAVES: u64 = 15_360;

/// The number of bytes of the largest file.
pub const MOST_BYTES: u64 = LEAF_BYTES * MOST_LEAVES;

/// The number of slots of the largest index.
pub const MOST_SLOTS: u64 = LEAF_SLOTS * MOST_LEAVES;

/// The number of slots of the root index.
pub const ROOT_SLOTS: u64 = 64;

/// The number of bytes of the largest read or write.
pub const MOST_AT_ONCE: u64 = 4_096;

/// The number of grants that one session may have at a time.
pub const MOST_GRANTS: u64 = 64;

/// The number of blocks that stay Free for deletes.
pub const RESERVE: u32 = 4;

/// The number of bytes of the longest request line.
pub const MOST_LINE: u64 = 16_384;

/// The number of bytes of the longest name.
pub const MOST_NAME: u64 = 32;
