//! The limits of the program.
ghost use Rattle.std.specs.Prelude.{◌≡◌};
ghost use Rattle.cfs_serve.specs.Limits as limits;

/// The cylinders of the largest volume in memory.
pub const MOST_CYLINDERS: u64 = 1_024;

/// The cylinders of the largest volume in a file.
pub const MOST_FILE_CYLINDERS: u64 = 65_536;

/// The cylinders of the largest volume of pairs of blocks.
pub const MOST_PAIR_CYLINDERS: u64 = 16_384;

/// The blocks of the largest volume that is checked or mended.
pub const MOST_INSPECTED: u32 = 524_288;

/// The map blocks that a service holds in memory.
pub const HELD_MAPS: u32 = 64;

/// The bytes of the longest request file.
pub const MOST_SCRIPT: usize = 16_777_216;

/// The bytes of the longest trail that is audited.
pub const MOST_TRAIL: usize = 268_435_456;

/// The request lines of all files together.
pub const MOST_LINES: u64 = 500_000;

/// The sessions of a service.
pub const MOST_SESSIONS: usize = 64;

/// The collections that a service may be called for.
pub const MOST_COLLECTIONS: u64 = 1_000;

/// The constants are those of the definitions. This is a law: the call does nothing.
pub fn limits_are_stated()
    ensures cylinders { MOST_CYLINDERS ≡ limits.most_cylinders }
    ensures inspected { MOST_INSPECTED ≡ limits.most_inspected }
    ensures file { MOST_FILE_CYLINDERS ≡ limits.most_file_cylinders }
    ensures pair { MOST_PAIR_CYLINDERS ≡ limits.most_pair_cylinders }
    ensures held { HELD_MAPS ≡ limits.held_maps }
    ensures script { MOST_SCRIPT ≡ limits.most_script }
    ensures trail { MOST_TRAIL ≡ limits.most_trail }
    ensures lines { MOST_LINES ≡ limits.most_lines }
    ensures sessions { MOST_SESSIONS ≡ limits.most_sessions }
    ensures collections { MOST_COLLECTIONS ≡ limits.most_collections }
{}
