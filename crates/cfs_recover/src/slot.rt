//! An identifier in a slot of an index, or in the label.
ghost use Rattle.std.specs.Prelude.{◌≡◌, ◌≢◌, ◌⊎◌, ◌<◌, ◌≤◌, MatchResult};
ghost use Rattle.cfs_base.specs.Codes as codes;
ghost use Rattle.cfs_recover.specs.Entries.{damage};

use cfs_base::{Damage, Puid, code};

/// Checks that an identifier that block `by` names has a block other than block 0, on a disk of `blocks` blocks.
///
/// Refused with code 6 of block `by`. Whether that block is a root with the identifier's word is checked when it is
/// read.
pub fn check_slot(blocks: u32, id: Puid, by: u32) -> Result<(), Damage>
    ensures { MatchResult result (λ _. (id.block ≢ 0) × (id.block < blocks))
        (λ d. (d ≡ damage by codes.names_nothing) × ((id.block ≡ 0) ⊎ (blocks ≤ id.block))) }
{
    if id.block == 0 || id.block >= blocks {
        return Err(Damage {
            block: by,
            code: code::NAMES_NOTHING,
        });
    }
    Ok(())
}
