//! A leaf of an object.
ghost use Rattle.std.specs.Prelude.{◌≡◌, ◌≢◌, ◌+◌, ◌*◌, ◌<◌, ◌≤◌, get_or, IfSome, IfNone, MatchResult};
ghost use Rattle.cfs_base.specs.Codes as codes;
ghost use Rattle.ufs_model.specs.Object.{leaves_in};
ghost use Rattle.cfs_recover.specs.Checks.{IsFilled, IsNotFilled};
ghost use Rattle.cfs_recover.specs.Entries.{damage};
ghost use Rattle.cfs_recover.specs.Reads.{is_leaf_read};

use block_tree::Root;
use cfs_base::{Block, Damage, Kind, code};

/// Checks that the leaf with this number begins below the size. Refused with code 8 of its block.
pub fn check_leaf(root: &Root, leaf: u32, block: u32) -> Result<(), Damage>
    ensures { MatchResult result (λ _. leaf < leaves_in root.now.size)
        (λ d. (d ≡ damage block codes.late_leaf) × (leaves_in root.now.size ≤ leaf)) }
{
    if root.size <= 512 * leaf as u64 {
        return Err(Damage {
            block,
            code: code::LATE_LEAF,
        });
    }
    Ok(())
}

/// Returns whether the content of the leaf with this number matters: its slots, or its bytes past the size.
pub fn is_read(root: &Root, leaf: u32) -> bool
    ensures { result ≡ is_leaf_read root.now.kind root.now.size leaf }
{
    root.kind == Kind::Index || root.size < 512 * leaf as u64 + 512
}

/// Returns the first byte past the size that isn't the fill byte, in the leaf with this number.
pub fn first_late_byte(size: u64, fill: u8, leaf: u32, content: &Block) -> Option<u64>
    ensures late { IfSome result (λ i. (i < 512) × (size ≤ 512 * leaf + i) × (get_or content.now i 0 ≢ fill)) }
    ensures none { IfNone result (IsFilled size fill leaf content.now) }
{
    let bytes = content.bytes();
    let end = size.saturating_sub(512 * leaf as u64);
    (end..512).find(|i| bytes[*i as usize] != fill)
}

/// Checks that all bytes past the size in the leaf with this number are the fill byte.
///
/// Refused with code 9 of its block.
pub fn check_rest(root: &Root, leaf: u32, block: u32, content: &Block) -> Result<(), Damage>
    ensures { MatchResult result (λ _. IsFilled root.now.size root.now.fill leaf content.now)
        (λ d. (d ≡ damage block codes.late_byte) × IsNotFilled root.now.size root.now.fill leaf content.now) }
{
    match first_late_byte(root.size, root.fill, leaf, content) {
        None => Ok(()),
        Some(_) => Err(Damage {
            block,
            code: code::LATE_BYTE,
        }),
    }
}
