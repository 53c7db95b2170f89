//! A node of an object.
ghost use Rattle.std.specs.Prelude.{◌≡◌, ◌≢◌, ℕ, get_or, MatchResult};
ghost use Rattle.cfs_base.specs.Codes as codes;
ghost use Rattle.cfs_recover.specs.Entries.{damage};

use block_tree::Node;
use cfs_base::{Damage, code};

/// Checks that the node leads to a leaf. Refused with code 10 of its block.
pub fn check_node(block: u32, node: &Node) -> Result<(), Damage>
    ensures { MatchResult result (λ _. (j : ℕ) × (get_or node.now.leaves j 0 ≢ 0))
        (λ d. (d ≡ damage block codes.dead_end) × ((j : ℕ) → get_or node.now.leaves j 0 ≡ 0)) }
{
    match node.leaves.iter().position(|leaf| *leaf > 0) {
        Some(_) => Ok(()),
        None => Err(Damage {
            block,
            code: code::DEAD_END,
        }),
    }
}
