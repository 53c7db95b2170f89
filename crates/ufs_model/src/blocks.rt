//! The root blocks of the objects of a graph.
ghost use Rattle.std.specs.Prelude.{◌≡◌, ◌<◌, ◌≤◌, ◌^◌, ℕ, true, None, IfSome};
ghost use Rattle.ufs_model.specs.Graph.{IsLeastFreeRoot, has_block};

use crate::object::Object;
use cfs_base::Puid;
use std::collections::BTreeMap;

/// Returns whether an object has this root block.
pub fn is_taken(objects: &BTreeMap<Puid, Object>, block: u32) -> bool
    ensures { result ≡ has_block objects.now.entries block }
{
    if block == u32::MAX {
        return objects.keys().any(|id| id.block == block);
    }
    let first = Puid { block, word: 0 };
    let past = Puid {
        block: block + 1,
        word: 0,
    };
    match objects.range(first..past).next() {
        Some(_) => true,
        None => false,
    }
}

/// Returns the least block that is no object's root block.
///
/// All blocks from 3 to `from` - 1 are known to be root blocks.
pub fn least_free_root(objects: &BTreeMap<Puid, Object>, from: u32) -> Option<u32>
    requires three { 3 ≤ from }
    requires taken { (c : ℕ) → 3 ≤ c → c < from → has_block objects.now.entries c ≡ true }
    ensures least { IfSome result (λ b. IsLeastFreeRoot objects.now.entries b) }
    ensures fits { IfSome result (λ b. b < 4294967295) }
    ensures none { result ≡ None → (c : ℕ) → 3 ≤ c → c < 4294967295 → has_block objects.now.entries c ≡ true }
{
    for block in from..u32::MAX {
        if !is_taken(objects, block) {
            return Some(block);
        }
    }
    None
}
