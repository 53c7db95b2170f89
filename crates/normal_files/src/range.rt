//! The leaves that bytes touch.
ghost use Rattle.std.specs.Prelude.{◌≡◌, ◌+◌, ◌/◌, ◌<◌, ◌≤◌, ◌*◌, min, max, length};
ghost use Rattle.block_tree.specs.Pointers.{leaf_pointers, node_pointers, size_limit};
ghost use Rattle.ufs_model.specs.Object.{leaves_in as leaves_of};

use block_tree::LEAVES;
use leaf_changes::leaves_in;

/// The leaves from one up to but not including another.
#[derive(Clone, Copy)]
pub(crate) struct Leaves {
    pub from: u32,
    pub to: u32,
}

impl Leaves {
    /// Returns the leaves that `count` bytes at an offset touch.
    pub fn touched(offset: u64, count: u64) -> Leaves
        requires { offset + count ≤ size_limit }
        ensures from { result.from ≡ offset / 512 }
        ensures to { result.to ≡ leaves_of (offset + count) }
    {
        Leaves {
            from: (offset / 512) as u32,
            to: leaves_in(offset + count),
        }
    }

    /// Returns those of the leaves that are in a node.
    pub fn of_node(self, number: u32) -> Leaves
        requires { number < node_pointers.count }
        ensures from { result.from ≡ max self.from (leaf_pointers.count * number) }
        ensures to { result.to ≡ min self.to (leaf_pointers.count * number + leaf_pointers.count) }
    {
        Leaves {
            from: self.from.max(LEAVES as u32 * number),
            to: self.to.min(LEAVES as u32 * number + LEAVES as u32),
        }
    }
}
