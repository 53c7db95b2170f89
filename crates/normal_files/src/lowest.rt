//! The node at the end of a way.
ghost use Rattle.std.specs.Prelude.{◌≡◌, length};
ghost use Rattle.block_tree.specs.Along as specs;
ghost use Rattle.block_tree.specs.Pointers.{leaf_pointers};

use block_tree::{NODE_LEVELS, Node, Way};

/// The depth of the lowest nodes below a root.
const LOWEST: usize = NODE_LEVELS as usize - 1;

/// Returns the lowest node along a way.
pub(crate) fn way_node(way: &Way) -> &Node
    ensures node { result.now ≡ specs.way_node way.now }
    ensures count { length (specs.way_leaves way.now) ≡ leaf_pointers.count }
{
    way.node(LOWEST)
}
