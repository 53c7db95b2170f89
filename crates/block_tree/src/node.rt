//! A node: a block of pointers to leaves.
ghost use Rattle.std.specs.Prelude.{◌≡◌, replicate};
ghost use Rattle.block_tree.specs.Node.{node_spelling, IsNode};
ghost use Rattle.block_tree.specs.Pointers.{pointers_of, leaf_pointers};

use crate::pointers::{put_pointers, read_pointers};
use cfs_base::Block;

/// How many leaf pointers a node has.
pub const LEAVES: usize = 128;

/// A node: the block of each of its leaves, or 0 for a leaf that is absent.
#[derive(Clone, Copy, Debug, PartialEq, Eq)]
pub struct Node {
    pub leaves: [u32; LEAVES],
}

impl Node {
    /// Returns a node without leaves.
    pub fn empty() -> Node
        ensures { result.leaves ≡ replicate leaf_pointers.count 0 }
    {
        Node {
            leaves: [0; LEAVES],
        }
    }

    /// Returns the node that this block spells. Every block spells one.
    pub fn decode(block: &Block) -> Node
        ensures good { IsNode result }
        ensures spelled { block.now ≡ node_spelling result }
        ensures pointers { result.leaves ≡ pointers_of leaf_pointers block.now }
        ensures only { (node : Node) → IsNode node → block.now ≡ node_spelling node → node ≡ result }
    {
        let mut leaves = [0; LEAVES];
        read_pointers(block.bytes(), &mut leaves);
        Node { leaves }
    }

    /// Returns the block that spells this node.
    pub fn encode(&self) -> Block
        ensures good { IsNode self.now }
        ensures spelled { result ≡ node_spelling self.now }
        ensures pointers { self.now.leaves ≡ pointers_of leaf_pointers result }
    {
        let mut block = Block::zero();
        put_pointers(&mut block, 0, &self.leaves);
        block
    }
}
