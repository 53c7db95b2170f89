//! A node as it is to be.
ghost use Rattle.std.specs.Prelude.{◌≡◌, ◌==◌, ℕ, ◌/◌, ◌%◌, ◌<◌, ◌&&◌};
ghost use Rattle.block_tree.specs.Pointers.{leaf_limit, leaf_pointers, node_pointers};
ghost use Rattle.block_tree.specs.Way.{with_node};
ghost use Rattle.normal_files.specs.Laid.{node_of};
ghost use Rattle.normal_files.specs.Plans.{plan_of};
ghost use Rattle.normal_files.specs.Takes.{is_held, with_taken};
ghost use Rattle.normal_files.specs.Ways.{IsToNode};

use crate::absent::Taken;
use block_tree::{Root, Way};

/// A node as it is to be, with the leaves that a write takes.
#[derive(Clone, Copy)]
pub(crate) struct Next {
    /// The way to the node, as it is to be.
    pub way: Way,
    /// The root that is to lead to the node.
    pub root: Root,
    /// Whether a leaf was taken.
    pub grown: bool,
}

impl Next {
    /// Returns the block of the node with this number, or 0 if it has none yet.
    pub fn block(&self, number: u32) -> u32
        requires { number < node_pointers.count }
        ensures { result ≡ node_of self.now.root number }
    {
        self.root.nodes[number as usize]
    }

    /// Returns whether the node has a block: it had one, or one was taken.
    pub fn is_held(&self, had: u32) -> bool
        ensures { result ≡ is_held had self.now.grown }
    {
        had != 0 || self.grown
    }

    /// Returns whether the node is new and has a leaf.
    pub fn is_new(&self, had: u32) -> bool
        ensures { result ≡ (had == 0 && self.now.grown) }
    {
        had == 0 && self.grown
    }

    /// Returns the same with a leaf that was taken.
    pub fn with(self, leaf: u32, taken: Taken) -> Next
        requires below { leaf < leaf_limit }
        requires way { IsToNode leaf self.way }
        ensures plan { (n : ℕ) → n ≡ leaf / leaf_pointers.count
            → plan_of n result ≡ with_taken (plan_of n self) (leaf % leaf_pointers.count) taken.leaf taken.node }
        ensures root { result.root ≡ with_node self.root (leaf / leaf_pointers.count) taken.node }
        ensures way { IsToNode leaf result.way }
    {
        let mut way = self.way;
        let mut root = self.root;
        way.turn_to(leaf);
        way.put(&mut root, [taken.node, taken.leaf]);
        Next {
            way,
            root,
            grown: true,
        }
    }
}
