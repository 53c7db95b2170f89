//! The blocks of one path of a tree, changed from its leaf up.
//!
//! Each block becomes a copy with its child's number in it.
ghost use Rattle.std.specs.Prelude.{◌≡◌, ◌<◌, ℕ, get_or, List};
ghost use Rattle.cfs_base.specs.Disk.{Image};
ghost use Rattle.block_tree.specs.Along.{CutsRootPast};
ghost use Rattle.block_tree.specs.Node.{IsNode, node_spelling};
ghost use Rattle.block_tree.specs.Pointers.{leaf_pointers, node_pointers};
ghost use Rattle.block_tree.specs.Root.{Fits, root_spelling};
ghost use Rattle.block_tree.specs.Tree.{pointer, tree_of};
ghost use Rattle.block_tree.specs.Way as spec;

use crate::node::{LEAVES, Node};
use crate::root::{NODES, Root};

impl Root {
    /// Returns a copy with another block as one of its nodes.
    pub fn with_node(&self, number: u32, block: u32) -> Root
        requires { number < node_pointers.count }
        ensures root { result ≡ spec.with_node self.now number block }
        ensures one { Fits self.now → spec.SetsOne (pointer node_pointers (root_spelling self.now)) number block
            (pointer node_pointers (root_spelling result)) }
    {
        let mut root = *self;
        root.nodes[number as usize] = block;
        root
    }

    /// Returns a copy with another block as one of its nodes, and without the nodes past it.
    pub fn cut_past(&self, number: u32, block: u32) -> Root
        requires { number < node_pointers.count }
        ensures past { CutsRootPast self.now number block result }
        ensures fits { Fits self.now → Fits result }
    {
        self.cut(number + 1).with_node(number, block)
    }

    /// Returns a copy without its nodes from `from` on.
    pub fn cut(&self, from: u32) -> Root
        ensures cut { spec.CutsRoot self.now from result }
        ensures fits { Fits self.now → Fits result }
    {
        let mut kept = *self;
        for number in from..NODES as u32 {
            kept.nodes[number as usize] = 0;
        }
        kept
    }
}

impl Node {
    /// Returns a copy with another block as one of its leaves.
    pub fn with_leaf(&self, place: u32, block: u32) -> Node
        requires { place < leaf_pointers.count }
        ensures node { result ≡ spec.with_leaf self.now place block }
        ensures good { IsNode self.now → IsNode result }
        ensures one { IsNode self.now → spec.SetsOne (pointer leaf_pointers (node_spelling self.now)) place block
            (pointer leaf_pointers (node_spelling result)) }
    {
        let mut node = *self;
        node.leaves[place as usize] = block;
        node
    }

    /// Returns a copy without its leaves from `from` on.
    pub fn cut(&self, from: u32) -> Node
        ensures cut { spec.CutsNode self.now from result }
        ensures good { IsNode self.now → IsNode result }
    {
        let mut kept = *self;
        for place in from..LEAVES as u32 {
            kept.leaves[place as usize] = 0;
        }
        kept
    }

    /// Returns a copy with another block at a place, and without the leaves past it.
    pub fn cut_past(&self, place: u32, block: u32) -> Node
        requires { place < leaf_pointers.count }
        ensures past { IsNode self.now → spec.CutsPast (λ j. get_or self.now.leaves j 0) place block
            (λ j. get_or result.leaves j 0) }
        ensures good { IsNode self.now → IsNode result }
    {
        self.cut(place + 1).with_leaf(place, block)
    }
}

/// A law of a tree in which the blocks of one path are replaced, as a contract. This call does nothing.
pub fn one_path_changes()
    // A path that parts from it leads to what it led to.
    ensures beside { (a b : Image) (old new path blocks : List ℕ) → spec.IsPut a b old new path blocks
        → (q : List ℕ) → spec.Part path q → tree_of b new q ≡ tree_of a old q }
    // The path itself leads to the last of the blocks.
    ensures here { (a b : Image) (old new path blocks : List ℕ) (last : ℕ) → spec.IsPut a b old new path blocks
        → spec.IsLast blocks last → tree_of b new path ≡ last }
{}

/// A law of a tree in which a path is cut, as a contract. This call does nothing.
pub fn one_path_cut()
    // What is before the path's end is led to as it was.
    ensures before { (a b : Image) (old new path blocks : List ℕ) → spec.IsCut a b old new path blocks
        → (q : List ℕ) → spec.IsBefore path q → tree_of b new q ≡ tree_of a old q }
    // What is at its end or past it is gone.
    ensures from { (a b : Image) (old new path blocks : List ℕ) → spec.IsCut a b old new path blocks
        → (q : List ℕ) → spec.IsFrom path q → tree_of b new q ≡ 0 }
{}
