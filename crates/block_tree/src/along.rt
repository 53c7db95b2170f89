//! The nodes along one leaf's path, each read once from the root down, and other blocks put along it.
ghost use Rattle.std.specs.Prelude.{◌≡◌, ◌<◌, ◌≤◌, ℕ};
ghost use Rattle.block_tree.specs.Path as paths;
ghost use Rattle.block_tree.specs.Path.{IsGoodWay};
ghost use Rattle.block_tree.specs.Pointers.{leaf_limit, node_levels};

use crate::leaf::LEAF_LIMIT;
use crate::node::{LEAVES, Node};
use crate::reads::read_node;
use crate::root::{NODE_LEVELS, NODES, Root};
use cfs_base::{BlockNo, Disk, Trouble};

/// The places of a path: that of a pointer of the root, and then one in each node.
pub const PLACES: usize = NODE_LEVELS as usize + 1;

/// The number of nodes on a path.
const INNER: usize = NODE_LEVELS as usize;

/// Returns the path of a leaf.
pub(crate) fn path_of(leaf: u32) -> [u32; PLACES]
    requires { leaf < leaf_limit }
    ensures path { result ≡ paths.path_of leaf }
    ensures places { paths.IsPath result }
{
    let mut path = [0; PLACES];
    let mut rest = leaf;
    let mut width = LEAF_LIMIT / NODES as u32;
    for depth in 0..PLACES {
        path[depth] = rest / width;
        rest = rest % width;
        width = width / LEAVES as u32;
    }
    path
}

/// Returns how many of the first `most` places two paths share.
fn shared(one: &[u32; PLACES], other: &[u32; PLACES], most: usize) -> usize
    requires { most ≤ node_levels }
    ensures less { result ≤ most }
    ensures same { paths.SamePlaces result one.now other.now }
    ensures most { (n : ℕ) → n ≤ most → paths.SamePlaces n one.now other.now → n ≤ result }
{
    for depth in 0..most {
        if one[depth] != other[depth] {
            return depth;
        }
    }
    most
}

/// The nodes along a path, as far as they were read from the root down.
#[derive(Clone, Copy, Debug)]
pub struct Way {
    path: [u32; PLACES],
    nodes: [Node; INNER],
    /// How many of the nodes were read.
    read: usize,
    ghost good: { IsGoodWay path nodes read },
}

impl Way {
    ghost use Rattle.std.specs.Prelude.{◌+◌, ◌-◌, ◌^◌, false, get_or, set, suc, IfErr, IfOk, OnOk};
    ghost use Rattle.block_tree.specs.Along as spec;
    ghost use Rattle.block_tree.specs.declared.root.Root as roots;
    ghost use Rattle.block_tree.specs.Pointers.{levels_below, node_pointers};
    ghost use Rattle.block_tree.specs.Reads.{IsNear, is_damage};
    ghost use Rattle.block_tree.specs.Root.{Fits, root_spelling};
    ghost use Rattle.block_tree.specs.Tree.{leaf_block, pointer};
    ghost use Rattle.block_tree.specs.Path.{no_node};
    ghost use Rattle.block_tree.specs.Way.{CutsTo, LeadsTo, with_leaf, with_node};
    ghost use Rattle.cfs_base.specs.Calls.{OnlyReads};
    ghost use Rattle.cfs_base.specs.Disk.{Image};
    ghost use Rattle.cfs_base.specs.Refusals.{trouble_had_tried};
    ghost use Rattle.cfs_base.specs.Run.{Tells};

    /// Makes a way on which no node was read yet.
    pub fn new() -> Way
        ensures { result.read ≡ 0 }
    {
        Way {
            path: [0; PLACES],
            nodes: [Node::empty(); INNER],
            read: 0,
        }
    }

    /// Turns to another path. The nodes that it shares stay read.
    fn turn(&mut self, path: [u32; PLACES])
        requires { paths.IsPath path }
        ensures path { self.new.path ≡ path }
        ensures nodes { self.new.nodes ≡ self.old.nodes }
        ensures less { self.new.read ≤ self.old.read }
        ensures most { (n : ℕ) → n ≤ self.old.read → paths.SamePlaces n self.old.path path → n ≤ self.new.read }
        ensures way { (image : Image) (root : roots.Root) → spec.IsWay image root self.old
            → spec.IsWay image root self.new }
        ensures top { (size : ℕ) (root : roots.Root) → spec.IsTopWithin size root self.old
            → spec.IsTopWithin size root self.new }
    {
        *self = Way {
            path,
            nodes: self.nodes,
            read: shared(&self.path, &path, self.read),
        };
    }

    /// Turns to the path of a leaf. The nodes that it shares stay read.
    pub fn turn_to(&mut self, leaf: u32)
        requires { leaf < leaf_limit }
        ensures path { self.new.path ≡ paths.path_of leaf }
        ensures nodes { self.new.nodes ≡ self.old.nodes }
        ensures less { self.new.read ≤ self.old.read }
        ensures most { (n : ℕ) → n ≤ self.old.read → paths.SamePlaces n self.old.path (paths.path_of leaf)
            → n ≤ self.new.read }
        ensures way { (image : Image) (root : roots.Root) → spec.IsWay image root self.old
            → spec.IsWay image root self.new }
        ensures top { (size : ℕ) (root : roots.Root) → spec.IsTopWithin size root self.old
            → spec.IsTopWithin size root self.new }
    {
        self.turn(path_of(leaf));
    }

    /// Returns the pointer on the path at a depth below the root.
    ///
    /// The nodes above it were read.
    fn pointer(&self, root: &Root, depth: usize) -> u32
        requires { depth ≤ node_levels }
        ensures pointer { result ≡ spec.pointer_on root.now self.now depth }
        ensures top { get_or root.now.nodes (get_or self.now.path 0 0) 0 < 2 ^ 32 }
    {
        let top = root.nodes[self.path[0] as usize];
        if depth == 0 {
            return top;
        }
        self.nodes[depth - 1].leaves[self.path[depth] as usize]
    }

    /// Returns the block that has that pointer.
    fn holder(&self, at: BlockNo, root: &Root, depth: usize) -> BlockNo
        requires { depth ≤ node_levels }
        ensures { result.0 ≡ spec.holder_on at.0 root.now self.now depth }
    {
        if depth == 0 {
            return at;
        }
        BlockNo(self.pointer(root, depth - 1))
    }

    /// Reads the next node along the path.
    ///
    /// `Damaged` as in `get`.
    fn go_down<D: Disk>(&mut self, disk: &mut D, at: BlockNo, root: &Root) -> Result<(), Trouble>
        requires more { self.old.read < node_levels }
        requires some { 0 < D.blocks disk.old }
        requires within { spec.IsWayWithin (D.blocks disk.old) self.old }
        ensures way { Tells D.Disk disk.old → spec.IsWay (D.content disk.old) root.now self.old
            → spec.IsWay (D.content disk.old) root.now self.new }
        ensures path { self.new.path ≡ self.old.path }
        ensures top { get_or root.now.nodes (get_or self.old.path 0 0) 0 < 2 ^ 32 }
        ensures read { OnOk result (self.new.read ≡ self.old.read + 1) }
        ensures within { spec.IsWayWithin (D.blocks disk.old) self.new }
        ensures top_within { spec.IsTopWithin (D.blocks disk.old) root.now self.old
            → spec.IsTopWithin (D.blocks disk.old) root.now self.new }
        ensures refused { IfErr result (spec.IsWayTrouble D.Disk at.0 root.now disk.old disk.new) }
        ensures untried { IfErr result (λ trouble. trouble_had_tried trouble ≡ false) }
        ensures sound { Tells D.Disk disk.old
            → IsNear (D.blocks disk.old) (D.content disk.old) (spec.pointer_on root.now self.old self.old.read)
            → IfErr result (λ trouble. is_damage trouble ≡ false) }
        ensures reads { OnlyReads D.Disk 1 disk.old disk.new }
    {
        let depth = self.read;
        let block = self.pointer(root, depth);
        let holder = self.holder(at, root, depth);
        let node = match read_node(disk, block, holder) {
            Ok(node) => node,
            Err(trouble) => return Err(trouble),
        };
        let mut nodes = self.nodes;
        nodes[depth] = node;
        *self = Way {
            path: self.path,
            nodes,
            read: depth + 1,
        };
        Ok(())
    }

    /// Returns the block at the end of the path.
    ///
    /// All of its nodes were read.
    pub fn end(&self, root: &Root) -> u32
        ensures { result ≡ spec.pointer_on root.now self.now node_levels }
    {
        self.pointer(root, INNER)
    }

    /// Returns the node at a depth below the root, if it was read.
    pub fn node(&self, depth: usize) -> &Node
        requires { depth < node_levels }
        ensures { result.now ≡ get_or self.now.nodes depth no_node }
    {
        &self.nodes[depth]
    }

    /// Returns the block of a leaf below the root at `at`, or 0 if the leaf is absent.
    ///
    /// Reads the nodes on the leaf's path, except those that the way has read. `Damaged` names the root block, with
    /// code 4, if a pointer to a node leads past the disk, and a node if one of its own pointers does.
    pub fn get<D: Disk>(
        &mut self,
        disk: &mut D,
        at: BlockNo,
        root: &Root,
        leaf: u32,
    ) -> Result<u32, Trouble>
        requires some { 0 < D.blocks disk.old }
        requires below { leaf < leaf_limit }
        requires within { spec.IsWayWithin (D.blocks disk.old) self.old }
        ensures block { Tells D.Disk disk.old → spec.IsWay (D.content disk.old) root.now self.old
            → IfOk result (λ n. n ≡ leaf_block (D.content disk.old) (root_spelling root.now) leaf) }
        ensures end { IfOk result (λ n. n ≡ spec.pointer_on root.now self.new node_levels) }
        ensures way { Tells D.Disk disk.old → spec.IsWay (D.content disk.old) root.now self.old
            → spec.IsWay (D.content disk.old) root.now self.new }
        ensures to { OnOk result (spec.IsTo leaf self.new) }
        ensures there { IfOk result (λ n. n < D.blocks disk.old) }
        ensures within { spec.IsWayWithin (D.blocks disk.old) self.new }
        ensures top { spec.IsTopWithin (D.blocks disk.old) root.now self.old
            → spec.IsTopWithin (D.blocks disk.old) root.now self.new }
        ensures refused { IfErr result (spec.IsWayTrouble D.Disk at.0 root.now disk.old disk.new) }
        ensures untried { IfErr result (λ trouble. trouble_had_tried trouble ≡ false) }
        ensures sound { Tells D.Disk disk.old → spec.IsWay (D.content disk.old) root.now self.old
            → spec.IsNearTree (D.blocks disk.old) (D.content disk.old) (root_spelling root.now)
            → IfErr result (λ trouble. is_damage trouble ≡ false) }
        // One read for each node that the path doesn't share with that on which the way was.
        ensures reads { (n : ℕ) → n ≤ self.old.read → paths.SamePlaces n self.old.path (paths.path_of leaf)
            → OnlyReads D.Disk (node_levels - n) disk.old disk.new }
    {
        self.turn(path_of(leaf));
        for depth in self.read..INNER {
            match self.go_down(disk, at, root) {
                Ok(()) => {}
                Err(trouble) => return Err(trouble),
            }
        }
        Ok(self.pointer(root, INNER))
    }

    /// Puts other blocks along the path: one for each place, the leaf's last.
    ///
    /// All nodes of the path were read. Each node becomes a copy of the old one with the next of the blocks at its
    /// place. The copies are still to be written: nothing is written here.
    pub fn put(&mut self, root: &mut Root, blocks: [u32; PLACES])
        requires { self.old.read ≡ node_levels }
        ensures root { root.new ≡ with_node root.old (get_or self.old.path 0 0) (get_or blocks 0 0) }
        ensures path { self.new.path ≡ self.old.path }
        ensures read { self.new.read ≡ self.old.read }
        ensures nodes { (d : ℕ) → d < node_levels → get_or self.new.nodes d no_node ≡ with_leaf
            (get_or self.old.nodes d no_node) (get_or self.old.path (suc d) 0) (get_or blocks (suc d) 0) }
        ensures leads { (a b : Image) → Fits root.old → spec.IsWay a root.old self.old
            → spec.ArePut b self.new.nodes blocks → LeadsTo a b (levels_below node_levels)
            (pointer node_pointers (root_spelling root.old)) (pointer node_pointers (root_spelling root.new))
            self.old.path blocks }
        ensures way { (b : Image) → spec.ArePut b self.new.nodes blocks → spec.IsWay b root.new self.new }
    {
        let mut nodes = self.nodes;
        for depth in 0..INNER {
            nodes[depth] = nodes[depth].with_leaf(self.path[depth + 1], blocks[depth + 1]);
        }
        *root = root.with_node(self.path[0], blocks[0]);
        *self = Way {
            path: self.path,
            nodes,
            read: self.read,
        };
    }

    /// Drops what the path leads to from a place of its last node on, and what follows the path.
    ///
    /// Each node along it becomes a copy of the old one without the pointers that follow. Each but the last also has
    /// the next of the blocks at its place. The copies are still to be written: nothing is written here.
    pub fn cut(&mut self, root: &mut Root, place: u32, blocks: [u32; INNER])
        requires { self.old.read ≡ node_levels }
        ensures root { spec.CutsRootPast root.old (get_or self.old.path 0 0) (get_or blocks 0 0) root.new }
        ensures path { self.new.path ≡ self.old.path }
        ensures read { self.new.read ≡ self.old.read }
        ensures nodes { (d : ℕ) → d < node_levels → spec.CutsAlong self.old.path blocks place d
            (get_or self.old.nodes d no_node) (get_or self.new.nodes d no_node) }
        ensures cuts { (a b : Image) → Fits root.old → spec.IsWay a root.old self.old
            → spec.ArePut b self.new.nodes blocks → CutsTo a b (levels_below node_levels)
            (pointer node_pointers (root_spelling root.old)) (pointer node_pointers (root_spelling root.new))
            (set self.old.path node_levels place) blocks }
    {
        let mut nodes = self.nodes;
        for depth in 0..INNER - 1 {
            nodes[depth] = nodes[depth].cut_past(self.path[depth + 1], blocks[depth + 1]);
        }
        nodes[INNER - 1] = nodes[INNER - 1].cut(place);
        *root = root.cut_past(self.path[0], blocks[0]);
        *self = Way {
            path: self.path,
            nodes,
            read: self.read,
        };
    }
}
