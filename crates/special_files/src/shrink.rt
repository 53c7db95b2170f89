//! The size of a draft set to less, or to any size.
ghost use Rattle.std.specs.Prelude.{◌≡◌, ◌≢◌, ◌+◌, ◌*◌, ◌/◌, ◌%◌, ◌<◌, ◌≤◌, ℕ, true, false, length, slice_index, sum};
ghost use Rattle.std.specs.Prelude.{Err, IfErr, IfOk};
ghost use Rattle.block_tree.specs.Along.{CutsRootPast, way_leaves};
ghost use Rattle.block_tree.specs.Pointers.{leaf_limit, leaf_pointers, node_pointers, size_limit};
ghost use Rattle.leaf_changes.specs.Bytes as changes;
ghost use Rattle.special_files.specs.Drafting.{pointer_to_node, shadow_need};
ghost use Rattle.special_files.specs.Nodes.{HasNode, IsRead, IsSafe};
ghost use Rattle.special_files.specs.Refusal.{is_full_refusal};
ghost use Rattle.special_files.specs.Shed as spec;
ghost use Rattle.special_files.specs.View.{GoesHolding, DraftView};
ghost use Rattle.ufs_model.specs.declared.object.File.{File};
ghost use Rattle.ufs_model.specs.declared.object.Object.TheVariants as objects;

use crate::draft::{ObjectDraft, after};
use crate::flips::give_all;
use crate::freed::{DraftParts, list_from, undo_listed};
use crate::leaf::write_own;
use block_tree::{LEAVES, Node, Root, SIZE_LIMIT, Way};
use cfs_base::{BlockNo, Disk, Refused};
use cyl_alloc::Space;
use leaf_changes::leaves_in;

/// What a resize to less does.
///
/// It drops the leaves from one on, and before that may cut the leaf within which the file ends.
#[derive(Clone, Copy)]
struct Plan {
    /// The way to the last leaf that the file may have.
    way: Way,
    from: u32,
    cut: bool,
}

/// Returns whether a node holds a leaf in these places.
fn holds(node: &Node, from: u32, to: u32) -> bool
    requires { to ≤ leaf_pointers.count }
    ensures some { result ≡ true → (k : ℕ) × (from ≤ k) × (k < to) × (slice_index node.now.leaves k ≢ 0) }
    ensures none { result ≡ false → (k : ℕ) → from ≤ k → k < to → slice_index node.now.leaves k ≡ 0 }
{
    for place in from..to {
        if node.leaves[place as usize] != 0 {
            return true;
        }
    }
    false
}

/// Returns the leaf from which a draft drops its leaves, if it is to keep those before `to`.
///
/// `to` is in this node or at its end. If the result is within the node, the node keeps a leaf and drops one.
fn border(node: &Node, number: u32, to: u32) -> u32
    requires few { number < node_pointers.count }
    requires low { leaf_pointers.count * number ≤ to }
    requires high { to ≤ leaf_pointers.count * number + leaf_pointers.count }
    ensures { spec.IsBorder node.now.leaves number to result }
{
    let place = to - LEAVES as u32 * number;
    if !holds(node, 0, place) {
        return LEAVES as u32 * number;
    }
    if !holds(node, place, LEAVES as u32) {
        return LEAVES as u32 * number + LEAVES as u32;
    }
    to
}

/// Returns whether a leaf that this node holds is cut, if a file ends in one of the node's leaves.
fn is_cut(node: &Node, size: u64) -> bool
    ensures { spec.IsCutHere size node.now.leaves result }
{
    size % 512 != 0 && node.leaves[(size / 512) as usize % LEAVES] != 0
}

impl ObjectDraft {
    /// Returns how many blocks a resize to less takes, with the shadow root that a commit takes.
    ///
    /// They are one for its last leaf if that is cut and isn't fresh, and one for the node if it changes and isn't
    /// fresh.
    fn need_at(&self, cut: bool, from: u32, leaf: u32, node: u32) -> u32
        requires leaf { leaf < leaf_limit }
        requires node { node < node_pointers.count }
        ensures { result ≡ spec.shrink_takes self.now cut from leaf node + shadow_need self.now }
    {
        let stale = cut && !self.has_fresh_leaf(leaf);
        let changes = (stale || from % LEAVES as u32 != 0) && !self.has_fresh_node(node);
        stale as u32 + changes as u32 + self.shadow_need()
    }

    /// Writes the node of a leaf without its leaves from this one on, into a block of the draft's own.
    ///
    /// `root` is the draft's. It leads to that block then, and nowhere past it.
    fn put_short<D: Disk>(
        &self,
        disk: &mut D,
        space: &mut Space,
        way: &Way,
        from: u32,
        root: &mut Root,
    ) -> Result<BlockNo, Refused>
        requires size { D.blocks disk.old ≡ 64 * length space.old.free }
        requires below { from < leaf_limit }
        requires here { HasNode (from / leaf_pointers.count) way.now }
        requires safe { pointer_to_node self.now.root (from / leaf_pointers.count) < D.blocks disk.old }
        ensures puts { spec.PutsShort D.Disk from (way_leaves way.now) self.now
            disk.old disk.new space.old space.new result }
        ensures root { IfOk result (λ block. CutsRootPast root.old (from / leaf_pointers.count) block.0 root.new) }
    {
        let block = match self.node_block(disk, space, from / LEAVES as u32) {
            Ok(block) => block,
            Err(error) => return Err(error),
        };
        let mut way = *way;
        way.cut(root, from % LEAVES as u32, [block.0]);
        match write_own(disk, block, &way.node(0).encode()) {
            Ok(()) => Ok(block),
            Err(error) => Err(error),
        }
    }

    /// Writes the node as `put_short` does if the leaf is within its node.
    ///
    /// Else the root leads nowhere from that node on, and nothing is written.
    fn put_within<D: Disk>(
        &self,
        disk: &mut D,
        space: &mut Space,
        way: &Way,
        from: u32,
        root: &mut Root,
    ) -> Result<BlockNo, Refused>
        requires size { D.blocks disk.old ≡ 64 * length space.old.free }
        requires limit { from ≤ leaf_limit }
        requires here { from % leaf_pointers.count ≢ 0 → HasNode (from / leaf_pointers.count) way.now }
        requires safe { from % leaf_pointers.count ≢ 0
            → pointer_to_node self.now.root (from / leaf_pointers.count) < D.blocks disk.old }
        ensures puts { spec.PutsWithin D.Disk from (way_leaves way.now) self.now disk.old disk.new space.old space.new
            result }
        ensures root { IfOk result (λ block. spec.CutsRootAt from block.0 root.old root.new) }
    {
        if from % LEAVES as u32 == 0 {
            *root = root.cut(from / LEAVES as u32);
            return Ok(BlockNo(0));
        }
        self.put_short(disk, space, way, from, root)
    }

    /// Records that the draft has no leaf from `from` on, and this root.
    ///
    /// If that leaf is within a node, the node is the draft's own.
    fn forget(&mut self, from: u32, root: Root)
        requires limit { from ≤ leaf_limit }
        requires size { root.size ≤ size_limit }
        ensures { (block : ℕ) → spec.CutsRootAt from block self.old.root root
            → spec.Forgets from block self.old self.new }
    {
        self.root = root;
        self.leaves.clear_from(from);
        self.nodes.clear_from(from.div_ceil(LEAVES as u32));
        if from % LEAVES as u32 != 0 {
            self.nodes.put(from / LEAVES as u32, true);
        }
    }

    /// Drops the leaves from `from` on, with the nodes that have no leaf before it.
    ///
    /// Those that are the draft's own become Free.
    fn drop_from<D: Disk>(
        &mut self,
        disk: &mut D,
        space: &mut Space,
        way: &Way,
        from: u32,
    ) -> Result<(), Refused>
        requires size { D.blocks disk.old ≡ 64 * length space.old.free }
        requires some { 0 < D.blocks disk.old }
        requires limit { from ≤ leaf_limit }
        requires here { from % leaf_pointers.count ≢ 0 → HasNode (from / leaf_pointers.count) way.now }
        requires safe { IsSafe (D.blocks disk.old) self.old way.now }
        ensures goes { (v : DraftView D.Disk disk.old space.old self.old)
            → IsRead (D.content disk.old) self.old way.now
            → spec.KeepsOne from way.now → GoesHolding D.Disk v.graph (spec.DropsFrom D.Disk v.graph v.ds v.id from
            disk.old disk.new space.new self.old self.new) disk.old disk.new result }
        ensures calls { spec.DropCall D.Disk from disk.old disk.new space.old space.new self.old self.new result }
    {
        let parts = DraftParts {
            at: self.at,
            root: &self.root,
            leaves: &self.leaves,
            nodes: &self.nodes,
        };
        match list_from(disk, &parts, way, from, &mut self.taken) {
            Ok(()) => {}
            Err(trouble) => return Err(Refused::from(trouble)),
        }
        let mut root = self.root;
        match self.put_within(disk, space, way, from, &mut root) {
            Ok(_) => {}
            Err(error) => return Err(error),
        }
        match undo_listed(disk, space.known(), self.taken.as_slice()) {
            Ok(()) => {}
            Err(trouble) => return Err(after(from % LEAVES as u32 != 0, Refused::from(trouble))),
        }
        give_all(space, self.taken.as_slice());
        self.forget(from, root);
        Ok(())
    }

    /// Cuts the leaf within which a file of this size ends, if `cut` is set.
    fn cut_if<D: Disk>(
        &mut self,
        disk: &mut D,
        space: &mut Space,
        way: &mut Way,
        size: u64,
        cut: bool,
    ) -> Result<(), Refused>
        requires size { D.blocks disk.old ≡ 64 * length space.old.free }
        requires below { size < size_limit }
        requires some { 0 < D.blocks disk.old }
        requires safe { IsSafe (D.blocks disk.old) self.old way.old }
        ensures { spec.CutsIf D.Disk size cut disk.old disk.new space.old space.new self.old self.new way.old way.new
            result }
    {
        if !cut {
            return Ok(());
        }
        self.cut(disk, space, way, size)
    }

    /// Reads the node in which a file of less size ends.
    ///
    /// `Full` if fewer blocks are Free than the resize needs plus the floor.
    fn plan<D: Disk>(
        &self,
        disk: &mut D,
        space: &Space,
        size: u64,
        floor: u32,
    ) -> Result<Plan, Refused>
        requires on_disk { self.now.at < D.blocks disk.old }
        requires less { size < self.now.root.size }
        ensures planned { IfOk result (spec.IsPlan D.Disk size self.now disk.old disk.new) }
        ensures room { IfOk result (λ plan. spec.plan_needs size self.now plan + floor ≤ sum space.now.free) }
        ensures goes { (v : DraftView D.Disk disk.old space.now self.now)
            → IfErr result (λ e. GoesHolding {A = Unit {0}} D.Disk v.graph (Unit {0}) disk.old disk.new (Err e)) }
        ensures full { (v : DraftView D.Disk disk.old space.now self.now) (f : File) → v.draft.object ≡ objects.File f
            → IfErr result (λ e. is_full_refusal e ≡ true → spec.IsFullFor size floor v.draft space.now self.now e) }
        ensures calls { IfErr result (λ e.
            spec.ResizeCall D.Disk size floor disk.old disk.new space.now space.now self.now self.now (Err e)) }
    {
        prove!(self.root.size <= SIZE_LIMIT);
        let to = leaves_in(size);
        let last = to.saturating_sub(1);
        let number = last / LEAVES as u32;
        let mut way = Way::new();
        match self.turn_to(disk, &mut way, last) {
            Ok(_) => {}
            Err(trouble) => return Err(Refused::from(trouble)),
        }
        let from = border(way.node(0), number, to);
        let cut = is_cut(way.node(0), size);
        let need = self.need_at(cut, from, (size / 512) as u32, number);
        match space.has_room(need, floor) {
            Ok(()) => Ok(Plan { way, from, cut }),
            Err(full) => Err(full),
        }
    }

    /// Sets the size to less than it is.
    fn shrink<D: Disk>(
        &mut self,
        disk: &mut D,
        space: &mut Space,
        size: u64,
        floor: u32,
    ) -> Result<(), Refused>
        requires on_disk { self.old.at < D.blocks disk.old }
        requires size { D.blocks disk.old ≡ 64 * length space.old.free }
        requires less { size < self.old.root.size }
        ensures goes { (v : DraftView D.Disk disk.old space.old self.old) → GoesHolding D.Disk v.graph
            (spec.ResizesIfFile v size floor disk.new space.new self.new) disk.old disk.new result }
        ensures full { (v : DraftView D.Disk disk.old space.old self.old) (f : File) → v.draft.object ≡ objects.File f
            → IfErr result (λ e. is_full_refusal e ≡ true → spec.IsFullFor size floor v.draft space.old self.old e) }
        ensures calls { spec.ResizeCall D.Disk size floor disk.old disk.new space.old space.new self.old self.new
            result }
    {
        let plan = match self.plan(disk, space, size, floor) {
            Ok(plan) => plan,
            Err(error) => return Err(error),
        };
        let mut way = plan.way;
        match self.cut_if(disk, space, &mut way, size, plan.cut) {
            Ok(()) => {}
            Err(error) => return Err(error),
        }
        match self.drop_from(disk, space, &way, plan.from) {
            Ok(()) => {}
            Err(error) => return Err(after(plan.cut, error)),
        }
        self.root.size = size;
        Ok(())
    }

    /// Sets the size of a file, in bytes.
    ///
    /// If it is set to less, the leaves past the size are dropped, and those that are the draft's own become Free.
    /// `Full` if fewer blocks are Free than the resize needs, with the shadow root that a commit takes if there is
    /// none, plus the floor. Nothing was written then. Never `Memory`.
    pub fn resize<D: Disk>(
        &mut self,
        disk: &mut D,
        space: &mut Space,
        size: u64,
        floor: u32,
    ) -> Result<(), Refused>
        requires on_disk { self.old.at < D.blocks disk.old }
        requires size { D.blocks disk.old ≡ 64 * length space.old.free }
        requires limit { size ≤ size_limit }
        ensures goes { (v : DraftView D.Disk disk.old space.old self.old) → GoesHolding D.Disk v.graph
            (spec.ResizesIfFile v size floor disk.new space.new self.new) disk.old disk.new result }
        // It is full exactly if the model's need plus the floor isn't Free.
        ensures full { (v : DraftView D.Disk disk.old space.old self.old) (f : File) → v.draft.object ≡ objects.File f
            → IfErr result (λ e. is_full_refusal e ≡ true → spec.IsFullFor size floor v.draft space.old self.old e) }
        ensures call { spec.ResizeCall D.Disk size floor disk.old disk.new space.old space.new self.old self.new
            result }
        // If the size is set to no less than it is, the disk isn't touched.
        ensures grown { self.old.root.size ≤ size → (disk.new ≡ disk.old) × (space.new ≡ space.old) }
    {
        if self.root.size <= size {
            return self.grow(space, size, floor);
        }
        self.shrink(disk, space, size, floor)
    }
}
