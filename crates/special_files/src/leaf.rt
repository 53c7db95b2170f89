//! One leaf put into a draft.
ghost use Rattle.std.specs.Prelude.{◌≡◌, ◌≢◌, ℕ, ◌*◌, ◌^◌, ◌<◌, ◌≤◌, length};
ghost use Rattle.block_tree.specs.Along.{IsTo};
ghost use Rattle.block_tree.specs.Pointers.{leaf_limit, node_pointers, size_limit};
ghost use Rattle.cyl_alloc.specs.Enters.{Enters};
ghost use Rattle.cyl_alloc.specs.Space.{intended};
ghost use Rattle.cyl_map.specs.Entry.{IsEntry};
ghost use Rattle.special_files.specs.Calls as spec;
ghost use Rattle.special_files.specs.Nodes.{IsRead, IsSafe};
ghost use Rattle.special_files.specs.Puts.{FitsLeaf, LeafCall, PutsLeaf};
ghost use Rattle.special_files.specs.View.{GoesHolding, DraftView};

use crate::draft::ObjectDraft;
use block_tree::{LEAVES, Root, Way};
use cfs_base::{Block, BlockNo, Disk, Place, Refused};
use cyl_alloc::Space;

/// Writes a block of the draft's own.
pub(crate) fn write_own<D: Disk>(
    disk: &mut D,
    block: BlockNo,
    content: &Block,
) -> Result<(), Refused>
    requires { block.0 < D.blocks disk.old }
    ensures { spec.WritesDraftBlock D.Disk block.0 content.now disk.old disk.new result }
{
    disk.write(block, content)
        .map_err(|_| Refused::Disk { tried: true })
}

impl ObjectDraft {
    /// Claims the least-numbered Free block for the draft.
    pub(crate) fn claim<D: Disk>(
        &self,
        disk: &mut D,
        space: &mut Space,
        place: Place,
    ) -> Result<BlockNo, Refused>
        requires size { D.blocks disk.old ≡ 64 * length space.old.free }
        requires entry { (owner : ℕ) → owner ≢ 0 → owner < 2 ^ 32 → IsEntry (intended place owner) }
        ensures { Enters D.Disk (intended place self.now.at) disk.old disk.new space.old space.new result }
    {
        space.intend(disk, place, self.at.0)
    }

    /// Returns the block of a node of the draft's own. It is claimed if the draft has none.
    pub(crate) fn node_block<D: Disk>(
        &self,
        disk: &mut D,
        space: &mut Space,
        node: u32,
    ) -> Result<BlockNo, Refused>
        requires size { D.blocks disk.old ≡ 64 * length space.old.free }
        requires below { node < node_pointers.count }
        ensures { spec.GetsDraftNode D.Disk node disk.old disk.new space.old space.new self.now result }
    {
        if self.has_fresh_node(node) {
            return Ok(BlockNo(self.root.nodes[node as usize]));
        }
        self.claim(disk, space, Place::Node(node as u16))
    }

    /// Puts a leaf with this content into the draft.
    ///
    /// If the draft has no leaf of its own a block is claimed for it, and then one for its node if that needs one.
    /// The way leads to the leaf, and still does afterwards.
    pub(crate) fn put_leaf<D: Disk>(
        &mut self,
        disk: &mut D,
        space: &mut Space,
        way: &mut Way,
        leaf: u32,
        content: &Block,
    ) -> Result<(), Refused>
        requires size { D.blocks disk.old ≡ 64 * length space.old.free }
        requires below { leaf < leaf_limit }
        requires to { IsTo leaf way.old }
        requires safe { IsSafe (D.blocks disk.old) self.old way.old }
        ensures goes { (v : DraftView D.Disk disk.old space.old self.old)
            → IsRead (D.content disk.old) self.old way.old
            → FitsLeaf self.old.root leaf content.now → GoesHolding D.Disk v.graph
            (PutsLeaf D.Disk v.graph v.ds v.id leaf content.now
            disk.old disk.new space.new self.old self.new way.new) disk.old disk.new result }
        ensures calls { LeafCall D.Disk 6 leaf disk.old disk.new space.old space.new self.old self.new way.new result }
    {
        if self.has_fresh_leaf(leaf) {
            return write_own(disk, BlockNo(way.end(&self.root)), content);
        }
        let block = match self.claim(disk, space, Place::Leaf(leaf)) {
            Ok(block) => block,
            Err(error) => return Err(error),
        };
        let node = match self.node_block(disk, space, leaf / LEAVES as u32) {
            Ok(node) => node,
            Err(error) => return Err(error.after_try()),
        };
        match write_own(disk, block, content) {
            Ok(()) => {}
            Err(error) => return Err(error),
        }
        let mut root = self.root;
        way.put(&mut root, [node.0, block.0]);
        match write_own(disk, node, &way.node(0).encode()) {
            Ok(()) => {}
            Err(error) => return Err(error),
        }
        self.add(leaf, &root);
        Ok(())
    }

    /// Records that a leaf is the draft's own from now on, and so is its node, to which this root leads.
    fn add(&mut self, leaf: u32, root: &Root)
        requires below { leaf < leaf_limit }
        requires size { root.now.size ≤ size_limit }
        ensures { spec.Adopts leaf root.now self.old self.new }
    {
        self.root = *root;
        self.leaves.put(leaf, true);
        self.nodes.put(leaf / LEAVES as u32, true);
    }
}
