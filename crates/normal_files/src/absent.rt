//! Blocks taken for leaves that are absent, and for their node.
ghost use Rattle.std.specs.Prelude.{◌≡◌, ◌≢◌, ℕ, ◌+◌, ◌-◌, ◌*◌, ◌<◌, ◌≤◌, true, false, List, length, Ok, IfOk};
ghost use Rattle.block_tree.specs.Pointers.{leaf_limit, node_pointers};
ghost use Rattle.block_tree.specs.declared.root.Root as roots;
ghost use Rattle.cyl_alloc.specs.Space.{Kept};
ghost use Rattle.normal_files.specs.Ends.{Finishes, refused_after};
ghost use Rattle.normal_files.specs.Laid.{node_of};
ghost use Rattle.normal_files.specs.Links.{linked_root};
ghost use Rattle.normal_files.specs.Parts.{IsReadPart, part_need};
ghost use Rattle.normal_files.specs.Plans.{plan_of};
ghost use Rattle.normal_files.specs.Takes as spec;
ghost use Rattle.normal_files.specs.Ways.{IsToNode};
ghost use Rattle.block_tree.specs.Along.{way_leaves};

use crate::in_place::write_block;
use crate::lowest::way_node;
use crate::next::Next;
use crate::part::Part;
use block_tree::{LEAVES, Root};
use cfs_base::{Block, BlockNo, Disk, Place, Refused};
use cyl_alloc::Space;
use leaf_changes::patch_leaf;

/// Bytes that are written into the file with this root, at an offset.
#[derive(Clone, Copy)]
pub(crate) struct Patch<'a> {
    pub at: BlockNo,
    pub root: &'a Root,
    pub offset: u64,
    pub bytes: &'a [u8],
}

/// The block of a leaf that was taken, and that of its node.
#[derive(Clone, Copy)]
pub(crate) struct Taken {
    pub leaf: u32,
    pub node: u32,
}

/// Returns the same refusal, as of a call that may have tried a write before.
pub(crate) fn refused(tried: bool, error: Refused) -> Refused
    ensures { result ≡ refused_after tried error }
{
    if tried { error.after_try() } else { error }
}

/// Returns the block of a node, and takes one if the node has none.
fn take_node<D: Disk>(
    disk: &mut D,
    space: &mut Space,
    at: BlockNo,
    number: u32,
    held: bool,
    block: u32,
) -> Result<BlockNo, Refused>
    requires size { D.blocks disk.old ≡ 64 * length space.old.free }
    requires some { at.0 ≢ 0 }
    requires below { number < node_pointers.count }
    ensures { spec.GetsNode D.Disk number at.0 held block disk.old disk.new space.old space.new result }
{
    if held {
        return Ok(BlockNo(block));
    }
    space.claim(disk, Place::Node(number as u16), at.0)
}

impl Patch<'_> {
    /// Takes a block for an absent leaf, and after it one for its node if that has none, and writes the leaf.
    fn take_leaf<D: Disk>(
        &self,
        disk: &mut D,
        space: &mut Space,
        leaf: u32,
        held: bool,
        block: u32,
    ) -> Result<Taken, Refused>
        requires size { D.blocks disk.old ≡ 64 * length space.old.free }
        requires some { self.now.at.0 ≢ 0 }
        requires below { leaf < leaf_limit }
        ensures takes { spec.TakesBlocks D.Disk self.now.at.0 self.now.offset self.now.bytes.now disk.old disk.new
            space.old space.new result (λ a c taken.
            spec.TakesLeaf a c self.now.at.0 leaf held block taken.leaf taken.node
            (spec.fresh_content self.now.root.now.fill leaf self.now.offset self.now.bytes.now)) }
        ensures near { block < D.blocks disk.old → IfOk result (λ taken. taken.node < D.blocks disk.old) }
        ensures kept { held ≡ true → IfOk result (λ taken. taken.node ≡ block) }
        ensures ends { Finishes D.Disk 5 3 (spec.leaf_takes held) disk.old disk.new space.old space.new result (λ taken.
            true) }
    {
        let leaf_block = space.claim(disk, Place::Leaf(leaf), self.at.0)?;
        let node = take_node(disk, space, self.at, leaf / LEAVES as u32, held, block).map_err(
            Refused::after_try,
        )?;
        let mut content = Block::of([self.root.fill; 512]);
        patch_leaf(&mut content, leaf, self.offset, self.bytes);
        write_block(disk, leaf_block.0, &content)?;
        Ok(Taken {
            leaf: leaf_block.0,
            node: node.0,
        })
    }
}

impl Part {
    /// Takes one of the leaves, if it is absent.
    fn take_one<D: Disk>(
        &self,
        disk: &mut D,
        space: &mut Space,
        patch: &Patch<'_>,
        leaf: u32,
        next: Next,
    ) -> Result<Next, Refused>
        requires size { D.blocks disk.old ≡ 64 * length space.old.free }
        requires some { patch.now.at.0 ≢ 0 }
        requires read { IsReadPart (D.blocks disk.old) self.now }
        requires from { self.now.leaves.from ≤ leaf }
        requires to { leaf < self.now.leaves.to }
        requires way { IsToNode leaf next.way }
        ensures takes { (d : D) (kept : Kept)
            → spec.TakesBlocks D.Disk patch.now.at.0 patch.now.offset patch.now.bytes.now d disk.old kept space.old
            (Ok next) (λ a c now.
            spec.HasTaken a c patch.now.at.0 patch.now.root.now.fill patch.now.offset patch.now.bytes.now
            self.now (node_of patch.now.root.now self.now.number) leaf (plan_of self.now.number now))
            → spec.TakesBlocks D.Disk patch.now.at.0 patch.now.offset patch.now.bytes.now d disk.new kept space.new
            result (λ a c now.
            spec.HasTaken a c patch.now.at.0 patch.now.root.now.fill patch.now.offset patch.now.bytes.now
            self.now (node_of patch.now.root.now self.now.number) (leaf + 1) (plan_of self.now.number now)) }
        ensures near { node_of next.root self.now.number < D.blocks disk.old
            → IfOk result (λ more. node_of more.root self.now.number < D.blocks disk.old) }
        ensures way { IfOk result (λ more. IsToNode leaf more.way) }
        ensures root { (lead : roots.Root)
            → node_of lead self.now.number ≡ node_of patch.now.root.now self.now.number
            → next.root ≡ linked_root lead self.now.number (plan_of self.now.number next)
            → IfOk result (λ more. more.root ≡ linked_root lead self.now.number (plan_of self.now.number more)) }
        ensures ends { spec.Passes D.Disk (node_of patch.now.root.now self.now.number) (way_leaves self.now.way) leaf
            next disk.old disk.new space.old space.new result }
        ensures size { D.blocks disk.new ≡ D.blocks disk.old }
        ensures cylinders { length space.new.free ≡ length space.old.free }
        ensures left { space.new.left ≡ space.old.left }
    {
        if self.block(leaf) != 0 {
            return Ok(next);
        }
        let held = next.is_held(patch.root.nodes[self.number as usize]);
        let taken = patch.take_leaf(disk, space, leaf, held, next.block(self.number))?;
        Ok(next.with(leaf, taken))
    }

    /// Takes each of the leaves that is absent, in increasing order.
    ///
    /// The root that is to lead to them leads to the node as the file's own does.
    fn take_leaves<D: Disk>(
        &self,
        disk: &mut D,
        space: &mut Space,
        patch: &Patch<'_>,
        lead: Root,
    ) -> Result<Next, Refused>
        requires size { D.blocks disk.old ≡ 64 * length space.old.free }
        requires some { patch.now.at.0 ≢ 0 }
        requires read { IsReadPart (D.blocks disk.old) self.now }
        requires near { self.now.leaves.from < self.now.leaves.to
            → node_of patch.now.root.now self.now.number < D.blocks disk.old }
        requires stays { node_of patch.now.root.now self.now.number ≢ 0
            → node_of lead self.now.number ≡ node_of patch.now.root.now self.now.number }
        requires leads { self.now.leaves.from < self.now.leaves.to
            → node_of lead self.now.number ≡ node_of patch.now.root.now self.now.number }
        ensures takes { spec.TakesBlocks D.Disk patch.now.at.0 patch.now.offset patch.now.bytes.now disk.old disk.new
            space.old space.new result (λ a c next.
            spec.HasTaken a c patch.now.at.0 patch.now.root.now.fill patch.now.offset patch.now.bytes.now self.now
            (node_of patch.now.root.now self.now.number) self.now.leaves.to (plan_of self.now.number next)) }
        ensures near { IfOk result (λ next. next.grown ≡ true
            → node_of next.root self.now.number < D.blocks disk.old) }
        ensures root { IfOk result (λ next.
            next.root ≡ linked_root lead self.now.number (plan_of self.now.number next)) }
        ensures ends { Finishes D.Disk (5 * (self.now.leaves.to - self.now.leaves.from))
            (3 * (self.now.leaves.to - self.now.leaves.from)) (part_need patch.now.root.now self.now)
            disk.old disk.new space.old space.new result (λ next. next.grown) }
        ensures size { D.blocks disk.new ≡ D.blocks disk.old }
        ensures cylinders { length space.new.free ≡ length space.old.free }
        ensures left { space.new.left ≡ space.old.left }
    {
        let mut next = Next {
            way: self.way,
            root: lead,
            grown: false,
        };
        for leaf in self.leaves.from..self.leaves.to {
            next = self
                .take_one(disk, space, patch, leaf, next)
                .map_err(|error| refused(next.grown, error))?;
        }
        Ok(next)
    }

    /// Takes each of the leaves that is absent, and writes the node if it is new.
    ///
    /// Nothing leads to that node yet.
    pub fn take<D: Disk>(
        &self,
        disk: &mut D,
        space: &mut Space,
        patch: &Patch<'_>,
        lead: Root,
    ) -> Result<Next, Refused>
        requires size { D.blocks disk.old ≡ 64 * length space.old.free }
        requires some { patch.now.at.0 ≢ 0 }
        requires read { IsReadPart (D.blocks disk.old) self.now }
        requires near { self.now.leaves.from < self.now.leaves.to
            → node_of patch.now.root.now self.now.number < D.blocks disk.old }
        requires stays { node_of patch.now.root.now self.now.number ≢ 0
            → node_of lead self.now.number ≡ node_of patch.now.root.now self.now.number }
        requires leads { self.now.leaves.from < self.now.leaves.to
            → node_of lead self.now.number ≡ node_of patch.now.root.now self.now.number }
        ensures takes { spec.TakesBlocks D.Disk patch.now.at.0 patch.now.offset patch.now.bytes.now disk.old disk.new
            space.old space.new result (λ a c next.
            spec.HasTaken a c patch.now.at.0 patch.now.root.now.fill patch.now.offset patch.now.bytes.now self.now
            (node_of patch.now.root.now self.now.number) self.now.leaves.to (plan_of self.now.number next)
            × spec.IsWhole c (node_of patch.now.root.now self.now.number) (plan_of self.now.number next)) }
        ensures near { IfOk result (λ next. next.grown ≡ true
            → node_of next.root self.now.number < D.blocks disk.old) }
        ensures root { IfOk result (λ next.
            next.root ≡ linked_root lead self.now.number (plan_of self.now.number next)) }
        ensures ends { Finishes D.Disk (5 * (self.now.leaves.to - self.now.leaves.from) + 1)
            (3 * (self.now.leaves.to - self.now.leaves.from) + 1) (part_need patch.now.root.now self.now)
            disk.old disk.new space.old space.new result (λ next. next.grown) }
        ensures size { D.blocks disk.new ≡ D.blocks disk.old }
        ensures cylinders { length space.new.free ≡ length space.old.free }
        ensures left { space.new.left ≡ space.old.left }
    {
        let next = self.take_leaves(disk, space, patch, lead)?;
        if !next.is_new(patch.root.nodes[self.number as usize]) {
            return Ok(next);
        }
        write_block(disk, next.block(self.number), &way_node(&next.way).encode())?;
        Ok(next)
    }
}
