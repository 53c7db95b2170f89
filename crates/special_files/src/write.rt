//! How bytes are written into a draft.
ghost use Rattle.std.specs.Prelude.{◌≡◌, ◌+◌, ◌-◌, ◌*◌, ◌/◌, ◌<◌, ◌≤◌, length, IfOk};
ghost use Rattle.block_tree.specs.Pointers.{leaf_limit, size_limit};
ghost use Rattle.cyl_alloc.specs.Space.{Kept};
ghost use Rattle.leaf_changes.specs.Bytes as changes;
ghost use Rattle.special_files.specs.Drafting as drafting;
ghost use Rattle.special_files.specs.Drafting.{leaves_take, shadow_need};
ghost use Rattle.special_files.specs.Leaves.{leaves_below};
ghost use Rattle.special_files.specs.Nodes.{IsRead, IsSafe, TurnsTo};
ghost use Rattle.special_files.specs.Puts.{PutsLeaf, LeafCall};
ghost use Rattle.special_files.specs.View.{GoesHolding, DraftView};
ghost use Rattle.special_files.specs.Writes.{WriteCall, WritesDraft};
ghost use Rattle.ufs_model.specs.Object as spec;
ghost use Rattle.vol_image.specs.Reading.{leaf_content};

use crate::draft::{ObjectDraft, after};
use block_tree::{LEAVES, SIZE_LIMIT, Way};
use cfs_base::{Block, Disk, Refused, Trouble};
use cyl_alloc::Space;
use leaf_changes::{leaves_in, patch_leaf};

/// Bytes that are written at an offset.
#[derive(Drop)]
struct Patch<'a> {
    offset: u64,
    bytes: &'a [u8],
}

impl ObjectDraft {
    /// Returns how many blocks it takes to write these leaves, with the shadow root that a commit takes.
    fn need_to_write(&self, from: u32, to: u32) -> u32
        requires order { from ≤ to }
        requires within { to ≤ leaf_limit }
        ensures some { from < to → result ≡ leaves_take self.now from to + drafting.shadow_need self.now }
        ensures none { to ≤ from → result ≡ drafting.shadow_need self.now }
    {
        if from == to {
            return self.shadow_need();
        }
        let leaves = self.leaves.lacking(from, to);
        let nodes = self
            .nodes
            .lacking(from / LEAVES as u32, to.div_ceil(LEAVES as u32));
        leaves + nodes + self.shadow_need()
    }

    /// Returns the content of a leaf once these bytes are written at the offset.
    ///
    /// The leaf is read if they don't cover it.
    fn patched<D: Disk>(
        &self,
        disk: &mut D,
        way: &mut Way,
        leaf: u32,
        patch: &Patch<'_>,
    ) -> Result<Block, Trouble>
        requires below { leaf < leaf_limit }
        requires end { patch.now.offset + length patch.now.bytes.now ≤ size_limit }
        requires some { 0 < D.blocks disk.old }
        requires safe { IsSafe (D.blocks disk.old) self.now way.old }
        ensures bytes { (kept : Kept) (v : DraftView D.Disk disk.old kept self.now)
            → IsRead (D.content disk.old) self.now way.old
            → IfOk result (λ content. content ≡ changes.patched leaf patch.now.offset patch.now.bytes.now
            (leaf_content self.now.root.fill (leaves_below (D.content disk.old) self.now.root leaf))) }
        ensures turns { TurnsTo D.Disk self.now leaf 2 disk.old disk.new way.old way.new result }
    {
        let start = 512 * leaf as u64;
        let mut content = Block::zero();
        if patch.offset <= start && start + 512 <= patch.offset + patch.bytes.len() as u64 {
            self.turn_to(disk, way, leaf)?;
        } else {
            content = self.leaf_bytes(disk, way, leaf)?;
        }
        patch_leaf(&mut content, leaf, patch.offset, patch.bytes);
        Ok(content)
    }

    /// Writes the bytes at the offset into one leaf.
    fn write_leaf<D: Disk>(
        &mut self,
        disk: &mut D,
        space: &mut Space,
        way: &mut Way,
        leaf: u32,
        patch: &Patch<'_>,
    ) -> Result<(), Refused>
        requires size { D.blocks disk.old ≡ 64 * length space.old.free }
        requires below { leaf < leaf_limit }
        requires end { patch.now.offset + length patch.now.bytes.now ≤ size_limit }
        requires some { 0 < D.blocks disk.old }
        requires safe { IsSafe (D.blocks disk.old) self.old way.old }
        ensures goes { (v : DraftView D.Disk disk.old space.old self.old)
            → IsRead (D.content disk.old) self.old way.old
            → leaf < spec.leaves_in self.old.root.size
            → patch.now.offset + length patch.now.bytes.now ≤ self.old.root.size
            → GoesHolding D.Disk v.graph (PutsLeaf D.Disk v.graph v.ds v.id leaf
            (changes.patched leaf patch.now.offset patch.now.bytes.now
            (leaf_content self.old.root.fill (leaves_below (D.content disk.old) self.old.root leaf)))
            disk.old disk.new space.new self.old self.new way.new) disk.old disk.new result }
        ensures calls { LeafCall D.Disk 8 leaf disk.old disk.new space.old space.new self.old self.new way.new result }
    {
        let content = self.patched(disk, way, leaf, patch)?;
        self.put_leaf(disk, space, way, leaf, &content)
    }

    /// Writes bytes of a file within its size, at an offset in bytes.
    ///
    /// `Full` if fewer blocks are Free than the write needs, with the shadow root that a commit takes if there is
    /// none, plus the floor. Nothing was written then. Never `Memory`.
    pub fn write<D: Disk>(
        &mut self,
        disk: &mut D,
        space: &mut Space,
        offset: u64,
        bytes: &[u8],
        floor: u32,
    ) -> Result<(), Refused>
        requires on_disk { self.old.at < D.blocks disk.old }
        requires size { D.blocks disk.old ≡ 64 * length space.old.free }
        requires within { offset + length bytes.now ≤ self.old.root.size }
        ensures goes { (v : DraftView D.Disk disk.old space.old self.old) → GoesHolding D.Disk v.graph
            (WritesDraft v offset bytes.now disk.new space.new self.new) disk.old disk.new result }
        ensures call { WriteCall D.Disk offset bytes.now floor disk.old disk.new space.old space.new self.old self.new
            result }
    {
        prove!(self.root.size <= SIZE_LIMIT);
        let from = (offset / 512) as u32;
        let to = leaves_in(offset + bytes.len() as u64);
        space.has_room(self.need_to_write(from, to), floor)?;
        let patch = Patch { offset, bytes };
        let mut way = Way::new();
        for leaf in from..to {
            self.write_leaf(disk, space, &mut way, leaf, &patch)
                .map_err(|error| after(leaf > from, error))?;
        }
        Ok(())
    }
}
