//! Changes of a draft's size.
ghost use Rattle.std.specs.Prelude.{◌≡◌, ◌+◌, ◌*◌, ◌/◌, ◌<◌, ◌≤◌, length, sum, IfErr, IfOk, OnOk};
ghost use Rattle.block_tree.specs.Pointers.{size_limit};
ghost use Rattle.cfs_base.specs.declared.refusal.Refused.TheVariants as refused;
ghost use Rattle.cyl_alloc.specs.Space.{Kept};
ghost use Rattle.leaf_changes.specs.Bytes as changes;
ghost use Rattle.special_files.specs.Drafting.{shadow_need};
ghost use Rattle.special_files.specs.Leaves.{leaves_below};
ghost use Rattle.special_files.specs.Nodes.{IsRead, IsSafe, TurnsTo};
ghost use Rattle.special_files.specs.Puts.{CutsLeaf, LeafCall};
ghost use Rattle.special_files.specs.Shed.{sized};
ghost use Rattle.special_files.specs.View.{GoesHolding, DraftView};
ghost use Rattle.vol_image.specs.Reading.{leaf_content};

use crate::draft::ObjectDraft;
use block_tree::Way;
use cfs_base::{Block, Disk, Refused, Trouble};
use cyl_alloc::Space;
use leaf_changes::cut_leaf;

impl ObjectDraft {
    /// Sets the size to no less than it is. That takes only the shadow root.
    pub(crate) fn grow(&mut self, space: &Space, size: u64, floor: u32) -> Result<(), Refused>
        requires { size ≤ size_limit }
        ensures done { OnOk result ((self.new ≡ sized self.old size)
            × (shadow_need self.old + floor ≤ sum space.now.free)) }
        ensures full { IfErr result (λ e.
            (e ≡ refused.Full (record { free = sum space.now.free; need = shadow_need self.old }))
            × (sum space.now.free < shadow_need self.old + floor)) }
        ensures kept { IfErr result (λ e. self.new ≡ self.old) }
    {
        space.has_room(self.shadow_need(), floor)?;
        self.root.size = size;
        Ok(())
    }

    /// Returns the content of the leaf in which a file of this size ends, with fill bytes from the file's end on.
    fn cut_bytes<D: Disk>(&self, disk: &mut D, way: &mut Way, size: u64) -> Result<Block, Trouble>
        requires below { size < size_limit }
        requires some { 0 < D.blocks disk.old }
        requires safe { IsSafe (D.blocks disk.old) self.now way.old }
        ensures bytes { (kept : Kept) (v : DraftView D.Disk disk.old kept self.now)
            → IsRead (D.content disk.old) self.now way.old
            → IfOk result (λ content. content ≡ changes.cut size self.now.root.fill
            (leaf_content self.now.root.fill (leaves_below (D.content disk.old) self.now.root (size / 512)))) }
        ensures turns { TurnsTo D.Disk self.now (size / 512) 2 disk.old disk.new way.old way.new result }
    {
        let mut content = self.leaf_bytes(disk, way, (size / 512) as u32)?;
        cut_leaf(&mut content, size, self.root.fill);
        Ok(content)
    }

    /// Cuts the leaf within which a file of this size ends.
    pub(crate) fn cut<D: Disk>(
        &mut self,
        disk: &mut D,
        space: &mut Space,
        way: &mut Way,
        size: u64,
    ) -> Result<(), Refused>
        requires size { D.blocks disk.old ≡ 64 * length space.old.free }
        requires below { size < size_limit }
        requires some { 0 < D.blocks disk.old }
        requires safe { IsSafe (D.blocks disk.old) self.old way.old }
        ensures goes { (v : DraftView D.Disk disk.old space.old self.old)
            → IsRead (D.content disk.old) self.old way.old
            → size < self.old.root.size → GoesHolding D.Disk v.graph (CutsLeaf D.Disk v.graph v.ds v.id size
            disk.old disk.new space.new self.old self.new way.new) disk.old disk.new result }
        ensures calls { LeafCall D.Disk 8 (size / 512)
            disk.old disk.new space.old space.new self.old self.new way.new result }
    {
        let content = self.cut_bytes(disk, way, size)?;
        self.put_leaf(disk, space, way, (size / 512) as u32, &content)
    }
}
