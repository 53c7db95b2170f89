//! How a draft is read.
ghost use Rattle.std.specs.Prelude.{◌≡◌, ◌+◌, ◌-◌, ◌*◌, ◌/◌, ◌<◌, ◌≤◌, length, IfOk};
ghost use Rattle.block_tree.specs.Pointers.{leaf_limit};
ghost use Rattle.cyl_alloc.specs.Space.{Kept};
ghost use Rattle.intentions.specs.Left.{StoreIs};
ghost use Rattle.special_files.specs.Leaves.{leaves_below};
ghost use Rattle.special_files.specs.Looks.{ReadCall, ReadsDraft};
ghost use Rattle.special_files.specs.Nodes.{IsRead, IsSafe, TurnsTo};
ghost use Rattle.special_files.specs.View.{DraftSeen, HasTree};
ghost use Rattle.ufs_model.specs.Graph.{Graph};
ghost use Rattle.ufs_model.specs.Object as spec;
ghost use Rattle.vol_image.specs.Reading.{leaf_content};
ghost use Rattle.vol_owners.specs.Account.{Drafts};

use crate::draft::ObjectDraft;
use block_tree::{SIZE_LIMIT, Way, read_block};
use cfs_base::{Block, Disk, Trouble};
use leaf_changes::{leaves_in, read_part};

impl ObjectDraft {
    /// Reads a leaf.
    pub(crate) fn leaf_bytes<D: Disk>(
        &self,
        disk: &mut D,
        way: &mut Way,
        leaf: u32,
    ) -> Result<Block, Trouble>
        requires below { leaf < leaf_limit }
        requires some { 0 < D.blocks disk.old }
        requires safe { IsSafe (D.blocks disk.old) self.now way.old }
        ensures bytes { HasTree D.Disk disk.old self.now → IsRead (D.content disk.old) self.now way.old
            → IfOk result (λ content. content ≡ leaf_content self.now.root.fill
            (leaves_below (D.content disk.old) self.now.root leaf)) }
        ensures turns { TurnsTo D.Disk self.now leaf 2 disk.old disk.new way.old way.new result }
    {
        let block = self.turn_to(disk, way, leaf)?;
        read_block(disk, block, self.root.fill)
    }

    /// Reads a part of a file, beginning at an offset in bytes.
    ///
    /// `Damaged` names the root block, or a node, with code 4, if a pointer of it leads past the disk.
    pub fn read<D: Disk>(&self, disk: &mut D, offset: u64, into: &mut [u8]) -> Result<(), Trouble>
        requires on_disk { self.now.at < D.blocks disk.old }
        requires within { offset + length into.old ≤ self.now.root.size }
        ensures reads { (v : DraftSeen D.Disk disk.old self.now)
            → ReadsDraft v offset into.old into.new result }
        ensures long { length into.new ≡ length into.old }
        ensures store { (graph : Graph) (ds : Drafts) (space : Kept) → StoreIs D.Disk graph ds disk.old space
            → StoreIs D.Disk graph ds disk.new space }
        ensures call { ReadCall D.Disk (2 * (spec.leaves_in (offset + length into.old) - offset / 512)) disk.old
            disk.new self.now result }
    {
        prove!(self.root.size <= SIZE_LIMIT);
        let mut way = Way::new();
        for leaf in (offset / 512) as u32..leaves_in(offset + into.len() as u64) {
            let content = self.leaf_bytes(disk, &mut way, leaf)?;
            read_part(&content, leaf, offset, into);
        }
        Ok(())
    }
}
