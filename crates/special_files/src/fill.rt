//! A slot of an index filled or emptied in a draft.
ghost use Rattle.std.specs.Prelude.{◌≡◌, ◌+◌, ◌*◌, ◌/◌, ◌<◌, ◌≤◌, ◌&&◌, is_none, length};
ghost use Rattle.leaf_changes.specs.Bytes.{IsSlot};
ghost use Rattle.special_files.specs.Fills.{FillCall, FillsIfIndex};
ghost use Rattle.special_files.specs.View.{DraftView, GoesTo};
ghost use Rattle.vol_image.specs.Reading.{slot_in};

use crate::draft::ObjectDraft;
use block_tree::{SIZE_LIMIT, Way};
use cfs_base::{Block, Disk, Puid, Refused};
use cyl_alloc::Space;
use leaf_changes::{put_slot, slot_at};

/// What was put into a draft: a leaf.
#[derive(Debug, Clone, Copy)]
pub struct Swap {
    /// The number of the leaf.
    pub leaf: u32,
    /// The block that the leaf was in, or 0 if it was absent.
    pub was: u32,
    /// The block that the leaf is in.
    pub is: u32,
}

/// Returns whether a slot of this leaf is to be emptied, and is empty.
fn is_empty_already(content: &Block, slot: usize, what: Option<Puid>) -> bool
    requires { slot < 64 }
    ensures { result ≡ (is_none what && is_none (slot_in content.now slot)) }
{
    what.is_none() && slot_at(content, slot).is_none()
}

impl ObjectDraft {
    /// Puts an identifier into a slot of an index, or empties the slot, and returns what was put.
    ///
    /// Only the slot's leaf is read, and it is put into the draft with this in it. Returns `None` if the slot is to
    /// be emptied and is empty: nothing is done then. It keeps no floor, and is never refused with `Memory`.
    pub fn fill<D: Disk>(
        &mut self,
        disk: &mut D,
        space: &mut Space,
        slot: u64,
        what: Option<Puid>,
    ) -> Result<Option<Swap>, Refused>
        requires on_disk { self.old.at < D.blocks disk.old }
        requires size { D.blocks disk.old ≡ 64 * length space.old.free }
        requires within { 8 * slot + 8 ≤ self.old.root.size }
        requires slot { IsSlot what }
        ensures goes { (v : DraftView D.Disk disk.old space.old self.old) → GoesTo D.Disk v.graph
            (FillsIfIndex v slot what disk.new space.new self.new) disk.old disk.new result }
        ensures call { FillCall D.Disk slot what disk.old disk.new space.old space.new self.old self.new result }
    {
        prove!(self.root.size <= SIZE_LIMIT);
        let leaf = (slot / 64) as u32;
        let place = (slot % 64) as usize;
        let mut way = Way::new();
        let mut content = self.leaf_bytes(disk, &mut way, leaf)?;
        if is_empty_already(&content, place, what) {
            return Ok(None);
        }
        put_slot(&mut content, place, what);
        let was = way.end(&self.root);
        self.put_leaf(disk, space, &mut way, leaf, &content)?;
        let is = way.end(&self.root);
        Ok(Some(Swap { leaf, was, is }))
    }
}
