//! A slot of an index in a draft: what it holds, and how many blocks it takes to fill it.
ghost use Rattle.std.specs.Prelude.{◌≡◌, ◌+◌, ◌*◌, ◌/◌, ◌<◌, ◌≤◌};
ghost use Rattle.special_files.specs.Drafting.{draft_takes};
ghost use Rattle.special_files.specs.Looks.{FindsSlot, ReadCall};
ghost use Rattle.special_files.specs.View.{DraftSeen};

use crate::draft::ObjectDraft;
use block_tree::{LEAVES, SIZE_LIMIT, Way};
use cfs_base::{Disk, Puid, Trouble};
use leaf_changes::slot_at;

impl ObjectDraft {
    /// Returns how many blocks `fill` takes for this slot.
    ///
    /// They are one for its leaf if that isn't fresh, and then one for the leaf's node if that isn't fresh.
    pub fn slot_takes(&self, slot: u64) -> u32
        requires { 8 * slot + 8 ≤ self.now.root.size }
        ensures takes { result ≡ draft_takes self.now (slot / 64) }
        ensures most { result ≤ 2 }
    {
        prove!(self.root.size <= SIZE_LIMIT);
        let leaf = (slot / 64) as u32;
        if self.has_fresh_leaf(leaf) {
            return 0;
        }
        1 + !self.has_fresh_node(leaf / LEAVES as u32) as u32
    }

    /// Returns what a slot of an index holds, or `None` if it is empty.
    ///
    /// `Damaged` as in `read`.
    pub fn slot<D: Disk>(&self, disk: &mut D, slot: u64) -> Result<Option<Puid>, Trouble>
        requires on_disk { self.now.at < D.blocks disk.old }
        requires within { 8 * slot + 8 ≤ self.now.root.size }
        ensures looks { (v : DraftSeen D.Disk disk.old self.now) → FindsSlot v slot result }
        ensures call { ReadCall D.Disk 2 disk.old disk.new self.now result }
    {
        prove!(self.root.size <= SIZE_LIMIT);
        let mut way = Way::new();
        let content = self.leaf_bytes(disk, &mut way, (slot / 64) as u32)?;
        Ok(slot_at(&content, (slot % 64) as usize))
    }
}
