//! Requests that read an index.
ghost use Rattle.std.specs.Prelude.{◌≡◌, ◌*◌, ◌+◌, ◌/◌, ◌<◌, ◌≤◌, true, nat_lt, IfOk};
ghost use Rattle.block_tree.specs.Pointers.{size_limit};
ghost use Rattle.cfs_core.specs.Calls.{Tries, looked};
ghost use Rattle.cfs_core.specs.Looks.{IsCalm, KnowsObject, WasRead};
ghost use Rattle.ufs_model.specs.declared.asked.Request.TheVariants as asks;
ghost use Rattle.ufs_model.specs.Plain.{IsPlainReply, is_id};
ghost use Rattle.ufs_model.specs.declared.object.Index.{Index};
ghost use Rattle.ufs_model.specs.declared.object.Object.TheVariants as objects;

use crate::kernel::Core;
use crate::visiting::Visited;
use crate::way::Way;
use block_tree::Root;
use cfs_base::{BlockNo, Disk, Refused, Session};
use index_ops::retrieve;
use ufs_model::{Ref, Reply, Wanted};

/// Returns whether the index with this root has such a slot.
pub(crate) fn has_slot(root: &Root, slot: u64) -> bool
    requires { root.now.size ≤ size_limit }
    ensures has { result ≡ true → 8 * slot + 8 ≤ root.now.size }
    ensures decides { result ≡ nat_lt slot (root.now.size / 8) }
{
    slot < root.size / 8
}

/// Returns what a slot of the index with this root holds, as a reply. The index is shown at a block.
///
/// It is `Slot` if the index has no such slot, and `Empty` if the slot holds nothing.
pub(crate) fn look<D: Disk>(
    disk: &mut D,
    index: BlockNo,
    root: &Root,
    slot: u64,
) -> Result<Reply, Refused>
    requires { root.now.size ≤ size_limit }
    ensures exact { (old : D) (i : Index) → WasRead D.Disk 1 index.0 root.now old disk.old
        → KnowsObject D.Disk old index.0 (objects.Index i) → IfOk result (λ reply. reply ≡ looked i slot) }
    ensures has { IfOk result (λ reply. is_id reply ≡ true → 8 * slot + 8 ≤ root.now.size) }
    ensures plain { IfOk result IsPlainReply }
    ensures calm { (old : D) → WasRead D.Disk 1 index.0 root.now old disk.old
        → IsCalm D.Disk objects.Index 3 index.0 old disk.new result }
{
    if !has_slot(root, slot) {
        return Ok(Reply::Slot);
    }
    match retrieve(disk, index, root, slot)? {
        Some(id) => Ok(Reply::Id(id)),
        None => Ok(Reply::Empty),
    }
}

impl<D: Disk> Core<D> {
    /// Returns the identifier in a slot.
    pub(crate) fn retrieve(&mut self, who: Session, to: Ref, slot: u64) -> Result<Reply, Refused>
        ensures { Tries D.Disk self.old self.new who (asks.Retrieve to slot) result }
    {
        let way = Way {
            to,
            also: None,
            changes: false,
        };
        match self.visit(who, way, Wanted::AnIndex)? {
            Visited::Refused(reply) => Ok(reply),
            Visited::Draft(grant) => self.retrieve_draft(grant, slot),
            Visited::Object(there) => {
                let at = self.space.shown(BlockNo(there.id.block));
                look(&mut self.disk, at, &there.root, slot)
            }
        }
    }

    /// Returns the number of slots.
    pub(crate) fn slots(&mut self, who: Session, to: Ref) -> Result<Reply, Refused>
        ensures { Tries D.Disk self.old self.new who (asks.Slots to) result }
    {
        let way = Way {
            to,
            also: None,
            changes: false,
        };
        match self.visit(who, way, Wanted::AnIndex)? {
            Visited::Refused(reply) => Ok(reply),
            Visited::Draft(grant) => Ok(self.slots_of_draft(grant)),
            Visited::Object(there) => Ok(Reply::Number(there.root.size / 8)),
        }
    }
}
