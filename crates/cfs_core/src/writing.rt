//! Requests that change a file.
ghost use Rattle.std.specs.Prelude.{◌≡◌, ◌≢◌, ◌<◌, ◌≤◌, ℕ, false, true, IfErr, IfOk, None, Ok, Some};
ghost use Rattle.block_tree.specs.Pointers.{size_limit};
ghost use Rattle.cfs_base.specs.Run.{Tells};
ghost use Rattle.cfs_base.specs.declared.refusal.Refused.TheVariants as refusals;
ghost use Rattle.cfs_core.specs.Calls.{Tries};
ghost use Rattle.cfs_core.specs.Kernel.{Kernel};
ghost use Rattle.cfs_core.specs.Looks.{IsCalm};
ghost use Rattle.cfs_core.specs.Visits.{ReachesObject, VisitsObject, changing_way};
ghost use Rattle.cfs_core.specs.Ways.{unfit_of};
ghost use Rattle.normal_files.specs.Standing.{IsRootAt};
ghost use Rattle.ufs_model.specs.declared.asked.Ref.{Ref};
ghost use Rattle.ufs_model.specs.declared.asked.Request.TheVariants as asks;
ghost use Rattle.ufs_model.specs.declared.asked.Wanted.TheVariants.{AFile};
ghost use Rattle.ufs_model.specs.declared.object.Object.TheVariants as objects;

use crate::changing::done;
use crate::finishing::{finish, room_for, since};
use crate::kernel::Core;
use crate::reading::is_range;
use crate::visiting::{Reached, There, Visited, file_kind, root_in};
use crate::way::Way;
use block_tree::Root;
use cfs_base::{BlockNo, Disk, Kind, Puid, Refused, Session};
use std::alloc::Global;
use ufs_model::{MOST_BYTES, RESERVE, Ref, Reply, Wanted};

/// Returns the root of the file at a block.
///
/// It is the root that was read, or the present one if parts of a commit were made since.
fn root_since<D: Disk>(
    disk: &mut D,
    file: BlockNo,
    tried: bool,
    read: Root,
) -> Result<Root, Refused>
    requires { file.0 < D.blocks disk.old }
    ensures anew { tried ≡ true → Tells D.Disk disk.old → IfOk result (IsRootAt (D.content disk.old) file.0) }
    ensures same { tried ≡ false → (result ≡ Ok read) × (disk.new ≡ disk.old) }
    ensures calm { IsCalm D.Disk objects.File 1 file.0 disk.old disk.new result }
    ensures never { IfErr result (λ e. e ≢ refusals.Memory) }
{
    if tried { root_in(disk, file) } else { Ok(read) }
}

impl<D: Disk> Core<D> {
    /// Writes bytes into a file, beginning at an offset.
    ///
    /// If the call fails, each leaf of a normal file may be changed without the others. A special file is changed as
    /// a whole.
    pub(crate) fn write(
        &mut self,
        alloc: Global,
        who: Session,
        to: Ref,
        offset: u64,
        bytes: &[u8],
    ) -> Result<Reply, Refused>
        ensures { Tries D.Disk self.old self.new who (asks.Write to offset bytes.now) result }
    {
        let way = Way {
            to,
            also: None,
            changes: true,
        };
        match self.visit(who, way, Wanted::AFile)? {
            Visited::Refused(reply) => Ok(reply),
            Visited::Draft(grant) => self.write_draft(grant, offset, bytes),
            Visited::Object(there) => self.write_object(alloc, &there, offset, bytes),
        }
    }

    /// Writes bytes into a file that has no draft. The file's root was read before.
    fn write_object(
        &mut self,
        alloc: Global,
        there: &There,
        offset: u64,
        bytes: &[u8],
    ) -> Result<Reply, Refused>
        requires on_disk { there.now.id.block < D.blocks self.old.disk }
        requires some { there.now.id.block ≢ 0 }
        requires fit { unfit_of AFile (Some there.now.kind) ≡ None }
        requires limit { there.now.root.size ≤ size_limit }
        ensures { (k : Kernel D) (to : Ref) (who : ℕ)
            → VisitsObject D.Disk AFile (changing_way to) who k self.old there.now
            → Tries D.Disk k self.new who (asks.Write to offset bytes.now) result }
    {
        if !is_range(there.root.size, offset, bytes.len() as u64) {
            return Ok(Reply::Range);
        }
        ufs_model::laws::are_bytes(bytes);
        let kind = file_kind(there.kind);
        let room = room_for(alloc, kind)?;
        let tried = finish(&mut self.disk, &mut self.space)?;
        let at = BlockNo(there.id.block);
        let root = since(tried, root_since(&mut self.disk, at, tried, there.root))?;
        let (disk, space) = (&mut self.disk, &mut self.space);
        let ended = file_ops::write(room, disk, space, at, kind, &root, offset, bytes, RESERVE);
        since(tried, done(ended))
    }

    /// Sets the size of a file in bytes.
    pub(crate) fn resize(
        &mut self,
        alloc: Global,
        who: Session,
        to: Ref,
        size: u64,
    ) -> Result<Reply, Refused>
        ensures { Tries D.Disk self.old self.new who (asks.Resize to size) result }
    {
        let way = Way {
            to,
            also: None,
            changes: true,
        };
        match self.reach(who, way, Wanted::AFile) {
            Err(reply) => Ok(reply),
            Ok(Reached::Draft(grant)) => self.resize_draft(grant, size),
            Ok(Reached::Object { id, kind }) => self.resize_object(alloc, id, kind, size),
        }
    }

    /// Sets the size of a file that has no draft.
    fn resize_object(
        &mut self,
        alloc: Global,
        id: Puid,
        kind: Kind,
        size: u64,
    ) -> Result<Reply, Refused>
        requires on_disk { id.block < D.blocks self.old.disk }
        requires some { id.block ≢ 0 }
        requires fit { unfit_of AFile (Some kind) ≡ None }
        ensures { (to : Ref) (who : ℕ) → ReachesObject D.Disk AFile (changing_way to) who self.old id kind
            → Tries D.Disk self.old self.new who (asks.Resize to size) result }
    {
        if size > MOST_BYTES {
            return Ok(Reply::Range);
        }
        let kind = file_kind(kind);
        let room = room_for(alloc, kind)?;
        let tried = finish(&mut self.disk, &mut self.space)?;
        let at = BlockNo(id.block);
        let (disk, space) = (&mut self.disk, &mut self.space);
        let ended = file_ops::resize(room, disk, space, at, kind, size, RESERVE);
        since(tried, done(ended))
    }
}
