//! Requests that read a file.
ghost use Rattle.std.specs.Prelude.{◌≡◌, ◌+◌, ◌<◌, ◌≤◌, IfOk};
ghost use Rattle.block_tree.specs.Pointers.{size_limit};
ghost use Rattle.cfs_core.specs.Calls.{Tries};
ghost use Rattle.cfs_core.specs.Looks.{IsCalm, KnowsObject, WasRead, content_reply};
ghost use Rattle.normal_files.specs.Touched.{leaves_touched, nodes_touched};
ghost use Rattle.ufs_model.specs.Plain.{IsPlainReply};
ghost use Rattle.ufs_model.specs.Refusal as refusal;
ghost use Rattle.ufs_model.specs.declared.asked.Request.TheVariants as asks;
ghost use Rattle.ufs_model.specs.declared.object.File.{File};
ghost use Rattle.ufs_model.specs.declared.object.Object.TheVariants as objects;

use crate::kernel::Core;
use crate::visiting::Visited;
use crate::way::Way;
use block_tree::Root;
use cfs_base::{BlockNo, Disk, Refused, Session};
use std::alloc::Global;
use ufs_model::{MOST_AT_ONCE, Ref, Reply, Wanted};

/// Returns whether `count` is 1 to 4,096 and the bytes are within the size.
pub(crate) fn is_range(size: u64, offset: u64, count: u64) -> bool
    ensures { result ≡ refusal.is_range size offset count }
{
    0 < count && count <= MOST_AT_ONCE && offset <= size && count <= size - offset
}

/// Returns `count` bytes of the file with this root, beginning at an offset, as a reply.
///
/// The file is shown at a block. The reply is `Range` if they aren't 1 to 4,096 within its size.
fn content<D: Disk>(
    alloc: Global,
    disk: &mut D,
    file: BlockNo,
    root: &Root,
    offset: u64,
    count: u64,
) -> Result<Reply, Refused>
    requires on_disk { file.0 < D.blocks disk.old }
    requires limit { root.now.size ≤ size_limit }
    ensures exact { (old : D) (f : File) → WasRead D.Disk 1 file.0 root.now old disk.old
        → KnowsObject D.Disk old file.0 (objects.File f) → IfOk result (λ reply. reply ≡ content_reply f offset count) }
    ensures plain { IfOk result IsPlainReply }
    ensures calm { (old : D) → WasRead D.Disk 1 file.0 root.now old disk.old
        → IsCalm D.Disk objects.File (1 + nodes_touched offset count + leaves_touched offset count) file.0 old
        disk.new result }
{
    if !is_range(root.size, offset, count) {
        return Ok(Reply::Range);
    }
    let bytes = file_ops::read(alloc, disk, file, root, offset, count as usize)?;
    Ok(Reply::Content(bytes))
}

impl<D: Disk> Core<D> {
    /// Reads `count` bytes of a file, beginning at an offset.
    pub(crate) fn read(
        &mut self,
        alloc: Global,
        who: Session,
        to: Ref,
        offset: u64,
        count: u64,
    ) -> Result<Reply, Refused>
        ensures { Tries D.Disk self.old self.new who (asks.Read to offset count) result }
    {
        let way = Way {
            to,
            also: None,
            changes: false,
        };
        match self.visit(who, way, Wanted::AFile)? {
            Visited::Refused(reply) => Ok(reply),
            Visited::Draft(grant) => self.read_draft(alloc, grant, offset, count),
            Visited::Object(there) => {
                let at = self.space.shown(BlockNo(there.id.block));
                content(alloc, &mut self.disk, at, &there.root, offset, count)
            }
        }
    }

    /// Returns the size of a file in bytes.
    pub(crate) fn size(&mut self, who: Session, to: Ref) -> Result<Reply, Refused>
        ensures { Tries D.Disk self.old self.new who (asks.Size to) result }
    {
        let way = Way {
            to,
            also: None,
            changes: false,
        };
        match self.visit(who, way, Wanted::AFile)? {
            Visited::Refused(reply) => Ok(reply),
            Visited::Draft(grant) => Ok(self.size_of_draft(grant)),
            Visited::Object(there) => Ok(Reply::Number(there.root.size)),
        }
    }
}
