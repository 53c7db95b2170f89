//! Requests on a file through a grant with a draft.
ghost use Rattle.std.specs.Prelude.{◌≡◌, ◌+◌, ◌*◌, ◌<◌, ◌≤◌, ℕ, false, IfErr, IfNone, IfOk, IfSome, length};
ghost use Rattle.block_tree.specs.Pointers.{size_limit};
ghost use Rattle.cfs_base.specs.Calls.{OnlyReads};
ghost use Rattle.cfs_core.specs.Calls.{Tries};
ghost use Rattle.cfs_core.specs.Drafts.{ChangesDraft, HasNoneOf, IsDrafted};
ghost use Rattle.cfs_core.specs.Looks.{IsDraftCause, content_reply};
ghost use Rattle.cfs_core.specs.Handles.{HoldsDraft, drafting_at};
ghost use Rattle.cfs_core.specs.StandsFor.{ServesIs};
ghost use Rattle.special_files.specs.Refusal.{has_met_damage, top_of};
ghost use Rattle.special_files.specs.View.{DraftSeen};
ghost use Rattle.ufs_model.specs.Plain.{IsPlainReply};
ghost use Rattle.ufs_model.specs.State.{State, draft_of};
ghost use Rattle.ufs_model.specs.declared.asked.Ref.TheVariants as refs;
ghost use Rattle.ufs_model.specs.declared.asked.Request.TheVariants as asks;
ghost use Rattle.ufs_model.specs.declared.asked.Wanted.TheVariants.{AFile};
ghost use Rattle.ufs_model.specs.declared.change.Change.TheVariants.{Overwrite, SetSize};
ghost use Rattle.ufs_model.specs.declared.object.File.{File};
ghost use Rattle.ufs_model.specs.declared.object.Object.TheVariants as objects;

use crate::changing::done;
use crate::finishing::{finish, since};
use crate::kernel::Core;
use crate::reading::is_range;
use crate::way::is_fit;
use cfs_base::{Bytes, Disk, NoMemory, Refused, Session, Tuid};
use cyl_alloc::Space;
use special_files::ObjectDraft;
use std::alloc::Global;
use ufs_model::{MOST_BYTES, RESERVE, Ref, Reply, Wanted};

/// Makes `count` zero bytes.
fn zeros(alloc: Global, count: usize) -> Result<Vec<u8>, NoMemory>
    ensures { IfOk result (λ bytes. length bytes.items ≡ count) }
{
    Ok(vec![in alloc; 0u8; count]?)
}

/// Returns `count` bytes of a draft, beginning at an offset, as a reply.
///
/// It is `Range` if they aren't 1 to 4,096 within its size.
fn content<D: Disk>(
    alloc: Global,
    disk: &mut D,
    draft: &ObjectDraft,
    offset: u64,
    count: u64,
) -> Result<Reply, Refused>
    requires { draft.now.at < D.blocks disk.old }
    ensures exact { (v : DraftSeen D.Disk disk.old draft.now) (f : File) → v.draft.object ≡ objects.File f
        → length f.bytes ≡ draft.now.root.size → IfOk result (λ reply. reply ≡ content_reply f offset count) }
    ensures plain { IfOk result IsPlainReply }
    ensures sound { DraftSeen D.Disk disk.old draft.now → IfErr result (λ e. has_met_damage e ≡ false) }
    ensures cause { IfErr result (IsDraftCause D.Disk (top_of draft.now) disk.old disk.new) }
    ensures reads { OnlyReads D.Disk 18 disk.old disk.new }
{
    if !is_range(draft.size(), offset, count) {
        return Ok(Reply::Range);
    }
    let mut bytes = zeros(alloc, count as usize)?;
    draft.read(disk, offset, bytes.as_mut_slice())?;
    Ok(Reply::Content(Bytes::new(bytes)))
}

/// Writes bytes into a draft, within its size.
pub(crate) fn overwrite<D: Disk>(
    draft: &mut ObjectDraft,
    disk: &mut D,
    space: &mut Space,
    offset: u64,
    bytes: &[u8],
) -> Result<(), Refused>
    requires on_disk { draft.old.at < D.blocks disk.old }
    requires size { D.blocks disk.old ≡ 64 * length space.old.free }
    requires within { offset + length bytes.now ≤ draft.old.root.size }
    requires most { length bytes.now ≤ 4096 }
    ensures { ChangesDraft D.Disk (Overwrite offset bytes.now) disk.old disk.new space.old space.new draft.old draft.new
        result }
{
    draft.write(disk, space, offset, bytes, RESERVE)
}

/// Sets the size of a draft.
pub(crate) fn set_size<D: Disk>(
    draft: &mut ObjectDraft,
    disk: &mut D,
    space: &mut Space,
    size: u64,
) -> Result<(), Refused>
    requires on_disk { draft.old.at < D.blocks disk.old }
    requires size { D.blocks disk.old ≡ 64 * length space.old.free }
    requires limit { size ≤ size_limit }
    ensures { ChangesDraft D.Disk (SetSize size) disk.old disk.new space.old space.new draft.old draft.new result }
{
    draft.resize(disk, space, size, RESERVE)
}

impl<D: Disk> Core<D> {
    /// Returns the session's grant that a reference goes through, if it has a draft of what is wanted.
    pub(crate) fn drafted(&self, who: Session, to: Ref, wants: Wanted) -> Option<Tuid>
        ensures through { IfSome result (λ grant. to ≡ refs.Through grant) }
        ensures has { IfSome result (IsDrafted self.now wants who) }
        ensures holds { IfSome result (λ grant. HoldsDraft self.now.handles grant.draw 0) }
        ensures bare { IfNone result ((s : State) → ServesIs D.Disk self.now s → HasNoneOf wants (draft_of s who to)) }
    {
        open_table::laws::table_follows_the_model();
        let Ref::Through(grant) = to else {
            return None;
        };
        let found = self.handles.find(who, grant)?;
        if self.handles.draft(grant.draw).is_some() && is_fit(wants, self.kind(found.id)) {
            Some(grant)
        } else {
            None
        }
    }

    /// Reads `count` bytes of a draft, beginning at an offset.
    pub(crate) fn read_draft(
        &mut self,
        alloc: Global,
        grant: Tuid,
        offset: u64,
        count: u64,
    ) -> Result<Reply, Refused>
        requires { HoldsDraft self.old.handles grant.draw 0 }
        ensures { (who : ℕ) → IsDrafted self.old AFile who grant
            → Tries D.Disk self.old self.new who (asks.Read (refs.Through grant) offset count) result }
    {
        open_table::laws::table_follows_the_model();
        match self.handles.draft(grant.draw) {
            Some(draft) => content(alloc, &mut self.disk, draft, offset, count),
            None => unreachable!(),
        }
    }

    /// Returns the size of a draft in bytes.
    pub(crate) fn size_of_draft(&self, grant: Tuid) -> Reply
        requires { HoldsDraft self.now.handles grant.draw 0 }
        ensures { (who : ℕ) → IsDrafted self.now AFile who grant
            → Tries D.Disk self.now self.now who (asks.Size (refs.Through grant)) (Ok result) }
    {
        open_table::laws::table_follows_the_model();
        match self.handles.draft(grant.draw) {
            Some(draft) => Reply::Number(draft.size()),
            None => unreachable!(),
        }
    }

    /// Writes bytes into a draft, beginning at an offset.
    pub(crate) fn write_draft(
        &mut self,
        grant: Tuid,
        offset: u64,
        bytes: &[u8],
    ) -> Result<Reply, Refused>
        requires { HoldsDraft self.old.handles grant.draw 0 }
        ensures { (who : ℕ) → IsDrafted self.old AFile who grant
            → Tries D.Disk self.old self.new who (asks.Write (refs.Through grant) offset bytes.now) result }
    {
        ufs_model::laws::are_bytes(bytes);
        open_table::laws::table_follows_the_model();
        let held = match self.handles.draft(grant.draw) {
            Some(draft) => draft.size(),
            None => unreachable!(),
        };
        if !is_range(held, offset, bytes.len() as u64) {
            return Ok(Reply::Range);
        }
        let tried = finish(&mut self.disk, &mut self.space)?;
        let ended = self
            .handles
            .write(grant.draw, &mut self.disk, &mut self.space, offset, bytes);
        since(tried, done(ended))
    }

    /// Sets the size of a draft in bytes.
    pub(crate) fn resize_draft(&mut self, grant: Tuid, size: u64) -> Result<Reply, Refused>
        requires { HoldsDraft self.old.handles grant.draw 0 }
        ensures { (who : ℕ) → IsDrafted self.old AFile who grant
            → Tries D.Disk self.old self.new who (asks.Resize (refs.Through grant) size) result }
    {
        open_table::laws::table_follows_the_model();
        if size > MOST_BYTES {
            return Ok(Reply::Range);
        }
        let tried = finish(&mut self.disk, &mut self.space)?;
        let ended = self
            .handles
            .resize(grant.draw, &mut self.disk, &mut self.space, size);
        since(tried, done(ended))
    }
}
