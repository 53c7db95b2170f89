//! Requests on an index through a grant with a draft.
ghost use Rattle.std.specs.Prelude.{◌≡◌, ◌≢◌, ◌+◌, ◌*◌, ◌/◌, ◌<◌, ◌≤◌, ℕ, Some, false, nat_lt, IsSome, length};
ghost use Rattle.cfs_core.specs.Calls.{Tries};
ghost use Rattle.cfs_core.specs.Drafts.{ChangesDraft, HasGrant, IsDrafted, LooksInDraft};
ghost use Rattle.cfs_core.specs.Drafts.{TriesMakingWith, TriesThroughWith};
ghost use Rattle.cfs_core.specs.Handles.{HoldsDraft, drafting_at};
ghost use Rattle.cfs_core.specs.Makes.{IsMaking};
ghost use Rattle.index_drafts.specs.Creates.{CreatesIn};
ghost use Rattle.leaf_changes.specs.Bytes.{IsSlot};
ghost use Rattle.special_files.specs.Creates.{IsBare, MayBeMade, made_of};
ghost use Rattle.special_files.specs.Drafting.{Drafting};
ghost use Rattle.ufs_model.specs.Limits.{reserve};
ghost use Rattle.ufs_model.specs.Next.{is_direct_delete};
ghost use Rattle.ufs_model.specs.declared.asked.Ref.TheVariants as refs;
ghost use Rattle.ufs_model.specs.declared.asked.Request as asked;
ghost use Rattle.ufs_model.specs.declared.asked.Request.TheVariants as asks;
ghost use Rattle.ufs_model.specs.declared.asked.Wanted.TheVariants.{AnIndex};
ghost use Rattle.ufs_model.specs.declared.change.Change.TheVariants.{Fill};
ghost use Rattle.vol_image.specs.Reading.{bare_object};

use crate::changing::{done, holds_something};
use crate::creating::kind_of;
use crate::finishing::{finish, since};
use crate::kernel::Core;
use block_tree::Root;
use cfs_base::{Disk, FileKind, Kind, Puid, Refused, Tuid};
use cyl_alloc::Space;
use index_drafts::{create_in, put_in};
use special_files::{ObjectDraft, bare_root};
use ufs_model::{MOST_SLOTS, RESERVE, Reply};

/// Returns how many slots the index has of which this is a draft.
fn count(draft: &ObjectDraft) -> u64
    ensures { result ≡ draft.now.root.size / 8 }
{
    draft.size() / 8
}

/// Returns what a slot of a draft holds, as a reply.
///
/// It is `Slot` if the draft has no such slot, and `Empty` if the slot holds nothing.
fn look_in<D: Disk>(disk: &mut D, draft: &ObjectDraft, slot: u64) -> Result<Reply, Refused>
    requires { draft.now.at < D.blocks disk.old }
    ensures { LooksInDraft D.Disk slot draft.now disk.old disk.new result }
{
    if slot >= count(draft) {
        return Ok(Reply::Slot);
    }
    match draft.slot(disk, slot)? {
        Some(id) => Ok(Reply::Id(id)),
        None => Ok(Reply::Empty),
    }
}

/// Makes a slot of a draft hold `what`, or nothing.
pub(crate) fn put_slot<D: Disk>(
    draft: &mut ObjectDraft,
    disk: &mut D,
    space: &mut Space,
    slot: u64,
    what: Option<Puid>,
) -> Result<(), Refused>
    requires on_disk { draft.old.at < D.blocks disk.old }
    requires size { D.blocks disk.old ≡ 64 * length space.old.free }
    requires within { 8 * slot + 8 ≤ draft.old.root.size }
    requires slot { IsSlot what }
    ensures { ChangesDraft D.Disk (Fill slot what) disk.old disk.new space.old space.new draft.old draft.new result }
{
    put_in(draft, disk, space, slot, what, RESERVE)
}

/// Makes the object with this root, and puts its identifier into a slot of a draft.
pub(crate) fn make_in<D: Disk>(
    draft: &mut ObjectDraft,
    disk: &mut D,
    space: &mut Space,
    slot: u64,
    root: &Root,
) -> Result<Puid, Refused>
    requires on_disk { draft.old.at < D.blocks disk.old }
    requires size { D.blocks disk.old ≡ 64 * length space.old.free }
    requires within { 8 * slot + 8 ≤ draft.old.root.size }
    requires root { IsBare root.now }
    ensures { CreatesIn D.Disk slot (bare_object root.now) root.now.word reserve disk.old disk.new space.old space.new
        draft.old draft.new result }
{
    create_in(draft, disk, space, slot, root, RESERVE)
}

impl<D: Disk> Core<D> {
    /// Returns whether a draft has such a slot.
    fn has_drafted(&self, grant: Tuid, slot: u64) -> bool
        requires { IsSome (drafting_at self.now.handles grant.draw) }
        ensures { (was : Drafting) → drafting_at self.now.handles grant.draw ≡ Some was
            → result ≡ nat_lt slot (was.root.size / 8) }
    {
        match self.handles.draft(grant.draw) {
            Some(draft) => slot < count(draft),
            None => unreachable!(),
        }
    }

    /// Returns what a slot of a draft holds, as a reply.
    fn look_drafted(&mut self, grant: Tuid, slot: u64) -> Result<Reply, Refused>
        requires { IsSome (drafting_at self.old.handles grant.draw) }
        ensures looks { (was : Drafting) → drafting_at self.old.handles grant.draw ≡ Some was
            → LooksInDraft D.Disk slot was self.old.disk self.new.disk result }
        ensures same { self.new ≡ record self.old { disk = self.new.disk } }
    {
        match self.handles.draft(grant.draw) {
            Some(draft) => look_in(&mut self.disk, draft, slot),
            None => unreachable!(),
        }
    }

    /// Returns the identifier in a slot of a draft.
    pub(crate) fn retrieve_draft(&mut self, grant: Tuid, slot: u64) -> Result<Reply, Refused>
        requires { HoldsDraft self.old.handles grant.draw 0 }
        ensures { (who : ℕ) → IsDrafted self.old AnIndex who grant
            → Tries D.Disk self.old self.new who (asks.Retrieve (refs.Through grant) slot) result }
    {
        open_table::laws::table_follows_the_model();
        self.look_drafted(grant, slot)
    }

    /// Returns the number of slots of a draft.
    pub(crate) fn slots_of_draft(&self, grant: Tuid) -> Reply
        requires { HoldsDraft self.now.handles grant.draw 0 }
        ensures { (who : ℕ) → IsDrafted self.now AnIndex who grant
            → Tries D.Disk self.now self.now who (asks.Slots (refs.Through grant)) (Ok result) }
    {
        open_table::laws::table_follows_the_model();
        match self.handles.draft(grant.draw) {
            Some(draft) => Reply::Number(count(draft)),
            None => unreachable!(),
        }
    }

    /// Puts an identifier of an object into a slot of a draft.
    pub(crate) fn retain_draft(
        &mut self,
        grant: Tuid,
        slot: u64,
        id: Puid,
    ) -> Result<Reply, Refused>
        requires { HoldsDraft self.old.handles grant.draw 0 }
        ensures { (who : ℕ) → IsDrafted self.old AnIndex who grant
            → Tries D.Disk self.old self.new who (asks.Retain (refs.Through grant) slot id) result }
    {
        open_table::laws::table_follows_the_model();
        if self.lacks(Some(id)) {
            return Ok(Reply::NoObject);
        }
        if !self.has_drafted(grant, slot) {
            return Ok(Reply::Slot);
        }
        self.put_drafted(grant, slot, Some(id))
    }

    /// Empties a slot of a draft.
    pub(crate) fn delete_draft(&mut self, grant: Tuid, slot: u64) -> Result<Reply, Refused>
        requires { HoldsDraft self.old.handles grant.draw 0 }
        ensures { (who : ℕ) → IsDrafted self.old AnIndex who grant
            → Tries D.Disk self.old self.new who (asks.Delete (refs.Through grant) slot) result }
    {
        open_table::laws::table_follows_the_model();
        let reply = self.look_drafted(grant, slot)?;
        if holds_something(&reply) {
            self.put_drafted(grant, slot, None)
        } else {
            Ok(reply)
        }
    }

    /// Makes a slot of a draft hold `what`, or nothing.
    fn put_drafted(&mut self, grant: Tuid, slot: u64, what: Option<Puid>) -> Result<Reply, Refused>
        requires has { HoldsDraft self.old.handles grant.draw (8 * slot + 8) }
        requires slot { IsSlot what }
        ensures { (who : ℕ) (request : asked.Request) → HasGrant self.old who grant → is_direct_delete request ≡ false
            → TriesThroughWith D.Disk self.old.space.left self.old self.new who grant (Fill slot what) request result }
    {
        let tried = finish(&mut self.disk, &mut self.space)?;
        let ended = self
            .handles
            .put(grant.draw, &mut self.disk, &mut self.space, slot, what);
        since(tried, done(ended))
    }

    /// Makes a file of no bytes in a draft.
    pub(crate) fn create_file_drafted(
        &mut self,
        grant: Tuid,
        kind: FileKind,
        fill: u8,
        slot: u64,
    ) -> Result<Reply, Refused>
        requires words { self.old.words.drawn < 4294967295 }
        requires holds { HoldsDraft self.old.handles grant.draw 0 }
        ensures { (who : ℕ) → IsDrafted self.old AnIndex who grant
            → Tries D.Disk self.old self.new who (asks.CreateFile kind fill (refs.Through grant) slot) result }
    {
        open_table::laws::table_follows_the_model();
        if !self.has_drafted(grant, slot) {
            return Ok(Reply::Slot);
        }
        self.make_drafted(grant, slot, kind_of(kind), fill, 0)
    }

    /// Makes an index of empty slots in a draft.
    pub(crate) fn create_index_drafted(
        &mut self,
        grant: Tuid,
        slots: u64,
        slot: u64,
    ) -> Result<Reply, Refused>
        requires words { self.old.words.drawn < 4294967295 }
        requires holds { HoldsDraft self.old.handles grant.draw 0 }
        ensures { (who : ℕ) → IsDrafted self.old AnIndex who grant
            → Tries D.Disk self.old self.new who (asks.CreateIndex slots (refs.Through grant) slot) result }
    {
        open_table::laws::table_follows_the_model();
        if !self.has_drafted(grant, slot) {
            return Ok(Reply::Slot);
        }
        if slots == 0 || slots > MOST_SLOTS {
            return Ok(Reply::Range);
        }
        self.make_drafted(grant, slot, Kind::Index, 0, 8 * slots)
    }

    /// Makes an object, and puts its identifier into a slot that a draft has.
    fn make_drafted(
        &mut self,
        grant: Tuid,
        slot: u64,
        kind: Kind,
        fill: u8,
        size: u64,
    ) -> Result<Reply, Refused>
        requires words { self.old.words.drawn < 4294967295 }
        requires has { HoldsDraft self.old.handles grant.draw (8 * slot + 8) }
        requires made { MayBeMade kind fill size }
        ensures { (who : ℕ) (request : asked.Request) → IsMaking request slot (made_of kind fill size)
            → HasGrant self.old who grant
            → TriesMakingWith D.Disk self.old.space.left self.old self.new who grant request result }
    {
        let root = bare_root(kind, fill, size, self.words.ahead());
        let tried = finish(&mut self.disk, &mut self.space)?;
        let made = self
            .handles
            .create(grant.draw, &mut self.disk, &mut self.space, slot, &root);
        let id = since(tried, made)?;
        since(tried, self.name(id, kind))
    }
}
