//! The grants of all sessions, with the drafts of special files and indices that are open for writing.
ghost use Rattle.std.specs.Prelude.{◌≡◌, ◌+◌, ◌*◌, ◌≤◌, ◌++◌, [], ◌∷◌, IfOk, IsTrue, None, OnErr, OnOk, Some, length};
ghost use Rattle.std.specs.Prelude.{option_copied, true, false};
ghost use Rattle.std.specs.List.{list_any};
ghost use Rattle.block_tree.specs.Pointers.{size_limit};
ghost use Rattle.cfs_core.specs.Drafts.{ChangesDraft};
ghost use Rattle.cfs_core.specs.Kernel.{grants_in};
ghost use Rattle.cfs_core.specs.Handles.{ChangesHeld, HoldsDraft, IsOnDisk, drafting_at, have_draft, is_at, is_drawn};
ghost use Rattle.cfs_core.specs.Handles.{handles_but};
ghost use Rattle.cfs_core.specs.Handles.{root_at, with_drafting};
ghost use Rattle.open_table.specs.Grants.{fault_of, first_grant, session_grant, is_session_grant, is_grant_table};
ghost use Rattle.open_table.specs.Grants.{open_mode};
ghost use Rattle.index_drafts.specs.Creates.{CreatesIn};
ghost use Rattle.leaf_changes.specs.Bytes.{IsSlot};
ghost use Rattle.special_files.specs.Creates.{IsBare};
ghost use Rattle.ufs_model.specs.Limits.{reserve};
ghost use Rattle.ufs_model.specs.declared.change.Change.TheVariants.{Fill, Overwrite, SetSize};
ghost use Rattle.vol_image.specs.Reading.{bare_object};

use crate::drafting::{overwrite, set_size};
use crate::filling::{make_in, put_slot};
use block_tree::Root;
use cfs_base::{Disk, Mode, NoMemory, Puid, Refused, Session, Tuid};
use cyl_alloc::Space;
use open_table::{AcquireFault, Grants, NoGrant, OpenGrant};
use special_files::ObjectDraft;
use std::alloc::Global;
use std::collections::HashMap;
use std::marker::Model;

/// The grants of all sessions in the order in which they were acquired, each with its draft if it has one.
///
/// Only `reserve` takes memory.
#[derive(Drop)]
pub(crate) struct Handles {
    grants: Grants,
    /// The drafts, by the number of the draw of their grant's word.
    drafts: HashMap<u32, ObjectDraft>,
}

impl Model for Handles {
    ghost use Rattle.std.specs.Prelude.{◌&&◌, nat_eq, nat_lt};
    ghost use Rattle.std.specs.HashMap.{get, spare};
    ghost use Rattle.cfs_core.specs.Handles.{AreOfGrants, Handleing, handled};

    ghost Value = { Handleing };

    ghost view = { λ t. record {
      handles = handled (get nat_eq t.drafts) t.grants.grants;
      has_room = t.grants.has_room && nat_lt 0 (spare t.drafts);
    } };

    ghost invariant = { λ t. AreOfGrants (get nat_eq t.drafts) t.grants.grants };
}

impl Handles {
    /// Makes a table of no grants. Takes no memory.
    pub fn new(alloc: Global) -> Handles
        ensures { result.handles ≡ [] }
    {
        Handles {
            grants: Grants::new(alloc),
            drafts: HashMap::new(alloc),
        }
    }

    /// Makes room for one more grant, with a draft. On an error nothing is changed.
    pub fn reserve(&mut self) -> Result<(), NoMemory>
        ensures handles { self.new.handles ≡ self.old.handles }
        ensures room { OnOk result (self.new.has_room ≡ true) }
    {
        self.grants.reserve()?;
        self.drafts.reserve(1)?;
        Ok(())
    }

    /// Returns why a grant can't be acquired, or `None` if it can.
    pub fn fault(&self, grant: OpenGrant) -> Option<AcquireFault>
        ensures { result ≡ fault_of (grants_in self.now.handles) grant }
    {
        self.grants.fault(grant)
    }

    /// Adds a grant that may be acquired, with its draft if it has one.
    ///
    /// No other grant has its draw. Takes no memory.
    pub fn open(&mut self, grant: OpenGrant, draft: Option<ObjectDraft>)
        requires room { self.old.has_room ≡ true }
        requires new { list_any (is_drawn grant.tuid.draw) self.old.handles ≡ false }
        requires allowed { fault_of (grants_in self.old.handles) grant ≡ None }
        ensures { self.new.handles ≡ self.old.handles ++ record { grant = grant; drafting = draft } ∷ [] }
    {
        let Ok(()) = self.grants.acquire(grant) else {
            unreachable!()
        };
        if let Some(draft) = draft {
            let _ = self.drafts.insert(grant.tuid.draw, draft);
        }
    }

    /// Returns the session's grant with this temporary identifier.
    pub fn find(&self, who: Session, tuid: Tuid) -> Option<OpenGrant>
        ensures { result ≡ session_grant (grants_in self.now.handles) who tuid }
    {
        self.grants.find(who, tuid)
    }

    /// Returns how an object is open.
    pub fn mode_on(&self, id: Puid) -> Option<Mode>
        ensures { result ≡ open_mode (grants_in self.now.handles) id }
    {
        self.grants.mode_on(id)
    }

    /// Returns the first of the session's grants.
    pub fn next_of(&self, who: Session) -> Option<OpenGrant>
        ensures { result ≡ first_grant (grants_in self.now.handles) who }
    {
        self.grants.next_of(who)
    }

    /// Returns the number of grants.
    pub fn len(&self) -> u32
        ensures len { result ≡ length self.now.handles }
        ensures held { IsTrue (is_grant_table (grants_in self.now.handles)) }
    {
        self.grants.len()
    }

    /// Returns the grants, without their drafts.
    pub fn grants(&self) -> &Grants
        ensures { result.now.grants ≡ grants_in self.now.handles }
    {
        &self.grants
    }

    /// Returns the draft of a draw, if there is one.
    pub fn draft(&self, draw: u32) -> Option<&ObjectDraft>
        ensures { option_copied result ≡ drafting_at self.now.handles draw }
    {
        self.drafts.get(&draw)
    }

    /// Returns the root that this object is to get by a draft, if it has one. Goes through the grants.
    pub fn root_on(&self, id: Puid) -> Option<&Root>
        ensures { option_copied result ≡ root_at self.now.handles id }
    {
        for place in 0..self.grants.len() {
            let grant = self.grants.at(place);
            if id == grant.id {
                if let Some(draft) = self.drafts.get(&grant.tuid.draw) {
                    return Some(draft.root());
                }
            }
        }
        None
    }

    /// Writes bytes into the draft of a draw, within its size.
    pub fn write<D: Disk>(
        &mut self,
        draw: u32,
        disk: &mut D,
        space: &mut Space,
        offset: u64,
        bytes: &[u8],
    ) -> Result<(), Refused>
        requires has { HoldsDraft self.old.handles draw (offset + length bytes.now) }
        requires on_disk { IsOnDisk self.old.handles draw (D.blocks disk.old) }
        requires most { length bytes.now ≤ 4096 }
        requires size { D.blocks disk.old ≡ 64 * length space.old.free }
        ensures { ChangesHeld draw self.old.handles self.new.handles
            (λ was now. ChangesDraft D.Disk (Overwrite offset bytes.now) disk.old disk.new space.old space.new was now
            result) }
    {
        match self.drafts.get_mut(&draw) {
            Some(draft) => overwrite(draft, disk, space, offset, bytes),
            None => unreachable!(),
        }
    }

    /// Sets the size of the draft of a draw.
    pub fn resize<D: Disk>(
        &mut self,
        draw: u32,
        disk: &mut D,
        space: &mut Space,
        size: u64,
    ) -> Result<(), Refused>
        requires has { HoldsDraft self.old.handles draw 0 }
        requires on_disk { IsOnDisk self.old.handles draw (D.blocks disk.old) }
        requires limit { size ≤ size_limit }
        requires size { D.blocks disk.old ≡ 64 * length space.old.free }
        ensures { ChangesHeld draw self.old.handles self.new.handles
            (λ was now. ChangesDraft D.Disk (SetSize size) disk.old disk.new space.old space.new was now result) }
    {
        match self.drafts.get_mut(&draw) {
            Some(draft) => set_size(draft, disk, space, size),
            None => unreachable!(),
        }
    }

    /// Makes a slot of the draft of a draw hold `what`, or nothing.
    pub fn put<D: Disk>(
        &mut self,
        draw: u32,
        disk: &mut D,
        space: &mut Space,
        slot: u64,
        what: Option<Puid>,
    ) -> Result<(), Refused>
        requires has { HoldsDraft self.old.handles draw (8 * slot + 8) }
        requires on_disk { IsOnDisk self.old.handles draw (D.blocks disk.old) }
        requires slot { IsSlot what }
        requires size { D.blocks disk.old ≡ 64 * length space.old.free }
        ensures { ChangesHeld draw self.old.handles self.new.handles
            (λ was now. ChangesDraft D.Disk (Fill slot what) disk.old disk.new space.old space.new was now result) }
    {
        match self.drafts.get_mut(&draw) {
            Some(draft) => put_slot(draft, disk, space, slot, what),
            None => unreachable!(),
        }
    }

    /// Makes the object with this root in the draft of a draw, and puts its identifier into a slot.
    pub fn create<D: Disk>(
        &mut self,
        draw: u32,
        disk: &mut D,
        space: &mut Space,
        slot: u64,
        root: &Root,
    ) -> Result<Puid, Refused>
        requires has { HoldsDraft self.old.handles draw (8 * slot + 8) }
        requires on_disk { IsOnDisk self.old.handles draw (D.blocks disk.old) }
        requires root { IsBare root.now }
        requires size { D.blocks disk.old ≡ 64 * length space.old.free }
        ensures { ChangesHeld draw self.old.handles self.new.handles
            (λ was now. CreatesIn D.Disk slot (bare_object root.now) root.now.word reserve disk.old disk.new
            space.old space.new was now result) }
    {
        match self.drafts.get_mut(&draw) {
            Some(draft) => make_in(draft, disk, space, slot, root),
            None => unreachable!(),
        }
    }

    /// Removes the draft of a draw, if there is one, and returns it. Takes no memory.
    pub fn take(&mut self, draw: u32) -> Option<ObjectDraft>
        ensures draft { result ≡ drafting_at self.old.handles draw }
        ensures kept { result ≡ None → self.new.handles ≡ self.old.handles }
        ensures handles { self.new.handles ≡ with_drafting draw None self.old.handles }
        ensures room { self.old.has_room ≡ true → self.new.has_room ≡ true }
    {
        self.drafts.remove(&draw)
    }

    /// Removes the session's grant with this temporary identifier, which has no draft, and returns it.
    ///
    /// If there is no such grant nothing is changed. Takes no memory.
    pub fn close(&mut self, who: Session, tuid: Tuid) -> Result<OpenGrant, NoGrant>
        requires undrafted { have_draft (is_at tuid.draw) self.old.handles ≡ false }
        ensures found { IfOk result (λ grant. session_grant (grants_in self.old.handles) who tuid ≡ Some grant) }
        ensures handles { OnOk result (self.new.handles ≡ handles_but (is_session_grant who tuid) self.old.handles) }
        ensures none { OnErr result (session_grant (grants_in self.old.handles) who tuid ≡ None) }
        ensures err { OnErr result (self.new ≡ self.old) }
    {
        self.grants.close(who, tuid)
    }
}
