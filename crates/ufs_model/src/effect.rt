//! What a request does if the slow server doesn't refuse it.
ghost use Rattle.std.specs.Prelude.{◌≡◌, ◌+◌, ◌<◌, ◌≤◌, false, true, length, slice_get, slice_range, set, unwrap_or};
ghost use Rattle.std.specs.Prelude.{IfOk, OnErr, OnOk, None, Some};
ghost use Rattle.std.specs.BTreeMap.{insert_entry, is_at};
ghost use Rattle.std.specs.Map.{lookup};
ghost use Rattle.ufs_model.specs.Graph.{has_block};
ghost use Rattle.ufs_model.specs.Identifier.{puid_cmp};
ghost use Rattle.ufs_model.specs.Object.{IsInside, changed_object, held_leaves};
ghost use Rattle.ufs_model.specs.Outcome.{changed, closed, created, first_draft, granted};
ghost use Rattle.ufs_model.specs.Plain.{Server, with_new_in_draft};
ghost use Rattle.ufs_model.specs.Refusal.{goes_nowhere, has_no_such_grant};
ghost use Rattle.ufs_model.specs.State.{after_leave, changed_draft, draft_of, file_seen, seen};
ghost use Rattle.ufs_model.specs.WellFormed.{IsState};
ghost use Rattle.ufs_model.specs.declared.asked.Ref.TheVariants.{Through};
ghost use Rattle.ufs_model.specs.declared.asked.Reply.TheVariants as replies;
ghost use Rattle.ufs_model.specs.declared.change.Change.TheVariants as changes;
ghost use Rattle.ufs_model.specs.declared.object.Draft.{Draft};
ghost use Rattle.ufs_model.specs.declared.object.Grant.{Grant};
ghost use Rattle.ufs_model.specs.declared.object.Object.{Object};

use crate::asked::Ref;
use crate::change::Change;
use crate::need::takes_draft;
use crate::numbers::{Levels, Numbers};
use crate::object::{Draft, Grant, Object};
use crate::server::Server;
use cfs_base::{Bytes, Mode, NoMemory, Puid, Session, Tuid};
use std::alloc::{AllocError, Global};
use std::collections::BTreeMap;

/// Changes the object with this identifier. On an error nothing is changed.
fn change_object(
    objects: &mut BTreeMap<Puid, Object>,
    alloc: Global,
    id: Puid,
    change: &Change,
) -> Result<(), AllocError>
    requires { (o : Object) → lookup (is_at (puid_cmp id)) objects.old.entries ≡ Some o → IsInside change.now o }
    ensures ok { OnOk result ((o : Object) → lookup (is_at (puid_cmp id)) objects.old.entries ≡ Some o
        → objects.new.entries ≡ insert_entry puid_cmp objects.old.entries id (changed_object change.now o)) }
    ensures err { OnErr result (objects.new.entries ≡ objects.old.entries) }
{
    let Some(object) = objects.get_mut(&id) else {
        return Ok(());
    };
    let held = object.held_after(alloc, change)?;
    object.change(change, held)
}

/// Changes the draft of the grant at this place. On an error nothing is changed.
fn change_draft(
    grants: &mut Vec<Grant>,
    alloc: Global,
    at: usize,
    change: &Change,
) -> Result<(), AllocError>
    requires { (g : Grant) (d : Draft) → slice_get grants.old.items at ≡ Some g → g.draft ≡ Some d
        → IsInside change.now d.object }
    ensures ok { OnOk result ((g : Grant) (d : Draft) → slice_get grants.old.items at ≡ Some g → g.draft ≡ Some d
        → grants.new.items ≡ set grants.old.items at (record g { draft = Some (changed_draft change.now d) })) }
    ensures err { OnErr result (grants.new.items ≡ grants.old.items) }
{
    let Some(grant) = grants.get_mut(at) else {
        return Ok(());
    };
    match &mut grant.draft {
        Some(draft) => draft.change(alloc, change),
        None => Ok(()),
    }
}

impl Server {
    /// Changes what the reference shows. On an error nothing is changed.
    pub fn change(
        &mut self,
        alloc: Global,
        who: Session,
        reference: Ref,
        change: &Change,
    ) -> Result<(), NoMemory>
        requires state { IsState self.old.state }
        requires granted { has_no_such_grant self.old.state who reference ≡ false }
        requires there { goes_nowhere self.old.state reference ≡ false }
        requires inside { IsInside change.now (seen self.old.state who reference).object }
        ensures ok { OnOk result (self.new ≡ record self.old {
          state = changed self.old.state who reference change.now;
        }) }
        ensures err { OnErr result (self.new ≡ self.old) }
    {
        if let Some(at) = self.draft_place(who, reference) {
            return Ok(change_draft(&mut self.grants, alloc, at, change)?);
        }
        match self.named(who, reference) {
            Some(id) => Ok(change_object(&mut self.objects, alloc, id, change)?),
            None => Ok(()),
        }
    }

    /// Makes a new object whose root block is this block, and puts its identifier into the slot.
    ///
    /// On an error nothing is changed.
    pub fn create(
        &mut self,
        alloc: Global,
        who: Session,
        index: Ref,
        slot: u64,
        object: Object,
        block: u32,
    ) -> Result<Puid, NoMemory>
        requires words { self.old.state.drawn < 4294967295 }
        requires state { IsState self.old.state }
        requires granted { has_no_such_grant self.old.state who index ≡ false }
        requires there { goes_nowhere self.old.state index ≡ false }
        requires inside { IsInside (changes.Fill slot None) (seen self.old.state who index).object }
        requires free { has_block self.old.state.graph.objects block ≡ false }
        ensures ok { IfOk result (λ id. created self.old.seed self.old.state who index slot object block
            ≡ (replies.Id id, self.new.state)) }
        ensures err { OnErr result (self.new ≡ self.old) }
        ensures seed { self.new.seed ≡ self.old.seed }
    {
        let id = Puid {
            block,
            word: self.words.next(),
        };
        if let Some(at) = self.draft_place(who, index) {
            self.create_in_draft(alloc, at, slot, object, id)?;
            self.words.draw();
            return Ok(id);
        }
        let Some(into) = self.named(who, index) else {
            return Err(NoMemory);
        };
        let held = match self.objects.get(&into) {
            Some(found) => held_once_filled(alloc, found, slot, id)?,
            None => return Err(NoMemory),
        };
        self.objects.insert(id, object)?;
        fill_object(&mut self.objects, into, slot, id, held);
        self.words.draw();
        Ok(id)
    }

    /// Puts a new object into the graph, and its identifier into the slot of the draft at this place.
    ///
    /// On an error nothing is changed.
    fn create_in_draft(
        &mut self,
        alloc: Global,
        at: usize,
        slot: u64,
        object: Object,
        id: Puid,
    ) -> Result<(), NoMemory>
        requires { (g : Grant) (d : Draft) → slice_get self.old.state.grants at ≡ Some g → g.draft ≡ Some d
            → IsInside (changes.Fill slot (Some id)) d.object }
        ensures ok { OnOk result ((g : Grant) (d : Draft) → slice_get self.old.state.grants at ≡ Some g
            → g.draft ≡ Some d → self.new ≡ record self.old {
              state = with_new_in_draft self.old.state at g d slot id object;
            }) }
        ensures err { OnErr result (self.new ≡ self.old) }
    {
        let filled = Change::Fill {
            slot,
            what: Some(id),
        };
        let draft = draft_after(alloc, self.grants.as_slice(), at, &filled)?;
        self.objects.insert(id, object)?;
        put_draft(&mut self.grants, at, draft);
        Ok(())
    }

    /// Opens an object, and returns the grant's identifier.
    ///
    /// A special file or an index that is opened for writing gets a draft. On an error nothing is changed.
    pub fn open(
        &mut self,
        alloc: Global,
        who: Session,
        id: Puid,
        mode: Mode,
    ) -> Result<Tuid, NoMemory>
        requires words { self.old.state.drawn < 4294967295 }
        ensures ok { IfOk result (λ t. granted self.old.seed self.old.state who id mode
            ≡ (replies.Grant t, self.new.state)) }
        ensures err { OnErr result (self.new ≡ self.old) }
        ensures seed { self.new.seed ≡ self.old.seed }
    {
        let draft = match self.objects.get(&id) {
            Some(object) => first_draft(alloc, object, mode)?,
            None => None,
        };
        let tuid = Tuid {
            draw: self.words.drawn() + 1,
            word: self.words.next(),
        };
        self.grants.push(Grant {
            tuid,
            session: who,
            id,
            mode,
            draft,
        })?;
        self.words.draw();
        Ok(tuid)
    }

    /// Ends a grant. Its draft becomes the object, or is dropped. Takes no memory.
    pub fn close(&mut self, who: Session, t: Tuid, commit: bool)
        requires state { IsState self.old.state }
        requires granted { has_no_such_grant self.old.state who (Through t) ≡ false }
        ensures { self.new ≡ record self.old { state = closed self.old.state who t commit } }
    {
        let Some(at) = self.place_of(who, t) else {
            return;
        };
        let Grant {
            tuid: _,
            session: _,
            id,
            mode: _,
            draft,
        } = self.grants.remove(at);
        end_draft(&mut self.objects, id, draft, commit);
    }

    /// Ends all grants of the session, with their drafts. Takes no memory.
    pub fn leave(&mut self, who: Session)
        ensures { self.new ≡ record self.old { state = after_leave self.old.state who } }
    {
        self.grants.retain(|g| g.session != who);
    }

    /// Returns `count` bytes, beginning at the offset.
    pub fn read(
        &self,
        alloc: Global,
        who: Session,
        file: Ref,
        offset: u64,
        count: u64,
    ) -> Result<Bytes, NoMemory>
        requires { offset + count ≤ length (file_seen self.now.state who file).bytes }
        ensures { IfOk result (λ bytes. bytes ≡ slice_range (file_seen self.now.state who file).bytes offset (offset +
            count)) }
    {
        let all = self.bytes_seen(who, file);
        let part = &all[offset as usize..(offset + count) as usize];
        Ok(Bytes::new(part.to_vec(alloc)?))
    }
}

/// Returns the draft that an object gets when it is opened in this mode.
fn first_draft(alloc: Global, object: &Object, mode: Mode) -> Result<Option<Draft>, AllocError>
    ensures { IfOk result (λ draft. draft ≡ first_draft mode (Some object.now)) }
{
    if !takes_draft(Some(object), mode) {
        return Ok(None);
    }
    Ok(Some(Draft {
        object: object.copy(alloc)?,
        fresh: Levels::empty(alloc),
    }))
}

/// Returns what a change makes of the draft of the grant at this place.
fn draft_after(
    alloc: Global,
    grants: &[Grant],
    at: usize,
    change: &Change,
) -> Result<Option<Draft>, AllocError>
    requires { (g : Grant) (d : Draft) → slice_get grants.now at ≡ Some g → g.draft ≡ Some d
        → IsInside change.now d.object }
    ensures { IfOk result (λ after. (g : Grant) (d : Draft) → slice_get grants.now at ≡ Some g → g.draft ≡ Some d
        → after ≡ Some (changed_draft change.now d)) }
{
    let Some(grant) = grants.get(at) else {
        return Ok(None);
    };
    let Some(draft) = &grant.draft else {
        return Ok(None);
    };
    Ok(Some(draft.changed(alloc, change)?))
}

/// Gives the grant at this place this draft. Takes no memory.
fn put_draft(grants: &mut Vec<Grant>, at: usize, draft: Option<Draft>)
    ensures { (g : Grant) → slice_get grants.old.items at ≡ Some g
        → grants.new.items ≡ set grants.old.items at (record g { draft = draft }) }
{
    if let Some(grant) = grants.get_mut(at) {
        grant.draft = draft;
    }
}

/// Returns the leaves that are held once the slot is filled, or `None` if they stay the same.
fn held_once_filled(
    alloc: Global,
    object: &Object,
    slot: u64,
    id: Puid,
) -> Result<Option<Numbers>, AllocError>
    requires { IsInside (changes.Fill slot (Some id)) object.now }
    ensures { IfOk result (λ held. unwrap_or held (held_leaves object.now)
        ≡ held_leaves (changed_object (changes.Fill slot (Some id)) object.now)) }
{
    object.held_after(
        alloc,
        &Change::Fill {
            slot,
            what: Some(id),
        },
    )
}

/// Puts an identifier into a slot of the index. Takes no memory.
fn fill_object(
    objects: &mut BTreeMap<Puid, Object>,
    index: Puid,
    slot: u64,
    id: Puid,
    held: Option<Numbers>,
)
    requires inside { (o : Object) → lookup (is_at (puid_cmp index)) objects.old.entries ≡ Some o
        → IsInside (changes.Fill slot (Some id)) o }
    requires held { (o : Object) → lookup (is_at (puid_cmp index)) objects.old.entries ≡ Some o
        → unwrap_or held (held_leaves o) ≡ held_leaves (changed_object (changes.Fill slot (Some id)) o) }
    ensures { (o : Object) → lookup (is_at (puid_cmp index)) objects.old.entries ≡ Some o
        → objects.new.entries ≡ insert_entry puid_cmp objects.old.entries index (changed_object (changes.Fill slot
        (Some id)) o) }
{
    if let Some(object) = objects.get_mut(&index) {
        object.fill(slot, Some(id), held);
    }
}

/// Makes a draft, if there is one, the object with this identifier, or drops it. Takes no memory.
fn end_draft(objects: &mut BTreeMap<Puid, Object>, id: Puid, draft: Option<Draft>, commit: bool)
    ensures dropped { commit ≡ false → objects.new.entries ≡ objects.old.entries }
    ensures none { draft ≡ None → objects.new.entries ≡ objects.old.entries }
    ensures put { (d : Draft) (o : Object) → commit ≡ true → draft ≡ Some d
        → lookup (is_at (puid_cmp id)) objects.old.entries ≡ Some o
        → objects.new.entries ≡ insert_entry puid_cmp objects.old.entries id d.object }
{
    match draft {
        Some(draft) if commit => put_object(objects, id, draft),
        _ => {}
    }
}

/// Makes the draft the object with this identifier. Takes no memory.
fn put_object(objects: &mut BTreeMap<Puid, Object>, id: Puid, draft: Draft)
    ensures { (o : Object) → lookup (is_at (puid_cmp id)) objects.old.entries ≡ Some o
        → objects.new.entries ≡ insert_entry puid_cmp objects.old.entries id draft.object }
{
    if let Some(object) = objects.get_mut(&id) {
        let Draft {
            object: new,
            fresh: _,
        } = draft;
        *object = new;
    }
}
