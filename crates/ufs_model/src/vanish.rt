//! What a collection remembers as it begins, and what it may take.
ghost use Rattle.std.specs.Prelude.{◌≡◌, ◌&&◌, ◌||◌, ◌++◌, [], map, not, false, reverse, IfOk, OnOk};
ghost use Rattle.std.specs.List.{list_all, list_any};
ghost use Rattle.std.specs.Option.{option_map_or};
ghost use Rattle.ufs_model.specs.Followed.{after_seen, edges_from, edges_of};
ghost use Rattle.ufs_model.specs.Graph.{ids_of, is_there, referred, without};
ghost use Rattle.ufs_model.specs.Identifier.{ids_rise, is_among, rise_from, rises};
ghost use Rattle.ufs_model.specs.Reach.{starts_now};
ghost use Rattle.ufs_model.specs.State.{draft_pairs, drafted, pairs_of};
ghost use Rattle.ufs_model.specs.Vanish.{are_no_starts, are_there, has_no_kept, leaves_no_reference};
ghost use Rattle.ufs_model.specs.declared.collection.Collection.TheVariants as collections;

use crate::object::{Grant, Object};
use crate::progress::Seen;
use crate::server::Server;
use cfs_base::{NoMemory, Puid};
use std::alloc::Global;
use std::cmp::Ordering;
use std::collections::{BTreeMap, BTreeSet};

/// Returns whether each identifier is below all that follow.
fn rise(ids: &[Puid]) -> bool
    ensures { result ≡ rises ids.now }
{
    rise_by_next(ids)
}

/// Returns whether each identifier is above the one before it.
fn rise_by_next(ids: &[Puid]) -> bool
    ensures { result ≡ ids_rise ids.now }
{
    match ids {
        [] => true,
        [first, rest @ ..] => rise_from(*first, rest),
    }
}

/// Returns whether each identifier is above the one before it, and the first above `last`.
fn rise_from(mut last: Puid, ids: &[Puid]) -> bool
    ensures { result ≡ rise_from last ids.now }
{
    'ids: for id in ids {
        match last.cmp(id) {
            Ordering::Less => last = *id,
            Ordering::Equal | Ordering::Greater => return false,
        }
    }
    true
}

/// Returns whether the object refers to any of these.
fn refers_to(object: &Object, ids: &BTreeSet<Puid>) -> bool
    ensures { result ≡ list_any (λ x. is_among x ids.now.keys) (referred object.now) }
{
    match object {
        Object::File(_) => false,
        Object::Index(index) => hold_one(index.slots.as_slice(), ids),
    }
}

/// Returns whether a slot holds any of these.
fn hold_one(slots: &[Option<Puid>], ids: &BTreeSet<Puid>) -> bool
    ensures { result ≡ list_any (λ slot. option_map_or (λ x. is_among x ids.now.keys) slot false) slots.now }
{
    slots.iter().any(|slot| holds_one(slot, ids))
}

/// Returns whether this slot holds any of these.
fn holds_one(slot: &Option<Puid>, ids: &BTreeSet<Puid>) -> bool
    ensures { result ≡ option_map_or (λ x. is_among x ids.now.keys) slot.now false }
{
    match slot {
        Some(id) => ids.contains(id),
        None => false,
    }
}

/// Returns whether no object outside these refers to one of them.
fn refer_to_none(objects: &BTreeMap<Puid, Object>, ids: &BTreeSet<Puid>) -> bool
    ensures { result ≡ list_all (λ e. is_among e.0 ids.now.keys
        || not (list_any (λ x. is_among x ids.now.keys) (referred e.1))) objects.now.entries }
{
    objects
        .iter()
        .all(|(id, object)| ids.contains(id) || !refers_to(object, ids))
}

/// Returns whether the grant has a draft that refers to any of these.
fn drafts_one(grant: &Grant, ids: &BTreeSet<Puid>) -> bool
    ensures { result ≡ list_any (λ x. is_among x ids.now.keys) (drafted grant.now) }
{
    match &grant.draft {
        Some(draft) => refers_to(&draft.object, ids),
        None => false,
    }
}

/// Returns whether no draft of an object outside these refers to one of them.
fn draft_none(grants: &[Grant], ids: &BTreeSet<Puid>) -> bool
    ensures { result ≡ list_all (λ g. is_among g.id ids.now.keys
        || not (list_any (λ x. is_among x ids.now.keys) (drafted g))) grants.now }
{
    grants
        .iter()
        .all(|grant| ids.contains(&grant.id) || !drafts_one(grant, ids))
}

/// Appends each identifier in the object's slots to what was seen, as an edge from this index.
fn see_slots(seen: &mut Vec<Seen>, id: Puid, object: &Object) -> Result<(), NoMemory>
    ensures { OnOk result (seen.new.items ≡ seen.old.items ++ edges_from id object.now) }
{
    let Object::Index(index) = object else {
        return Ok(());
    };
    'slots: for slot in index.slots.as_slice() {
        if let Some(to) = slot {
            seen.push(Seen::Edge(id, *to))?;
        }
    }
    Ok(())
}

/// Appends each identifier in a draft's slots to what was seen, as an edge from its index.
fn see_drafts(seen: &mut Vec<Seen>, grants: &[Grant]) -> Result<(), NoMemory>
    ensures { OnOk result (seen.new.items ≡ seen.old.items ++ edges_of (draft_pairs grants.now)) }
{
    'grants: for grant in grants {
        if let Some(draft) = &grant.draft {
            see_slots(seen, grant.id, &draft.object)?;
        }
    }
    Ok(())
}

/// Returns the identifiers of the objects that these grants have open.
fn ids_opened(alloc: Global, grants: &[Grant]) -> Result<Vec<Puid>, NoMemory>
    ensures { IfOk result (λ ids. ids.items ≡ map (λ g. g.id) grants.now) }
{
    let mut ids = Vec::new(alloc);
    'grants: for grant in grants {
        ids.push(grant.id)?;
    }
    Ok(ids)
}

/// Returns the list reversed. Takes no memory.
fn reversed(mut seen: Vec<Seen>) -> Vec<Seen>
    ensures { result.items ≡ reverse seen.items }
{
    seen.as_mut_slice().reverse();
    seen
}

impl Server {
    /// Returns whether these increase and are all in the graph.
    pub(crate) fn are_there(&self, ids: &[Puid]) -> bool
        ensures { result ≡ are_there self.now.state ids.now }
    {
        rise(ids) && self.has_all(ids)
    }

    fn has_all(&self, ids: &[Puid]) -> bool
        ensures { result ≡ list_all (is_there self.now.state.graph) ids.now }
    {
        ids.iter().all(|id| self.is_there(*id))
    }

    /// Returns whether neither the root nor an open object is among these.
    fn are_no_starts(&self, ids: &BTreeSet<Puid>) -> bool
        ensures { result ≡ are_no_starts self.now.state ids.now.keys }
    {
        !ids.contains(&self.root) && self.opens_none(ids)
    }

    /// Returns whether no open object is among these.
    fn opens_none(&self, ids: &BTreeSet<Puid>) -> bool
        ensures { result ≡ list_all (λ g. not (is_among g.id ids.now.keys)) self.now.state.grants }
    {
        self.grants.iter().all(|grant| !ids.contains(&grant.id))
    }

    /// Returns whether no index that stays refers to one of these.
    fn leaves_no_reference(&self, ids: &BTreeSet<Puid>) -> bool
        ensures { result ≡ leaves_no_reference self.now.state ids.now.keys }
    {
        refer_to_none(&self.objects, ids) && draft_none(self.grants.as_slice(), ids)
    }

    /// Returns whether each object of the graph is in the first or the second set.
    pub(crate) fn are_all(&self, first: &BTreeSet<Puid>, second: &BTreeSet<Puid>) -> bool
        ensures { result ≡ list_all (λ x. is_among x first.now.keys
            || is_among x second.now.keys) (ids_of self.now.state.graph) }
    {
        self.objects
            .keys()
            .all(|id| first.contains(id) || second.contains(id))
    }

    /// Returns whether nothing that stays leads to these, and none of them is the root or open.
    pub(crate) fn are_unkept(&self, ids: &BTreeSet<Puid>) -> bool
        ensures { result ≡ (has_no_kept self.now.state ids.now.keys
            && leaves_no_reference self.now.state ids.now.keys) }
    {
        self.are_no_starts(ids) && self.leaves_no_reference(ids)
    }

    /// Returns what a collection has seen as it begins: each entry, the root, and the open objects.
    pub(crate) fn first_seen(&self, alloc: Global) -> Result<Vec<Seen>, NoMemory>
        ensures { IfOk result (λ seen. after_seen (collections.Marking [] []) seen.items
            ≡ collections.Marking (pairs_of self.now.state) (starts_now self.now.state)) }
    {
        let mut seen = self.entries_seen(alloc)?;
        let ids = self.open_ids(alloc)?;
        let mut open = BTreeSet::new(alloc);
        open.insert(self.root)?;
        seen.push(Seen::Start(self.root))?;
        'ids: for id in ids.as_slice() {
            if open.insert(*id)? {
                seen.push(Seen::Start(*id))?;
            }
        }
        Ok(seen)
    }

    fn open_ids(&self, alloc: Global) -> Result<Vec<Puid>, NoMemory>
        ensures { IfOk result (λ ids. ids.items ≡ map (λ g. g.id) self.now.state.grants) }
    {
        ids_opened(alloc, self.grants.as_slice())
    }

    /// Returns each entry, the last first.
    fn entries_seen(&self, alloc: Global) -> Result<Vec<Seen>, NoMemory>
        ensures { IfOk result (λ seen. after_seen (collections.Marking [] []) seen.items
            ≡ collections.Marking (pairs_of self.now.state) []) }
    {
        let mut seen = Vec::new(alloc);
        for (id, object) in &self.objects {
            see_slots(&mut seen, *id, object)?;
        }
        see_drafts(&mut seen, self.grants.as_slice())?;
        Ok(reversed(seen))
    }

    /// Takes these out of the graph. Takes no memory.
    pub(crate) fn take_out(&mut self, ids: &BTreeSet<Puid>)
        ensures { self.new ≡ record self.old {
          state = record self.old.state {
            graph = without self.old.state.graph
                ids.now.keys;
          };
        } }
    {
        self.objects.retain(|id, _| !ids.contains(id));
    }
}
