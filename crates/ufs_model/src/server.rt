//! What the slow server remembers, and what a reference of a session goes to.
ghost use Rattle.std.specs.Prelude.{◌≡◌, IfNone, IfOk, IfSome, None, length, unwrap_or};
ghost use Rattle.std.specs.List.{position};
ghost use Rattle.std.specs.Option.{option_copied};
ghost use Rattle.ufs_model.specs.Graph.{fresh_graph, is_there};
ghost use Rattle.ufs_model.specs.Object.{new_index, slot_of};
ghost use Rattle.ufs_model.specs.Plain.{IsDraftPlace, Server};
ghost use Rattle.ufs_model.specs.State.{draft_of, file_seen, grant_of, index_seen, is_grant, named, object_of, opening};
ghost use Rattle.ufs_model.specs.State.{seen};
ghost use Rattle.ufs_model.specs.declared.collection.Collection.TheVariants as collections;
ghost use Rattle.ufs_model.specs.declared.object.Object.TheVariants as objects;

use crate::asked::Ref;
use crate::limits::ROOT_SLOTS;
use crate::object::{Draft, Grant, Index, Object};
use crate::word::Words;
use cfs_base::{NoMemory, Puid, Session, Tuid};
use std::alloc::Global;
use std::collections::BTreeMap;
use std::marker::Model;

/// The words of a seed, and the state: objects and grants.
#[derive(Drop)]
pub struct Server {
    /// The identifier of the root index.
    pub root: Puid,
    /// The objects, by their identifiers.
    pub objects: BTreeMap<Puid, Object>,
    /// The grants of all sessions.
    pub grants: Vec<Grant>,
    /// The words of the seed, drawn in turn.
    pub words: Words,
}

impl Model for Server {
    ghost use Rattle.ufs_model.specs.Plain.{Server};

    ghost Value = { Server };

    ghost use Rattle.std.specs.Prelude.{None};
    ghost use Rattle.ufs_model.specs.declared.collection.Collection.TheVariants as collections;

    ghost view = { λ s. record {
      seed = s.words.seed;
      state = record {
        graph = record { root = s.root; objects = s.objects.entries };
        grants = s.grants.items;
        drawn = s.words.drawn;
        stopped = None;
        collection = collections.None;
      };
    } };
}

impl Server {
    /// Makes a server of an empty root index.
    pub fn new(alloc: Global, root: Puid, seed: u64) -> Result<Server, NoMemory>
        ensures { IfOk result (λ s. s ≡ record { seed = seed; state = opening (fresh_graph root) }) }
    {
        let mut objects = BTreeMap::new(alloc);
        objects.insert(
            root,
            Object::Index(Index::of_slots(alloc, ROOT_SLOTS as usize)?),
        )?;
        Ok(Server {
            root,
            objects,
            grants: Vec::new(alloc),
            words: Words::new(seed),
        })
    }

    /// The server never stops, and has no collection.
    pub fn is_quiet(&self)
        ensures collection { self.now.state.collection ≡ collections.None }
        ensures stopped { self.now.state.stopped ≡ None }
    {
        let _root = &self.root;
    }

    /// Returns whether an object has this identifier.
    pub fn is_there(&self, id: Puid) -> bool
        ensures { result ≡ is_there self.now.state.graph id }
    {
        self.objects.contains_key(&id)
    }

    /// Returns the place of the session's grant with that identifier among the grants.
    pub fn place_of(&self, who: Session, t: Tuid) -> Option<usize>
        ensures { result ≡ position (is_grant who t) self.now.state.grants }
    {
        self.grants
            .iter()
            .position(|g| g.session == who && g.tuid == t)
    }

    /// Returns the session's grant with that identifier.
    pub fn grant(&self, who: Session, t: Tuid) -> Option<&Grant>
        ensures { option_copied result ≡ grant_of self.now.state who t }
    {
        self.grants.iter().find(|g| g.session == who && g.tuid == t)
    }

    /// Returns the identifier that a reference names.
    pub fn named(&self, who: Session, reference: Ref) -> Option<Puid>
        ensures { result ≡ named self.now.state who reference }
    {
        match reference {
            Ref::Direct(id) => Some(id),
            Ref::Through(t) => Some(self.grant(who, t)?.id),
        }
    }

    /// Returns the object that a reference names.
    pub fn object(&self, who: Session, reference: Ref) -> Option<&Object>
        ensures { option_copied result ≡ object_of self.now.state who reference }
    {
        let id = self.named(who, reference)?;
        self.objects.get(&id)
    }

    /// Returns the draft to which a reference goes.
    pub fn draft(&self, who: Session, reference: Ref) -> Option<&Draft>
        ensures { option_copied result ≡ draft_of self.now.state who reference }
    {
        match reference {
            Ref::Direct(_) => None,
            Ref::Through(t) => self.grant(who, t)?.draft.as_ref(),
        }
    }

    /// Returns the place of the grant to whose draft a reference goes.
    pub fn draft_place(&self, who: Session, reference: Ref) -> Option<usize>
        ensures none { IfNone result (draft_of self.now.state who reference ≡ None) }
        ensures some { IfSome result (λ at. IsDraftPlace self.now.state who reference at) }
    {
        let Ref::Through(t) = reference else {
            return None;
        };
        let at = self.place_of(who, t)?;
        match self.grants.get(at)?.draft {
            Some(_) => Some(at),
            None => None,
        }
    }

    /// Returns what a reference shows: a draft, or else the object.
    pub fn seen(&self, who: Session, reference: Ref) -> Option<&Object>
        ensures { unwrap_or (option_copied result) (objects.Index (new_index 0))
            ≡ (seen self.now.state who reference).object }
    {
        match self.draft(who, reference) {
            Some(draft) => Some(&draft.object),
            None => self.object(who, reference),
        }
    }

    /// Returns the number of slots of the index that a reference shows.
    pub fn slots_seen(&self, who: Session, reference: Ref) -> u64
        ensures { result ≡ length (index_seen self.now.state who reference).slots }
    {
        match self.seen(who, reference) {
            Some(Object::Index(index)) => index.len(),
            _ => 0,
        }
    }

    /// Returns what a slot of the index holds that a reference shows.
    pub fn slot_seen(&self, who: Session, reference: Ref, slot: u64) -> Option<Puid>
        ensures { result ≡ slot_of (index_seen self.now.state who reference) slot }
    {
        match self.seen(who, reference) {
            Some(Object::Index(index)) if slot < index.len() => index.slot(slot),
            _ => None,
        }
    }

    /// Returns the bytes of the file that a reference shows.
    pub fn bytes_seen(&self, who: Session, reference: Ref) -> &[u8]
        ensures { result.now ≡ (file_seen self.now.state who reference).bytes }
    {
        match self.seen(who, reference) {
            Some(Object::File(file)) => file.bytes.as_slice(),
            _ => &[],
        }
    }
}
