//! The grants of each session.
ghost use Rattle.std.specs.Prelude.{◌≡◌, ℕ, ◌<◌, ◌≤◌, ◌++◌, [], ◌∷◌, ◌==◌, nat_eq, find, length, None, IsOk, OnOk};
ghost use Rattle.std.specs.Prelude.{if◌then◌else◌, vec_capacity};
ghost use Rattle.std.specs.HashMap.{spare, get};
ghost use Rattle.ufs_model.specs.Identifier.{same_tuid};
ghost use Rattle.open_table.specs.Parts.{own_in, HaveSeats, without_tuid};

use crate::OpenGrant;
use cfs_base::{NoMemory, Session, Tuid};
use std::alloc::Global;
use std::collections::HashMap;
use std::mem;
use ufs_model::MOST_GRANTS;

/// Each session's own grants.
#[derive(Drop)]
pub struct Sessions {
    alloc: Global,
    /// The grants of each session, in the order in which they were acquired.
    pub own: HashMap<Session, Vec<OpenGrant>>,
    /// The list for the next new session: empty, with room for all the grants that it may have.
    pub fresh: Vec<OpenGrant>,
    ghost seats: { HaveSeats own },
    ghost empty: { fresh.items ≡ [] },
}

impl Sessions {
    /// Makes a table in which no session has a grant. Takes no memory.
    pub fn new(alloc: Global) -> Sessions
        ensures { (q : ℕ) → own_in result.own q ≡ [] }
    {
        Sessions {
            alloc,
            own: HashMap::new(alloc),
            fresh: Vec::new(alloc),
        }
    }

    /// Makes room for one more grant of any session that has fewer than it may have.
    pub fn reserve(&mut self) -> Result<(), NoMemory>
        ensures own { (q : ℕ) → own_in self.new.own q ≡ own_in self.old.own q }
        ensures room { OnOk result (0 < spare self.new.own) }
        ensures seats { OnOk result (MOST_GRANTS ≤ vec_capacity self.new.fresh) }
        ensures kept { spare self.old.own ≤ spare self.new.own }
        ensures kept_seats { vec_capacity self.old.fresh ≤ vec_capacity self.new.fresh }
        ensures roomy { 0 < spare self.old.own → MOST_GRANTS ≤ vec_capacity self.old.fresh → IsOk result }
    {
        self.own.reserve(1)?;
        self.fresh.reserve(MOST_GRANTS as usize)?;
        Ok(())
    }

    /// Returns a session's own grants.
    pub fn of(&self, who: Session) -> &[OpenGrant]
        ensures { result.now ≡ own_in self.now.own who }
    {
        match self.own.get(&who) {
            Some(own) => own.as_slice(),
            None => &[],
        }
    }

    /// Returns the one of a session's own grants with this temporary identifier.
    pub fn find(&self, who: Session, tuid: Tuid) -> Option<OpenGrant>
        ensures { result ≡ find (λ g. same_tuid g.tuid tuid) (own_in self.now.own who) }
    {
        self.of(who).iter().find(|g| g.tuid == tuid).copied()
    }

    /// Adds a grant to its session's own. Takes no memory.
    pub fn add(&mut self, grant: OpenGrant)
        requires few { length (own_in self.old.own grant.session) < MOST_GRANTS }
        requires room { 0 < spare self.old.own }
        requires seats { MOST_GRANTS ≤ vec_capacity self.old.fresh }
        ensures { (q : ℕ) → own_in self.new.own q
            ≡ (if q == grant.session then own_in self.old.own q ++ grant ∷ [] else own_in self.old.own q) }
    {
        if let Some(own) = self.own.get_mut(&grant.session) {
            own.push_reserved(grant);
            return;
        }
        let mut own = mem::replace(&mut self.fresh, Vec::new(self.alloc));
        own.push_reserved(grant);
        let _ = self.own.insert(grant.session, own);
    }

    /// Removes a grant from its session's own. Takes no memory.
    pub fn remove(&mut self, who: Session, tuid: Tuid)
        ensures own { (q : ℕ) → own_in self.new.own q
            ≡ (if q == who then without_tuid (own_in self.old.own q) tuid else own_in self.old.own q) }
        ensures kept { spare self.old.own ≤ spare self.new.own }
        ensures kept_seats { vec_capacity self.new.fresh ≡ vec_capacity self.old.fresh }
    {
        if let Some(own) = self.own.get_mut(&who) {
            own.retain(|g| g.tuid != tuid);
        }
    }

    /// Forgets a session that has no grant.
    pub fn forget(&mut self, who: Session)
        requires { own_in self.old.own who ≡ [] }
        ensures gone { get nat_eq self.new.own who ≡ None }
        ensures own { (q : ℕ) → own_in self.new.own q ≡ own_in self.old.own q }
        ensures kept { spare self.old.own ≤ spare self.new.own }
        ensures kept_seats { vec_capacity self.new.fresh ≡ vec_capacity self.old.fresh }
    {
        self.own.remove(&who);
    }
}
