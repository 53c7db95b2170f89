//! The grants of all sessions.
ghost use Rattle.std.specs.Prelude.{◌≡◌, ◌<◌, ◌++◌, [], ◌∷◌, length, slice_get, true, false, Some, None};
ghost use Rattle.std.specs.Prelude.{IsTrue, IsOk, OnOk, OnErr, IfOk, IfErr};
ghost use Rattle.std.specs.List.{list_any};
ghost use Rattle.ufs_model.specs.Identifier.{same_puid, same_tuid};
ghost use Rattle.open_table.specs.Grants.{session_grant, first_grant, open_mode, without_grant, without_session};
ghost use Rattle.open_table.specs.Grants.{is_grant_table};
ghost use Rattle.open_table.specs.Grants.{conflicts, mode_against, fault_of};

use crate::objects::Objects;
use crate::sessions::Sessions;
use crate::{AcquireFault, NoGrant, OpenGrant};
use cfs_base::{Mode, NoMemory, Puid, Session, Tuid};
use std::alloc::Global;
use std::marker::Model;
use ufs_model::MOST_GRANTS;

/// The grants of all sessions, in the order in which they were acquired.
///
/// A grant is found among its own session's grants, and how an object is open by one look-up. Only `reserve` takes
/// memory.
#[derive(Drop)]
pub struct Grants {
    grants: Vec<OpenGrant>,
    sessions: Sessions,
    objects: Objects,
}

impl Model for Grants {
    ghost use Rattle.open_table.specs.Grants.{Table};

    ghost Value = { Table };

    ghost use Rattle.std.specs.Prelude.{nat_lt, nat_le, ◌&&◌, vec_len, vec_capacity};
    ghost use Rattle.std.specs.HashMap.{spare};
    ghost use Rattle.ufs_model.specs.declared.limits.TheConstants.{MOST_GRANTS};
    ghost use Rattle.open_table.specs.Parts.{IsTied, own_in, mode_at};

    ghost view = { λ t. record {
      grants = t.grants.items;
      has_room = nat_lt (vec_len t.grants) (vec_capacity t.grants) && nat_lt (vec_len t.grants) 4294967295
          && nat_lt 0 (spare t.sessions.own) && nat_le MOST_GRANTS (vec_capacity t.sessions.fresh)
          && nat_lt 0 (spare t.objects.modes);
    } };

    ghost invariant = { λ t. IsTied t.grants.items (own_in t.sessions.own) (mode_at t.objects.modes) };
}

impl Grants {
    /// Makes a table of no grants. Takes no memory.
    pub fn new(alloc: Global) -> Grants
        ensures { result ≡ record { grants = []; has_room = false } }
    {
        Grants {
            grants: Vec::new(alloc),
            sessions: Sessions::new(alloc),
            objects: Objects::new(alloc),
        }
    }

    /// Makes room for one more grant, of any session. On an error nothing is changed.
    pub fn reserve(&mut self) -> Result<(), NoMemory>
        ensures grants { self.new.grants ≡ self.old.grants }
        ensures room { OnOk result (self.new.has_room ≡ true) }
        ensures kept { self.old.has_room ≡ true → self.new.has_room ≡ true }
        ensures roomy { self.old.has_room ≡ true → IsOk result }
    {
        if self.grants.len() >= u32::MAX as usize {
            return Err(NoMemory);
        }
        self.grants.reserve(1)?;
        self.sessions.reserve()?;
        self.objects.reserve()?;
        Ok(())
    }

    /// Adds a grant. Its temporary identifier must be new.
    ///
    /// Takes no memory, and uses up the room that was made. On an error nothing is changed.
    pub fn acquire(&mut self, grant: OpenGrant) -> Result<(), AcquireFault>
        requires room { self.old.has_room ≡ true }
        requires new { list_any (λ g. same_tuid g.tuid grant.tuid) self.old.grants ≡ false }
        ensures grants { OnOk result (self.new.grants ≡ self.old.grants ++ grant ∷ []) }
        ensures allowed { OnOk result (fault_of self.old.grants grant ≡ None) }
        ensures fault { IfErr result (λ fault. fault_of self.old.grants grant ≡ Some fault) }
        ensures err { OnErr result (self.new ≡ self.old) }
    {
        if let Some(fault) = self.fault(grant) {
            return Err(fault);
        }
        self.grants.push_reserved(grant);
        self.sessions.add(grant);
        self.objects.open(grant.id, grant.mode);
        Ok(())
    }

    /// Returns why a grant can't be acquired, or `None` if it can.
    pub fn fault(&self, grant: OpenGrant) -> Option<AcquireFault>
        ensures { result ≡ fault_of self.now.grants grant }
    {
        if let Some(mode) = self.standing_against(grant) {
            return Some(AcquireFault::Locked { mode });
        }
        if self.sessions.of(grant.session).len() >= MOST_GRANTS as usize {
            return Some(AcquireFault::Grants);
        }
        None
    }

    /// Returns the mode of the grants on the object that conflict with this one.
    fn standing_against(&self, grant: OpenGrant) -> Option<Mode>
        ensures { result ≡ mode_against self.now.grants grant }
    {
        let mode = self.objects.mode_on(grant.id)?;
        conflict(grant.mode, mode).then_some(mode)
    }

    /// Returns the session's grant with this temporary identifier.
    pub fn find(&self, who: Session, tuid: Tuid) -> Option<OpenGrant>
        ensures { result ≡ session_grant self.now.grants who tuid }
    {
        self.sessions.find(who, tuid)
    }

    /// Removes the session's grant with this temporary identifier, and returns it.
    ///
    /// It goes through the list. If there is no such grant nothing is changed. Takes no memory.
    pub fn close(&mut self, who: Session, tuid: Tuid) -> Result<OpenGrant, NoGrant>
        ensures found { IfOk result (λ grant. session_grant self.old.grants who tuid ≡ Some grant) }
        ensures grants { OnOk result (self.new.grants ≡ without_grant self.old.grants who tuid) }
        ensures none { OnErr result (session_grant self.old.grants who tuid ≡ None) }
        ensures err { OnErr result (self.new ≡ self.old) }
        ensures room { self.old.has_room ≡ true → self.new.has_room ≡ true }
    {
        let closed = self.find(who, tuid).ok_or(NoGrant)?;
        self.grants
            .retain(|g| !(g.session == who && g.tuid == tuid));
        self.sessions.remove(who, tuid);
        if !is_open(&self.grants, closed.id) {
            self.objects.close(closed.id);
        }
        Ok(closed)
    }

    /// Returns how an object is open.
    ///
    /// The grants on one object are all in one mode.
    pub fn mode_on(&self, id: Puid) -> Option<Mode>
        ensures { result ≡ open_mode self.now.grants id }
    {
        self.objects.mode_on(id)
    }

    /// Returns the first of the session's grants.
    pub fn next_of(&self, who: Session) -> Option<OpenGrant>
        ensures { result ≡ first_grant self.now.grants who }
    {
        self.sessions.of(who).first().copied()
    }

    /// Removes all grants of the session, one after another. Takes no memory.
    pub fn drop_session(&mut self, who: Session)
        ensures grants { self.new.grants ≡ without_session self.old.grants who }
        ensures room { self.old.has_room ≡ true → self.new.has_room ≡ true }
    {
        while let Some(grant) = self.next_of(who) {
            let _ = self.close(who, grant.tuid);
        }
        self.sessions.forget(who);
    }

    /// Returns the number of grants.
    pub fn len(&self) -> u32
        ensures len { result ≡ length self.now.grants }
        ensures held { IsTrue (is_grant_table self.now.grants) }
    {
        self.grants.len() as u32
    }

    /// Returns the grant at a place.
    ///
    /// Places are counted from 0, in the order in which the grants were acquired.
    pub fn at(&self, place: u32) -> OpenGrant
        requires { place < length self.now.grants }
        ensures { slice_get self.now.grants place ≡ Some result }
    {
        self.grants[place as usize]
    }
}

/// Returns whether one of these grants is on the object.
fn is_open(grants: &[OpenGrant], id: Puid) -> bool
    ensures { result ≡ list_any (λ g. same_puid g.id id) grants.now }
{
    grants.iter().any(|g| g.id == id)
}

/// Returns whether two grants on one object in these modes conflict.
fn conflict(wanted: Mode, standing: Mode) -> bool
    ensures { result ≡ conflicts wanted standing }
{
    wanted == Mode::Writing || standing == Mode::Writing
}
