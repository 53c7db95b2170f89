//! A run that is followed event by event: whether each event may happen, and the state after it.
ghost use Rattle.std.specs.Prelude.{◌≡◌, ◌<◌, ◌&&◌, IfOk, OnErr, None, true};
ghost use Rattle.ufs_model.specs.Followed.{IsMade, is_done, refuses};
ghost use Rattle.cfs_base.specs.declared.identifier.Puid.{Puid};
ghost use Rattle.ufs_model.specs.Graph.{fresh_graph};
ghost use Rattle.ufs_model.specs.Identifier.{is_among};
ghost use Rattle.ufs_model.specs.Next.{allowed_if, answered, is_full, is_idle, is_refusal, is_stopped_at, is_sweeping};
ghost use Rattle.ufs_model.specs.Next.{next};
ghost use Rattle.ufs_model.specs.State.{is_running, opening, stopped_at};
ghost use Rattle.ufs_model.specs.Vanish.{are_there, has_all_cut_off, has_no_kept, is_marking, leaves_no_reference};
ghost use Rattle.ufs_model.specs.Vanish.{may_vanish};
ghost use Rattle.ufs_model.specs.declared.asked.Event.TheVariants as events;

use crate::asked::{Event, Reply, Request};
use crate::marks::{reached_in, set_of};
use crate::progress::{Progress, seen_by};
use crate::server::Server;
use cfs_base::{Need, NoMemory, Puid, Session};
use std::alloc::Global;
use std::collections::BTreeSet;
use std::marker::Model;

/// The state of a run, as far as it was followed.
#[derive(Drop)]
pub struct Follower {
    server: Server,
    stopped: Option<u64>,
    progress: Progress,
}

impl Model for Follower {
    ghost use Rattle.ufs_model.specs.Plain.{Server};

    ghost Value = { Server };

    ghost use Rattle.ufs_model.specs.Followed.{collection_of};
    ghost use Rattle.ufs_model.specs.WellFormed.{IsState};

    ghost view = { λ f. record {
      seed = f.server.seed;
      state = record f.server.state {
        stopped = f.stopped;
        collection
            = collection_of f.progress;
      };
    } };

    ghost invariant = { λ f. IsState f.server.state };
}

impl Follower {
    /// Begins a run with an empty root index.
    pub fn new(alloc: Global, root: Puid, seed: u64) -> Result<Follower, NoMemory>
        requires { 0 < root.block }
        ensures { IfOk result (λ f. f ≡ record { seed = seed; state = opening (fresh_graph root) }) }
    {
        Ok(Follower {
            server: Server::new(alloc, root, seed)?,
            stopped: None,
            progress: Progress::Idle,
        })
    }

    /// Returns how many words were drawn.
    pub fn drawn(&self) -> u32
        ensures { result ≡ self.now.state.drawn }
    {
        self.server.words.drawn()
    }

    /// Follows one event, and returns whether it may happen.
    ///
    /// An event that may not happen changes nothing.
    pub fn step(&mut self, alloc: Global, event: &Event) -> Result<bool, NoMemory>
        requires { self.old.state.drawn < 4294967295 }
        ensures made { IfOk result (λ made. IsMade (next self.old.seed self.old.state event.now) self.old made
            self.new) }
        ensures memory { OnErr result (self.new ≡ self.old) }
    {
        match event {
            Event::Unread { .. } => Ok(true),
            Event::Ask {
                session,
                request,
                reply,
            } => self.answered(alloc, *session, request, reply),
            Event::Leave { session, stopped } => Ok(self.leave(*session, *stopped)),
            Event::Began => self.begin(alloc),
            Event::Vanish { ids } => self.vanish(alloc, ids.as_slice()),
            Event::Finished => Ok(self.finish()),
            Event::Halted { moment } => Ok(self.stop(*moment)),
        }
    }

    /// Returns whether exactly these objects may vanish now.
    pub fn may_vanish(&self, alloc: Global, ids: &[Puid]) -> Result<bool, NoMemory>
        ensures { IfOk result (λ may. may ≡ (is_running self.now.state && may_vanish self.now.state ids.now)) }
    {
        let gone = set_of(alloc, ids)?;
        self.may_go(alloc, ids, &gone)
    }

    /// Returns the same, given the set of the identifiers.
    fn may_go(&self, alloc: Global, ids: &[Puid], gone: &BTreeSet<Puid>) -> Result<bool, NoMemory>
        requires { (x : Puid) → is_among x gone.now.keys ≡ is_among x ids.now }
        ensures { IfOk result (λ may. may ≡ (is_running self.now.state && may_vanish self.now.state ids.now)) }
    {
        if !self.runs() {
            return Ok(false);
        }
        if !self.may_go_now(ids, gone) {
            return Ok(false);
        }
        self.has_all_cut_off(alloc, gone)
    }

    /// Returns whether a collection marks, these objects exist and aren't kept, and no index that stays refers to
    /// one.
    fn may_go_now(&self, ids: &[Puid], gone: &BTreeSet<Puid>) -> bool
        ensures { result ≡ (is_marking self.now.state.collection && (are_there self.now.state ids.now
            && (has_no_kept self.now.state gone.now.keys && leaves_no_reference self.now.state gone.now.keys))) }
    {
        self.progress.is_marking() && self.server.are_there(ids) && self.server.are_unkept(gone)
    }

    /// Returns whether these include all that was cut off since the collection began.
    fn has_all_cut_off(&self, alloc: Global, gone: &BTreeSet<Puid>) -> Result<bool, NoMemory>
        requires { is_marking self.now.state.collection ≡ true }
        ensures { IfOk result (λ all. all ≡ has_all_cut_off self.now.state gone.now.keys) }
    {
        match &self.progress {
            Progress::Marking(seen) => {
                let reached = reached_in(alloc, seen.as_slice())?;
                Ok(self.server.are_all(&reached, gone))
            }
            Progress::Idle => Ok(false),
            Progress::Sweeping => Ok(false),
        }
    }

    fn vanish(&mut self, alloc: Global, ids: &[Puid]) -> Result<bool, NoMemory>
        ensures made { IfOk result (λ made. IsMade (next self.old.seed self.old.state (events.Vanish ids.now)) self.old
            made self.new) }
        ensures memory { OnErr result (self.new ≡ self.old) }
    {
        let gone = set_of(alloc, ids)?;
        if !self.may_go(alloc, ids, &gone)? {
            return Ok(false);
        }
        self.server.take_out(&gone);
        self.progress = Progress::Sweeping;
        Ok(true)
    }

    fn begin(&mut self, alloc: Global) -> Result<bool, NoMemory>
        ensures made { IfOk result (λ made. IsMade (next self.old.seed self.old.state events.Began) self.old made
            self.new) }
        ensures memory { OnErr result (self.new ≡ self.old) }
    {
        if !self.may_begin() {
            return Ok(false);
        }
        self.progress = Progress::Marking(self.server.first_seen(alloc)?);
        Ok(true)
    }

    fn may_begin(&self) -> bool
        ensures { result ≡ (is_running self.now.state && is_idle self.now.state.collection) }
    {
        self.stopped.is_none() && self.progress.is_idle()
    }

    fn finish(&mut self) -> bool
        ensures { IsMade (next self.old.seed self.old.state events.Finished) self.old result self.new }
    {
        if !self.may_finish() {
            return false;
        }
        self.progress = Progress::Idle;
        true
    }

    fn may_finish(&self) -> bool
        ensures { result ≡ (is_running self.now.state && is_sweeping self.now.state.collection) }
    {
        self.stopped.is_none() && self.progress.is_sweeping()
    }

    fn runs(&self) -> bool
        ensures { result ≡ is_running self.now.state }
    {
        self.stopped.is_none()
    }

    fn leave(&mut self, who: Session, stopped: Option<u64>) -> bool
        ensures { IsMade (next self.old.seed self.old.state (events.Leave who stopped)) self.old result self.new }
    {
        if let Some(moment) = stopped {
            if !self.stop(moment) {
                return false;
            }
        }
        self.server.leave(who);
        true
    }

    /// Stops the server, if it runs.
    fn stop(&mut self, moment: u64) -> bool
        ensures { IsMade (allowed_if (is_running self.old.state) (stopped_at moment self.old.state)) self.old result
            self.new }
    {
        if self.stopped.is_some() {
            return false;
        }
        self.stopped = Some(moment);
        true
    }

    fn answered(
        &mut self,
        alloc: Global,
        who: Session,
        request: &Request,
        reply: &Reply,
    ) -> Result<bool, NoMemory>
        requires { self.old.state.drawn < 4294967295 }
        ensures made { IfOk result (λ made. IsMade (answered self.old.seed self.old.state who request.now reply.now)
            self.old made self.new) }
        ensures memory { OnErr result (self.new ≡ self.old) }
    {
        match reply {
            Reply::Memory => Ok(true),
            Reply::Stopped { moment } => Ok(self.is_stopped_at(*moment)),
            Reply::Full(need) => self.is_full(alloc, who, request, *need),
            Reply::Disk { doubt: None } => Ok(self.runs()),
            Reply::Disk {
                doubt: Some(moment),
            }
            | Reply::Damaged { moment, .. } => { Ok(self.stop(*moment)) }
            _ if reply.place() < 5 => self.outcome(alloc, who, request, reply),
            _ => Ok(self.is_refusal(who, request, reply)),
        }
    }

    fn is_stopped_at(&self, moment: u64) -> bool
        ensures { result ≡ is_stopped_at self.now.state moment }
    {
        match self.stopped {
            Some(stopped) => stopped == moment,
            None => false,
        }
    }

    fn is_refusal(&self, who: Session, request: &Request, reply: &Reply) -> bool
        requires { refuses reply.now ≡ true }
        ensures { result ≡ is_refusal self.now.state who request.now reply.now }
    {
        self.runs() && self.server.is_refusal(who, request, reply)
    }

    /// Returns whether the request may be refused for want of blocks.
    fn is_full(
        &self,
        alloc: Global,
        who: Session,
        request: &Request,
        need: Need,
    ) -> Result<bool, NoMemory>
        ensures { IfOk result (λ full. full ≡ is_full self.now.state who request.now need) }
    {
        if !self.runs() {
            return Ok(false);
        }
        self.server.is_full(alloc, who, request, need)
    }

    /// Makes the effect of the request, if this is its reply.
    fn outcome(
        &mut self,
        alloc: Global,
        who: Session,
        request: &Request,
        reply: &Reply,
    ) -> Result<bool, NoMemory>
        requires words { self.old.state.drawn < 4294967295 }
        requires done { is_done reply.now ≡ true }
        ensures made { IfOk result (λ made. IsMade (answered self.old.seed self.old.state who request.now reply.now)
            self.old made self.new) }
        ensures memory { OnErr result (self.new ≡ self.old) }
    {
        self.server.is_quiet();
        if self.stopped.is_some() {
            return Ok(false);
        }
        if !self.server.is_outcome(who, request, reply) {
            return Ok(false);
        }
        crate::laws::requests_store_bytes(request);
        let to = self.server.named(who, request.target());
        self.progress.reserve()?;
        let told = self.server.outcome(alloc, who, request, reply.block())?;
        self.progress.note(seen_by(to, request, &told));
        Ok(true)
    }
}
