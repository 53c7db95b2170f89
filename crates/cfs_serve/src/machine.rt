//! The machine of one service.
ghost use Rattle.std.specs.Prelude.{◌≡◌, ◌<◌, ◌≤◌, false, true, None, length, slice_get};
ghost use Rattle.cfs_serve.specs.Calls.{SessionPasses};
ghost use Rattle.cfs_serve.specs.Logs.{IsStamped, Raises, StaysStopped};
ghost use Rattle.cfs_serve.specs.Machine.{AreFresh, IsSessionTurn, IsCollectorTurn, IsTurn, Moves, has_left_at};
ghost use Rattle.cfs_serve.specs.Machine.{is_done_in, parts_now, turns_left_at, turns_left_in};
ghost use Rattle.cfs_serve.specs.Service.{IsServiceBegun, IsEndOf};

use crate::ending::Ending;
use crate::logged::{Charter, Closed, CollectorTurn, LoggedServer};
use crate::rest::Rest;
use crate::served::{Served, Unserved};
use crate::server::Server;
use crate::service::Service;
use cfs_base::{Logged, Machine, Session, Sink};
use cfs_ports::{Heard, Port};
use cfs_trail::Trail;
use std::alloc::Global;
use std::marker::Model;
use ufs_model::Event;

/// The logged server, the sessions and the collector of one service.
#[derive(Drop)]
pub struct ServiceMachine<A: Server, J: Charter<A>, K: Sink> {
    logged: LoggedServer<A, J>,
    ports: Vec<Port<K>>,
    rest: Rest,
    /// Whether the collector makes no step once a collection is finished, until the sessions have left.
    rests: bool,
    /// Whether it makes none now.
    resting: bool,
    /// Where the answers' memory comes from.
    alloc: Global,
}

impl<A: Server, J: Charter<A>, K: Sink> Model for ServiceMachine<A, J, K> {
    ghost use Rattle.std.specs.Prelude.{◌≡◌, ◌+◌, ◌≤◌, ◌<◌, None, Some, length};
    ghost use Rattle.cfs_core.specs.declared.collecting.CollectFault.TheVariants as faults;
    ghost use Rattle.std.specs.List.{sum_by};
    ghost use Rattle.cfs_serve.specs.Events.{finishes_in};
    ghost use Rattle.cfs_serve.specs.Machine.{Hearing, AreHeard, HasNoCollector, HasTurns, parts_now, turns_left};
    ghost use Rattle.cfs_serve.specs.Machine.{turns_now};
    ghost use Rattle.cfs_serve.specs.Ending.{IsWanting, TellsStop};
    ghost use Rattle.cfs_serve.specs.Logs.{CountsFaults, first_fault};

    ghost Value = { Hearing A };

    ghost view = { λ h. record {
      logged = h.logged;
      ports = h.ports.items;
      turns = turns_now h.resting h.rest.turns (parts_now h.rest.refused (A.unfinished h.logged.server));
      left = h.rest.turns + parts_now h.rest.refused (A.unfinished h.logged.server);
      events = h.rest.events;
      refused = h.rest.refused;
    } };

    ghost invariant = { λ h. AreHeard J.charter h.logged.events h.ports.items
        × (sum_by turns_left h.ports.items + h.rest.events ≤ h.logged.room)
        × (length h.logged.events + sum_by turns_left h.ports.items + h.rest.events < 4294967295)
        × (length h.ports.items ≤ 64)
        × HasTurns h.rest.turns h.rest.events (sum_by turns_left h.ports.items) (A.tally h.logged.server)
        × HasNoCollector J.charter h.rest.turns
        × (h.rest.turns ≡ 0 → h.rest.refused ≡ None → finishes_in h.logged.events ≡ J.charter.collections)
        × (0 < h.rest.turns → h.rest.refused ≡ None)
        × CountsFaults A.faults A.stands J.charter (first_fault h.rest.refused) h.logged.server h.logged.events
        × TellsStop h.rest.refused (A.stop h.logged.server)
        × (h.rest.refused ≡ Some faults.Memory → IsWanting J.charter.collections h.logged.events)
        × (h.rest.refused ≡ None → 0 < h.rest.events)
        × (h.rest.turns < 4611686018427387904)
        × ((A.tally h.logged.server).called ≡ J.charter.collections) };
}

/// Makes one turn of a session: its next line or, at the script's end and once its sink failed, its leave.
fn port_turn<A: Server, J: Charter<A>, K: Sink>(
    alloc: Global,
    logged: &mut LoggedServer<A, J>,
    session: Session,
    port: &mut Port<K>,
)
    requires room { 0 < logged.old.room }
    requires few { length logged.old.events < 4294967295 }
    requires stays { port.old.has_left ≡ false }
    ensures moves { Moves session logged.old logged.new port.old port.new }
    // Its event is recorded with the disk's moment as the turn returns.
    ensures stamped { IsStamped A.clock logged.old logged.new }
    ensures stays { StaysStopped A.stop logged.old logged.new }
    ensures raised { Raises A.faults A.stands J.charter logged.old logged.new }
    ensures passes { SessionPasses A.clock A.tally logged.old.server logged.new.server }
    ensures called { (A.tally logged.new.server).called ≡ (A.tally logged.old.server).called }
{
    if port.has_failed() {
        port.leave();
        logged.leave(session);
        return;
    }
    match port.next_request(alloc) {
        None => {
            port.leave();
            logged.leave(session);
        }
        Some(Heard::Not(why)) => {
            port.tell(why);
            logged.unread(session, why);
        }
        Some(Heard::Ready { request, name }) => logged.ask(alloc, session, request, name, port),
    }
}

/// Returns whether the collector rests after this turn. A part of a commit changes nothing in that.
fn rests_after(rests: bool, resting: bool, progress: CollectorTurn) -> bool
    ensures { progress ≡ CollectorTurn.Tidied → result ≡ resting }
{
    match progress {
        CollectorTurn::Tidied => resting,
        CollectorTurn::Finished => rests,
        _ => false,
    }
}

impl<A: Server, J: Charter<A>, K: Sink> ServiceMachine<A, J, K> {
    /// Makes the machine of a service in which nothing has happened.
    pub fn new(alloc: Global, service: Service<A, K>) -> ServiceMachine<A, J, K>
        requires begun { IsServiceBegun A.Server J.charter service.server }
        requires fresh { AreFresh J.charter service.ports.items }
        requires called { J.charter.collections ≡ service.schedule.collections }
        ensures ports { result.ports ≡ service.ports.items }
        ensures server { result.logged.server ≡ service.server }
    {
        let Service {
            server,
            trail,
            ports,
            schedule,
            turns,
        } = service;
        ServiceMachine {
            logged: LoggedServer::new(server, trail),
            ports,
            rest: Rest::new(schedule.collections, turns),
            rests: schedule.rests,
            resting: false,
            alloc,
        }
    }

    /// Makes one turn of a session that hasn't left.
    fn session_turn(&mut self, session: u32)
        requires at { session < length self.old.ports }
        requires stays { has_left_at (slice_get self.old.ports session) ≡ false }
        ensures turn { IsSessionTurn A.clock session self.old self.new }
        ensures raised { Raises A.faults A.stands J.charter self.old.logged self.new.logged }
    {
        let port = &mut self.ports[session as usize];
        port_turn(self.alloc, &mut self.logged, session, port);
    }

    /// Makes one turn of a collector that isn't done: a part of a commit, or a step.
    ///
    /// At a refusal the collector is done for good.
    fn collector_turn(&mut self)
        requires { 0 < self.old.turns }
        ensures turn { IsCollectorTurn A.clock self.old self.new }
        ensures raised { Raises A.faults A.stands J.charter self.old.logged self.new.logged }
    {
        let progress = self.logged.turn(self.alloc);
        self.rest = self.rest.after(progress);
        self.resting = rests_after(self.rests, self.resting, progress);
    }

    /// Returns how many parts of a commit the collector has to make: none once it was refused.
    fn parts_now(&self) -> u64
        ensures is { result ≡ parts_now self.now.refused (A.unfinished self.now.logged.server) }
        ensures small { result < 4611686018427387904 }
    {
        match self.rest.refused {
            None => self.logged.parts_left(),
            Some(_) => 0,
        }
    }

    /// Returns how many turns the collector may make now.
    fn turns_now(&self) -> u64
        ensures { result ≡ self.now.turns }
    {
        let parts = self.parts_now();
        if self.resting {
            parts
        } else {
            self.rest.turns + parts
        }
    }

    /// Returns how many turns the collector has left in all.
    fn all_left(&self) -> u64
        ensures { result ≡ self.now.left }
    {
        let parts = self.parts_now();
        self.rest.turns + parts
    }

    /// Makes the collector's turns that are left once the sessions have left.
    ///
    /// Then no commit is unfinished, unless the collector was refused.
    pub fn collect_rest(&mut self)
        ensures left { self.new.left ≡ 0 }
        ensures ports { self.new.ports ≡ self.old.ports }
    {
        'steps: while self.all_left() > 0 {
            self.resting = false;
            self.collector_turn();
        }
    }

    /// Returns whether a session has left. One that doesn't exist has.
    fn has_left(&self, session: u32) -> bool
        ensures left { result ≡ has_left_at (slice_get self.now.ports session) }
        ensures there { result ≡ false → session < length self.now.ports }
    {
        match self.ports.get(session as usize) {
            Some(port) => port.has_left(),
            None => true,
        }
    }

    /// Returns how many turns a session has left: one for each line, and its leave.
    ///
    /// One that has left or doesn't exist has none.
    fn left_of(&self, session: u32) -> u64
        ensures { result ≡ turns_left_at (slice_get self.now.ports session) }
    {
        if self.has_left(session) {
            return 0;
        }
        self.ports[session as usize].lines_left() + 1
    }

    /// Returns whether a worker is done: a session, or past them the collector.
    #[tactic(auto, using(crate::proofs::Workers::session_done, crate::proofs::Workers::collector_done))]
    fn is_over(&self, worker: u32) -> bool
        ensures { result ≡ is_done_in self.now.ports self.now.turns worker }
    {
        if worker as usize == self.ports.len() {
            self.turns_now() == 0
        } else {
            self.has_left(worker)
        }
    }

    /// Returns how many turns a worker has left.
    #[tactic(auto, using(crate::proofs::Workers::session_left, crate::proofs::Workers::collector_left))]
    fn rest_of(&self, worker: u32) -> u64
        ensures { result ≡ turns_left_in self.now.ports self.now.turns worker }
    {
        if worker as usize == self.ports.len() {
            self.turns_now()
        } else {
            self.left_of(worker)
        }
    }

    /// Makes one turn of a worker that isn't done.
    #[tactic(auto, using(crate::proofs::Workers::collector_stays, crate::proofs::Workers::session_stays))]
    fn turn_of(&mut self, worker: u32)
        requires { is_done_in self.old.ports self.old.turns worker ≡ false }
        ensures turn { IsTurn A.clock worker self.old self.new }
        ensures raised { Raises A.faults A.stands J.charter self.old.logged self.new.logged }
    {
        if worker as usize == self.ports.len() {
            self.collector_turn();
        } else {
            self.session_turn(worker);
        }
    }

    /// Makes the collector's turns that are left, and takes the machine apart.
    pub fn into_served(mut self) -> Served<A, K>
        ensures ended { IsEndOf A.Server J.charter result }
        ensures ports { result.ports.items ≡ self.ports }
    {
        self.collect_rest();
        let ServiceMachine {
            logged,
            ports,
            rest,
            rests: _,
            resting: _,
            alloc: _,
        } = self;
        let Closed {
            server,
            trail,
            starved,
            failed,
        } = logged.close();
        let stop = server.stopped();
        Served {
            server,
            trail,
            ports,
            starved,
            failed,
            ending: Ending {
                stop,
                refused: rest.refused,
                last: None,
            },
        }
    }

    /// Takes the machine apart, and returns the server and the ports.
    pub fn into_unserved(self) -> Unserved<A, K>
        ensures server { result.server ≡ self.logged.server }
        ensures ports { result.ports.items ≡ self.ports }
    {
        let ServiceMachine {
            logged,
            ports,
            rest: _,
            rests: _,
            resting: _,
            alloc: _,
        } = self;
        Unserved {
            server: logged.close().server,
            ports,
        }
    }
}

/// The workers are the sessions, and past them the collector.
///
/// A session's turn is one line, or its leave. A turn of the collector is one part of a commit, or one step.
#[tactic(auto, using(crate::proofs::Workers::as_many))]
impl<A: Server, J: Charter<A>, K: Sink> Machine for ServiceMachine<A, J, K> {
    ghost use Rattle.std.specs.Prelude.{suc, length};
    ghost use Rattle.cfs_serve.specs.Machine.{IsTurn, done_beyond, is_done_in, turns_left_in, none_beyond};
    ghost use Rattle.cfs_serve.specs.Logs.{Raises};

    ghost worker_count = { λ h. suc (length h.ports) };

    ghost done = { λ h w. is_done_in h.ports h.turns w };

    ghost left = { λ h w. turns_left_in h.ports h.turns w };

    ghost turned = { λ old w new. IsTurn A.clock w old new × Raises A.faults A.stands J.charter old.logged
        new.logged };

    ghost outside = { λ h w beyond. done_beyond h.ports h.turns w beyond };

    ghost at_rest = { λ h w beyond. none_beyond h.ports h.turns w beyond };

    fn workers(&self) -> u32 {
        self.ports.len() as u32 + 1
    }

    fn is_done(&self, worker: u32) -> bool {
        self.is_over(worker)
    }

    fn turns_left(&self, worker: u32) -> u64 {
        self.rest_of(worker)
    }

    fn turn(&mut self, worker: u32) -> bool {
        if self.is_over(worker) {
            return true;
        }
        self.turn_of(worker);
        self.is_over(worker)
    }
}

/// Its log is its trail.
impl<A: Server, J: Charter<A>, K: Sink> Logged for ServiceMachine<A, J, K> {
    ghost use Rattle.cfs_serve.specs.Machine.{adds_one};

    type Entry = Event;

    ghost log = { λ h. h.logged.events };

    ghost adds = { λ h w n turned. adds_one h.logged.events n.logged.events turned.1.made turned.1.recorded };

    fn events(&self) -> u64 {
        self.logged.events()
    }
}
