//! A server and its trail.
ghost use Rattle.std.specs.Prelude.{◌≡◌, ◌+◌, ◌<◌, [], ◌∷◌, ◌++◌, ◌||◌, Err, Ok, None, Some, false, true, length};
ghost use Rattle.std.specs.Prelude.{Option, ℕ};
ghost use Rattle.cfs_core.specs.declared.collecting.CollectFault as faulted;
ghost use Rattle.cfs_core.specs.declared.collecting.Step as stepping;
ghost use Rattle.std.specs.List.{list_any};
ghost use Rattle.ufs_model.specs.declared.asked.Event.TheVariants as events;
ghost use Rattle.ufs_model.specs.declared.asked.Request as requests;
ghost use Rattle.cfs_ports.specs.Heard.{HasRoomForName};
ghost use Rattle.cfs_base.specs.Outside.{Rose};
ghost use Rattle.cfs_serve.specs.Charter.{Terms};
ghost use Rattle.cfs_serve.specs.Events.{tells_disk, wants_memory};
ghost use Rattle.cfs_serve.specs.Calls.{CallsOne, SessionPasses, SpendsStep, SpendsOne, Tally, as_step, event_by};
ghost use Rattle.cfs_serve.specs.Calls.{refusal_by};
ghost use Rattle.cfs_serve.specs.Ending.{IsWanting, KnowsStop, TellsStop};
ghost use Rattle.cfs_serve.specs.Events.{finishes_in};
ghost use Rattle.cfs_serve.specs.Logs.{IsLogKept, IsRun, IsStamped, IsTold, Lasts, Raises, Answered};
ghost use Rattle.cfs_serve.specs.Logs.{is_progress_made};
ghost use Rattle.cfs_serve.specs.Logs.{StaysStopped};
ghost use Rattle.cfs_serve.specs.Logs.{CountsTurn, LogSteps, finishes, is_finished, is_quiet_fault, is_recorded};
ghost use Rattle.cfs_serve.specs.Logs.{is_step, recorded, refusal_in};
ghost use Rattle.cfs_serve.specs.Logs.{stamps};
ghost use Rattle.cfs_serve.specs.Service.{IsServiceBegun, IsClosed};

use crate::server::Server;
use cfs_base::{Session, Sink};
use cfs_core::{CollectFault, Step};
use cfs_ports::Port;
use cfs_script::Name;
use cfs_trail::Trail;
use std::alloc::Global;
use std::marker::{Brand, Model, PhantomData};
use ufs_model::{Event, Reply, Request, Unread};

/// What was fixed when a service was made.
///
/// It is part of a machine's type, so that no machine can be taken for that of another service.
pub trait Charter<A> {
    ghost use Rattle.cfs_serve.specs.Charter.{Terms};

    ghost charter: { Terms A };
}

/// The charter that the caller of a service picks.
impl<A> Charter<A> for Brand {
    ghost use Rattle.cfs_serve.specs.Charter.{nothing};

    ghost charter = { nothing };
}

/// A server and the trail of what it did.
#[derive(Drop)]
pub struct LoggedServer<A: Server, J: Charter<A>> {
    server: A,
    trail: Trail,
    /// Whether want of memory was reported.
    starved: bool,
    /// Whether a failed call of the disk was reported.
    failed: bool,
    of: PhantomData<J>,
}

/// What a logged server had as it was closed.
#[derive(Drop)]
pub(crate) struct Closed<A> {
    pub server: A,
    pub trail: Trail,
    /// Whether want of memory was reported.
    pub starved: bool,
    /// Whether a failed call of the disk was reported.
    pub failed: bool,
}

/// How far a turn of the collector came.
#[derive(Clone, Copy, Debug, PartialEq, Eq)]
pub enum CollectorTurn {
    /// Nothing is left to do.
    Idle,
    /// A part was made of a commit that was unfinished.
    Tidied,
    /// A step was made that is no event.
    Quiet,
    /// A step was made, and recorded as an event.
    Recorded,
    /// A step was made and recorded, and a collection is finished by it.
    Finished,
    /// The turn was refused.
    Refused(CollectFault),
}

impl<A: Server, J: Charter<A>> Model for LoggedServer<A, J> {
    ghost use Rattle.std.specs.Prelude.{◌≡◌, ◌≤◌, length};
    ghost use Rattle.std.specs.List.{list_any};
    ghost use Rattle.cfs_serve.specs.Events.{tells_disk, wants_memory};
    ghost use Rattle.std.specs.Prelude.{None};
    ghost use Rattle.cfs_serve.specs.Ending.{KnowsStop};
    ghost use Rattle.cfs_serve.specs.Logs.{ServerLog, IsLogKept, IsRun, IsTold, Lasts};

    ghost Value = { ServerLog A };

    ghost view = { λ j. record {
      server = j.server;
      events = j.trail.events;
      moments = j.trail.moments;
      room = j.trail.room;
      starved = j.starved;
      failed = j.failed;
    } };

    ghost invariant = { λ j. IsRun A.stands A.has_stopped A.is_damaged A.tally J.charter j.server j.trail.events
        × (A.seed j.server ≡ J.charter.seed) × (A.cylinders j.server ≡ J.charter.cylinders)
        × (A.words j.server ≤ length j.trail.events) × (j.starved ≡ list_any wants_memory j.trail.events)
        × Lasts A.stands A.clock A.lasts J.charter j.server j.trail.events j.trail.moments
        × IsTold A.faults A.has_stopped A.is_damaged J.charter j.server j.trail.events
        × (j.failed ≡ list_any tells_disk j.trail.events)
        × KnowsStop A.clock A.stop j.server j.trail.events
        × IsLogKept A.clock A.has_stopped A.tally J.charter j.server j.trail.events j.trail.moments };
}

impl<A: Server, J: Charter<A>> LoggedServer<A, J> {
    /// Makes the log of a server of which nothing was asked yet.
    pub fn new(server: A, trail: Trail) -> LoggedServer<A, J>
        requires no_event { trail.events ≡ [] }
        requires begun { IsServiceBegun A.Server J.charter server }
        ensures events { result.events ≡ [] }
        ensures server { result.server ≡ server }
        ensures room { result.room ≡ trail.room }
    {
        trail.len();
        LoggedServer {
            server,
            trail,
            starved: false,
            failed: false,
            of: PhantomData,
        }
    }

    /// Returns how many events the trail has.
    pub fn events(&self) -> u64
        ensures { result ≡ length self.now.events }
    {
        self.trail.len()
    }

    /// Records that a session's line was no request.
    pub fn unread(&mut self, session: Session, why: Unread)
        requires { 0 < self.old.room }
        ensures events { self.new.events ≡ self.old.events ++ events.Unread session why ∷ [] }
        ensures stamped { IsStamped A.clock self.old self.new }
        ensures stays { StaysStopped A.stop self.old self.new }
        ensures raised { Raises A.faults A.stands J.charter self.old self.new }
        ensures passes { SessionPasses A.clock A.tally self.old.server self.new.server }
        ensures called { (A.tally self.new.server).called ≡ (A.tally self.old.server).called }
        ensures room { self.new.room + 1 ≡ self.old.room }
    {
        self.starved = starved_at(why, self.starved);
        let moment = self.server.moment();
        self.trail.push(Event::Unread { session, why }, moment);
    }

    /// Answers a request of a session, lets its port write the reply, and records both.
    pub fn ask<K: Sink>(
        &mut self,
        alloc: Global,
        session: Session,
        request: Request,
        name: Option<Name>,
        port: &mut Port<K>,
    )
        requires room { 0 < self.old.room }
        requires few { length self.old.events < 4294967295 }
        requires name { HasRoomForName name port.old.names.room }
        ensures answered { Answered self.old self.new session request name port.old port.new }
        ensures stamped { IsStamped A.clock self.old self.new }
        ensures stays { StaysStopped A.stop self.old self.new }
        ensures raised { Raises A.faults A.stands J.charter self.old self.new }
        ensures passes { SessionPasses A.clock A.tally self.old.server self.new.server }
        ensures called { (A.tally self.new.server).called ≡ (A.tally self.old.server).called }
    {
        let reply = self.server.answer(alloc, session, &request);
        self.starved = starved_by(&reply, self.starved);
        self.failed = failed_by(&reply, self.failed);
        port.answer(name, &reply);
        let moment = self.server.moment();
        self.trail.push(
            Event::Ask {
                session,
                request,
                reply,
            },
            moment,
        );
    }

    /// Lets a session leave, and records it.
    pub fn leave(&mut self, session: Session)
        requires { 0 < self.old.room }
        ensures events { (stopped : Option ℕ) × (self.new.events ≡ self.old.events
            ++ events.Leave session stopped ∷ []) }
        ensures stamped { IsStamped A.clock self.old self.new }
        ensures stays { StaysStopped A.stop self.old self.new }
        ensures raised { Raises A.faults A.stands J.charter self.old self.new }
        ensures passes { SessionPasses A.clock A.tally self.old.server self.new.server }
        ensures called { (A.tally self.new.server).called ≡ (A.tally self.old.server).called }
        ensures room { self.new.room + 1 ≡ self.old.room }
    {
        let stopped = self.server.leave(session);
        let moment = self.server.moment();
        self.trail.push(Event::Leave { session, stopped }, moment);
    }

    /// Calls for one collection more.
    pub fn call(&mut self)
        requires { (A.tally self.old.server).called < 4294967295 }
        ensures log { self.new ≡ record self.old { server = self.new.server } }
        ensures called { CallsOne A.stands A.tally self.old.server self.new.server }
        ensures stop { A.stop self.new.server ≡ A.stop self.old.server }
        ensures clock { A.clock self.new.server ≡ A.clock self.old.server }
        ensures faults { A.faults self.new.server ≡ A.faults self.old.server }
        ensures unfinished { A.unfinished self.new.server ≡ A.unfinished self.old.server }
    {
        self.server.call();
    }

    /// Returns how many parts of a commit are left.
    pub fn parts_left(&self) -> u64
        ensures is { result ≡ A.unfinished self.now.server }
        ensures small { result < 4611686018427387904 }
    {
        self.server.parts_left()
    }

    /// Makes a turn of the collector, and records it if it is an event. Returns how far it came.
    pub fn turn(&mut self, alloc: Global) -> CollectorTurn
        requires { 0 < self.old.room }
        ensures steps { LogSteps A.clock self.old self.new result }
        ensures raised { Raises A.faults A.stands J.charter self.old self.new }
        ensures refusal { TellsStop (refusal_in result) (A.stop self.new.server) }
        ensures quiet { is_quiet_fault (refusal_in result) ≡ true
            → Rose (A.faults self.old.server) (A.faults self.new.server) × (self.new.events ≡ self.old.events) }
        ensures called { (A.tally self.new.server).called ≡ (A.tally self.old.server).called }
        ensures wanting { refusal_in result ≡ Some CollectFault.Memory
            → IsWanting (A.tally self.new.server).called self.new.events }
        // Nothing is left to do once as many collections are finished as were called for.
        ensures idle { result ≡ CollectorTurn.Idle
            → finishes_in self.new.events ≡ (A.tally self.new.server).called }
        // A step that was made leaves fewer steps, and one event less if it is an event.
        ensures spends { is_progress_made result ≡ true
            → SpendsOne (A.tally self.old.server) (A.tally self.new.server) (is_recorded result) }
        // A part that was made leaves fewer parts, and the collections as they are. A step is made if no part is left.
        ensures tidied { result ≡ CollectorTurn.Tidied → (A.unfinished self.new.server < A.unfinished self.old.server)
            × ((A.tally self.new.server).steps ≡ (A.tally self.old.server).steps)
            × ((A.tally self.new.server).events ≡ (A.tally self.old.server).events) }
        ensures settled { is_step result ≡ true
            → (A.unfinished self.old.server ≡ 0) × (A.unfinished self.new.server ≡ 0) }
        ensures counts { refusal_in result ≡ None → CountsTurn (A.tally self.old.server) (A.tally self.new.server)
            self.old.events self.new.events result }
    {
        let made = self.server.turn(alloc);
        let moment = self.server.moment();
        let (event, progress) = progress_of(made);
        push_some(&mut self.trail, event, moment);
        progress
    }

    /// Takes the logged server apart.
    pub fn close(self) -> Closed<A>
        ensures server { result.server ≡ self.server }
        ensures events { result.trail.events ≡ self.events }
        ensures closed { IsClosed A.Server J.charter result }
    {
        let LoggedServer {
            server,
            trail,
            starved,
            failed,
            of: _,
        } = self;
        Closed {
            server,
            trail,
            starved,
            failed,
        }
    }
}

/// Returns whether this reply reports want of memory, or memory was wanting before.
fn starved_by(reply: &Reply, before: bool) -> bool
    ensures { (who : ℕ) (request : requests.Request)
        → result ≡ (wants_memory (events.Ask who request reply.now) || before) }
{
    match reply {
        Reply::Memory => true,
        _ => before,
    }
}

/// Returns whether this reply reports a failed call of the disk, or one was reported before.
fn failed_by(reply: &Reply, before: bool) -> bool
    ensures { (who : ℕ) (request : requests.Request)
        → result ≡ (tells_disk (events.Ask who request reply.now) || before) }
{
    match reply {
        Reply::Disk { .. } => true,
        _ => before,
    }
}

/// Returns whether memory was wanting for a line that is no request, or before.
fn starved_at(why: Unread, before: bool) -> bool
    ensures { (who : ℕ) → result ≡ (wants_memory (events.Unread who why) || before) }
{
    match why {
        Unread::Memory => true,
        _ => before,
    }
}

/// Returns the event of a turn of the collector, if it is one, and how far the turn came.
fn progress_of(made: Result<Option<Step>, CollectFault>) -> (Option<Event>, CollectorTurn)
    ensures event { result.0 ≡ event_by (as_step made) }
    ensures none { is_recorded result.1 ≡ false → event_by (as_step made) ≡ None }
    ensures idle { result.1 ≡ CollectorTurn.Idle → made ≡ Ok (Some Step.Idle) }
    ensures tidied { result.1 ≡ CollectorTurn.Tidied → made ≡ Ok None }
    ensures made_of { made ≡ Ok None → result.1 ≡ CollectorTurn.Tidied }
    ensures step { is_step result.1 ≡ true → (step : stepping.Step) × (made ≡ Ok (Some step)) }
    ensures spends { is_progress_made result.1 ≡ true → (c : Tally) (d : Tally) → SpendsStep c d (as_step made)
        → SpendsOne c d (is_recorded result.1) }
    ensures refusal { refusal_in result.1 ≡ refusal_by (as_step made) }
    ensures refused { (fault : faulted.CollectFault) → result.1 ≡ CollectorTurn.Refused fault → made ≡ Err fault }
    ensures finishes { finishes result.0 ≡ is_finished result.1 }
{
    match made {
        Ok(None) => (None, CollectorTurn::Tidied),
        Ok(Some(Step::Idle)) => (None, CollectorTurn::Idle),
        Ok(Some(Step::Took | Step::Scanned | Step::Swept)) => (None, CollectorTurn::Quiet),
        Ok(Some(Step::Began)) => (Some(Event::Began), CollectorTurn::Recorded),
        Ok(Some(Step::Condemned { ids })) => (Some(Event::Vanish { ids }), CollectorTurn::Recorded),
        Ok(Some(Step::Finished)) => (Some(Event::Finished), CollectorTurn::Finished),
        Err(fault) => (halt_of(fault), CollectorTurn::Refused(fault)),
    }
}

/// Returns the event of a refusal, if the server stopped.
fn halt_of(fault: CollectFault) -> Option<Event>
    ensures { result ≡ event_by (Err fault) }
{
    match fault {
        CollectFault::Disk {
            doubt: Some(moment),
        } => Some(Event::Halted { moment }),
        CollectFault::Damaged { moment, .. } => Some(Event::Halted { moment }),
        CollectFault::Disk { doubt: None } | CollectFault::Memory | CollectFault::Stopped { .. } =>
            None,
    }
}

/// Records an event, if there is one, with the disk's moment.
fn push_some(trail: &mut Trail, event: Option<Event>, moment: u64)
    requires { 0 < trail.old.room }
    ensures events { trail.new.events ≡ trail.old.events ++ recorded event }
    ensures moments { trail.new.moments ≡ trail.old.moments ++ stamps event moment }
    ensures room { trail.new.room + length (recorded event) ≡ trail.old.room }
{
    if let Some(event) = event {
        trail.push(event, moment);
    }
}
