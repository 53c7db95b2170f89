//! The server of a service, which sessions ask and leave.
ghost use Rattle.std.specs.Prelude.{◌≡◌, ◌+◌, ◌<◌, ◌≤◌, ℕ, Bool, List, [], ◌∷◌, Ok, Option, true, false, IsSome};
ghost use Rattle.std.specs.Prelude.{IsTrue, None, is_some, length};
ghost use Rattle.cfs_base.specs.Disk.{Image};
ghost use Rattle.cfs_base.specs.declared.identifier.Puid.{Puid};
ghost use Rattle.cfs_base.specs.Outside.{Rose};
ghost use Rattle.cfs_script.specs.Room.{FitsLine};
ghost use Rattle.ufs_model.specs.declared.asked.Event.TheVariants as events;
ghost use Rattle.ufs_model.specs.Asks.{IsAsked};
ghost use Rattle.ufs_model.specs.State.{State};
ghost use Rattle.cfs_serve.specs.Calls.{CallsOne, CrashesGoOn, IsExact, MakesServed, MayGoOn, MayMake, MayTally};
ghost use Rattle.cfs_serve.specs.Calls.{Tallies, Tally, TellsEvent};
ghost use Rattle.cfs_serve.specs.Calls.{EndsCollecting, SessionPasses, PassesStep, SpendsTurn, TellsStep, as_step};
ghost use Rattle.cfs_serve.specs.Calls.{event_by, refusal_by, tells_stop_at};
ghost use Rattle.cfs_serve.specs.Turns.{TakesTurn, fault_as};
ghost use Rattle.cfs_serve.specs.Ending.{MakesStop, TellsStop, damage_in};
ghost use Rattle.cfs_serve.specs.Logs.{recorded};
ghost use Rattle.cfs_core.specs.declared.kernel.Stop.{Stop};
ghost use Rattle.ufs_model.specs.Graph.{Graph};
ghost use Rattle.ufs_model.specs.declared.asked.Event.{Event};
ghost use Rattle.ufs_model.specs.declared.asked.Unread.{Unread};

use cfs_base::{Disk, Session};
use cfs_core::{CollectFault, Core, Step, Stop, TidyFault};
use std::alloc::Global;
use ufs_model::{Reply, Request};

/// A server that sessions ask and leave, and that collects.
///
/// It stands for states of the definitions, and says how often a call of its disk failed.
pub trait Server {
    /// Whether it stands for this state.
    ghost stands: { Self → State → Type 0 };

    /// The seed of its random words, and how many were drawn.
    ghost seed: { Self → ℕ };

    ghost words: { Self → ℕ };

    /// How many calls of its disk failed.
    ghost faults: { Self → ℕ };

    /// The cylinders of its disk.
    ghost cylinders: { Self → ℕ };

    /// Why it stopped, if it did.
    ghost stop: { Self → Option Stop };

    ghost has_stopped: { Self → Bool };

    /// Whether it stopped at a damaged block.
    ghost is_damaged: { Self → Bool };

    ghost stopped_so: { (a : Self) → has_stopped a ≡ is_some (stop a) };

    ghost damaged_so: { (a : Self) → is_damaged a ≡ is_some (damage_in (stop a)) };

    /// The clock of its disk.
    ghost clock: { Self → ℕ };

    /// Its collections, and how many blocks objects that are gone still have.
    ghost tally: { Self → Tally };

    /// How many parts of a commit are left.
    ghost unfinished: { Self → ℕ };

    /// Its root index.
    ghost root: { Self → Puid };

    /// What is known, for a seed and a graph, of the crashes of a run with these events and the moments of its marks.
    ghost lasts: { Self → ℕ → Graph → List Event → List ℕ → Type 0 };

    /// Answers a request of a session, as `Core::ask` does.
    fn answer(&mut self, alloc: Global, who: Session, request: &Request) -> Reply
        requires words { words self.old < 4294967295 }
        ensures event { (s : State) → stands self.old s
            → IsAsked (stands self.new) (seed self.old) s who request.now result }
        ensures exact { (s : State) → stands self.old s → 0 < cylinders self.old
            → (lost : ℕ) → (has_stopped self.old ≡ false → (tally self.old).lost s.graph ≤ lost)
            → IsExact (cylinders self.old) lost s who request.now result }
        ensures tallies { (s : State) → stands self.old s
            → Tallies has_stopped tally (seed self.old) self.old self.new s (events.Ask who request.now result) }
        ensures called { (tally self.new).called ≡ (tally self.old).called }
        ensures passes { SessionPasses clock tally self.old self.new }
        ensures lasts { CrashesGoOn stands clock lasts (seed self.old) self.old self.new
            (events.Ask who request.now result) }
        ensures tells { TellsEvent faults has_stopped is_damaged self.old self.new (events.Ask who request.now result) }
        ensures stops { MakesStop clock stop self.old self.new (events.Ask who request.now result ∷ []) }
        ensures undamaged { (s : State) → stands self.old s → is_damaged self.old ≡ false
            → is_damaged self.new ≡ false }
        ensures fits { FitsLine result }
        ensures size { cylinders self.new ≡ cylinders self.old }
        ensures seed { seed self.new ≡ seed self.old }
        ensures drawn { words self.new ≤ words self.old + 1 };

    /// Lets a session leave. Returns the moment at which the server stopped in this call, if it did.
    fn leave(&mut self, who: Session) -> Option<u64>
        ensures event { (s : State) → stands self.old s
            → MakesServed (stands self.new) (seed self.old) s (events.Leave who result) }
        ensures tallies { (s : State) → stands self.old s
            → Tallies has_stopped tally (seed self.old) self.old self.new s (events.Leave who result) }
        ensures halts { (s : State) → stands self.old s → IsSome result
            → Rose (faults self.old) (faults self.new) }
        ensures called { (tally self.new).called ≡ (tally self.old).called }
        ensures passes { SessionPasses clock tally self.old self.new }
        ensures lasts { CrashesGoOn stands clock lasts (seed self.old) self.old self.new
            (events.Leave who result) }
        ensures tells { TellsEvent faults has_stopped is_damaged self.old self.new (events.Leave who result) }
        ensures stops { MakesStop clock stop self.old self.new (events.Leave who result ∷ []) }
        ensures undamaged { (s : State) → stands self.old s → is_damaged self.old ≡ false
            → is_damaged self.new ≡ false }
        ensures size { cylinders self.new ≡ cylinders self.old }
        ensures seed { seed self.new ≡ seed self.old }
        ensures drawn { words self.new ≤ words self.old };

    /// Makes a turn of the collector: one part of a commit if one is unfinished, and else the step that is due.
    ///
    /// Returns the step, or `None` for a part. If the turn was refused, the error says why.
    fn turn(&mut self, alloc: Global) -> Result<Option<Step>, CollectFault>
        ensures event { (s : State) → stands self.old s
            → MayMake (stands self.new) (seed self.old) s (event_by (as_step result)) }
        ensures lasts { MayGoOn stands clock lasts (seed self.old) self.old self.new
            (event_by (as_step result)) }
        ensures tells { TellsStep faults has_stopped is_damaged self.old self.new (as_step result) }
        ensures stops { MakesStop clock stop self.old self.new (recorded (event_by (as_step result)))
            × TellsStop (refusal_by (as_step result)) (stop self.new) }
        ensures undamaged { (s : State) → stands self.old s → is_damaged self.old ≡ false
            → is_damaged self.new ≡ false }
        ensures tallies { (s : State) → stands self.old s
            → MayTally has_stopped tally (seed self.old) self.old self.new s (event_by (as_step result)) }
        ensures halts { (s : State) → stands self.old s → tells_stop_at (event_by (as_step result)) ≡ true
            → Rose (faults self.old) (faults self.new) }
        ensures called { (tally self.new).called ≡ (tally self.old).called }
        ensures passes { PassesStep clock has_stopped tally self.old self.new (as_step result) }
        ensures spends { SpendsTurn unfinished tally self.old self.new result }
        ensures ends { EndsCollecting has_stopped tally self.old self.new (as_step result) }
        ensures size { cylinders self.new ≡ cylinders self.old }
        ensures seed { seed self.new ≡ seed self.old }
        ensures drawn { words self.new ≤ words self.old };

    /// Calls for one more collection.
    fn call(&mut self)
        requires few { (tally self.old).called < 4294967295 }
        ensures called { CallsOne stands tally self.old self.new }
        ensures stop { stop self.new ≡ stop self.old }
        ensures clock { clock self.new ≡ clock self.old }
        ensures faults { faults self.new ≡ faults self.old }
        ensures unfinished { unfinished self.new ≡ unfinished self.old }
        ensures size { cylinders self.new ≡ cylinders self.old }
        ensures seed { seed self.new ≡ seed self.old }
        ensures drawn { words self.new ≡ words self.old }
        ensures lasts { MayGoOn stands clock lasts (seed self.old) self.old self.new None };

    /// Returns how many parts of a commit are left.
    fn parts_left(&self) -> u64
        ensures is { result ≡ unfinished self.now }
        ensures small { result < 4611686018427387904 };

    /// Returns why the server stopped, if it did.
    fn stopped(&self) -> Option<Stop>
        ensures { result ≡ stop self.now };

    /// Returns the moment of the disk. A line that is no request makes no call of it.
    fn moment(&self) -> u64
        ensures clock { result ≡ clock self.now }
        ensures lasts { (who : ℕ) (why : Unread)
            → CrashesGoOn stands clock lasts (seed self.now) self.now self.now
            (events.Unread who why) };
}

/// Returns the fault of a collector's step that is reported in the same words.
pub(crate) fn fault_of(fault: TidyFault) -> CollectFault
    ensures { result ≡ fault_as fault }
{
    match fault {
        TidyFault::Disk { doubt } => CollectFault::Disk { doubt },
        TidyFault::Damaged { damage, moment } => CollectFault::Damaged { damage, moment },
        TidyFault::Stopped { moment } => CollectFault::Stopped { moment },
    }
}

/// Makes a part of the commit that is unfinished, or else a step of the collector.
fn turn_of<D: Disk>(core: &mut Core<D>, alloc: Global) -> Result<Option<Step>, CollectFault>
    ensures { TakesTurn D.Disk core.old core.new result }
{
    if core.parts_left() > 0 {
        return match core.tidy() {
            Ok(_) => Ok(None),
            Err(fault) => Err(fault_of(fault)),
        };
    }
    match core.collect(alloc) {
        Ok(step) => Ok(Some(step)),
        Err(fault) => Err(fault),
    }
}

impl<D: Disk> Server for Core<D> {
    ghost use Rattle.std.specs.Prelude.{is_some, length, refl};
    ghost use Rattle.cfs_core.specs.StandsFor.{StandsFor};
    ghost use Rattle.cyl_alloc.specs.Left.{parts_left};
    ghost use Rattle.cfs_serve.specs.Ending.{damage_in};
    ghost use Rattle.cfs_serve.specs.Calls.{tally_of};
    ghost use Rattle.survival.specs.Trail.{RunSurvives};

    ghost stands = { λ k s. StandsFor D.Disk k s };

    ghost seed = { λ k. k.words.seed };

    ghost words = { λ k. k.words.drawn };

    ghost faults = { λ k. D.faults k.disk };

    ghost cylinders = { λ k. length k.space.free };

    ghost stop = { λ k. k.stop };

    ghost has_stopped = { λ k. is_some k.stop };

    ghost is_damaged = { λ k. is_some (damage_in k.stop) };

    ghost stopped_so = { λ k. refl };

    ghost damaged_so = { λ k. refl };

    ghost clock = { λ k. D.moment k.disk };

    ghost tally = { λ k. tally_of D.Disk k };

    ghost unfinished = { λ k. parts_left k.space.left };

    ghost root = { λ k. k.root };

    ghost lasts = { λ k seed graph trail marks. RunSurvives D.Disk seed graph trail marks k.disk };

    fn answer(&mut self, alloc: Global, who: Session, request: &Request) -> Reply {
        self.has_room();
        survival::laws::runs_survive::<D>();
        let reply = Core::ask(self, alloc, who, request);
        self.has_room();
        reply
    }

    fn leave(&mut self, who: Session) -> Option<u64> {
        self.has_room();
        survival::laws::runs_survive::<D>();
        let left = Core::leave(self, who);
        self.has_room();
        match left {
            Ok(()) => None,
            Err(halt) => Some(halt.moment),
        }
    }

    fn turn(&mut self, alloc: Global) -> Result<Option<Step>, CollectFault> {
        self.has_room();
        survival::laws::runs_survive::<D>();
        let made = turn_of(self, alloc);
        self.has_room();
        made
    }

    fn call(&mut self) {
        self.call_for(1);
    }

    fn parts_left(&self) -> u64 {
        Core::parts_left(self)
    }

    fn stopped(&self) -> Option<Stop> {
        let status = Core::status(self);
        match status.stopped {
            Some(moment) => Some(Stop {
                moment,
                damage: status.damage,
            }),
            None => None,
        }
    }

    fn moment(&self) -> u64 {
        survival::laws::runs_survive::<D>();
        Core::moment(self)
    }
}
