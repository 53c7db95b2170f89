//! A service of scripts, from its sources to its report.
ghost use Rattle.std.specs.Prelude.{◌≡◌, ◌⊎◌, ◌<◌, ◌≤◌, ◌+◌, ◌*◌, List, [], None, Some, filter, length, map, ℕ};
ghost use Rattle.std.specs.List.{sum_by};
ghost use Rattle.cfs_core.specs.Kernel.{Kernel};
ghost use Rattle.cfs_ports.specs.Port.{PortReading};
ghost use Rattle.cfs_serve.specs.Disks.{ServesVolume};
ghost use Rattle.cfs_serve.specs.Ending.{cause_by, not_begun};
ghost use Rattle.cfs_serve.specs.Events as spec;
ghost use Rattle.cfs_serve.specs.Ground.{ground_on, new_ground};
ghost use Rattle.cfs_serve.specs.Machine.{AreNew, client_of, turns_left};
ghost use Rattle.cfs_serve.specs.Played as played;
ghost use Rattle.cfs_serve.specs.Report.{untold};
ghost use Rattle.cfs_serve.specs.Scripts.{lines_in};
ghost use Rattle.cfs_serve.specs.Service.{HasServed};
ghost use Rattle.cfs_serve.specs.Volume.{IsCoreUncalled, IsUnserved, ServesScripts, ServesSessions};
ghost use Rattle.cfs_serve.specs.Whole.{AsksSessions};

use crate::clients::{make_ports, take_sinks};
use crate::command::{Play, Serve};
use crate::ending::Ending;
use crate::report::{Cause, Counts, Report};
use crate::scripts::{Scripts, read_scripts};
use crate::served::{Served, Unserved};
use crate::server::Server;
use crate::service::{Schedule, Service};
use crate::volume::{Unopened, new_volume, open_volume};
use cfs_base::{Disk, Gate, Sink, Source};
use cfs_check::Damages;
use cfs_core::{Core, Status};
use cfs_ports::Port;
use cfs_trail::Trail;
use std::alloc::Global;
use std::sync::Wait;
use std::thread::Threads;
use ufs_model::Event;

/// What a service comes to.
#[derive(Drop)]
pub(crate) struct Played {
    pub report: Report,
    pub trail: Trail,
    pub ending: Ending,
}

/// Returns whether this event is the reply to a request line.
fn is_reply(event: &Event) -> bool
    ensures { result ≡ spec.is_reply event.now }
{
    matches!(event, Event::Unread { .. } | Event::Ask { .. })
}

/// Returns whether a collection is finished by this event.
fn is_finish(event: &Event) -> bool
    ensures { result ≡ spec.is_finish event.now }
{
    matches!(event, Event::Finished)
}

/// Returns how many collections are finished in a trail.
fn count_finished(trail: &Trail) -> u64
    ensures { result ≡ length (filter spec.is_finish trail.now.events) }
{
    let mut count = 0;
    'events: for at in 0..trail.len() {
        if is_finish(trail.event(at)) {
            count += 1;
        }
    }
    count
}

/// Returns how many replies a trail has.
fn count_replies(trail: &Trail) -> u64
    ensures { result ≡ length (filter spec.is_reply trail.now.events) }
{
    let mut count = 0;
    'events: for at in 0..trail.len() {
        if is_reply(trail.event(at)) {
            count += 1;
        }
    }
    count
}

/// Returns what a run comes to that serves nothing, with this report.
pub(crate) fn unserved(alloc: Global, report: Report) -> Played
    ensures report { result.report ≡ report }
    ensures trail { result.trail.events ≡ [] }
    ensures ending { result.ending ≡ not_begun }
{
    Played {
        report,
        trail: Trail::new(alloc),
        ending: Ending::none(),
    }
}

/// Returns what a run comes to that serves nothing, for this cause.
pub(crate) fn nothing(alloc: Global, cause: Cause) -> Played
    ensures report { result.report ≡ untold cause }
    ensures trail { result.trail.events ≡ [] }
    ensures ending { result.ending ≡ not_begun }
{
    unserved(alloc, Report::untold(alloc, cause))
}

/// Returns whether the sink of one of these ports failed.
fn has_broken<K: Sink>(ports: &[Port<K>]) -> bool
    ensures { result ≡ played.has_broken ports.now }
{
    ports.iter().any(|port| port.has_failed())
}

/// Returns the report on sessions that were served, by the core's last status.
fn report_on<A, K: Sink>(alloc: Global, served: &Served<A, K>, last: Status) -> Report
    ensures { result ≡ record {
      counts = Some (record {
        sessions = length served.now.ports.items;
        replies = length (filter spec.is_reply served.now.trail.events);
        collections = length (filter spec.is_finish served.now.trail.events);
        objects = last.objects;
        free = last.free;
      });
      faults = [];
      cause = cause_by served.now.ending served.now.failed (played.has_broken served.now.ports.items)
          served.now.starved;
    } }
{
    let broken = has_broken(served.ports.as_slice());
    Report {
        counts: Some(Counts {
            sessions: served.ports.len() as u64,
            replies: count_replies(&served.trail),
            collections: count_finished(&served.trail),
            objects: u64::from(last.objects),
            free: u64::from(last.free),
        }),
        faults: Damages::of(Vec::new(alloc)),
        cause: served.ending.cause(served.failed, broken, served.starved),
    }
}

/// Returns what sessions came to that a core has served, by its last status, with the ports and the disk.
pub(crate) fn close_service<D: Disk, K: Sink>(
    alloc: Global,
    served: Served<Core<D>, K>,
) -> (Played, Vec<Port<K>>, D)
    ensures trail { result.0.trail ≡ served.trail }
    ensures refused { result.0.ending.refused ≡ served.ending.refused }
    ensures ports { result.1.items ≡ served.ports.items }
    ensures sessions { (core : Kernel D) (before : List PortReading) (collections : ℕ) → core.stop ≡ None
        → HasServed ⟦<Core<D> as Server>⟧ core before collections served
        → ServesSessions D.Disk core collections (map client_of before) result.1.items result.0.report result.0.ending
        result.0.trail.events result.0.trail.moments result.2 }
{
    survival::laws::runs_survive::<D>();
    crate::laws::images_are_whole::<D>();
    let last = served.server.status();
    served.server.has_room();
    let report = report_on(alloc, &served, last);
    let Served {
        server,
        trail,
        ports,
        starved: _,
        failed: _,
        ending,
    } = served;
    let ending = Ending {
        last: Some(last),
        ..ending
    };
    let played = Played {
        report,
        trail,
        ending,
    };
    (played, ports, server.into_disk())
}

/// Returns how many steps the collector may make.
///
/// They are `each` for each collection, one for each turn of a session, which may add one, and one in which nothing is
/// left to do.
fn count_steps(collections: u32, each: u64, turns: u64) -> u64
    requires most { collections ≤ 1000 }
    requires small { each < 140737488355328 }
    requires few { turns < 4294967295 }
    ensures is { result ≡ collections * each + turns + 1 }
    ensures small { result < 4611686018427387904 }
{
    u64::from(collections) * each + turns + 1
}

/// Serves the sessions of these ports, and calls for collections.
///
/// The sessions make at most `turns` turns, and so add at most as many steps to those of the collections. If memory is
/// wanting for the service, nothing is served. Returns what it came to, the ports and the disk.
fn serve_ports<D: Disk + Send, K: Sink + Send, G: Gate + Sync, R: Threads + Wait + Sync>(
    rt: &R,
    alloc: Global,
    gate: &G,
    mut core: Core<D>,
    trail: Trail,
    ports: Vec<Port<K>>,
    schedule: Schedule,
    turns: u64,
) -> (Played, Vec<Port<K>>, D)
    requires no_event { trail.events ≡ [] }
    requires turns { sum_by turns_left ports.items ≤ turns }
    requires room { turns + 3 * schedule.collections + 1 ≤ trail.room }
    requires few { turns + 3 * schedule.collections + 1 < 4294967295 }
    requires sessions { length ports.items ≤ 64 }
    requires most { schedule.collections ≤ 1000 }
    requires new { AreNew core.root ports.items }
    requires core { IsCoreUncalled core }
    ensures { ServesSessions D.Disk core schedule.collections (map client_of ports.items) result.1.items result.0.report
        result.0.ending result.0.trail.events result.0.trail.moments result.2
        ⊎ IsUnserved core ports.items result.1.items result.0.report result.0.ending result.0.trail.events result.2 }
{
    core.call_for(schedule.collections);
    core.has_room();
    let steps = count_steps(schedule.collections, core.most_steps(), turns);
    let service = Service {
        server: core,
        trail,
        ports,
        schedule,
        turns: steps,
    };
    match service.run(rt, alloc, gate) {
        Ok(served) => close_service(alloc, served),
        Err(Unserved { server, ports }) => {
            (nothing(alloc, Cause::Memory), ports, server.into_disk())
        }
    }
}

/// Serves these scripts, with a sink for each, and calls for collections.
///
/// If memory is wanting for the service, nothing is served, and no sink takes a byte. Returns what it came to, and the
/// disk.
pub(crate) fn serve_scripts<
    D: Disk + Send,
    K: Sink + Send,
    G: Gate + Sync,
    R: Threads + Wait + Sync,
>(
    rt: &R,
    alloc: Global,
    gate: &G,
    core: Core<D>,
    scripts: Scripts,
    sinks: &mut Vec<K>,
    schedule: Schedule,
) -> (Played, D)
    requires count { length scripts.scripts.items ≡ length sinks.old.items }
    requires sessions { length sinks.old.items ≤ 64 }
    requires lines { scripts.lines ≡ lines_in scripts.scripts.items }
    requires fits { scripts.lines ≤ 500000 }
    requires core { IsCoreUncalled core }
    requires most { schedule.collections ≤ 1000 }
    ensures served { ServesScripts D.Disk core schedule.collections scripts.scripts.items
        (map K.intake sinks.old.items) (map K.intake sinks.new.items) result.0.report result.0.ending
        result.0.trail.events result.0.trail.moments result.1 }
    ensures count { length sinks.new.items ≡ length sinks.old.items }
{
    let mut trail = Trail::new(alloc);
    let turns = scripts.lines + sinks.len() as u64;
    let events = turns + 3 * u64::from(schedule.collections) + 1;
    let Ok(()) = trail.reserve(events) else {
        return (nothing(alloc, Cause::Memory), core.into_disk());
    };
    let Some(ports) = make_ports(alloc, core.root(), scripts.scripts, sinks) else {
        return (nothing(alloc, Cause::Memory), core.into_disk());
    };
    let (played, ports, disk) = serve_ports(rt, alloc, gate, core, trail, ports, schedule, turns);
    take_sinks(ports, sinks);
    (played, disk)
}

/// Reads the sources, and serves their scripts on a new volume in memory.
///
/// If a source can't be read, or memory is wanting, nothing is served, and the report says why.
pub(crate) fn play<S: Source, K: Sink + Send, G: Gate + Sync, R: Threads + Wait + Sync>(
    rt: &R,
    alloc: Global,
    gate: &G,
    asked: &Play<'_>,
    sources: &mut Vec<S>,
    sinks: &mut Vec<K>,
) -> Played
    requires count { length sources.old.items ≡ length sinks.old.items }
    requires sessions { length sinks.old.items ≤ 64 }
    ensures { AsksSessions (new_ground asked.now.cylinders asked.now.seed) asked.now.seed asked.now.collections
        (record { disk = None; sources = map S.supply sources.old.items; sinks = map K.intake sinks.old.items })
        (record { disk = None; sources = map S.supply sources.new.items; sinks = map K.intake sinks.new.items })
        result.report result.ending result.trail.events }
{
    let scripts = match read_scripts(alloc, sources) {
        Ok(scripts) => scripts,
        Err(cause) => return nothing(alloc, cause),
    };
    let Some(core) = new_volume(alloc, asked.cylinders, asked.seed) else {
        return nothing(alloc, Cause::Memory);
    };
    let schedule = Schedule {
        collections: asked.collections,
        rests: false,
    };
    let (played, _) = serve_scripts(rt, alloc, gate, core, scripts, sinks, schedule);
    played
}

/// Reads the sources, and serves their scripts on the volume of this disk.
///
/// If a source can't be read, the volume can't be opened, or memory is wanting, nothing is served, and the report says
/// why. Returns what the service came to, and the disk.
pub(crate) fn serve_volume<
    D: Disk + Send,
    S: Source,
    K: Sink + Send,
    G: Gate + Sync,
    R: Threads + Wait + Sync,
>(
    rt: &R,
    alloc: Global,
    gate: &G,
    asked: &Serve<'_>,
    disk: D,
    sources: &mut Vec<S>,
    sinks: &mut Vec<K>,
) -> (Played, D)
    requires count { length sources.old.items ≡ length sinks.old.items }
    requires sessions { length sinks.old.items ≤ 64 }
    ensures asks { AsksSessions (ground_on D.Disk disk) asked.now.seed asked.now.collections
        (record {
          disk = Some (D.faults disk);
          sources = map S.supply sources.old.items;
          sinks = map K.intake sinks.old.items;
        })
        (record {
          disk = Some (D.faults result.1);
          sources = map S.supply sources.new.items;
          sinks = map K.intake sinks.new.items;
        })
        result.0.report result.0.ending result.0.trail.events }
    ensures volume { ServesVolume D.Disk asked.now.seed result.0.report result.0.ending result.0.trail.events
        result.0.trail.moments disk result.1 }
{
    let scripts = match read_scripts(alloc, sources) {
        Ok(scripts) => scripts,
        Err(cause) => return (nothing(alloc, cause), disk),
    };
    let core = match open_volume(alloc, disk, asked.seed) {
        Ok(core) => core,
        Err(Unopened { cause, disk }) => return (nothing(alloc, cause), disk),
    };
    let schedule = Schedule {
        collections: asked.collections,
        rests: false,
    };
    serve_scripts(rt, alloc, gate, core, scripts, sinks, schedule)
}
