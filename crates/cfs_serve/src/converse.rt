//! A conversation on a volume in a file.
ghost use Rattle.std.specs.Prelude.{◌≡◌, ◌≤◌, [], Some, IfErr, IfOk, false, length, map, vec_capacity};
ghost use Rattle.cfs_ports.specs.Port.{IsNewPort};
ghost use Rattle.cfs_serve.specs.Commands.{conversation};
ghost use Rattle.cfs_serve.specs.Conversed.{DoesTalk};
ghost use Rattle.cfs_serve.specs.Ground.{ground_on};
ghost use Rattle.cfs_serve.specs.Talk as spec;
ghost use Rattle.cfs_serve.specs.Volume.{IsCoreUncalled};

use crate::command::Converse;
use crate::limits::{HELD_MAPS, MOST_LINES};
use crate::play::{Played, close_service, nothing};
use crate::report::{Cause, Report};
use crate::talk::{TalkEnd, Talked, converse_with};
use crate::volume::{Unopened, open_volume};
use cfs_base::{Disk, Puid, Sink, Source};
use cfs_core::Core;
use cfs_ports::{Lines, Port, PortFault};
use cfs_trail::Trail;
use map_cache::{CacheFault, MapCache};
use std::alloc::Global;

/// How many collections may be called for, with one after every so many lines and the last one.
fn most_calls(every: u64) -> u64
    ensures { result ≡ spec.most_calls every }
{
    if every == 0 {
        return 0;
    }
    MOST_LINES / every + 1
}

/// How many events a conversation may have, with a collection after every so many lines.
fn talk_events(every: u64) -> u64
    ensures { result ≡ spec.talk_events every }
{
    MOST_LINES + 3 * most_calls(every) + 2
}

/// What is told in place of this cause at such an end: the worse of the two.
fn cause_with(cause: Cause, end: TalkEnd) -> Cause
    ensures { result ≡ spec.talk_cause cause end }
{
    match (cause, end) {
        (Cause::Nothing | Cause::Memory, TalkEnd::Failed) => Cause::Source(0),
        (Cause::Nothing | Cause::Memory, TalkEnd::Long) => Cause::Long(0),
        (Cause::Nothing | Cause::Memory, TalkEnd::LongTotal) => Cause::LongTotal,
        (cause, _) => cause,
    }
}

/// What a conversation takes of memory before its first line: the trail, the port of its session, and the lines of its
/// source.
#[derive(Drop)]
struct Ready<S: Source, K: Sink> {
    trail: Trail,
    port: Port<K>,
    /// Room for the port.
    ports: Vec<Port<K>>,
    lines: Lines<S>,
}

/// A source and a sink for which memory was wanting.
#[derive(Drop)]
struct Unready<S, K> {
    source: S,
    sink: K,
}

/// Takes all memory that a conversation needs beside that of its answers and of the collector. The session's port knows
/// the root index. Where memory is wanting nothing was read, and source and sink come back.
fn ready_talk<S: Source, K: Sink>(
    alloc: Global,
    root: Puid,
    every: u64,
    source: S,
    sink: K,
) -> Result<Ready<S, K>, Unready<S, K>>
    ensures trail { IfOk result (λ r. (r.trail.events ≡ []) × (spec.talk_events every ≤ r.trail.room)) }
    ensures port { IfOk result (λ r. IsNewPort root r.port × (r.port.lines ≡ []) × (r.port.sink ≡ K.intake sink)) }
    ensures room { IfOk result (λ r. (r.ports.items ≡ []) × (1 ≤ vec_capacity r.ports)) }
    ensures lines { IfOk result (λ r. r.lines ≡ record {
      supply = S.supply source;
      line = [];
      held = [];
      ended = false;
    }) }
    ensures back { IfErr result (λ b. (S.supply b.source ≡ S.supply source) × (K.intake b.sink ≡ K.intake sink)) }
{
    let mut trail = Trail::new(alloc);
    let Ok(()) = trail.reserve(talk_events(every)) else {
        return Err(Unready { source, sink });
    };
    let port = match Port::new(alloc, root, Vec::new(alloc), 0, sink) {
        Ok(port) => port,
        Err(PortFault { script: _, sink }) => return Err(Unready { source, sink }),
    };
    let lines = match Lines::new(alloc, source) {
        Ok(lines) => lines,
        Err(source) => {
            return Err(Unready {
                source,
                sink: port.into_sink(),
            });
        }
    };
    let Ok(ports) = Vec::with_capacity(alloc, 1) else {
        return Err(Unready {
            source: lines.into_source(),
            sink: port.into_sink(),
        });
    };
    Ok(Ready {
        trail,
        port,
        ports,
        lines,
    })
}

/// What a conversation comes to, and what it was had with, which comes back.
#[derive(Drop)]
struct Conversed<D, S, K> {
    played: Played,
    disk: D,
    source: S,
    sink: K,
}

/// Has a conversation with a core, for which all memory was taken.
fn talk_by<D: Disk, S: Source, K: Sink>(
    alloc: Global,
    core: Core<D>,
    ready: Ready<S, K>,
    every: u64,
) -> Conversed<D, S, K>
    requires core { IsCoreUncalled core }
    requires every { every ≤ 500000 }
    requires trail { (ready.trail.events ≡ []) × (spec.talk_events every ≤ ready.trail.room) }
    requires port { IsNewPort core.root ready.port × (ready.port.lines ≡ []) }
    requires room { (ready.ports.items ≡ []) × (1 ≤ vec_capacity ready.ports) }
    requires lines { (ready.lines.held ≡ []) × (ready.lines.ended ≡ false) }
    ensures { spec.CoreTalks D.Disk core every ready.lines.supply (S.supply result.source) ready.port.sink
        (K.intake result.sink) result.played.report result.played.ending result.played.trail.events
        result.played.trail.moments result.disk }
{
    core.has_room();
    let Ready {
        trail,
        port,
        ports,
        lines,
    } = ready;
    let talked = converse_with(alloc, core, trail, port, ports, lines, every);
    let Talked {
        served,
        source,
        end,
    } = talked;
    let (played, mut ports, disk) = close_service(alloc, served);
    let sink = ports.take_last().into_sink();
    ports.destroy_empty();
    let Played {
        report,
        trail,
        ending,
    } = played;
    let report = Report {
        cause: cause_with(report.cause, end),
        ..report
    };
    Conversed {
        played: Played {
            report,
            trail,
            ending,
        },
        disk,
        source,
        sink,
    }
}

/// Has a conversation with a core. Where memory is wanting before its first line none is had, and nothing was read.
fn talk_on_core<D: Disk, S: Source, K: Sink>(
    alloc: Global,
    core: Core<D>,
    every: u64,
    source: S,
    sink: K,
) -> Conversed<D, S, K>
    requires core { IsCoreUncalled core }
    requires every { every ≤ 500000 }
    ensures { spec.TalksOnCore D.Disk core every (S.supply source) (S.supply result.source) (K.intake sink)
        (K.intake result.sink) result.played.report result.played.ending result.played.trail.events
        result.played.trail.moments result.disk }
{
    match ready_talk(alloc, core.root(), every, source, sink) {
        Ok(ready) => talk_by(alloc, core, ready, every),
        Err(Unready { source, sink }) => Conversed {
            played: nothing(alloc, Cause::Memory),
            disk: core.into_disk(),
            source,
            sink,
        },
    }
}

/// Opens the volume of this disk, which comes back, and then has a conversation on it.
fn converse_opened<D: Disk, S: Source, K: Sink>(
    alloc: Global,
    asked: &Converse<'_>,
    disk: D,
    sources: &mut Vec<S>,
    sinks: &mut Vec<K>,
) -> (Played, D)
    requires source { length sources.old.items ≡ 1 }
    requires sink { length sinks.old.items ≡ 1 }
    ensures talks { DoesTalk D.Disk (conversation asked.now) (ground_on D.Disk disk)
        (record {
          disk = Some (D.faults disk);
          sources = map S.supply sources.old.items;
          sinks = map K.intake sinks.old.items;
        })
        (record {
          disk = Some (D.faults result.1);
          sources = map S.supply sources.new.items;
          sinks = map K.intake sinks.new.items;
        })
        result.0.report result.0.ending result.0.trail.events result.0.trail.moments disk result.1 }
    ensures places { (length sources.new.items ≡ 1) × (length sinks.new.items ≡ 1) }
{
    let core = match open_volume(alloc, disk, asked.seed) {
        Ok(core) => core,
        Err(Unopened { cause, disk }) => return (nothing(alloc, cause), disk),
    };
    let source = sources.take_last();
    let sink = sinks.take_last();
    let conversed = talk_on_core(alloc, core, asked.every, source, sink);
    sources.push_reserved(conversed.source);
    sinks.push_reserved(conversed.sink);
    (conversed.played, conversed.disk)
}

/// Has a conversation on the volume of this disk.
///
/// Map blocks are read from the disk once, and then held. Returns what it came to, and the disk.
pub(crate) fn converse<D: Disk, S: Source, K: Sink>(
    alloc: Global,
    asked: &Converse<'_>,
    disk: D,
    sources: &mut Vec<S>,
    sinks: &mut Vec<K>,
) -> (Played, D)
    requires source { length sources.old.items ≡ 1 }
    requires sink { length sinks.old.items ≡ 1 }
    ensures talks { DoesTalk D.Disk (conversation asked.now) (ground_on D.Disk disk)
        (record {
          disk = Some (D.faults disk);
          sources = map S.supply sources.old.items;
          sinks = map K.intake sinks.old.items;
        })
        (record {
          disk = Some (D.faults result.1);
          sources = map S.supply sources.new.items;
          sinks = map K.intake sinks.new.items;
        })
        result.0.report result.0.ending result.0.trail.events result.0.trail.moments disk result.1 }
    ensures places { (length sources.new.items ≡ 1) × (length sinks.new.items ≡ 1) }
{
    let cache = match MapCache::new(alloc, disk, HELD_MAPS) {
        Ok(cache) => cache,
        Err(CacheFault { lower }) => return (nothing(alloc, Cause::Memory), lower),
    };
    let (played, cache) = converse_opened(alloc, asked, cache, sources, sinks);
    (played, cache.into_lower())
}
