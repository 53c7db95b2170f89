//! Lines of names, served on a volume in a file. One session has them, and there is no collector.
ghost use Rattle.std.specs.Prelude.{◌≡◌, ◌⊎◌, ◌≤◌, [], Some, length, map, not};
ghost use Rattle.std.specs.Vec.{vec_capacity};
ghost use Rattle.ufs_model.specs.Script.{request_lines};
ghost use Rattle.cfs_serve.specs.Ground.{ground_on};
ghost use Rattle.cfs_serve.specs.Lines.{AnswersLines};
ghost use Rattle.cfs_serve.specs.Names.{DoesNames};
ghost use Rattle.cfs_serve.specs.Named.{CoreServesNames, CoreUnserved};
ghost use Rattle.cfs_serve.specs.Tidied.{TidiesAll};
ghost use Rattle.cfs_serve.specs.Volume.{IsCoreUncalled};
ghost use Rattle.cfs_serve.specs.Watched.{IsWatched, by_core};
ghost use Rattle.cfs_serve.specs.Ending.{cause_by};

use crate::answering::{Told, answer_lines};
use crate::command::Dirs;
use crate::ending::Ending;
use crate::limits::HELD_MAPS;
use crate::play::{Played, nothing};
use crate::report::{Cause, Counts, Report};
use crate::scripts::read_scripts;
use crate::server::{Server, fault_of};
use crate::volume::{Unopened, open_volume};
use crate::watched::{Since, Watched};
use cfs_base::{Disk, Sink, Source};
use cfs_check::Damages;
use cfs_core::{CollectFault, Core, Status};
use cfs_script::REPLY_ROOM;
use cfs_trail::Trail;
use map_cache::{CacheFault, MapCache};
use std::alloc::Global;
use std::marker::{Brand, Model};

/// Carries out what the last commit has left. Returns what refused it, if something did.
fn tidy_all<D: Disk>(core: &mut Core<D>) -> Option<CollectFault>
    ensures { TidiesAll D.Disk core.old core.new result }
{
    'parts: while core.parts_left() > 0 {
        if let Err(fault) = core.tidy() {
            return Some(fault_of(fault));
        }
    }
    match core.tidy() {
        Ok(_) => None,
        Err(fault) => Some(fault_of(fault)),
    }
}

/// Answers the request lines of a script by a core. Returns what the answers reported, and the core.
fn answer_by<D: Disk, K: Sink, J: Since>(
    core: Core<D>,
    alloc: Global,
    script: &[u8],
    sink: &mut K,
    reply: &mut Vec<u8>,
) -> (Told, Core<D>)
    requires faults { J.faults ≡ D.faults core.disk }
    requires core { IsCoreUncalled core }
    requires few { length (request_lines script.now) ≤ 500000 }
    requires room { REPLY_ROOM ≤ vec_capacity reply.old }
    ensures answers { AnswersLines (by_core D.Disk) (request_lines script.now) (K.intake sink.old) (K.intake sink.new)
        core result.1 result.0 }
    ensures watched { IsWatched D.Disk (D.faults core.disk) result.1 }
{
    let mut asker: Watched<D, J> = Watched::new(core);
    let told = answer_lines(&mut asker, alloc, script, sink, reply);
    (told, asker.into_core())
}

/// Returns the report on lines that were answered, by the core's last status.
fn report_on(alloc: Global, told: Told, ending: Ending, last: Status) -> Report
    ensures { result ≡ record {
      counts = Some (record {
        sessions = 1;
        replies = told.answers;
        collections = 0;
        objects = last.objects;
        free = last.free;
      });
      faults = [];
      cause = cause_by ending told.failed (not told.took) told.starved;
    } }
{
    Report {
        counts: Some(Counts {
            sessions: 1,
            replies: told.answers,
            collections: 0,
            objects: u64::from(last.objects),
            free: u64::from(last.free),
        }),
        faults: Damages::of(Vec::new(alloc)),
        cause: ending.cause(told.failed, !told.took, told.starved),
    }
}

/// Answers the request lines of a script by a core, and then carries out what the last commit has left.
///
/// If memory is wanting for an answer's text, no line is answered. Returns what the run came to, and the disk.
fn serve_lines<D: Disk, K: Sink>(
    alloc: Global,
    core: Core<D>,
    script: &[u8],
    sink: &mut K,
) -> (Played, D)
    requires core { IsCoreUncalled core }
    requires few { length (request_lines script.now) ≤ 500000 }
    ensures served { CoreServesNames D.Disk core (request_lines script.now) (K.intake sink.old) (K.intake sink.new)
        result.0.report result.0.ending result.1
        ⊎ CoreUnserved core (K.intake sink.old) (K.intake sink.new) result.0.report result.0.ending result.1 }
    ensures trail { result.0.trail.events ≡ [] }
{
    let Ok(mut reply) = Vec::with_capacity(alloc, REPLY_ROOM) else {
        return (nothing(alloc, Cause::Memory), core.into_disk());
    };
    crate::laws::images_are_whole::<D>();
    let (told, mut core) = answer_by::<D, K, Brand>(core, alloc, script, sink, &mut reply);
    core.has_room();
    let refused = tidy_all(&mut core);
    core.has_room();
    let last = core.status();
    let ending = Ending {
        stop: core.stopped(),
        refused,
        last: Some(last),
    };
    let played = Played {
        report: report_on(alloc, told, ending, last),
        trail: Trail::new(alloc),
        ending,
    };
    (played, core.into_disk())
}

/// Reads the source, and serves its lines on the volume of this disk.
///
/// If the source can't be read or the volume can't be opened, no line is served. Returns what the run came to, and the
/// disk.
fn serve_opened<D: Disk, S: Source, K: Sink>(
    alloc: Global,
    seed: u64,
    disk: D,
    sources: &mut Vec<S>,
    sinks: &mut Vec<K>,
) -> (Played, D)
    requires source { length sources.old.items ≡ 1 }
    requires sink { length sinks.old.items ≡ 1 }
    ensures names { DoesNames D.Disk (ground_on D.Disk disk)
        (record {
          disk = Some (D.faults disk);
          sources = map S.supply sources.old.items;
          sinks = map K.intake sinks.old.items;
        })
        (record {
          disk = Some (D.faults result.1);
          sources = map S.supply sources.new.items;
          sinks = map K.intake sinks.new.items;
        })
        result.0.report result.0.ending disk result.1 }
    ensures trail { result.0.trail.events ≡ [] }
    ensures places { (length sources.new.items ≡ 1) × (length sinks.new.items ≡ 1) }
{
    let scripts = match read_scripts(alloc, sources) {
        Ok(scripts) => scripts,
        Err(cause) => return (nothing(alloc, cause), disk),
    };
    let core = match open_volume(alloc, disk, seed) {
        Ok(core) => core,
        Err(Unopened { cause, disk }) => return (nothing(alloc, cause), disk),
    };
    serve_lines(alloc, core, scripts.scripts[0].as_slice(), &mut sinks[0])
}

/// Reads the source, and serves its lines of names on the volume of this disk.
///
/// Map blocks are read from the disk once, and then held. If memory is wanting for that, the source isn't read. Returns
/// what the run came to, and the disk.
pub(crate) fn serve_dirs<D: Disk, S: Source, K: Sink>(
    alloc: Global,
    asked: &Dirs<'_>,
    disk: D,
    sources: &mut Vec<S>,
    sinks: &mut Vec<K>,
) -> (Played, D)
    requires source { length sources.old.items ≡ 1 }
    requires sink { length sinks.old.items ≡ 1 }
    ensures names { DoesNames D.Disk (ground_on D.Disk disk)
        (record {
          disk = Some (D.faults disk);
          sources = map S.supply sources.old.items;
          sinks = map K.intake sinks.old.items;
        })
        (record {
          disk = Some (D.faults result.1);
          sources = map S.supply sources.new.items;
          sinks = map K.intake sinks.new.items;
        })
        result.0.report result.0.ending disk result.1 }
    ensures trail { result.0.trail.events ≡ [] }
    ensures places { (length sources.new.items ≡ 1) × (length sinks.new.items ≡ 1) }
{
    let cache = match MapCache::new(alloc, disk, HELD_MAPS) {
        Ok(cache) => cache,
        Err(CacheFault { lower }) => return (nothing(alloc, Cause::Memory), lower),
    };
    let (played, cache) = serve_opened(alloc, asked.seed, cache, sources, sinks);
    (played, cache.into_lower())
}
