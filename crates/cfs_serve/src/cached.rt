//! Volumes in files, whose map blocks are held in memory while they are served.
ghost use Rattle.std.specs.Prelude.{◌≡◌, ◌≤◌, Some, length, map};
ghost use Rattle.cfs_serve.specs.Disks.{ServesVolume};
ghost use Rattle.cfs_serve.specs.Ground.{ground_on};
ghost use Rattle.cfs_serve.specs.Whole.{AsksSessions};

use crate::command::Serve;
use crate::limits::HELD_MAPS;
use crate::play::{Played, nothing, serve_volume};
use crate::report::Cause;
use cfs_base::{Disk, Gate, Sink, Source};
use map_cache::{CacheFault, MapCache};
use std::alloc::Global;
use std::sync::Wait;
use std::thread::Threads;

/// Reads the sources, and serves their scripts on the volume of this disk.
///
/// Map blocks are read from the disk once, and then held. If memory is wanting for that, no source is read. Returns
/// what the service came to, and the disk.
pub(crate) fn serve_cached<
    D: Disk + Send,
    S: Source,
    K: Sink + Send,
    G: Gate + Sync,
    R: Threads + Wait + Sync,
>(
    rt: &R,
    alloc: Global,
    gate: &G,
    asked: &Serve<'_>,
    disk: D,
    sources: &mut Vec<S>,
    sinks: &mut Vec<K>,
) -> (Played, D)
    requires count { length sources.old.items ≡ length sinks.old.items }
    requires sessions { length sinks.old.items ≤ 64 }
    ensures asks { AsksSessions (ground_on D.Disk disk) asked.now.seed asked.now.collections
        (record {
          disk = Some (D.faults disk);
          sources = map S.supply sources.old.items;
          sinks = map K.intake sinks.old.items;
        })
        (record {
          disk = Some (D.faults result.1);
          sources = map S.supply sources.new.items;
          sinks = map K.intake sinks.new.items;
        })
        result.0.report result.0.ending result.0.trail.events }
    ensures volume { ServesVolume D.Disk asked.now.seed result.0.report result.0.ending result.0.trail.events
        result.0.trail.moments
        disk result.1 }
{
    let cache = match MapCache::new(alloc, disk, HELD_MAPS) {
        Ok(cache) => cache,
        Err(CacheFault { lower }) => return (nothing(alloc, Cause::Memory), lower),
    };
    let (played, cache) = serve_volume(rt, alloc, gate, asked, cache, sources, sinks);
    (played, cache.into_lower())
}
