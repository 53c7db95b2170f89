//! Spins: services of a drawn workload, whose replies nobody keeps.
ghost use Rattle.std.specs.Prelude.{◌≡◌, ◌<◌, ◌≤◌, ◌+◌, ◌*◌, IfSome, None, map};
ghost use Rattle.cfs_serve.specs.Ground.{new_ground};
ghost use Rattle.cfs_serve.specs.Scripts.{lines_in};
ghost use Rattle.cfs_serve.specs.Spun.{drains, drawn_scripts, drawn_sources};
ghost use Rattle.cfs_serve.specs.Whole.{AsksSessions};
ghost use Rattle.cfs_workload.specs.Workload as workload;

use crate::command::Spin;
use crate::play::{Played, nothing, serve_scripts};
use crate::report::Cause;
use crate::script::Script;
use crate::scripts::Scripts;
use crate::service::Schedule;
use crate::volume::new_volume;
use cfs_base::{Failed, Gate, Sink};
use cfs_workload::script;
use std::alloc::Global;
use std::sync::Wait;
use std::thread::Threads;

/// A sink that takes all and keeps nothing.
#[derive(Drop)]
struct Drain;

impl Sink for Drain {
    ghost use Rattle.cfs_serve.specs.Spun.{drain};

    ghost intake = { λ s. drain };

    fn write(&mut self, from: &[u8]) -> Result<usize, Failed> {
        Ok(from.len())
    }
}

/// Draws the script of one session. Returns `None` for want of memory.
fn draw(alloc: Global, seed: u64, session: u32, count: u64) -> Option<Script>
    requires { session < 4 }
    ensures { IfSome result (λ s. s ≡ workload.script seed session count) }
{
    match script(alloc, seed, session, count) {
        Ok(text) => Some(Script::new(text)),
        Err(_) => None,
    }
}

/// Draws the scripts of all four sessions. Returns `None` for want of memory.
fn draw_scripts(alloc: Global, seed: u64, count: u64) -> Option<Scripts>
    requires { count ≤ 5370 }
    ensures scripts { IfSome result (λ s. s.scripts.items ≡ drawn_scripts seed count) }
    ensures lines { IfSome result (λ s. s.lines ≡ 4 * (count + 1)) }
{
    let first = draw(alloc, seed, 0, count)?;
    let second = draw(alloc, seed, 1, count)?;
    let third = draw(alloc, seed, 2, count)?;
    let fourth = draw(alloc, seed, 3, count)?;
    match Vec::from_array(alloc, [first, second, third, fourth]) {
        Ok(scripts) => Some(Scripts {
            scripts,
            lines: 4 * (count + 1),
        }),
        Err(_) => None,
    }
}

/// Draws the scripts of four sessions, and serves them on a new volume in memory.
///
/// Each script has a first line, and as many drawn lines as are asked for. Two collections are called for: one beside
/// the sessions, and one once they have left. If memory is wanting, nothing is served, and the report says so.
pub(crate) fn spin<G: Gate + Sync, R: Threads + Wait + Sync>(
    rt: &R,
    alloc: Global,
    gate: &G,
    asked: Spin,
) -> Played
    ensures { AsksSessions (new_ground asked.cylinders asked.seed) asked.seed 2
        (record { disk = None; sources = drawn_sources asked.seed asked.count; sinks = drains })
        (record { disk = None; sources = drawn_sources asked.seed asked.count; sinks = drains })
        result.report result.ending result.trail.events }
{
    cfs_workload::laws::scripts_have_so_many_lines();
    let Some(scripts) = draw_scripts(alloc, asked.seed, asked.count) else {
        return nothing(alloc, Cause::Memory);
    };
    let Ok(mut sinks) = Vec::from_array(alloc, [Drain, Drain, Drain, Drain]) else {
        return nothing(alloc, Cause::Memory);
    };
    let Some(core) = new_volume(alloc, asked.cylinders, asked.seed) else {
        return nothing(alloc, Cause::Memory);
    };
    let schedule = Schedule {
        collections: 2,
        rests: true,
    };
    let (played, _) = serve_scripts(rt, alloc, gate, core, scripts, &mut sinks, schedule);
    played
}
