//! A whole run, and the one public call that makes it.
ghost use Rattle.std.specs.Prelude.{◌≡◌, ◌⊎◌, ◌%◌, ◌*◌, ◌≤◌, None, Some, map, length, option_map};
ghost use Rattle.cfs_base.specs.Outside.{Rose};
ghost use Rattle.cfs_serve.specs.Commands.{asked_of};
ghost use Rattle.cfs_serve.specs.Words.{Asked, Format};
ghost use Rattle.cfs_serve.specs.Whole.{AsksServer, HasDisk, HasPlaces, status_at_end};
ghost use Rattle.cfs_serve.specs.Disks.{MakesVolume, OnDisk};
ghost use Rattle.cfs_serve.specs.Ground.{ground_of};
ghost use Rattle.cfs_serve.specs.Text.{first_line, printed_line};
ghost use Rattle.cfs_serve.specs.Traced.{IsWritten};
ghost use Rattle.cfs_serve.specs.Names.{IfNames, places_in};
ghost use Rattle.cfs_serve.specs.Conversed.{IfTalks};
ghost use Rattle.cfs_serve.specs.Says.{Says};
ghost use Rattle.cfs_serve.specs.Top.{before, outside_after};

use crate::audit::audit_only;
use crate::cached::serve_cached;
use crate::command::Command;
use crate::converse::converse;
use crate::dirs::serve_dirs;
use crate::ending::Ending;
use crate::inspecting::{check_volume, mend_volume};
use crate::play::{Played, nothing, play, unserved};
use crate::report::{Cause, Counts, Report};
use crate::spin::spin;
use crate::traced::{Written, write_trail};
use cfs_base::{Disk, Failed, Gate, Sink, Source};
use cfs_core::Core;
use cfs_trail::Trail;
use std::alloc::Global;
use std::sync::Wait;
use std::thread::Threads;
use trail_text::Opening;

/// What is outside a run: its volume, and where bytes come from and go.
#[derive(Drop)]
pub struct Bay<D, S, K> {
    /// The disk of the volume, if it is in a file.
    pub disk: Option<D>,
    /// One for each session, or the trail of an audit.
    pub sources: Vec<S>,
    /// One for each session.
    pub sinks: Vec<K>,
    /// Where the report goes.
    pub report: K,
}

/// A run that has ended: its status, what was outside it, handed back, and what it came to.
#[derive(Drop)]
pub struct Ended<D, S, K> {
    /// The status of the program.
    pub status: u8,
    pub disk: Option<D>,
    pub sources: Vec<S>,
    pub sinks: Vec<K>,
    pub report: K,
    /// The events of a service.
    pub trail: Trail,
    /// What the report says, as far as its sink took it.
    pub told: Report,
    /// Why the core stopped, and what ended the collector.
    pub ending: Ending,
}

/// Returns the status of a run whose report was written, or was not.
fn status_of(written: bool, cause: Cause) -> u8
    ensures { result ≡ status_at_end written cause }
{
    match cause {
        Cause::Nothing | Cause::Memory | Cause::Page(_) | Cause::Legal { .. } | Cause::Sound { .. }
            if !written => { 5 }
        cause => cause.status(),
    }
}

/// Makes a fresh volume on a disk, and returns the cause to report.
fn make_volume<D: Disk>(disk: &mut D, seed: u64) -> Cause
    requires whole { D.blocks disk.old % 64 ≡ 0 }
    requires some { 1 ≤ D.blocks disk.old }
    requires most { D.blocks disk.old ≤ 64 * 65536 }
    ensures made { (format : Format) → format.seed ≡ seed → D.blocks disk.old ≡ 64 * format.cylinders
        → MakesVolume D.Disk format result disk.old disk.new }
    ensures told { (result ≡ Cause.Nothing) ⊎ ((result ≡ Cause.Disk None) × Rose (D.faults disk.old)
        (D.faults disk.new)) }
{
    match Core::format(disk, seed) {
        Ok(()) => Cause::Nothing,
        Err(Failed) => Cause::Disk(None),
    }
}

/// Returns the first line of the trail, if a trace is asked for.
fn trace_of(command: Option<Command<'_>>) -> Option<Opening>
    ensures { result ≡ first_line (asked_of command.entry) }
{
    match command {
        Some(Command::Play(play)) if play.traced => Some(Opening {
            cylinders: play.cylinders,
            seed: play.seed,
        }),
        _ => None,
    }
}

/// Does what is asked for, on the volume of the disk, if there is one.
///
/// Returns what the run came to, and the disk.
fn do_asked<D: Disk + Send, S: Source, K: Sink + Send, G: Gate + Sync, R: Threads + Wait + Sync>(
    rt: &R,
    alloc: Global,
    gate: &G,
    command: Option<Command<'_>>,
    disk: Option<D>,
    sources: &mut Vec<S>,
    sinks: &mut Vec<K>,
) -> (Played, Option<D>)
    requires disk { HasDisk (asked_of command) (option_map D.blocks disk) }
    requires places { HasPlaces (asked_of command) (length sources.old.items) (length sinks.old.items) }
    ensures disk { OnDisk D.Disk (asked_of command.entry) result.0.report result.0.ending result.0.trail.events
        result.0.trail.moments disk result.1 }
    ensures asks { AsksServer (asked_of command.entry) (ground_of D.Disk (asked_of command.entry) disk)
        (record {
          disk = option_map D.faults disk;
          sources = map S.supply sources.old.items;
          sinks = map K.intake sinks.old.items;
        })
        (record {
          disk = option_map D.faults result.1;
          sources = map S.supply sources.new.items;
          sinks = map K.intake sinks.new.items;
        })
        result.0.report result.0.ending result.0.trail.events }
    ensures names { IfNames D.Disk (asked_of command.entry) (ground_of D.Disk (asked_of command.entry) disk)
        (record {
          disk = option_map D.faults disk;
          sources = map S.supply sources.old.items;
          sinks = map K.intake sinks.old.items;
        })
        (record {
          disk = option_map D.faults result.1;
          sources = map S.supply sources.new.items;
          sinks = map K.intake sinks.new.items;
        })
        result.0.report result.0.ending disk result.1 }
    ensures talks { IfTalks D.Disk (asked_of command.entry) (ground_of D.Disk (asked_of command.entry) disk)
        (record {
          disk = option_map D.faults disk;
          sources = map S.supply sources.old.items;
          sinks = map K.intake sinks.old.items;
        })
        (record {
          disk = option_map D.faults result.1;
          sources = map S.supply sources.new.items;
          sinks = map K.intake sinks.new.items;
        })
        result.0.report result.0.ending result.0.trail.events result.0.trail.moments disk result.1 }
{
    match (command, disk) {
        (None, disk) => (nothing(alloc, Cause::Words), disk),
        (Some(Command::Page(page)), disk) => (nothing(alloc, Cause::Page(page)), disk),
        (Some(Command::Format(format)), Some(mut disk)) => {
            let cause = make_volume(&mut disk, format.seed);
            (nothing(alloc, cause), Some(disk))
        }
        (Some(Command::Audit(_)), disk) => (nothing(alloc, audit_only(alloc, sources)), disk),
        (Some(Command::Check(_volume)), Some(mut disk)) => {
            let told = check_volume(rt, alloc, &mut disk);
            (unserved(alloc, told), Some(disk))
        }
        (Some(Command::Mend(_volume)), Some(mut disk)) => {
            let told = mend_volume(rt, alloc, &mut disk);
            (unserved(alloc, told), Some(disk))
        }
        (Some(Command::Play(asked)), disk) => (play(rt, alloc, gate, &asked, sources, sinks), disk),
        (Some(Command::Spin(asked)), disk) => (spin(rt, alloc, gate, asked), disk),
        (Some(Command::Serve(asked)), Some(disk)) => {
            let (played, disk) = serve_cached(rt, alloc, gate, &asked, disk, sources, sinks);
            (played, Some(disk))
        }
        (Some(Command::Dirs(asked)), Some(disk)) => {
            let (played, disk) = serve_dirs(alloc, &asked, disk, sources, sinks);
            (played, Some(disk))
        }
        (Some(Command::Converse(asked)), Some(disk)) => {
            let (played, disk) = converse(alloc, &asked, disk, sources, sinks);
            (played, Some(disk))
        }
        (
            Some(
                Command::Format(_)
                | Command::Check(_)
                | Command::Mend(_)
                | Command::Serve(_)
                | Command::Dirs(_)
                | Command::Converse(_),
            ),
            None,
        ) => unreachable!(),
    }
}

/// Returns the first line of the trail that is printed in place of a report, if one is.
fn printed(trace: Option<Opening>, counts: Option<Counts>) -> Option<Opening>
    ensures { (asked : Asked) → trace ≡ first_line asked → result ≡ printed_line asked counts }
{
    match counts {
        Some(_) => trace,
        None => None,
    }
}

/// Writes the report: its lines or, for a trace that was served, the trail. Returns how it was written.
fn write_report<K: Sink>(
    alloc: Global,
    trace: Option<Opening>,
    told: &Report,
    trail: &Trail,
    sink: &mut K,
) -> Written
    ensures { (asked : Asked) → trace ≡ first_line asked → IsWritten asked told.now trail.now.events
        (K.intake sink.old) (K.intake sink.new) result }
{
    match printed(trace, told.counts) {
        Some(opening) => write_trail(alloc, opening, trail, told.cause, sink),
        None => Written {
            whole: told.write(sink).is_ok(),
            short: false,
        },
    }
}

/// Runs a command, and writes its report.
///
/// A command shows a page, makes, checks or mends a volume, audits a trail, serves sessions, named ones or those of a
/// spin, or lines of names, or answers a session as it asks. If there is no command, the words were of no form, and the
/// report says so.
///
/// What was outside is handed back in every case. If something failed, the status says so.
pub fn top<D: Disk + Send, S: Source, K: Sink + Send, G: Gate + Sync, R: Threads + Wait + Sync>(
    rt: &R,
    alloc: Global,
    command: Option<Command<'_>>,
    bay: Bay<D, S, K>,
    gate: &G,
) -> Ended<D, S, K>
    requires disk { HasDisk (asked_of command) (option_map D.blocks bay.disk) }
    requires places { HasPlaces (asked_of command) (length bay.sources.items) (length bay.sinks.items) }
    ensures disk { OnDisk D.Disk (asked_of command.entry) result.told result.ending result.trail.events
        result.trail.moments bay.disk result.disk }
    ensures said { Says (asked_of command.entry) (ground_of D.Disk (asked_of command.entry) bay.disk)
        (before D.faults S.supply K.intake bay) (outside_after D.faults S.supply K.intake result) result.told
        result.status result.ending result.trail.events }
    ensures names { IfNames D.Disk (asked_of command.entry) (ground_of D.Disk (asked_of command.entry) bay.disk)
        (places_in (before D.faults S.supply K.intake bay))
        (places_in (outside_after D.faults S.supply K.intake result))
        result.told result.ending bay.disk result.disk }
    ensures talks { IfTalks D.Disk (asked_of command.entry) (ground_of D.Disk (asked_of command.entry) bay.disk)
        (places_in (before D.faults S.supply K.intake bay))
        (places_in (outside_after D.faults S.supply K.intake result))
        result.told result.ending result.trail.events result.trail.moments bay.disk result.disk }
{
    cfs_workload::laws::scripts_have_so_many_lines();
    let Bay {
        disk,
        mut sources,
        mut sinks,
        mut report,
    } = bay;
    let (played, disk) = do_asked(rt, alloc, gate, command, disk, &mut sources, &mut sinks);
    let Played {
        report: told,
        trail,
        ending,
    } = played;
    let written = write_report(alloc, trace_of(command), &told, &trail, &mut report);
    Ended {
        status: status_of(written.whole, told.cause.at_last(written.short)),
        disk,
        sources,
        sinks,
        report,
        trail,
        told,
        ending,
    }
}
