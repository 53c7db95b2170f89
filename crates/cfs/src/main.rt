//! The Cambridge File Server.
//!
//! `cfs play CYLINDERS SEED COLLECTIONS IN OUT ..` serves 1 to 64 sessions on a new volume in memory, one for each pair
//! IN OUT: it writes a reply to OUT for each request of the file IN, and a report to standard output. `-` is a standard
//! stream. `cfs trace ..` does the same and reports the trail.
//!
//! `cfs format VOLUME CYLINDERS SEED` makes a volume in a file, and `cfs serve VOLUME SEED COLLECTIONS IN OUT ..`
//! serves it. `pair-format` and `pair-serve` do so on a file that keeps each block twice, for a device that may tear
//! blocks.
//!
//! `cfs check VOLUME` names each fault of a volume, and `cfs mend VOLUME` makes its maps anew. `cfs dirs VOLUME SEED IN
//! OUT` serves lines of names. `cfs converse VOLUME SEED EVERY IN OUT` answers the lines of one session as they come.
//! `cfs --help` and `cfs --version` print a page.
#![tactic(auto)]

mod known;
mod opening;

ghost use Rattle.std.specs.Prelude.{◌≡◌, ◌/◌, option_map};

use cfs_base::Disk;
use cfs_fakes::OpenGate;
use cfs_host::{FileDisk, FileSink};
use cfs_serve::{Bay, Cause, Command, Ended, Path, top};
use opening::{AnySink, AnySource, open, tell_starved};
use pair_disk::PairDisk;
use std::alloc::Global;
use std::env;
use std::fs::{self, File};
use std::io::{self, ErrorKind};
use std::process::ExitCode;
use std::sync::Wait;
use std::thread::Threads;

/// Returns the words after the program's name.
///
/// If one of them is no text there are none, and that is no form of words. Returns `None` for want of memory.
fn words(rt: &HostRuntime, alloc: Global) -> Option<Vec<String>> {
    let mut words = Vec::new(alloc);
    let told = match env::args(rt) {
        Ok(told) => told,
        Err(error) if error.kind() == ErrorKind::OutOfMemory => return None,
        Err(_) => return Some(words),
    };
    for word in told.skip(1) {
        words.push(word).ok()?;
    }
    Some(words)
}

/// Returns the disk of pairs of blocks in a file, if there is a file.
fn paired(file: Option<FileDisk>) -> Option<PairDisk<FileDisk>>
    ensures { option_map ⟦<PairDisk<FileDisk> as Disk>⟧.blocks result ≡ option_map
        (λ f. ⟦<FileDisk as Disk>⟧.blocks f / 3) file }
{
    match file {
        Some(file) => Some(PairDisk::new(file)),
        None => None,
    }
}

/// Empties the files of replies that got none. Returns whether all could be emptied.
fn empty_all(sinks: &mut [AnySink]) -> bool {
    let mut all = true;
    for sink in sinks.iter_mut() {
        all = sink.empty().is_ok() && all;
    }
    all
}

/// Does what is left to do once a run has ended, and returns the status.
///
/// A volume that could not be made is removed. If the words are of no form, standard error says where the forms are.
/// If sessions were served, the files of replies that got none are emptied: if one can't be, the status is 5 in place
/// of 0.
fn finish<D: Disk + Drop>(
    rt: &HostRuntime,
    made: &Option<Path>,
    mut ended: Ended<D, AnySource, AnySink>,
) -> u8 {
    match (made, ended.told.cause) {
        (Some(path), Cause::Disk(_)) => {
            let _ = fs::remove_file(rt, path.as_str());
        }
        (_, Cause::Words) => {
            let _ = eprintln!(rt; "cfs: these words are of no form; cfs --help prints the forms");
        }
        _ => {}
    }
    if ended.told.counts.is_some() && !empty_all(&mut ended.sinks) && ended.status == 0 {
        return 5;
    }
    ended.status
}

/// Does what the words ask, in threads, and returns the status.
///
/// If memory is wanting for the words or the files, or a file can't be opened, nothing is run, and the error is the
/// status.
fn run<R: Threads + Wait + Sync>(rt: &HostRuntime, threads: &R, alloc: Global) -> Result<u8, u8> {
    let Some(words) = words(rt, alloc) else {
        return Err(tell_starved(rt));
    };
    let command = Command::parse(words.as_slice());
    let opened = open(rt, alloc, command)?;
    let Ok(report) = FileSink::named(rt, "-", rt.stdout()) else {
        unreachable!();
    };
    if opened.pair {
        let bay: Bay<PairDisk<FileDisk>, AnySource, AnySink> = Bay {
            disk: paired(opened.disk),
            sources: opened.sources,
            sinks: opened.sinks,
            report,
        };
        let ended = top(threads, alloc, command, bay, &OpenGate);
        return Ok(finish(rt, &opened.made, ended));
    }
    let bay: Bay<FileDisk, AnySource, AnySink> = Bay {
        disk: opened.disk,
        sources: opened.sources,
        sinks: opened.sinks,
        report,
    };
    let ended = top(threads, alloc, command, bay, &OpenGate);
    Ok(finish(rt, &opened.made, ended))
}

/// Three open files, so that none of the run's own takes the number of a standard stream that is closed.
///
/// Such a stream can then neither be read nor written.
#[derive(Drop)]
struct Held(File, File, File);

/// Opens `/` three times.
fn hold_streams(rt: &HostRuntime) -> io::Result<Held> {
    Ok(Held(fs::open(rt, "/")?, fs::open(rt, "/")?, fs::open(rt, "/")?))
}

/// Runs the program, and exits with its status.
fn main(rt: HostRuntime) -> ExitCode {
    let alloc = rt.alloc();
    let _held = match hold_streams(&rt) {
        Ok(held) => held,
        Err(why) => {
            let _ = println!(&rt; "cfs: cannot open /");
            let _ = eprintln!(&rt; "cfs: /: {why}");
            return ExitCode::from(10);
        }
    };
    match run(&rt, &rt, alloc) {
        Ok(status) => ExitCode::from(status),
        Err(status) => ExitCode::from(status),
    }
}
