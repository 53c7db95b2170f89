//! Checks for timing.
//!
//! `check_bench VOLUME COUNT` loads a volume, makes COUNT reports of it, and prints the microseconds of each, with
//! what was found. With a COUNT of 0 it recovers the volume, as `serve` does.
#![tactic(auto)]

use cfs_check::{Checked, Image, load, report};
use cfs_host::FileDisk;
use cfs_recover::recover;
use std::alloc::Global;
use std::process::ExitCode;
use std::thread::Threads;
use std::time::Instant;
use std::{env, io};

/// Returns the microseconds since a time, or 0 if there is no clock.
fn micros(rt: &HostRuntime, from: Option<Instant>) -> u64 {
    match from {
        None => 0,
        Some(from) => match from.elapsed(rt) {
            Ok(spent) => u64::try_from(spent.as_micros()).unwrap_or(0),
            Err(_) => 0,
        },
    }
}

/// Prints what was found, in a few words.
fn tell(rt: &HostRuntime, checked: &Checked, spent: u64) -> io::Result<()> {
    match checked {
        Checked::NotVolume => println!(rt; "report {spent} us: no volume"),
        Checked::Version { found } => println!(rt; "report {spent} us: version {found}"),
        Checked::Sound { objects, left } => {
            println!(rt; "report {spent} us: sound, {objects} objects, {left} left")
        }
        Checked::Faults(faults) => {
            println!(rt; "report {spent} us: {} faults", faults.as_slice().len())
        }
    }
}

/// Makes `count` reports.
fn measure<R: Threads + Sync>(
    rt: &HostRuntime,
    threads: &R,
    alloc: Global,
    image: &Image,
    count: u32,
) -> io::Result<()> {
    for _ in 0..count {
        let from = Instant::now(rt).ok();
        match report(threads, alloc, image) {
            Ok(checked) => tell(rt, &checked, micros(rt, from))?,
            Err(_) => println!(rt; "out of memory")?,
        }
    }
    Ok(())
}

/// Loads the volume and makes `count` reports, or recovers it.
fn run<R: Threads + Sync>(rt: &HostRuntime, threads: &R, path: &str, count: u32) -> io::Result<()> {
    let alloc = rt.alloc();
    let mut disk = FileDisk::existing(rt, path)?;
    let from = Instant::now(rt).ok();
    if count == 0 {
        let done = recover(alloc, &mut disk).is_ok();
        let spent = micros(rt, from);
        return println!(rt;
            "recovery {spent} us: {}",
            if done { "done" } else { "refused" }
        );
    }
    match load(alloc, &mut disk) {
        Err(fault) => println!(rt; "{fault}"),
        Ok(image) => {
            let spent = micros(rt, from);
            println!(rt; "load {spent} us of {} blocks", image.blocks())?;
            measure(rt, threads, alloc, &image, count)
        }
    }
}

fn main(rt: HostRuntime) -> ExitCode {
    let Ok(told) = env::args(&rt) else {
        return ExitCode::from(2);
    };
    let mut words = told.skip(1);
    let Some(path) = words.next() else {
        return ExitCode::from(0);
    };
    let count = match words.next() {
        Some(word) => word.as_str().parse::<u32>().unwrap_or(1),
        None => 1,
    };
    match run(&rt, &rt, path.as_str(), count) {
        Ok(()) => ExitCode::from(0),
        Err(_) => ExitCode::from(1),
    }
}
