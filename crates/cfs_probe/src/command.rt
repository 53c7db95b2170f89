//! Command lines.
use crate::crashes::Opened;
use crate::failures::Plan;
use crate::fault::Fault;
use crate::printed::owned;
use crate::probe::Probe;
use crate::service::{Event, status_text};
use cfs_script::number_of;
use std::alloc::Global;

/// How many letters a line that a session says may have, once each word `HH*N` is written out.
const MOST_SPREAD: u64 = 16_384;

/// Returns the first word of a line, and what follows it.
fn split(line: &str) -> (&str, &str) {
    match line.split_once(' ') {
        Some((word, rest)) => (word, rest),
        None => (line, ""),
    }
}

fn number(word: &str) -> Result<u64, Fault> {
    match number_of(word.as_bytes()) {
        Some(number) => Ok(number),
        None => Err(Fault::Words),
    }
}

fn small(word: &str) -> Result<u32, Fault> {
    match u32::try_from(number(word)?) {
        Ok(number) => Ok(number),
        Err(_) => Err(Fault::Words),
    }
}

/// Returns the line with each word `HH*N` as N times these digits, and with this number in the place of each word
/// `#`.
fn spread(alloc: Global, line: &str, place: u64) -> Result<String, Fault> {
    let mut out = String::new(alloc);
    for (at, word) in line.split(' ').enumerate() {
        if at > 0 {
            out.push(' ')?;
        }
        match word.split_once('*') {
            Some((digits, count)) => put_often(&mut out, digits, number(count)?)?,
            None if word == "#" => write!(out, "{place}")?,
            None => out.push_str(word)?,
        }
    }
    Ok(out)
}

fn put_often(out: &mut String, digits: &str, count: u64) -> Result<(), Fault> {
    for _ in 0..count.min(MOST_SPREAD) {
        out.push_str(digits)?;
    }
    Ok(())
}

fn format(probe: &mut Probe, alloc: Global, line: &str) -> Result<String, Fault> {
    let (cylinders, seed) = split(line);
    let plan = Plan {
        cylinders: small(cylinders)?,
        seed: number(seed)?,
    };
    probe.format(alloc, plan)?;
    owned(alloc, "ok")
}

/// Lets a session say a line.
fn ask(probe: &mut Probe, alloc: Global, line: &str, place: u64) -> Result<String, Fault> {
    let (who, asked) = split(line);
    let who = small(who)?;
    let line = spread(alloc, asked, place)?;
    probe.does(alloc, Event::Ask { who, line })
}

/// Does the same, and returns only `same` for what both answer alike.
fn both(probe: &mut Probe, alloc: Global, line: &str, place: u64) -> Result<String, Fault> {
    let told = ask(probe, alloc, line, place)?;
    match told.as_str().contains(" BESIDE ") {
        true => Ok(told),
        false => owned(alloc, "same"),
    }
}

/// Does the same for each of some numbers.
fn many(probe: &mut Probe, alloc: Global, line: &str) -> Result<String, Fault> {
    let (from, rest) = split(line);
    let (to, asked) = split(rest);
    for place in number(from)?..=number(to)? {
        let told = both(probe, alloc, asked, place)?;
        if told.as_str() != "same" {
            return Ok(told);
        }
    }
    owned(alloc, "same")
}

/// Carries out what is left of a commit. Returns `Idle`, or why that was refused.
fn settle(probe: &mut Probe, alloc: Global) -> Result<String, Fault> {
    for _ in 0..u64::MAX {
        let told = probe.does(alloc, Event::Tidy)?;
        if told.as_str() != "Step" {
            return Ok(told);
        }
    }
    Err(Fault::Spent)
}

/// Returns the number of Free blocks, once what is left of a commit is carried out.
fn free(probe: &mut Probe, alloc: Global) -> Result<String, Fault> {
    settle(probe, alloc)?;
    Ok(format!(in alloc; "{}", probe.status()?.free)?)
}

/// Makes steps of the collector.
fn collect(probe: &mut Probe, alloc: Global, line: &str) -> Result<String, Fault> {
    let mut out = String::new(alloc);
    for step in 0..number(line)? {
        if step > 0 {
            out.push_str(", ")?;
        }
        out.push_str(probe.does(alloc, Event::Step)?.as_str())?;
    }
    Ok(out)
}

/// Makes one step of the collector, of which only a refusal is reported.
fn step(probe: &mut Probe, alloc: Global) -> Result<String, Fault> {
    let told = probe.does(alloc, Event::Step)?;
    match told.as_str().starts_with("no ") {
        true => Ok(told),
        false => owned(alloc, "made"),
    }
}

/// Puts bytes into a block, by its number, a place in it, and the bytes.
fn poke(probe: &mut Probe, alloc: Global, line: &str) -> Result<String, Fault> {
    let (at, rest) = split(line);
    let (place, digits) = split(rest);
    let digits = spread(alloc, digits, 0)?;
    let Ok(bytes) = hex::decode(alloc, digits.as_str()) else {
        return Err(Fault::Words);
    };
    probe.poke(small(at)?, small(place)?, bytes.as_slice())?;
    owned(alloc, "ok")
}

fn compare(probe: &mut Probe, alloc: Global) -> Result<String, Fault> {
    let mine = probe.reading(alloc)?;
    let theirs = probe.twin_reading(alloc)?;
    match mine == theirs {
        true => owned(alloc, "same"),
        false => Ok(format!(in alloc; "{} BESIDE {}", mine.as_str(), theirs.as_str())?),
    }
}

/// Returns the readings, with a line for each.
fn readings(probe: &mut Probe, alloc: Global) -> Result<String, Fault> {
    let mut out = String::new(alloc);
    for (place, reading) in probe.readings(alloc)?.iter().enumerate() {
        if place > 0 {
            out.push_str("\n")?;
        }
        out.push_str(reading.as_str())?;
    }
    Ok(out)
}

/// Does what is done with no answer.
fn act(probe: &mut Probe, alloc: Global, word: &str, rest: &str) -> Result<String, Fault> {
    match word {
        "fail" => probe.fail(number(rest)?),
        "mark" => probe.mark()?,
        "unmount" => probe.unmount(),
        "reopen" => probe.reopen(alloc, number(rest)?)?,
        _ => return Err(Fault::Words),
    }
    owned(alloc, "ok")
}

/// Does what a line asks, and returns its lines.
pub fn answer(probe: &mut Probe, alloc: Global, line: &str) -> Result<String, Fault> {
    let (word, rest) = split(line);
    match word {
        "format" => format(probe, alloc, rest),
        "ask" => ask(probe, alloc, rest, 0),
        "both" => both(probe, alloc, rest, 0),
        "many" => many(probe, alloc, rest),
        "leave" => probe.does(alloc, Event::Leave { who: small(rest)? }),
        "call" => probe.does(alloc, Event::Call { more: small(rest)? }),
        "tidy" => probe.does(alloc, Event::Tidy),
        "settle" => settle(probe, alloc),
        "collect" => collect(probe, alloc, rest),
        "step" => step(probe, alloc),
        "status" => status_text(alloc, &probe.status()?),
        "free" => free(probe, alloc),
        "moment" => Ok(format!(in alloc; "{}", probe.moment()?)?),
        "reading" => probe.reading(alloc),
        "compare" => compare(probe, alloc),
        "block" => probe.block(alloc, small(rest)?),
        "poke" => poke(probe, alloc, rest),
        "crashes" => probe.crashes(alloc, Opened::All),
        "recrashes" => probe.crashes(alloc, Opened::AllAgain),
        "picks" => probe.crashes(alloc, Opened::Three),
        "readings" => readings(probe, alloc),
        "failures" => probe.failures(alloc),
        _ => act(probe, alloc, word, rest),
    }
}
