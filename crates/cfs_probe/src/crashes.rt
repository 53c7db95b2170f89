//! How all images that a crash may leave read, beside the slow server before and after what was under way.
use crate::fault::Fault;
use crate::images::{cuts_at, readings_at, three_at, waiting};
use crate::twin::Past;
use cfs_fakes::MemoryDisk;
use std::alloc::Global;

/// The images of a moment that are opened.
#[derive(Clone, Copy)]
pub enum Opened {
    All,
    /// All, and those of their openings.
    AllAgain,
    /// Those of three sets of picks.
    Three,
}

/// How these images of a moment read.
#[derive(Clone, Copy, PartialEq, Eq)]
enum Phase {
    /// Each reads as before what is under way.
    Before,
    /// Each reads as before it or as after it.
    Either,
    /// Each reads as after it.
    After,
    /// One reads as neither.
    Neither,
}

impl Phase {
    fn of(found: &[String], before: &str, after: &str) -> Phase {
        if found.iter().all(|text| text.as_str() == before) {
            return Phase::Before;
        }
        if found.iter().all(|text| text.as_str() == after) {
            return Phase::After;
        }
        match found
            .iter()
            .all(|text| text.as_str() == before || text.as_str() == after)
        {
            true => Phase::Either,
            false => Phase::Neither,
        }
    }

    fn word(self) -> &'static str {
        match self {
            Phase::Before => " before",
            Phase::Either => " either",
            Phase::After => " after",
            Phase::Neither => " neither",
        }
    }
}

/// What was under way from one moment to another, and what a crash leaves before it and after it.
#[derive(Clone, Copy)]
struct Span<'a> {
    from: u64,
    to: u64,
    before: &'a str,
    after: &'a str,
}

/// Returns how the images of the moments of a span read, with a word where that changes.
fn course(alloc: Global, disk: &MemoryDisk, span: Span, opened: Opened) -> Result<String, Fault> {
    let mut words = String::new(alloc);
    let mut last = None;
    let mut waits = Vec::new(alloc);
    for at in span.from.saturating_add(1)..=span.to {
        let now = waiting(alloc, disk, at)?;
        // after a read all is as it was
        if now == waits {
            continue;
        }
        waits = now;
        let phase = phase_at(alloc, disk, at, waits.as_slice(), span, opened)?;
        if last != Some(phase) {
            words.push_str(phase.word())?;
        }
        last = Some(phase);
    }
    Ok(words)
}

fn phase_at(
    alloc: Global,
    disk: &MemoryDisk,
    at: u64,
    waits: &[u32],
    span: Span,
    opened: Opened,
) -> Result<Phase, Fault> {
    if matches!(opened, Opened::AllAgain) && !cuts_at(alloc, disk, at, waits)?.is_empty() {
        return Ok(Phase::Neither);
    }
    let found = match opened {
        Opened::Three => three_at(alloc, disk, at, waits)?,
        _ => readings_at(alloc, disk, at, waits)?,
    };
    Ok(Phase::of(found.as_slice(), span.before, span.after))
}

/// Returns the same for each event from this one on, which begins at this moment.
///
/// There is a line for each event of which some image reads otherwise than before.
pub fn crashes(
    alloc: Global,
    disk: &MemoryDisk,
    past: &[Past],
    states: &[String],
    (first, from): (usize, u64),
    opened: Opened,
) -> Result<String, Fault> {
    let mut out = String::new(alloc);
    let mut from = from;
    for (place, happened) in past.iter().enumerate().skip(first) {
        let (Some(before), Some(after)) = (states.get(place), states.get(place.saturating_add(1)))
        else {
            return Err(Fault::Place);
        };
        let span = Span {
            from,
            to: happened.end,
            before: before.as_str(),
            after: after.as_str(),
        };
        let words = course(alloc, disk, span, opened)?;
        put_course(&mut out, happened, words.as_str())?;
        from = happened.end;
    }
    if out.is_empty() {
        out.push_str("unchanged")?;
    }
    Ok(out)
}

fn put_course(out: &mut String, happened: &Past, words: &str) -> Result<(), Fault> {
    if words.is_empty() || words == " before" {
        return Ok(());
    }
    if !out.is_empty() {
        out.push_str("\n")?;
    }
    happened.event.put_name(out)?;
    write!(out, ":{words}")?;
    Ok(())
}
