//! Whole services: what is to be run, and what came of it.
ghost use Rattle.cfs_serve.specs.Whole.{FitsVolume, HasDisk, HasPlaces};
ghost use Rattle.cfs_serve.specs.Commands.{asked_of};
ghost use Rattle.std.specs.Prelude.{◌≡◌, Some, option_map, true};

use crate::sink::{ALL, Taking, TrialSink};
use cfs_base::Disk;
use cfs_fakes::{Hold, HoldGate, MemorySource};
use cfs_serve::{Bay, Command, Ended, Volume, top};
use cfs_trail::Trail;
use std::alloc::{AllocError, Global};
use std::process::Abort;
use std::sync::Wait;
use std::test::Fail;
use std::thread::Threads;
use ufs_model::Event;

/// A session: its request lines, the call at which its source fails, and how its sink takes.
#[derive(Clone, Copy)]
pub struct Seat<'a> {
    pub lines: &'a str,
    pub source_fails: u64,
    pub sink: Taking,
}

/// Returns a session with these lines, whose source and sink don't fail.
pub fn session(lines: &str) -> Seat<'_> {
    Seat {
        lines,
        source_fails: u64::MAX,
        sink: ALL,
    }
}

/// What is to be run: the words before those of the sessions, the sessions, and how the report's sink takes.
#[derive(Clone, Copy)]
pub struct Service<'a> {
    pub words: &'a [&'a str],
    pub seats: &'a [Seat<'a>],
    pub report: Taking,
}

/// Returns a service with these words and sessions, whose report's sink doesn't fail.
pub fn ask_for<'a>(words: &'a [&'a str], seats: &'a [Seat<'a>]) -> Service<'a> {
    Service {
        words,
        seats,
        report: ALL,
    }
}

/// What came of a run: its status, the report and the replies as far as they were taken, and the events.
#[derive(Drop)]
pub struct Came {
    pub status: u8,
    pub report: Vec<u8>,
    pub replies: Vec<Vec<u8>>,
    /// A letter for each event: `u` unread, `a` asked, `l` left, `b` began, `v` vanished, `f` finished, `h` halted.
    pub events: Vec<u8>,
    /// The moment at which each event was recorded.
    pub moments: Vec<u64>,
}

impl Came {
    /// Returns the replies to the first session.
    pub fn first(&self) -> &[u8] {
        match self.replies.first() {
            Some(replies) => replies.as_slice(),
            None => b"no session",
        }
    }

    /// Returns how many lines had been answered by this moment.
    pub fn answered_by(&self, at: u64) -> usize {
        let mut lines = 0usize;
        for (event, moment) in self.events.iter().zip(self.moments.iter()) {
            if *event == b'a' && *moment <= at {
                lines = lines.saturating_add(1);
            }
        }
        lines
    }
}

/// Returns the hold by which before this turn the worker waits until the other worker has finished that turn.
pub fn hold(worker: u32, turn: u64, until_worker: u32, until_turn: u64) -> Hold {
    Hold {
        worker,
        turn,
        until_worker,
        until_turn,
    }
}

/// Makes a gate with these holds, each of which looks at most a hundred million times.
pub fn gate_of(alloc: Global, holds: &[Hold]) -> Result<HoldGate, Fail> {
    let mut copies = Vec::new(alloc);
    for hold in holds {
        copies.push(*hold)?;
    }
    Ok(HoldGate::new(alloc, copies, 100_000_000)?)
}

fn words_of(alloc: Global, service: &Service<'_>) -> Result<Vec<String>, AllocError> {
    let mut words = Vec::new(alloc);
    for word in service.words {
        words.push(String::from_str(alloc, word)?)?;
    }
    for _ in service.seats {
        words.push(String::from_str(alloc, "in")?)?;
        words.push(String::from_str(alloc, "out")?)?;
    }
    Ok(words)
}

fn sources_of(alloc: Global, seats: &[Seat<'_>]) -> Result<Vec<MemorySource>, AllocError> {
    let mut sources = Vec::new(alloc);
    for seat in seats {
        let mut fails = Vec::new(alloc);
        fails.push(seat.source_fails)?;
        let lines = Vec::from_slice(alloc, seat.lines.as_bytes())?;
        sources.push(MemorySource::new(lines, fails))?;
    }
    Ok(sources)
}

fn sinks_of(alloc: Global, seats: &[Seat<'_>]) -> Result<Vec<TrialSink>, AllocError> {
    let mut sinks = Vec::new(alloc);
    for seat in seats {
        sinks.push(TrialSink::new(alloc, seat.sink))?;
    }
    Ok(sinks)
}

/// Returns how many blocks a disk has, if there is one.
fn blocks_of<D: Disk>(disk: &Option<D>) -> Option<u32>
    ensures { result ≡ option_map D.blocks disk.now }
{
    match disk {
        Some(disk) => Some(disk.blocks()),
        None => None,
    }
}

/// Returns whether a disk of this number of blocks is one for this volume. For no volume there must be no disk.
fn is_for(volume: &Option<Volume>, blocks: Option<u32>) -> bool
    ensures { result ≡ true → FitsVolume volume.now blocks }
{
    match (volume, blocks) {
        (None, None) => true,
        (Some(Volume::Existing { path: _ }), Some(_)) => true,
        (Some(Volume::Fresh { path: _, cylinders }), Some(blocks)) => {
            u64::from(blocks) == 64 * u64::from(*cylinders)
        }
        _ => false,
    }
}

/// Returns the command of words that have a form.
///
/// They name this number of sources and of sinks, and a volume for such a disk, or none if there is no disk.
pub fn expect_form<'a>(
    rt: &impl Abort,
    alloc: Global,
    words: &'a [String],
    blocks: Option<u32>,
    sources: usize,
    sinks: usize,
) -> Command<'a>
    ensures disk { HasDisk (asked_of (Some result)) blocks }
    ensures places { HasPlaces (asked_of (Some result)) sources sinks }
{
    let Some(command) = Command::parse(words) else {
        panic!(rt; "the words are of no form");
    };
    let Ok(named) = command.files(alloc) else {
        panic!(rt; "memory is wanting");
    };
    let fits = is_for(&named.volume, blocks);
    assert!(rt; fits);
    assert_eq!(rt; named.sources.as_slice().len(), sources);
    assert_eq!(rt; named.sinks.as_slice().len(), sinks);
    command
}

fn letter(event: &Event) -> u8 {
    match event {
        Event::Unread { .. } => b'u',
        Event::Ask { .. } => b'a',
        Event::Leave { .. } => b'l',
        Event::Began => b'b',
        Event::Vanish { .. } => b'v',
        Event::Finished => b'f',
        Event::Halted { .. } => b'h',
    }
}

fn events_of(alloc: Global, trail: &Trail) -> Result<Vec<u8>, AllocError> {
    let mut events = Vec::new(alloc);
    for at in 0..trail.len() {
        events.push(letter(trail.event(at)))?;
    }
    Ok(events)
}

fn moments_of(alloc: Global, trail: &Trail) -> Result<Vec<u64>, AllocError> {
    let mut moments = Vec::new(alloc);
    for at in 0..trail.len() {
        moments.push(trail.moment(at))?;
    }
    Ok(moments)
}

fn came_of<D>(
    alloc: Global,
    ended: &Ended<D, MemorySource, TrialSink>,
) -> Result<Came, AllocError> {
    let mut replies = Vec::new(alloc);
    for sink in &ended.sinks {
        replies.push(Vec::from_slice(alloc, &sink.taken)?)?;
    }
    Ok(Came {
        status: ended.status,
        report: Vec::from_slice(alloc, &ended.report.taken)?,
        replies,
        events: events_of(alloc, &ended.trail)?,
        moments: moments_of(alloc, &ended.trail)?,
    })
}

/// Does what the words ask, which have a form, behind this gate, on the volume of this disk if there is one.
pub fn serve<D: Disk + Send + Drop>(
    rt: &(impl Abort + Threads + Wait + Sync),
    alloc: Global,
    gate: &HoldGate,
    disk: &mut Option<D>,
    service: &Service<'_>,
) -> Result<Came, Fail> {
    let words = words_of(alloc, service)?;
    let sources = sources_of(alloc, service.seats)?;
    let sinks = sinks_of(alloc, service.seats)?;
    let blocks = blocks_of(disk);
    let command = expect_form(rt, alloc, &words, blocks, sources.len(), sinks.len());
    let bay = Bay {
        disk: disk.take(),
        sources,
        sinks,
        report: TrialSink::new(alloc, service.report),
    };
    let ended = top(rt, alloc, Some(command), bay, gate);
    let came = came_of(alloc, &ended)?;
    *disk = ended.disk;
    Ok(came)
}

/// Does the same with nobody held back.
pub fn play<D: Disk + Send + Drop>(
    rt: &(impl Abort + Threads + Wait + Sync),
    alloc: Global,
    disk: &mut Option<D>,
    service: &Service<'_>,
) -> Result<Came, Fail> {
    let gate = gate_of(alloc, &[])?;
    serve(rt, alloc, &gate, disk, service)
}
