//! A core on a disk in memory, and what happens to it.
ghost use Rattle.std.specs.Prelude.{◌≡◌, None};

use crate::desk::Desk;
use crate::fault::Fault;
use crate::printed::{Said, owned};
use cfs_base::Session;
use cfs_core::{CollectFault, Core, Status, Step, Tidy, TidyFault};
use cfs_fakes::MemoryDisk;
use std::alloc::Global;

/// A core and its sessions' names.
pub type Service = Desk<Core<MemoryDisk>>;

/// How many collections may be called for.
const MOST_CALLED: u32 = 1_000_000;

/// What may happen to a core.
#[derive(Drop)]
pub enum Event {
    /// A session says a line.
    Ask { who: Session, line: String },
    /// A session leaves.
    Leave { who: Session },
    /// `more` collections are called for.
    Call { more: u32 },
    /// One part is made of what is left of a commit.
    Tidy,
    /// The collector makes a step, once nothing is left of a commit.
    Step,
}

impl Event {
    /// Appends its name. For what a session says that is the line.
    pub fn put_name(&self, out: &mut String) -> Result<(), Fault> {
        match self {
            Event::Ask { line, .. } => out.push_str(line.as_str())?,
            Event::Leave { who } => write!(out, "leave {who}")?,
            Event::Call { more } => write!(out, "call {more}")?,
            Event::Tidy => out.push_str("tidy")?,
            Event::Step => out.push_str("step")?,
        }
        Ok(())
    }
}

/// Lets an event happen to a core, and returns what is answered.
pub fn happens(service: &mut Service, alloc: Global, event: &Event) -> Result<Said, Fault> {
    match event {
        Event::Ask { who, line } => service.say(alloc, *who, line.as_str()),
        Event::Leave { who } => leaves(&mut service.server, alloc, *who),
        Event::Call { more } => is_called(&mut service.server, alloc, *more),
        Event::Tidy => tidies(&mut service.server, alloc),
        Event::Step => steps(&mut service.server, alloc),
    }
}

fn leaves(core: &mut Core<MemoryDisk>, alloc: Global, who: Session) -> Result<Said, Fault> {
    Ok(Said::of(match core.leave(who) {
        Ok(()) => owned(alloc, "left")?,
        Err(halt) => format!(in alloc; "halt {}", halt.moment)?,
    }))
}

fn is_called(core: &mut Core<MemoryDisk>, alloc: Global, more: u32) -> Result<Said, Fault> {
    if core.status().called > MOST_CALLED || more > MOST_CALLED {
        return Err(Fault::Spent);
    }
    core.call_for(more);
    Ok(Said::of(owned(alloc, "called")?))
}

fn tidies(core: &mut Core<MemoryDisk>, alloc: Global) -> Result<Said, Fault> {
    Ok(Said::of(match core.tidy() {
        Ok(Tidy::Idle) => owned(alloc, "Idle")?,
        Ok(Tidy::Step) => owned(alloc, "Step")?,
        Err(fault) => fault_text(alloc, fault_of(fault))?,
    }))
}

/// Carries out what is left of a commit, and then makes a step of the collector.
fn steps(core: &mut Core<MemoryDisk>, alloc: Global) -> Result<Said, Fault> {
    for _ in 0..u64::MAX {
        match core.tidy() {
            Ok(Tidy::Step) => {}
            Ok(Tidy::Idle) => return collects(core, alloc),
            Err(fault) => return Ok(Said::of(fault_text(alloc, fault_of(fault))?)),
        }
    }
    Err(Fault::Spent)
}

fn collects(core: &mut Core<MemoryDisk>, alloc: Global) -> Result<Said, Fault>
    requires left { core.old.space.left ≡ None }
{
    let made = core.collect(alloc);
    let free = core.status().free;
    Ok(Said::of(match made {
        Ok(step) => step_text(alloc, &step, free)?,
        Err(fault) => fault_text(alloc, fault)?,
    }))
}

/// Returns the fault of a step that is reported in the same words.
fn fault_of(fault: TidyFault) -> CollectFault {
    match fault {
        TidyFault::Disk { doubt } => CollectFault::Disk { doubt },
        TidyFault::Damaged { damage, moment } => CollectFault::Damaged { damage, moment },
        TidyFault::Stopped { moment } => CollectFault::Stopped { moment },
    }
}

fn step_name(step: &Step) -> &'static str {
    match step {
        Step::Idle => "Idle",
        Step::Began => "Began",
        Step::Took => "Took",
        Step::Scanned => "Scanned",
        Step::Condemned { .. } => "Condemned",
        Step::Swept => "Swept",
        Step::Finished => "Finished",
    }
}

/// Returns the name of a step, how many objects it condemned, if it did, and how many blocks are Free after it.
fn step_text(alloc: Global, step: &Step, free: u32) -> Result<String, Fault> {
    let mut text = owned(alloc, step_name(step))?;
    if let Step::Condemned { ids } = step {
        write!(text, "({})", ids.as_slice().len())?;
    }
    write!(text, " {free}")?;
    Ok(text)
}

/// Returns why a step was not made.
///
/// In `no disk` without a moment all is as it was.
fn fault_text(alloc: Global, fault: CollectFault) -> Result<String, Fault> {
    let (mut text, at) = match fault {
        CollectFault::Memory => (owned(alloc, "no memory")?, None),
        CollectFault::Disk { doubt } => (owned(alloc, "no disk")?, doubt),
        CollectFault::Damaged { moment, .. } => (owned(alloc, "no damaged")?, Some(moment)),
        CollectFault::Stopped { moment } => (owned(alloc, "no stopped")?, Some(moment)),
    };
    if let Some(at) = at {
        write!(text, " {at}")?;
    }
    Ok(text)
}

/// Returns a status as one line.
pub fn status_text(alloc: Global, status: &Status) -> Result<String, Fault> {
    let mut text = format!(in alloc;
        "objects {} grants {} free {} called {} finished {}",
        status.objects, status.grants, status.free, status.called, status.finished
    )?;
    if status.unfinished > 0 {
        write!(text, " unfinished {}", status.unfinished)?;
    }
    if status.running {
        text.push_str(" running")?;
    }
    if let Some(moment) = status.stopped {
        write!(text, " stopped {moment}")?;
    }
    Ok(text)
}
