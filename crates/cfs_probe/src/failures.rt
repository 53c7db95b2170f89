//! Each call of the disk that fails while all that happened is done again.
use crate::desk::Desk;
use crate::fault::Fault;
use crate::images::{reading, three_at, waiting};
use crate::printed::owned;
use crate::service::{Service, happens};
use crate::twin::Past;
use cfs_core::Core;
use cfs_fakes::MemoryDisk;
use std::alloc::Global;

/// The volume of a trial.
#[derive(Clone, Copy)]
pub struct Plan {
    pub cylinders: u32,
    pub seed: u64,
}

/// Makes a fresh volume on a disk that records, and fails at this call.
pub fn formatted(alloc: Global, plan: Plan, fails: Option<u64>) -> Result<MemoryDisk, Fault> {
    if plan.cylinders == 0 || plan.cylinders > 1024 {
        return Err(Fault::Words);
    }
    let mut calls = Vec::new(alloc);
    if let Some(call) = fails {
        calls.push(call)?;
    }
    let mut disk = MemoryDisk::recording(alloc, 64 * plan.cylinders, calls)?;
    Core::format(&mut disk, plan.seed)?;
    Ok(disk)
}

/// Opens a core on a volume, with no names.
pub fn open(alloc: Global, disk: MemoryDisk, seed: u64) -> Result<Service, (Fault, MemoryDisk)> {
    match Core::open(alloc, disk, seed) {
        Ok(core) => {
            let root = core.root();
            Ok(Desk::new(alloc, core, root))
        }
        Err(fault) => Err((Fault::Volume(fault.why), fault.disk)),
    }
}

/// How it went: the events that were done, and whether all was as it must be.
#[derive(Clone, Copy)]
struct Redone {
    events: usize,
    is_right: bool,
}

/// Does all again while the call at this moment fails.
///
/// An event that was refused for it is done a second time, and answers as before. Else the core stops within one.
fn redo(service: &mut Service, alloc: Global, past: &[Past], call: u64) -> Result<Redone, Fault> {
    let mut refused = 0u32;
    let mut is_same = true;
    for (events, happened) in past.iter().enumerate() {
        let mut said = happens(service, alloc, &happened.event)?;
        if said.text.as_str() == "no disk" {
            refused = refused.saturating_add(1);
            said = happens(service, alloc, &happened.event)?;
        }
        if service.server.status().stopped.is_some() {
            let is_right = is_same && refused == 0 && is_still(&mut service.server, call);
            return Ok(Redone { events, is_right });
        }
        is_same = is_same && said.text == happened.text;
    }
    let wanted = (call < service.server.moment()) as u32;
    Ok(Redone {
        events: past.len(),
        is_right: is_same && refused == wanted,
    })
}

/// Returns whether a core stopped at this call, and makes no further one.
fn is_still(core: &mut Core<MemoryDisk>, call: u64) -> bool {
    let now = core.moment();
    let is_refused = core.tidy().is_err();
    let is_left = core.leave(0).is_ok();
    is_refused && is_left && core.moment() == now && core.status().stopped == Some(call)
}

/// Does the same on a volume of its own, and returns whether all was right.
///
/// It is `None` if all was done before that call.
fn fail_at(
    alloc: Global,
    plan: Plan,
    call: u64,
    past: &[Past],
    states: &[String],
) -> Result<Option<bool>, Fault> {
    let mut service = match open(alloc, formatted(alloc, plan, Some(call))?, plan.seed) {
        Ok(service) => service,
        Err((why, _)) => return Err(why),
    };
    let redone = redo(&mut service, alloc, past, call)?;
    let now = service.server.moment();
    if now <= call {
        return Ok(None);
    }
    let found = left(alloc, service.server.into_disk(), now)?;
    Ok(Some(redone.is_right && may_read(found.as_slice(), states, redone.events)))
}

/// Returns whether each is the state after `events` events, or after the next one.
fn may_read(found: &[String], states: &[String], events: usize) -> bool {
    found.iter().all(|text| states
        .iter()
        .skip(events)
        .take(2)
        .any(|state| state == text))
}

/// Returns what the disk reads as, and what a crash leaves of it now by three sets of picks.
fn left(alloc: Global, disk: MemoryDisk, now: u64) -> Result<Vec<String>, Fault> {
    let waits = waiting(alloc, &disk, now)?;
    let mut found = three_at(alloc, &disk, now, waits.as_slice())?;
    found.push(reading(alloc, disk)?)?;
    Ok(found)
}

/// Lets each call fail since the opening, which ended at this moment.
///
/// Returns `right`, or the first call for which something is not.
pub fn failures(
    alloc: Global,
    plan: Plan,
    opened: u64,
    past: &[Past],
    states: &[String],
) -> Result<String, Fault> {
    for call in opened..u64::MAX {
        match fail_at(alloc, plan, call, past, states)? {
            Some(true) => {}
            Some(false) => return Ok(format!(in alloc; "wrong at {call}")?),
            None if call == opened => break,
            None => return owned(alloc, "right"),
        }
    }
    owned(alloc, "no call")
}
