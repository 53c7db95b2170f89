//! All turns of a machine.
ghost use Rattle.std.specs.Prelude.{◌≡◌, ℕ, ◌-◌, ◌<◌, ◌^◌, true, length, slice_index, sum, IfErr, IfOk};

use crate::lock::{LockFault, TicketLock, Workplace};
use crate::threads::run_workers;
use cfs_base::{Gate, Logged, NoMemory};
use cfs_floor::make_turns_left;
use std::alloc::Global;
use std::sync::Wait;
use std::thread::Threads;

/// Returns the turns that each worker of a machine has left, one worker after another.
fn budgets_of<M: Logged>(alloc: Global, machine: &M) -> Result<Vec<u64>, NoMemory>
    ensures count { IfOk result (λ b. length b.items ≡ M.worker_count machine.now) }
    ensures each { IfOk result (λ b. (w : ℕ) → w < M.worker_count machine.now
        → slice_index b.items w ≡ M.left machine.now w) }
{
    let mut budgets = Vec::new(alloc);
    'workers: for worker in 0..machine.workers() {
        budgets.push(machine.turns_left(worker))?;
    }
    Ok(budgets)
}

/// Returns whether a lock can deal these budgets.
fn can_deal(budgets: &[u64]) -> bool
    ensures some { result ≡ true → 0 < length budgets.now }
    ensures few { result ≡ true → length budgets.now < 2 ^ 32 }
    ensures sum { result ≡ true → sum budgets.now < 2 ^ 64 - 1 }
    ensures all { 0 < length budgets.now → length budgets.now < 2 ^ 32 → sum budgets.now < 2 ^ 64 - 1
        → result ≡ true }
{
    let mut room = u64::MAX - 1;
    for left in budgets {
        if *left > room {
            return false;
        }
        room -= *left;
    }
    0 < budgets.len() && budgets.len() < 1 << 32
}

/// Makes turns of a machine, each worker's in a thread.
///
/// It makes none if there is no worker, or if all together have 2^64 - 1 turns or more.
fn make_turns_beside<M: Logged + Send, G: Gate + Sync, R: Threads + Wait + Sync>(
    rt: &R,
    alloc: Global,
    gate: &G,
    machine: M,
) -> Result<M, LockFault<M>>
    ensures machine { IfErr result (λ fault. fault.machine ≡ machine) }
{
    let Ok(budgets) = budgets_of(alloc, &machine) else {
        return Err(LockFault { machine });
    };
    if !can_deal(budgets.as_slice()) {
        return Ok(machine);
    }
    match TicketLock::new(alloc, machine, budgets.as_slice()) {
        Ok(Workplace { lock, mut handles }) => {
            run_workers(rt, &lock, gate, &mut handles);
            Ok(lock.close(handles))
        }
        Err(fault) => Err(fault),
    }
}

/// Makes all turns of a machine, each worker's in a thread, behind the gate.
///
/// Those that are left then are made one worker after another. Nothing is known of the returned machine but its type,
/// and that each worker is done. Fails only for want of memory, and then no turn was made.
pub fn make_all_turns<M: Logged + Send, G: Gate + Sync, R: Threads + Wait + Sync>(
    rt: &R,
    alloc: Global,
    gate: &G,
    machine: M,
) -> Result<M, LockFault<M>>
    ensures done { IfOk result (λ made. (w : ℕ) → M.done made w ≡ true) }
    ensures machine { IfErr result (λ fault. fault.machine ≡ machine) }
{
    match make_turns_beside(rt, alloc, gate, machine) {
        Ok(mut machine) => {
            make_turns_left(&mut machine);
            Ok(machine)
        }
        Err(fault) => Err(fault),
    }
}
