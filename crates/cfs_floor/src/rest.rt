//! The turns that are left.
ghost use Rattle.std.specs.Prelude.{◌≡◌, ℕ, true};

use crate::floor::Floor;
use crate::workers::{run_workers, shares_of};
use cfs_base::{Gate, Machine};
use std::alloc::Global;
use std::sync::Wait;
use std::thread::Threads;

/// Makes all turns that are left, one worker after another. Each worker is done afterwards.
pub fn make_turns_left<M: Machine>(machine: &mut M)
    ensures done { (w : ℕ) → M.done machine.new w ≡ true }
    ensures workers { M.worker_count machine.new ≡ M.worker_count machine.old }
{
    for worker in 0..machine.workers() {
        while !machine.turn(worker) {}
    }
}

/// Makes all turns of a machine, each worker's in a thread, behind the gate.
///
/// Those that are left then are made one worker after another. If there is no memory for the shares, there are no
/// threads. Nothing is known of the returned machine but its type, and that each worker is done.
pub fn make_all_turns<M: Machine + Send, G: Gate + Sync, R: Threads + Wait + Sync>(
    rt: &R,
    alloc: Global,
    gate: &G,
    machine: M,
) -> M
    ensures { (w : ℕ) → M.done result w ≡ true }
{
    let mut machine = machine;
    if let Ok(mut shares) = shares_of(alloc, &machine) {
        let floor = Floor::new(machine);
        run_workers(rt, &floor, gate, shares.as_mut_slice());
        machine = floor.close();
    }
    make_turns_left(&mut machine);
    machine
}
