//! Turns made in threads.
ghost use Rattle.std.specs.Prelude.{◌≡◌, ℕ, ◌<◌, IfOk, length, slice_index_or};
ghost use Rattle.cfs_floor.specs.Shares.{IsRest, shares_from};
ghost use Rattle.cfs_floor.specs.declared.workers.Share.{Share};

use crate::floor::Floor;
use cfs_base::{Gate, Machine, NoMemory};
use std::alloc::Global;
use std::sync::Wait;
use std::thread;
use std::thread::Threads;

/// How many turns a worker is to make at most.
#[derive(Clone, Copy, Debug)]
pub struct Share {
    pub worker: u32,
    pub left: u64,
}

/// Makes a share for each worker of a machine, of the turns that it has left.
pub fn shares_of<M: Machine>(alloc: Global, machine: &M) -> Result<Vec<Share>, NoMemory>
    ensures { IfOk result (λ shares. shares.items ≡ shares_from (M.left machine.now) (M.worker_count machine.now)) }
{
    let mut shares = Vec::new(alloc);
    for worker in 0..machine.workers() {
        shares.push(Share {
            worker,
            left: machine.turns_left(worker),
        })?;
    }
    Ok(shares)
}

/// Makes the turns of each share beside those of the others, with a thread for each share.
///
/// If no thread can be started the caller does its work. Before each turn its worker passes the gate. A share ends
/// when its worker is done, or has no turn left.
pub fn run_workers<M: Machine + Send, G: Gate + Sync, R: Threads + Wait + Sync>(
    rt: &R,
    floor: &Floor<M>,
    gate: &G,
    turns: &mut [Share],
)
    ensures { (i : ℕ) (share : Share) → i < length turns.old
        → IsRest (slice_index_or turns.old i share) (slice_index_or turns.new i share) }
{
    let threads = turns.len();
    if threads > 0 {
        thread::for_each_mut(
            rt,
            turns,
            threads,
            &|_, share| {
                run_share(rt, floor, gate, share);
            },
        );
    }
}

/// Makes the turns of one share.
fn run_share<M: Machine, G: Gate, R: Wait>(rt: &R, floor: &Floor<M>, gate: &G, share: &mut Share)
    ensures { IsRest share.old share.new }
{
    let worker = share.worker;
    let mut turn = 0;
    while share.left > 0 {
        share.left -= 1;
        gate.pass(worker, turn);
        turn += 1;
        if floor.enter(rt, worker) {
            break;
        }
    }
}
