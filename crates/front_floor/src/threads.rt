//! Turns made in threads.
ghost use Rattle.std.specs.Prelude.{◌≡◌, ℕ, ◌<◌, length, slice_index_or, All};
ghost use Rattle.front_floor.specs.Knows.{AreOf, HandleKnows, Ran};

use crate::handle::{WorkerHandle, WorkerHandles};
use crate::lock::TicketLock;
use cfs_base::{Gate, Logged};
use std::sync::Wait;
use std::thread;
use std::thread::Threads;

/// Makes the turns of each handle beside those of the others, with a thread for each handle.
///
/// If no thread can be started the caller does its work. Before each turn its worker passes the gate, which then gets
/// the number of entries in the log. A handle ends when its worker is done, or has no turn left.
pub fn run_workers<M: Logged + Send, G: Gate + Sync, R: Threads + Wait + Sync>(
    rt: &R,
    lock: &TicketLock<M>,
    gate: &G,
    handles: &mut WorkerHandles<M>,
)
    requires of { AreOf lock.now handles.old }
    ensures of { AreOf lock.now handles.new }
    ensures count { length handles.new.handles ≡ length handles.old.handles }
    ensures ran { (i : ℕ) (handle : HandleKnows M.Entry) → i < length handles.old.handles
        → Ran (slice_index_or handles.old.handles i handle) (slice_index_or handles.new.handles i handle) }
{
    run_all(rt, lock, gate, handles.handles.as_mut_slice());
}

/// Makes the turns of each of these handles in the same way.
fn run_all<M: Logged + Send, G: Gate + Sync, R: Threads + Wait + Sync>(
    rt: &R,
    lock: &TicketLock<M>,
    gate: &G,
    handles: &mut [WorkerHandle<M>],
)
    requires of { All (λ (handle : HandleKnows M.Entry). handle.table ≡ lock.now) handles.old }
    ensures count { length handles.new ≡ length handles.old }
    ensures ran { (i : ℕ) (handle : HandleKnows M.Entry) → i < length handles.old
        → Ran (slice_index_or handles.old i handle) (slice_index_or handles.new i handle) }
{
    let threads = handles.len();
    if threads > 0 {
        thread::for_each_mut(
            rt,
            handles,
            threads,
            &|_, handle: &mut WorkerHandle<M>|
                requires { handle.now.table ≡ lock.now }
                ensures { Ran handle.entry.now handle.exit.now }
            { run_worker(rt, lock, gate, handle) },
        );
    }
}

/// Makes the turns of one handle.
fn run_worker<M: Logged, G: Gate, R: Wait>(
    rt: &R,
    lock: &TicketLock<M>,
    gate: &G,
    handle: &mut WorkerHandle<M>,
)
    requires of { handle.old.table ≡ lock.now }
    ensures ran { Ran handle.old handle.new }
{
    let worker = handle.number();
    let mut turn: u64 = 0;
    while handle.left() > 0 {
        gate.pass(worker, turn);
        gate.told(worker, lock.status(handle));
        if lock.enter(rt, handle) {
            break;
        }
        turn = turn.wrapping_add(1);
    }
}
