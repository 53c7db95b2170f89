//! Two workers on a lock.
ghost use Rattle.std.specs.Prelude.{◌≡◌, ◌≤◌};

use crate::{Diary, Watch};
use cfs_base::NoMemory;
use cfs_fakes::{OpenGate, Turns};
use front_floor::{LockFault, TicketLock, WorkerHandle, Workplace, make_all_turns, run_workers};
use std::alloc::Global;
use std::process::Abort;
use std::sync::Wait;

/// Workers 0 and 1 have three turns and two.
fn diary(alloc: Global, watch: Option<Watch>) -> Diary {
    Diary {
        turns: Turns {
            first: 3,
            second: 2,
        },
        entries: Vec::new(alloc),
        watch,
        seen: false,
    }
}

/// Checks how often each of the two workers is in the diary.
fn expect_counts(rt: &impl Abort, diary: &Diary, first: usize, second: usize) {
    assert_eq!(rt;
        diary.entries.iter().filter(|worker| **worker == 0).count(),
        first
    );
    assert_eq!(rt;
        diary.entries.iter().filter(|worker| **worker == 1).count(),
        second
    );
}

/// Makes two turns of a handle, and returns after which of them its worker was done.
fn enter_twice(
    rt: &impl Wait,
    lock: &TicketLock<Diary>,
    handle: &mut WorkerHandle<Diary>,
) -> (bool, bool)
    requires of { handle.old.table ≡ lock.now }
    requires left { 2 ≤ handle.old.left }
    ensures of { handle.new.table ≡ handle.old.table }
{
    let first = lock.enter(rt, handle);
    let second = lock.enter(rt, handle);
    (first, second)
}

#[test]
fn every_turn_is_counted(rt: HostRuntime) -> Result<(), NoMemory> {
    match TicketLock::new(rt.alloc(), diary(rt.alloc(), None), &[3, 2]) {
        Ok(Workplace { lock, mut handles }) => {
            run_workers(&rt, &lock, &OpenGate, &mut handles);
            assert_eq!(rt; lock.status(handles.at(0)), 5);
            expect_counts(&rt, &lock.close(handles), 3, 2);
            Ok(())
        }
        Err(LockFault { machine: _ }) => Err(NoMemory),
    }
}

#[test]
fn turns_of_another_worker_are_counted(rt: HostRuntime) -> Result<(), NoMemory> {
    match TicketLock::new(rt.alloc(), diary(rt.alloc(), None), &[3, 2]) {
        Ok(Workplace { lock, mut handles }) => {
            assert!(rt; enter_twice(&rt, &lock, handles.at(1)) == (false, true));
            assert_eq!(rt; lock.status(handles.at(0)), 2);
            expect_counts(&rt, &lock.close(handles), 0, 2);
            Ok(())
        }
        Err(LockFault { machine: _ }) => Err(NoMemory),
    }
}

#[test]
fn a_status_is_answered_while_another_makes_its_turn(rt: HostRuntime) -> Result<(), NoMemory> {
    let gate = Watch::new(rt.alloc())?;
    let watch = gate.copy()?;
    match make_all_turns(&rt, rt.alloc(), &gate, diary(rt.alloc(), Some(watch))) {
        Ok(made) => {
            assert!(rt; made.seen);
            expect_counts(&rt, &made, 3, 2);
            Ok(())
        }
        Err(LockFault { machine: _ }) => Err(NoMemory),
    }
}
