//! Two workers on a floor.
use crate::Rounds;
use cfs_base::NoMemory;
use cfs_fakes::{Hold, HoldGate, OpenGate, Turns};
use cfs_floor::{Floor, make_all_turns, make_turns_left, run_workers, shares_of};
use std::alloc::Global;
use std::process::Abort;

fn rounds() -> Rounds {
    Rounds {
        turns: Turns {
            first: 3,
            second: 3,
        },
        made: 0,
    }
}

fn hold(worker: u32, turn: u64, until_worker: u32, until_turn: u64) -> Hold {
    Hold {
        worker,
        turn,
        until_worker,
        until_turn,
    }
}

/// Makes a gate by which the turns come as 1, then 2 and 2, then 1 and 1. The last turn of worker 1 ends the order.
fn one_order(alloc: Global) -> Result<HoldGate, NoMemory> {
    let mut holds = Vec::new(alloc);
    holds.push(hold(1, 0, 0, 0))?;
    holds.push(hold(0, 1, 1, 1))?;
    holds.push(hold(1, 2, 0, 1))?;
    HoldGate::new(alloc, holds, 100_000_000)
}

/// Checks that they came so, all behind the gate.
fn expect_one_order(rt: &impl Abort, gate: &HoldGate, made: u64) {
    assert!(rt; !gate.gave_up());
    assert!(rt; made == 122_112 || made == 122_121);
    assert_eq!(rt; gate.passed(0), 3);
    assert_eq!(rt; gate.passed(1), 3);
}

#[test]
fn holds_make_one_order_of_the_turns(rt: HostRuntime) -> Result<(), NoMemory> {
    let gate = one_order(rt.alloc())?;
    let machine = rounds();
    let mut shares = shares_of(rt.alloc(), &machine)?;
    let floor = Floor::new(machine);
    run_workers(&rt, &floor, &gate, shares.as_mut_slice());
    expect_one_order(&rt, &gate, floor.close().made);
    assert_eq!(rt; gate.passed(65), 0);
    Ok(())
}

#[test]
fn all_turns_are_made_by_workers_beside_each_other(rt: HostRuntime) -> Result<(), NoMemory> {
    let gate = one_order(rt.alloc())?;
    let made = make_all_turns(&rt, rt.alloc(), &gate, rounds()).made;
    expect_one_order(&rt, &gate, made);
    Ok(())
}

#[test]
fn a_hold_for_a_turn_that_never_comes_gives_up(rt: HostRuntime) -> Result<(), NoMemory> {
    let mut holds = Vec::new(rt.alloc());
    holds.push(hold(0, 0, 1, 7))?;
    let gate = HoldGate::new(rt.alloc(), holds, 10)?;
    let machine = rounds();
    let mut shares = shares_of(rt.alloc(), &machine)?;
    let floor = Floor::new(machine);
    run_workers(&rt, &floor, &gate, shares.as_mut_slice());
    assert!(rt; gate.gave_up());
    assert_eq!(rt; floor.close().turns.first, 0);
    Ok(())
}

#[test]
fn turns_that_are_left_are_made_worker_after_worker(rt: HostRuntime) -> Result<(), NoMemory> {
    let machine = rounds();
    let mut shares = shares_of(rt.alloc(), &machine)?;
    shares[0].left = 1;
    shares[1].left = 0;
    let floor = Floor::new(machine);
    run_workers(&rt, &floor, &OpenGate, shares.as_mut_slice());
    let mut machine = floor.close();
    assert_eq!(rt; machine.made, 1);
    make_turns_left(&mut machine);
    assert_eq!(rt; machine.made, 111_222);
    Ok(())
}

#[test]
fn a_floor_makes_the_turn_of_who_enters(rt: HostRuntime) {
    let floor = Floor::new(rounds());
    for (worker, done) in [(1, false), (1, false), (1, true), (2, true)] {
        assert_eq!(rt; floor.enter(&rt, worker), done);
    }
    assert_eq!(rt; floor.close().made, 222);
}
