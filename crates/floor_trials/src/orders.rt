//! Sessions and the collector in the order that a gate makes them keep.
use crate::service::{Came, ask_for, gate_of, hold, serve, session};
use cfs_fakes::{HoldGate, MemoryDisk};
use std::process::Abort;
use std::test::Fail;

/// Checks how many times each worker came to pass: the two sessions exactly so often, and the collector at least.
fn expect_passes(rt: &impl Abort, gate: &HoldGate, first: u64, second: u64, collector: u64) {
    assert!(rt; !gate.gave_up());
    assert_eq!(rt; (gate.passed(0), gate.passed(1)), (first, second));
    assert!(rt; gate.passed(2) >= collector);
}

/// Checks that all went well, and that these are the replies to the sessions.
fn expect_two(rt: &impl Abort, came: &Came, first: &str, second: &str) {
    assert!(rt; came.status == 0);
    match came.replies.as_slice() {
        [one, other] => {
            assert!(rt; one.as_slice() == first.as_bytes());
            assert!(rt; other.as_slice() == second.as_bytes());
        }
        _ => panic!(rt; "two sessions"),
    }
}

#[test]
fn sessions_and_the_collector_run_beside_each_other(rt: HostRuntime) -> Result<(), Fail> {
    // the second session retains between the lines of the first, beside the collector
    let holds = [
        hold(0, 2, 1, 0),
        hold(1, 0, 0, 1),
        hold(2, 2, 1, 0),
        hold(1, 1, 2, 0),
    ];
    let gate = gate_of(rt.alloc(), &holds)?;
    let seats = [
        session("create-index a 4 root 0\nopen g a read\nretrieve b root 1\n"),
        session("retain root 1 root\n"),
    ];
    let asked = ask_for(&["play", "4", "0", "1"], &seats);
    let came = serve(&rt, rt.alloc(), &gate, &mut None::<MemoryDisk>, &asked)?;
    // the words of the seed in their order, where a grant begins with the number of words that were drawn
    let first = "ok 00000003903df1a0\nok 00000002e56a5d40\nok 00000002ade0b876\n";
    expect_two(&rt, &came, first, "ok\n");
    expect_passes(&rt, &gate, 4, 2, 3);
    Ok(())
}

/// Checks the run's events, the replies to its first session, and the report.
fn expect_run(rt: &impl Abort, came: &Came, events: &str, replies: &str, report: &str) {
    assert_eq!(rt; came.events.as_slice(), events.as_bytes());
    assert_eq!(rt; came.first(), replies.as_bytes());
    assert_eq!(rt; came.report.as_slice(), report.as_bytes());
}

#[test]
fn two_collections_come_while_their_session_goes_on(rt: HostRuntime) -> Result<(), Fail> {
    // the collector's turns come once the index is cut off. It carries out the delete in seven parts: the root is
    // copied, a leaf and a node are finished, a leaf, a node and the shadow root are freed, and the bit is cleared.
    // Then it begins, scans the root index, condemns the other, sweeps in two steps and is finished. The session goes
    // on for one line, the next collection does the same and finds nothing, and then the session goes on
    let holds = [
        hold(1, 0, 0, 1),
        hold(0, 2, 1, 12),
        hold(1, 13, 0, 2),
        hold(0, 3, 1, 18),
    ];
    let gate = gate_of(rt.alloc(), &holds)?;
    let seats = [session("create-index a 4 root 0\ndelete root 0\nretain root 5 a\nslots root\n")];
    let asked = ask_for(&["play", "1", "0", "2"], &seats);
    let came = serve(&rt, rt.alloc(), &gate, &mut None::<MemoryDisk>, &asked)?;
    let replies = "ok 00000003903df1a0\nok\nno object\nok 64\n";
    // of the 61 blocks of a new volume a leaf and a node of the root index are taken
    let report = "sessions 1\nreplies 4\ncollections 2\nobjects 1\nfree 59\nstatus 0\n";
    expect_run(&rt, &came, "aabvfabvfal", replies, report);
    assert!(rt; !gate.gave_up());
    Ok(())
}
