//! Services whose memory is ample, and whose sources and sinks fail at a call or take one byte at a call.
use crate::service::{Came, Seat, ask_for, play, session};
use crate::sink::{ALL, Taking, failing, slow};
use crate::stated::{LINES, REPLIES, STATED};
use cfs_fakes::MemoryDisk;
use std::alloc::Global;
use std::process::Abort;
use std::sync::Wait;
use std::test::Fail;
use std::thread::Threads;

/// What must come of a run: the status, the report, the replies to each session, and the number of events.
#[derive(Clone, Copy)]
struct Want<'a> {
    status: u8,
    report: &'a str,
    replies: &'a [&'a str],
    events: usize,
}

const STORED: &str =
    "create-index a 4 root 0\nretrieve b root 0\nslots a\nretrieve c root 63\nretrieve c root 64\n";

const STORED_REPLIES: &str = "ok 00000003903df1a0\nok 00000003903df1a0\nok 4\nno empty\nno slot\n";

/// Returns what must come of a run that ended so.
fn ended<'a>(status: u8, report: &'a str, replies: &'a [&'a str], events: usize) -> Want<'a> {
    Want {
        status,
        report,
        replies,
        events,
    }
}

/// The stored run: a turn for each line, and the leave.
const WHOLE: Want<'static> = Want {
    status: 0,
    report: "sessions 1\nreplies 5\ncollections 0\nobjects 2\nfree 58\nstatus 0\n",
    replies: &[STORED_REPLIES],
    events: 6,
};

/// The stated script: a turn for each line, and the leave.
const STATED_WHOLE: Want<'static> = Want {
    status: 0,
    report: "sessions 1\nreplies 15\ncollections 0\nobjects 3\nfree 53\nstatus 0\n",
    replies: &[REPLIES],
    events: 16,
};

/// The report of a run whose first reply is not written, so that the create is the last line that is served.
const CUT_REPORT: &str =
    "sessions 1\nreplies 1\ncollections 0\nobjects 2\nfree 58\nsink\nstatus 5\n";

const MAKING: &str = "create-index a 4 root 0\nretain a 3 root\nretrieve r a 3\nslots r\n";

const LOOKING: &str = "slots root\nretrieve x root 63\nslots a\nslots 00000002ade0b876\n";

/// Returns a session with these lines, and a sink that takes as `sink` says.
fn lines_to(lines: &str, sink: Taking) -> Seat<'_> {
    Seat {
        lines,
        source_fails: u64::MAX,
        sink,
    }
}

/// Returns a session with these lines, whose source fails at this call.
fn broken(lines: &str, source_fails: u64) -> Seat<'_> {
    Seat {
        lines,
        source_fails,
        sink: ALL,
    }
}

/// Returns whether these are the replies.
fn are_replies(came: &[Vec<u8>], want: &[&str]) -> bool {
    for (replies, wanted) in came.iter().zip(want.iter()) {
        if replies.as_slice() != wanted.as_bytes() {
            return false;
        }
    }
    came.len() == want.len()
}

/// Checks that what came is what was wanted.
fn expect_came(rt: &impl Abort, came: &Came, want: &Want<'_>) {
    assert_eq!(rt; came.report.as_slice(), want.report.as_bytes());
    assert!(rt; came.status == want.status);
    assert!(rt; are_replies(&came.replies, want.replies));
    assert!(rt; came.events.len() == want.events);
}

/// Serves these sessions on one cylinder in memory, with a sink of the report that takes as `report` says.
fn expect(
    rt: &(impl Abort + Threads + Wait + Sync),
    alloc: Global,
    seats: &[Seat<'_>],
    report: Taking,
    want: &Want<'_>,
) -> Result<(), Fail> {
    let mut asked = ask_for(&["play", "1", "0", "0"], seats);
    asked.report = report;
    let came = play(rt, alloc, &mut None::<MemoryDisk>, &asked)?;
    expect_came(rt, &came, want);
    Ok(())
}

#[test]
fn the_stored_run_is_served(rt: HostRuntime) -> Result<(), Fail> {
    let alloc = rt.alloc();
    expect(&rt, alloc, &[session(STORED)], ALL, &WHOLE)?;
    expect(
        &rt,
        alloc,
        &[lines_to(STORED, slow(u64::MAX))],
        slow(u64::MAX),
        &WHOLE,
    )
}

#[test]
fn a_sink_that_fails_ends_its_session(rt: HostRuntime) -> Result<(), Fail> {
    // it takes a byte of the first reply, and fails at the second
    let seats = [lines_to(STORED, slow(1))];
    let asked = ask_for(&["play", "1", "0", "0"], &seats);
    let came = play(&rt, rt.alloc(), &mut None::<MemoryDisk>, &asked)?;
    expect_came(&rt, &came, &ended(5, CUT_REPORT, &["o"], 2));
    assert!(rt; came.events.as_slice() == b"al".as_slice());
    Ok(())
}

/// Returns how many lines end in these bytes.
fn lines_in(replies: &[u8]) -> usize {
    let mut lines = 0usize;
    for byte in replies {
        if *byte == b'\n' {
            lines = lines.saturating_add(1);
        }
    }
    lines
}

/// Serves the stated script beside a collection, to a sink that takes as `sink` says.
///
/// Checks that the sink holds these of the replies, and that the session leaves after the first line whose reply the
/// sink doesn't hold whole.
fn expect_taken(
    rt: &(impl Abort + Threads + Wait + Sync),
    alloc: Global,
    sink: Taking,
    taken: &[u8],
) -> Result<(), Fail> {
    let seats = [lines_to(STATED, sink)];
    let asked = ask_for(&["play", "1", "0", "1"], &seats);
    let came = play(rt, alloc, &mut None::<MemoryDisk>, &asked)?;
    let lines = lines_in(taken).saturating_add(1).min(LINES);
    assert!(rt; came.first() == taken && came.answered_by(u64::MAX) == lines);
    let (status, end) = if taken.len() < REPLIES.len() {
        (5, "\nsink\nstatus 5\n")
    } else {
        (0, "\nobjects 3\nfree 53\nstatus 0\n")
    };
    assert!(rt; came.status == status && came.report.as_slice().ends_with(end.as_bytes()));
    Ok(())
}

#[test]
fn each_call_of_a_sink_that_fails_cuts_the_replies(rt: HostRuntime) -> Result<(), Fail> {
    let alloc = rt.alloc();
    for count in 0..=REPLIES.len() {
        let taken = &REPLIES.as_bytes()[..count];
        expect_taken(&rt, alloc, slow(count as u64), taken)?;
        // a sink that takes all has a call for each line
        if count == 0 || taken[count - 1] == b'\n' {
            expect_taken(&rt, alloc, failing(lines_in(taken) as u64), taken)?;
        }
    }
    Ok(())
}

#[test]
fn the_first_source_that_fails_is_told(rt: HostRuntime) -> Result<(), Fail> {
    let alloc = rt.alloc();
    let want = ended(6, "source 0\nstatus 6\n", &[""], 0);
    // one call gives the lines, and one reports that they end
    for call in 0..2 {
        expect(&rt, alloc, &[broken(STATED, call)], ALL, &want)?;
    }
    expect(&rt, alloc, &[broken(STATED, 2)], ALL, &STATED_WHOLE)?;
    let seats = [session(MAKING), broken(LOOKING, 0), broken(LOOKING, 0)];
    let want = ended(6, "source 1\nstatus 6\n", &["", "", ""], 0);
    expect(&rt, alloc, &seats, ALL, &want)
}

#[test]
fn a_report_that_fails_hides_no_worse_status(rt: HostRuntime) -> Result<(), Fail> {
    let alloc = rt.alloc();
    let nothing = ended(5, "", &[STORED_REPLIES], 6);
    expect(&rt, alloc, &[session(STORED)], failing(0), &nothing)?;
    // the tenth byte is not taken
    let part = ended(5, "sessions ", &[STORED_REPLIES], 6);
    expect(&rt, alloc, &[session(STORED)], slow(9), &part)?;
    let worse = ended(6, "", &[""], 0);
    expect(&rt, alloc, &[broken(STORED, 0)], failing(0), &worse)
}
