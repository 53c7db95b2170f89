//! Volumes on disks of which a call fails, and what a crash leaves of one.
use crate::service::{Came, Seat, ask_for, gate_of, hold, play, serve, session};
use crate::sink::{ALL, Taking, failing};
use crate::stated::{LOOKING, REPLIES, STATED, holds};
use cfs_base::Disk;
use cfs_fakes::{MemoryDisk, Pick, Watched};
use std::alloc::Global;
use std::process::Abort;
use std::sync::Wait;
use std::test::Fail;
use std::thread::Threads;

/// How many calls of its disk make a volume of one cylinder.
const FORMAT_CALLS: u64 = 7;

const SERVE: [&str; 4] = ["serve", "volume", "0", "0"];

const COLLECT: [&str; 4] = ["serve", "volume", "0", "1"];

/// Makes a disk of one cylinder, of which the call at this moment fails.
fn disk_failing(alloc: Global, moment: u64) -> Result<Option<MemoryDisk>, Fail> {
    let mut calls = Vec::new(alloc);
    calls.push(moment)?;
    Ok(Some(MemoryDisk::failing(alloc, 64, calls)?))
}

/// Makes a volume, with a report whose sink takes as `report` says.
fn format(
    rt: &(impl Abort + Threads + Wait + Sync),
    alloc: Global,
    disk: &mut Option<MemoryDisk>,
    report: Taking,
) -> Result<Came, Fail> {
    let mut asked = ask_for(&["format", "volume", "1", "0"], &[]);
    asked.report = report;
    play(rt, alloc, disk, &asked)
}

/// Makes a volume on such a disk.
fn volume(
    rt: &(impl Abort + Threads + Wait + Sync),
    alloc: Global,
    moment: u64,
) -> Result<Option<MemoryDisk>, Fail> {
    let mut disk = disk_failing(alloc, moment)?;
    let made = format(rt, alloc, &mut disk, ALL)?;
    assert!(rt; made.status == 0 && calls_of(&disk) == FORMAT_CALLS);
    Ok(disk)
}

fn calls_of(disk: &Option<MemoryDisk>) -> u64 {
    match disk {
        Some(disk) => disk.moment(),
        None => 0,
    }
}

/// Checks the status of a run, and what its report ends with.
fn expect_end(rt: &impl Abort, moment: u64, came: &Came, status: u8, end: &str) {
    assert!(rt; came.status == status, "moment {moment}: its status");
    assert!(rt;
        came.report.as_slice().ends_with(end.as_bytes()),
        "moment {moment}: its report"
    );
}

#[test]
fn each_call_of_a_format_that_fails_is_told(rt: HostRuntime) -> Result<(), Fail> {
    let alloc = rt.alloc();
    for moment in 0..=FORMAT_CALLS {
        let fails = moment < FORMAT_CALLS;
        let (told, status) = if fails {
            ("disk\nstatus 4\n", 4)
        } else {
            ("status 0\n", 0)
        };
        let came = format(&rt, alloc, &mut disk_failing(alloc, moment)?, ALL)?;
        expect_end(&rt, moment, &came, status, told);
        // a report that isn't written hides no failed disk
        let unwritten = format(&rt, alloc, &mut disk_failing(alloc, moment)?, failing(0))?;
        expect_end(&rt, moment, &unwritten, if fails { 4 } else { 5 }, "");
    }
    Ok(())
}

/// Serves one session, whose sink fails, on a volume of which the call at this moment fails.
///
/// Returns what came of it, and how many calls were made.
fn serve_failing(
    rt: &(impl Abort + Threads + Wait + Sync),
    alloc: Global,
    moment: u64,
) -> Result<(Came, u64), Fail> {
    let mut disk = volume(rt, alloc, moment)?;
    let seat = Seat {
        lines: "create-index a 4 root 0\n",
        source_fails: u64::MAX,
        sink: failing(0),
    };
    let came = play(rt, alloc, &mut disk, &ask_for(&SERVE, &[seat]))?;
    Ok((came, calls_of(&disk)))
}

/// Returns the end of the report if a disk failed: `disk` alone, or with the moment if the report has one.
fn cause_at(alloc: Global, moment: u64, came: &Came) -> Result<String, Fail> {
    let stopped = format!(in alloc; "\ndisk {moment}\nstatus 4\n")?;
    if came.report.as_slice().ends_with(stopped.as_bytes()) {
        return Ok(stopped);
    }
    Ok(String::from_str(alloc, "disk\nstatus 4\n")?)
}

#[test]
fn a_disk_that_failed_is_told_before_a_sink(rt: HostRuntime) -> Result<(), Fail> {
    let alloc = rt.alloc();
    let (came, calls) = serve_failing(&rt, alloc, u64::MAX)?;
    expect_end(&rt, u64::MAX, &came, 5, "\nsink\nstatus 5\n");
    for moment in FORMAT_CALLS..calls {
        let (came, _) = serve_failing(&rt, alloc, moment)?;
        expect_end(
            &rt,
            moment,
            &came,
            4,
            cause_at(alloc, moment, &came)?.as_str(),
        );
    }
    Ok(())
}

#[test]
fn the_map_of_a_volume_that_is_served_is_read_once(rt: HostRuntime) -> Result<(), Fail> {
    let alloc = rt.alloc();
    let mut disk = match volume(&rt, alloc, u64::MAX)? {
        Some(disk) => Some(Watched::new(disk)),
        None => None,
    };
    let lines =
        "create-index a 4 root 0\nretrieve b root 0\nslots a\nretrieve c root 63\nretrieve c root 64\n";
    let came = play(&rt, alloc, &mut disk, &ask_for(&SERVE, &[session(lines)]))?;
    let replies = b"ok 00000003903df1a0\nok 00000003903df1a0\nok 4\nno empty\nno slot\n";
    assert!(rt; came.status == 0 && came.first() == replies.as_slice());
    assert!(rt; matches!(&disk, Some(disk) if disk.seen.reads[0] == 1));
    Ok(())
}

/// A session that puts the root into a slot.
const FIRST: &str = "slots root\nretain root 0 root\nslots root\n";

/// Another session, that looks at the slot.
const SECOND: &str = "slots root\nretrieve a root 0\n";

/// Serves these two sessions on a volume of which the call at this moment fails.
///
/// Returns what came of it, and what the slot has once the volume is served again.
fn serve_two(
    rt: &(impl Abort + Threads + Wait + Sync),
    alloc: Global,
    moment: u64,
) -> Result<(Came, Came), Fail> {
    let mut disk = volume(rt, alloc, moment)?;
    // the second asks once before the retain and once after it, and only then the collector begins
    let gate = gate_of(
        alloc,
        &[hold(0, 1, 1, 0), hold(1, 1, 0, 1), hold(2, 0, 0, 1)],
    )?;
    let seats = [session(FIRST), session(SECOND)];
    let asked = ask_for(&COLLECT, &seats);
    let came = serve(rt, alloc, &gate, &mut disk, &asked)?;
    let again = play(
        rt,
        alloc,
        &mut disk,
        &ask_for(&SERVE, &[session("retrieve a root 0\n")]),
    )?;
    Ok((came, again))
}

/// Checks that the service stopped for both sessions and the collector, with a turn for each line and a leave for
/// each session.
fn expect_stopped(rt: &impl Abort, alloc: Global, moment: u64, came: &Came) -> Result<(), Fail> {
    let second = format!(in alloc; "ok 64\nno stopped {moment}\n")?;
    match came.replies.as_slice() {
        [_, other] => assert_eq!(rt; other.as_slice(), second.as_bytes()),
        _ => panic!(rt; "two sessions"),
    }
    assert!(rt;
        came.report
            .as_slice()
            .starts_with(b"sessions 2\nreplies 5\ncollections 0\n")
    );
    let end = format!(in alloc; "\ndisk {moment}\nstatus 4\n")?;
    expect_end(rt, moment, came, 4, end.as_str());
    assert!(rt; came.events.len() == 7);
    Ok(())
}

/// Checks that the slot is empty when the volume is served again, or if `may_be` that it has the root.
fn expect_slot(rt: &impl Abort, came: &Came, may_be: bool) {
    let is_empty = came.first() == b"no empty\n".as_slice();
    let is_root = came.first() == b"ok 00000002ade0b876\n".as_slice();
    assert!(rt; came.status == 0);
    assert!(rt; is_empty || (may_be && is_root));
}

/// Returns whether the service stopped at this moment, within the retain.
fn stops_at(
    rt: &(impl Abort + Threads + Wait + Sync),
    alloc: Global,
    moment: u64,
    is_first: bool,
) -> Result<bool, Fail> {
    let (came, again) = serve_two(rt, alloc, moment)?;
    let first = format!(in alloc; "ok 64\nno disk {moment}\nno stopped {moment}\n")?;
    if came.first() != first.as_bytes() {
        return Ok(false);
    }
    expect_stopped(rt, alloc, moment, &came)?;
    // after a failure of the first write the slot is empty, and after that of a later one it may have the root
    expect_slot(rt, &again, !is_first);
    Ok(true)
}

#[test]
fn a_write_that_fails_stops_the_service_for_all(rt: HostRuntime) -> Result<(), Fail> {
    let alloc = rt.alloc();
    let mut stops = 0_u64;
    // the whole run makes fewer than 200 calls
    for moment in FORMAT_CALLS..200 {
        if stops_at(&rt, alloc, moment, stops == 0)? {
            stops = stops.saturating_add(1);
        }
    }
    assert!(rt; stops > 1);
    Ok(())
}

/// Serves the stated script beside a collection, on a volume of which it is known what a crash leaves.
fn record(
    rt: &(impl Abort + Threads + Wait + Sync),
    alloc: Global,
) -> Result<(Option<MemoryDisk>, Came), Fail> {
    let mut disk = Some(MemoryDisk::recording(alloc, 64, Vec::new(alloc))?);
    format(rt, alloc, &mut disk, ALL)?;
    let came = play(rt, alloc, &mut disk, &ask_for(&COLLECT, &[session(STATED)]))?;
    assert!(rt; came.first() == REPLIES.as_bytes());
    Ok((disk, came))
}

/// Which blocks hold their last waiting write after a crash: those with even numbers, and those with odd ones.
///
/// All others hold what they held at the last barrier.
type Kept = (bool, bool);

/// Returns the disk that a crash at this moment leaves so.
fn left(
    alloc: Global,
    disk: &Option<MemoryDisk>,
    at: u64,
    (even, odd): Kept,
) -> Result<Option<MemoryDisk>, Fail> {
    let mut picks = Vec::new(alloc);
    match disk {
        Some(disk) if disk.is_recording() && at <= disk.moment() => {
            for block in 0..64u32 {
                let is_kept = if block % 2 == 0 { even } else { odd };
                let choice = if is_kept { disk.choices(at, block) } else { 0 };
                picks.push(Pick { block, choice })?;
            }
            Ok(Some(disk.image(alloc, at, &picks)?))
        }
        _ => Err("no disk that records")?,
    }
}

#[test]
fn what_was_answered_outlasts_a_crash_at_any_moment(rt: HostRuntime) -> Result<(), Fail> {
    let alloc = rt.alloc();
    let (disk, came) = record(&rt, alloc)?;
    for at in FORMAT_CALLS..=calls_of(&disk) {
        let answered = came.answered_by(at);
        for kept in [(false, false), (true, true), (true, false)] {
            let mut image = left(alloc, &disk, at, kept)?;
            let looked = play(
                &rt,
                alloc,
                &mut image,
                &ask_for(&SERVE, &[session(LOOKING)]),
            )?;
            assert!(rt; holds(&looked, answered), "moment {at}");
        }
    }
    Ok(())
}
