//! A source and a sink that move few bytes a call.
ghost use Rattle.std.specs.Prelude.{◌<◌, Some};

use cfs_base::{Failed, Sink, Source};
use cfs_streams::{ReadFault, read_whole, write_whole};
use std::alloc::Global;
use std::process::Abort;
use std::test::Fail;

/// Gives its bytes, a few at a call. One of its calls, counted from 1, fails.
#[derive(Drop)]
struct Drip<'a> {
    left: &'a [u8],
    pace: usize,
    calls: u64,
    fails_at: u64,
    faults: u64,
    ghost moves: { 0 < pace },
}

impl Source for Drip<'_> {
    ghost supply = { λ s. record { left = Some s.left.now; faults = s.faults } };

    fn read(&mut self, into: &mut [u8]) -> Result<usize, Failed> {
        self.calls = self.calls.saturating_add(1);
        if self.calls == self.fails_at {
            self.faults = self.faults.saturating_add(1);
            return Err(Failed);
        }
        let count = self.left.len().min(into.len()).min(self.pace);
        into[..count].copy_from_slice(&self.left[..count]);
        self.left = &self.left[count..];
        Ok(count)
    }
}

/// Takes bytes, a few at a call. One of its calls, counted from 1, fails.
#[derive(Drop)]
struct Slow {
    taken: Vec<u8>,
    pace: usize,
    calls: u64,
    fails_at: u64,
    faults: u64,
    ghost moves: { 0 < pace },
}

impl Sink for Slow {
    ghost intake = { λ s. record { taken = Some s.taken.items; faults = s.faults } };

    fn write(&mut self, from: &[u8]) -> Result<usize, Failed> {
        self.calls = self.calls.saturating_add(1);
        let count = from.len().min(self.pace);
        if self.calls == self.fails_at || self.taken.extend_from_slice(&from[..count]).is_err() {
            self.faults = self.faults.saturating_add(1);
            return Err(Failed);
        }
        Ok(count)
    }
}

/// Returns the answer to reading "hello" whole at this pace, and how many bytes are left of it.
fn reading(
    alloc: Global,
    pace: usize,
    fails_at: u64,
    limit: usize,
) -> (Result<usize, ReadFault>, usize)
    requires { 0 < pace }
{
    let mut source = Drip {
        left: b"hello",
        pace,
        calls: 0,
        fails_at,
        faults: 0,
    };
    let answer = read_whole(alloc, &mut source, limit).map(|bytes| bytes.len());
    (answer, source.left.len())
}

#[test]
fn a_source_is_read_whole_or_to_one_byte_past_the_limit(rt: HostRuntime) {
    let long = Err(ReadFault::Long);
    let failed = Err(ReadFault::Failed);
    for (pace, fails_at, limit, wanted) in [
        (1, 0, 5, (Ok(5), 0)),
        (2, 0, 5, (Ok(5), 0)),
        (9, 0, usize::MAX, (Ok(5), 0)),
        (1, 0, 3, (long, 1)),
        (2, 0, 2, (long, 2)),
        (9, 0, 0, (long, 4)),
        (1, 1, 5, (failed, 5)),
        (1, 3, 5, (failed, 3)),
        (1, 6, 5, (failed, 0)),
    ] {
        assert_eq!(rt;
            reading(rt.alloc(), pace, fails_at, limit),
            wanted,
            "pace {pace}, limit {limit}"
        );
    }
}

/// Checks that `taken` is what is taken of a text that is written at this pace, by `calls` calls.
fn expect_written(
    rt: &impl Abort,
    alloc: Global,
    text: &[u8],
    pace: usize,
    fails_at: u64,
    taken: &[u8],
    calls: u64,
)
    requires { 0 < pace }
{
    let mut sink = Slow {
        taken: Vec::new(alloc),
        pace,
        calls: 0,
        fails_at,
        faults: 0,
    };
    let answer = write_whole(&mut sink, text);
    assert_eq!(rt; answer.is_ok(), text == taken);
    assert_eq!(rt; sink.taken.as_slice(), taken);
    assert_eq!(rt; sink.calls, calls);
}

#[test]
fn a_sink_takes_the_whole_or_a_beginning(rt: HostRuntime) {
    for (text, pace, fails_at, taken, calls) in [
        ("hello", 1, 0, "hello", 5),
        ("hello", 2, 0, "hello", 3),
        ("hello", 9, 0, "hello", 1),
        ("hello", 3, 2, "hel", 2),
        ("", 1, 1, "", 0),
    ] {
        expect_written(
            &rt,
            rt.alloc(),
            text.as_bytes(),
            pace,
            fails_at,
            taken.as_bytes(),
            calls,
        );
    }
}
