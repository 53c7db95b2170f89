//! Whole services on a pair disk over a disk that tears its blocks, and what a crash leaves of one.
use crate::service::{Came, ask_for, play, session};
use crate::stated::{LOOKING, REPLIES, STATED, holds};
use cfs_base::{Block, Disk};
use pair_disk::{PairDisk, TornDisk, TornMemory, TornPick};
use std::alloc::Global;
use std::process::Abort;
use std::sync::Wait;
use std::test::Fail;
use std::thread::Threads;

const FORMAT: [&str; 4] = ["pair-format", "volume", "1", "0"];

const SERVE: [&str; 4] = ["pair-serve", "volume", "0", "0"];

type Pair = PairDisk<TornMemory>;

/// A volume that was made, at which moment, and what came of the stated script on it.
#[derive(Drop)]
struct Recorded {
    disk: TornMemory,
    made: u64,
    came: Came,
}

fn moment_of(disk: &Option<Pair>) -> u64 {
    match disk {
        Some(disk) => disk.moment(),
        None => 0,
    }
}

fn record(rt: &(impl Abort + Threads + Wait + Sync), alloc: Global) -> Result<Recorded, Fail> {
    let mut disk = Some(PairDisk::new(TornMemory::new(alloc, 192, Vec::new(alloc))?));
    play(rt, alloc, &mut disk, &ask_for(&FORMAT, &[]))?;
    let made = moment_of(&disk);
    let came = play(rt, alloc, &mut disk, &ask_for(&SERVE, &[session(STATED)]))?;
    assert!(rt; came.first() == REPLIES.as_bytes());
    match disk {
        Some(disk) => Ok(Recorded {
            disk: disk.into_lower(),
            made,
            came,
        }),
        None => Err("no disk")?,
    }
}

/// Returns what a crash at this moment leaves, with these torn blocks, or `None` if it can't leave them.
fn left(alloc: Global, disk: &TornMemory, at: u64, picks: &[TornPick]) -> Option<Pair> {
    if at > disk.moment() || !disk.may_tear(at, picks) {
        return None;
    }
    let Ok(image) = disk.image(alloc, at, picks) else {
        return None;
    };
    Some(PairDisk::new(image))
}

/// Returns the pick by which this block is full of this byte.
fn torn(block: u32, byte: u8) -> TornPick {
    TornPick {
        block,
        content: Block::of([byte; 512]),
    }
}

/// Returns the block below that a crash at this moment may tear.
fn torn_at(disk: &TornMemory, at: u64) -> Option<u32> {
    for block in 0..disk.blocks() {
        if disk.may_tear(at, &[torn(block, 0)]) {
            return Some(block);
        }
    }
    None
}

/// Opens what a crash at this moment leaves, with these torn blocks.
fn expect_opened(
    rt: &(impl Abort + Threads + Wait + Sync),
    alloc: Global,
    recorded: &Recorded,
    at: u64,
    picks: &[TornPick],
) -> Result<(), Fail> {
    let mut disk = left(alloc, &recorded.disk, at, picks);
    let came = play(rt, alloc, &mut disk, &ask_for(&SERVE, &[session(LOOKING)]))?;
    assert!(rt; holds(&came, recorded.came.answered_by(at)), "moment {at}");
    Ok(())
}

#[test]
fn what_was_answered_outlasts_torn_blocks(rt: HostRuntime) -> Result<(), Fail> {
    let alloc = rt.alloc();
    let recorded = record(&rt, alloc)?;
    let mut tears = 0_u32;
    for at in recorded.made..=recorded.disk.moment() {
        if let Some(block) = torn_at(&recorded.disk, at) {
            tears = tears.saturating_add(1);
            expect_opened(&rt, alloc, &recorded, at, &[])?;
            for byte in [0, 1, 0x5a] {
                expect_opened(&rt, alloc, &recorded, at, &[torn(block, byte)])?;
            }
        }
    }
    assert!(rt; tears > 100);
    Ok(())
}
