//! A pair disk over a disk in memory that may tear its blocks.
use cfs_base::{Block, BlockNo, Disk, NoMemory};
use pair_disk::{PairDisk, TornDisk, TornMemory, TornPick};
use std::alloc::Global;
use std::test::Fail;

fn filled(byte: u8) -> Block {
    Block::of([byte; 512])
}

/// Writes a block of this byte, and returns whether that was done.
fn write<D: Disk>(disk: &mut D, n: u32, byte: u8) -> bool {
    n < disk.blocks() && disk.write(BlockNo(n), &filled(byte)).is_ok()
}

/// Returns the byte with which a block begins.
fn read<D: Disk>(disk: &mut D, n: u32) -> Option<u8> {
    if n >= disk.blocks() {
        return None;
    }
    let mut block = Block::zero();
    disk.read(BlockNo(n), &mut block).ok()?;
    Some(block.bytes()[0])
}

/// Returns the disk below after these writes of blocks of one byte, and how many of them were done.
///
/// The calls below at these moments fail.
fn written(
    alloc: Global,
    blocks: u32,
    calls: Vec<u64>,
    writes: &[(u32, u8)],
) -> Result<(TornMemory, u32), NoMemory> {
    let mut pair = PairDisk::new(TornMemory::new(alloc, blocks, calls)?);
    let mut done = 0u32;
    for (n, byte) in writes {
        if write(&mut pair, *n, *byte) {
            done = done.wrapping_add(1);
        }
    }
    Ok((pair.into_lower(), done))
}

/// Returns the first block below that a crash at this moment may tear.
fn torn_at(disk: &TornMemory, at: u64) -> Option<u32> {
    for block in 0..disk.blocks() {
        let pick = TornPick {
            block,
            content: Block::zero(),
        };
        if disk.may_tear(at, &[pick]) {
            return Some(block);
        }
    }
    None
}

/// Returns the same for this moment and the next six.
fn torn_from(disk: &TornMemory, first: u64) -> [Option<u32>; 7] {
    let mut torn = [None; 7];
    for i in 0..7usize {
        torn[i] = torn_at(disk, first.wrapping_add(i as u64));
    }
    torn
}

/// Returns the byte with which block `n` begins after a crash at this moment that leaves these bytes.
///
/// It is `None` if a crash can't leave them.
fn left(alloc: Global, disk: &TornMemory, at: u64, picks: &[TornPick], n: u32) -> Option<u8> {
    if at > disk.moment() || !disk.may_tear(at, picks) {
        return None;
    }
    let Ok(image) = disk.image(alloc, at, picks) else {
        return None;
    };
    read(&mut PairDisk::new(image), n)
}

/// A write reads the gate, which is block 2 below, writes half 1, makes a barrier, writes the gate, and makes a
/// barrier.
///
/// So the block that may be torn is none, none, 1, none, 2, none, from moment 0 on, and none after them.
#[test]
fn a_write_puts_the_other_half_and_then_turns_the_gate(rt: HostRuntime) -> Result<(), Fail> {
    let alloc = rt.alloc();
    let (disk, done) = written(alloc, 3, Vec::new(alloc), &[(0, 1)])?;
    assert_eq!(rt; (done, disk.calls()), (1, 5));
    let torn = [None, None, Some(1), None, Some(2), None, None];
    assert_eq!(rt; torn_from(&disk, 0), torn);
    for (at, block, byte, wanted) in [
        (2, 1, 0x00, 0),
        (2, 1, 0x01, 0),
        (2, 1, 0x5a, 0),
        (4, 2, 0x01, 1),
        (4, 2, 0x77, 0),
    ] {
        let pick = TornPick {
            block,
            content: filled(byte),
        };
        assert_eq!(rt; left(alloc, &disk, at, &[pick], 0), Some(wanted));
    }
    assert_eq!(rt; left(alloc, &disk, 5, &[], 0), Some(1));
    Ok(())
}

/// The call at moment 3 is the write of the gate.
///
/// The next write makes a barrier at moment 4, reads the gate, and goes on as the first did.
#[test]
fn a_write_after_one_that_failed_begins_with_a_barrier(rt: HostRuntime) -> Result<(), Fail> {
    let alloc = rt.alloc();
    let calls = vec![in alloc; 3]?;
    let (disk, done) = written(alloc, 3, calls, &[(0, 1), (0, 2)])?;
    assert_eq!(rt; (done, disk.calls()), (1, 10));
    let torn = [Some(2), None, None, Some(1), None, Some(2), None];
    assert_eq!(rt; torn_from(&disk, 4), torn);
    assert_eq!(rt; left(alloc, &disk, 10, &[], 0), Some(2));
    Ok(())
}

/// The bytes with which blocks 0 and 1 begin after each of the writes.
const STATES: [[u8; 2]; 4] = [[0, 0], [1, 0], [1, 2], [3, 2]];

/// Returns whether both blocks are as before the write under way, or as after it, and at its first moment as before.
///
/// Each write makes five calls below.
fn is_old_or_new(at: u64, found: [Option<u8>; 2]) -> bool {
    let before = (at / 5) as usize;
    let after = (at.saturating_add(4) / 5) as usize;
    for state in [before, after] {
        match STATES.get(state) {
            Some(blocks) if found == [Some(blocks[0]), Some(blocks[1])] => return true,
            _ => {}
        }
    }
    false
}

fn first_two(alloc: Global, disk: &TornMemory, at: u64, picks: &[TornPick]) -> [Option<u8>; 2] {
    let first = left(alloc, disk, at, picks, 0);
    let second = left(alloc, disk, at, picks, 1);
    [first, second]
}

/// Returns the bytes with which blocks 0 and 1 begin after a crash at this moment.
///
/// The crash fills the block that it tears with this byte.
fn after_crash(alloc: Global, disk: &TornMemory, at: u64, byte: u8) -> [Option<u8>; 2] {
    let Some(block) = torn_at(disk, at) else {
        return first_two(alloc, disk, at, &[]);
    };
    let picks = [TornPick {
        block,
        content: filled(byte),
    }];
    first_two(alloc, disk, at, &picks)
}

#[test]
fn a_crash_leaves_each_block_old_or_new(rt: HostRuntime) -> Result<(), Fail> {
    let alloc = rt.alloc();
    let (disk, done) = written(alloc, 6, Vec::new(alloc), &[(0, 1), (1, 2), (0, 3)])?;
    assert_eq!(rt; (done, disk.moment()), (3, 15));
    for at in 0..16u64 {
        for byte in [0, 1, 2, 3, 0x5a] {
            assert!(rt; is_old_or_new(at, after_crash(alloc, &disk, at, byte)));
        }
    }
    Ok(())
}
