//! Caches over disks in memory, of which listed calls fail.
use cfs_base::{Block, BlockNo, Disk};
use cfs_fakes::MemoryDisk;
use map_cache::MapCache;
use std::test::Fail;

/// A call of a disk, and the number that a write puts at the beginning of its block.
#[derive(Clone, Copy)]
enum Call {
    Read(u32),
    Write(u32, u64),
    Barrier,
}

/// Makes a call on a disk with this block, and returns a number if it is done.
///
/// A read returns the number at the beginning, and any other call 0.
fn made<D: Disk>(disk: &mut D, call: Call) -> Option<u64> {
    let mut block = Block::zero();
    match call {
        Call::Read(n) if n < disk.blocks() => {
            disk.read(BlockNo(n), &mut block).ok()?;
            Some(block.u64_at(0))
        }
        Call::Write(n, value) if n < disk.blocks() => {
            block.put_u64(0, value);
            disk.write(BlockNo(n), &block).ok()?;
            Some(0)
        }
        Call::Barrier => {
            disk.barrier().ok()?;
            Some(0)
        }
        _ => None,
    }
}

/// Makes a call.
///
/// Returns what it gives, how many calls of the lower disk it makes, and whether blocks 0 and 64 are held after it.
fn step(cache: &mut MapCache<MemoryDisk>, call: Call) -> (Option<u64>, u64, [bool; 2]) {
    let before = cache.moment();
    let answer = made(cache, call);
    let below = cache.moment().saturating_sub(before);
    (
        answer,
        below,
        [cache.holds(BlockNo(0)), cache.holds(BlockNo(64))],
    )
}

/// In a cache of one block, block 64 takes the place of block 0.
///
/// A disk in memory counts its calls by its clock: it was called for the barrier and three of the four reads.
#[test]
fn a_held_block_is_read_with_no_call_below(rt: HostRuntime) -> Result<(), Fail> {
    let alloc = rt.alloc();
    let mut cache = MapCache::new(alloc, MemoryDisk::new(alloc, 128)?, 1)?;
    for (call, below, held) in [
        (Call::Barrier, 1, [false, false]),
        (Call::Read(0), 1, [true, false]),
        (Call::Read(0), 0, [true, false]),
        (Call::Read(64), 1, [false, true]),
        (Call::Read(0), 1, [true, false]),
    ] {
        assert_eq!(rt; step(&mut cache, call), (Some(0), below, held));
    }
    assert_eq!(rt; cache.calls(), 5);
    assert_eq!(rt; cache.into_lower().moment(), 4);
    Ok(())
}

/// Nothing is held before the first barrier that is done, nor from the first one on that fails.
///
/// That one is the lower disk's call at moment 8. Between them a map block is held once it was read or written.
#[test]
fn blocks_are_kept_between_a_barrier_and_a_failure(rt: HostRuntime) -> Result<(), Fail> {
    let alloc = rt.alloc();
    let disk = MemoryDisk::failing(alloc, 128, vec![in alloc; 8]?)?;
    let mut cache = MapCache::new(alloc, disk, 2)?;
    for (call, answer, below, held) in [
        (Call::Write(0, 7), Some(0), 1, [false, false]),
        (Call::Read(0), Some(7), 1, [false, false]),
        (Call::Read(0), Some(7), 1, [false, false]),
        (Call::Barrier, Some(0), 1, [false, false]),
        (Call::Write(64, 8), Some(0), 1, [false, true]),
        (Call::Read(64), Some(8), 0, [false, true]),
        (Call::Write(64, 9), Some(0), 1, [false, true]),
        (Call::Read(64), Some(9), 0, [false, true]),
        (Call::Read(0), Some(7), 1, [true, true]),
        (Call::Read(1), Some(0), 1, [true, true]),
        (Call::Read(0), Some(7), 0, [true, true]),
        (Call::Barrier, None, 1, [false, false]),
        (Call::Read(64), Some(9), 1, [false, false]),
        (Call::Barrier, Some(0), 1, [false, false]),
        (Call::Read(64), Some(9), 1, [false, false]),
    ] {
        assert_eq!(rt; step(&mut cache, call), (answer, below, held));
    }
    Ok(())
}
