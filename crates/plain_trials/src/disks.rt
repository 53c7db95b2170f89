//! The disks of tests, called as the server calls a disk.
use cfs_base::{Block, BlockNo, Disk, Failed};
use cfs_fakes::{MemoryDisk, Pick, Watched};
use std::alloc::Global;
use std::process::Abort;
use std::test::Fail;

const A: u64 = 10;

const B: u64 = 11;

const C: u64 = 12;

const D: u64 = 13;

const E: u64 = 14;

/// A call on block 0.
#[derive(Clone, Copy)]
enum Call {
    Read,
    Write(u64),
    Barrier,
}

fn write<D: Disk>(disk: &mut D, at: u32, value: u64) -> Result<(), Failed> {
    if at >= disk.blocks() {
        return Err(Failed);
    }
    let mut block = Block::zero();
    block.put_u64(0, value);
    disk.write(BlockNo(at), &block)
}

fn read<D: Disk>(disk: &mut D, at: u32) -> Result<u64, Failed> {
    if at >= disk.blocks() {
        return Err(Failed);
    }
    let mut block = Block::zero();
    disk.read(BlockNo(at), &mut block)?;
    Ok(block.u64_at(0))
}

/// Makes the calls, and returns the moments of those that failed.
fn make(alloc: Global, disk: &mut MemoryDisk, calls: &[Call]) -> Result<Vec<u64>, Fail> {
    let mut failed = Vec::new(alloc);
    for call in calls {
        let moment = disk.moment();
        let done = match call {
            Call::Read => read(disk, 0).map(|_| ()),
            Call::Write(value) => write(disk, 0, *value),
            Call::Barrier => disk.barrier(),
        };
        if done.is_err() {
            failed.push(moment)?;
        }
    }
    Ok(failed)
}

/// Returns what block 0 holds after a crash at this moment that leaves this choice of it.
fn left(alloc: Global, disk: &MemoryDisk, at: u64, choice: u32) -> Option<u64> {
    if !disk.is_recording() || at > disk.moment() {
        return None;
    }
    let picks = [Pick { block: 0, choice }];
    let mut image = disk.image(alloc, at, &picks).ok()?;
    read(&mut image, 0).ok()
}

/// Checks that at each of these moments the block is left as these choices of it say.
fn expect_images(rt: &impl Abort, alloc: Global, disk: &MemoryDisk, rows: &[(u64, [u64; 5])]) {
    for (at, wanted) in rows {
        for choice in 0..5u32 {
            assert_eq!(rt;
                left(alloc, disk, *at, choice),
                Some(wanted[choice as usize]),
                "{choice} at {at}"
            );
        }
    }
}

#[test]
fn a_crash_leaves_the_last_barrier_or_a_write_since(rt: HostRuntime) -> Result<(), Fail> {
    let alloc = rt.alloc();
    let mut disk = MemoryDisk::recording(alloc, 1, Vec::new(alloc))?;
    make(
        alloc,
        &mut disk,
        &[
            Call::Write(A),
            Call::Barrier,
            Call::Write(B),
            Call::Write(C),
        ],
    )?;
    let rows = [
        (0, [0, 0, 0, 0, 0]),
        (1, [0, A, A, A, A]),
        (2, [A, A, A, A, A]),
        (3, [A, B, B, B, B]),
        (4, [A, B, C, C, C]),
    ];
    expect_images(&rt, alloc, &disk, &rows);
    Ok(())
}

/// The write of B at moment 2 and the barrier at moment 4 fail.
#[test]
fn a_failed_write_may_be_chosen_and_a_failed_barrier_is_none(rt: HostRuntime) -> Result<(), Fail> {
    let alloc = rt.alloc();
    let mut disk = MemoryDisk::recording(alloc, 1, vec![in alloc; 4, 2]?)?;
    let calls = [
        Call::Write(A),
        Call::Read,
        Call::Write(B),
        Call::Write(C),
        Call::Barrier,
        Call::Write(D),
        Call::Read,
        Call::Barrier,
        Call::Write(E),
    ];
    let failed = make(alloc, &mut disk, &calls)?;
    assert_eq!(rt; failed.as_slice(), [2, 4].as_slice());
    let rows = [
        (0, [0, 0, 0, 0, 0]),
        (1, [0, A, A, A, A]),
        (2, [0, A, A, A, A]),
        (3, [0, A, B, B, B]),
        (4, [0, A, B, C, C]),
        (5, [0, A, B, C, C]),
        (6, [0, A, B, C, D]),
        (7, [0, A, B, C, D]),
        (8, [D, D, D, D, D]),
        (9, [D, E, E, E, E]),
    ];
    expect_images(&rt, alloc, &disk, &rows);
    Ok(())
}

/// Saves block 0 in block 1, and then gives it another number.
fn save_and_replace<D: Disk>(disk: &mut D, value: u64) -> Result<(), Failed> {
    let saved = read(disk, 0)?;
    write(disk, 1, saved)?;
    disk.barrier()?;
    read(disk, 1)?;
    write(disk, 0, value)?;
    disk.barrier()
}

/// The sixth call of the second round fails, and that of the first is done.
#[test]
fn six_calls_in_a_row_are_made_on_a_disk_that_tells_nothing(rt: HostRuntime) -> Result<(), Fail> {
    let alloc = rt.alloc();
    let mut disk = Watched::new(MemoryDisk::failing(alloc, 2, vec![in alloc; 11]?)?);
    save_and_replace(&mut disk, A)?;
    let second = save_and_replace(&mut disk, B);
    let mut bare = disk.lower;
    assert_eq!(rt; (second, bare.calls()), (Err(Failed), 12));
    assert_eq!(rt; (read(&mut bare, 0), read(&mut bare, 1)), (Ok(B), Ok(A)));
    Ok(())
}
