//! What a crash leaves of a mend.
use crate::fault::Fault;
use crate::volume::{Volume, blocks_of, mend_disk};
use cfs_base::{Block, Disk};
use cfs_fakes::{MemoryDisk, Pick};
use std::alloc::Global;
use std::thread::Threads;

/// Returns the blocks that were written since the last barrier before this moment.
fn waiting(alloc: Global, disk: &MemoryDisk, at: u64) -> Result<Vec<u32>, Fault> {
    if !disk.is_recording() {
        return Err(Fault::Place);
    }
    let mut blocks = Vec::new(alloc);
    for block in 0..disk.blocks() {
        if disk.choices(at, block) > 0 {
            blocks.push(block)?;
        }
    }
    Ok(blocks)
}

/// Returns the picks of the image with this number.
///
/// It has a bit for each block that waits: whether its write is left.
fn picks_of(alloc: Global, waiting: &[u32], number: u32) -> Result<Vec<Pick>, Fault> {
    let mut picks = Vec::new(alloc);
    let mut rest = number;
    for block in waiting {
        picks.push(Pick {
            block: *block,
            choice: rest % 2,
        })?;
        rest /= 2;
    }
    Ok(picks)
}

/// Returns what the image by these picks holds once it is mended.
fn mended_image<R: Threads + Sync>(
    rt: &R,
    alloc: Global,
    disk: &MemoryDisk,
    at: u64,
    picks: &[Pick],
) -> Result<Vec<Block>, Fault> {
    if !disk.is_recording() || at > disk.moment() {
        return Err(Fault::Place);
    }
    let mut image = disk.image(alloc, at, picks)?;
    mend_disk(rt, alloc, &mut image)?;
    blocks_of(alloc, &mut image)
}

/// Mends each image that a crash at this moment may leave, and returns how many there are.
fn mend_images<R: Threads + Sync>(
    rt: &R,
    alloc: Global,
    disk: &MemoryDisk,
    at: u64,
    wanted: &Vec<Block>,
) -> Result<u32, Fault> {
    let waiting = waiting(alloc, disk, at)?;
    let mut images = 1u32;
    for _ in waiting.iter() {
        images = images.saturating_mul(2);
    }
    for number in 0..images {
        let picks = picks_of(alloc, waiting.as_slice(), number)?;
        if mended_image(rt, alloc, disk, at, picks.as_slice())? != *wanted {
            return Err(Fault::Differs);
        }
    }
    Ok(images)
}

/// Returns how many images a crash may leave since the first barrier of a mend.
///
/// It is refused if one of them is mended to other bytes.
pub fn crashed<R: Threads + Sync>(rt: &R, alloc: Global, volume: &Volume) -> Result<u32, Fault> {
    let mut disk = volume.recorded(alloc)?;
    let from = mend_disk(rt, alloc, &mut disk)?;
    let to = disk.moment();
    let wanted = blocks_of(alloc, &mut disk)?;
    let mut images = 0u32;
    for at in from.saturating_add(1)..=to {
        images = images.saturating_add(mend_images(rt, alloc, &disk, at, &wanted)?);
    }
    Ok(images)
}
