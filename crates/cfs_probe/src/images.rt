//! The images that a crash may leave of a disk in memory.
use crate::fault::Fault;
use crate::listing::listing;
use cfs_base::{Block, BlockNo, Disk};
use cfs_core::Core;
use cfs_fakes::{MemoryDisk, Pick};
use std::alloc::Global;

/// How many images of a moment are opened at most.
const MANY: u64 = 4096;

/// Returns the content of a block.
pub fn block_of(disk: &mut MemoryDisk, at: u32) -> Result<Block, Fault> {
    if at >= disk.blocks() {
        return Err(Fault::Place);
    }
    let mut block = Block::zero();
    disk.read(BlockNo(at), &mut block)?;
    Ok(block)
}

/// Writes a block, and makes it survive a crash.
pub fn put_block(disk: &mut MemoryDisk, at: u32, block: &Block) -> Result<(), Fault> {
    if at >= disk.blocks() {
        return Err(Fault::Place);
    }
    disk.write(BlockNo(at), block)?;
    disk.barrier()?;
    Ok(())
}

fn blocks_of(alloc: Global, disk: &mut MemoryDisk) -> Result<Vec<Block>, Fault> {
    let mut blocks = Vec::new(alloc);
    for at in 0..disk.blocks() {
        blocks.push(block_of(disk, at)?)?;
    }
    Ok(blocks)
}

/// Returns the disk that a crash at this moment leaves by these picks.
fn image(alloc: Global, disk: &MemoryDisk, at: u64, picks: &[Pick]) -> Result<MemoryDisk, Fault> {
    if !disk.is_recording() || at > disk.moment() {
        return Err(Fault::Place);
    }
    Ok(disk.image(alloc, at, picks)?)
}

/// Returns how many writes of each block wait for a barrier at this moment.
pub fn waiting(alloc: Global, disk: &MemoryDisk, at: u64) -> Result<Vec<u32>, Fault> {
    if !disk.is_recording() {
        return Err(Fault::Place);
    }
    let mut waits = Vec::new(alloc);
    for block in 0..disk.blocks() {
        waits.push(disk.choices(at, block))?;
    }
    Ok(waits)
}

/// Returns how many images there are, if each block's choice is one of its own.
fn count_of(waits: &[u32]) -> Result<u64, Fault> {
    let mut count = 1u64;
    for wait in waits {
        count = count.saturating_mul(u64::from(*wait) + 1);
    }
    if count > MANY {
        return Err(Fault::Many);
    }
    Ok(count)
}

/// Returns the picks of the image with this number.
fn picks_of(alloc: Global, waits: &[u32], number: u64) -> Result<Vec<Pick>, Fault> {
    let mut picks = Vec::new(alloc);
    let mut rest = number;
    let mut block = 0u32;
    for wait in waits {
        let choices = u64::from(*wait) + 1;
        let choice = (rest % choices) as u32;
        picks.push(Pick { block, choice })?;
        rest /= choices;
        block = block.saturating_add(1);
    }
    Ok(picks)
}

/// Returns the image with this number.
fn numbered(
    alloc: Global,
    disk: &MemoryDisk,
    at: u64,
    waits: &[u32],
    number: u64,
) -> Result<MemoryDisk, Fault> {
    let picks = picks_of(alloc, waits, number)?;
    image(alloc, disk, at, picks.as_slice())
}

/// Returns what is reached on a disk once it is opened, or why it is not opened.
pub fn reading(alloc: Global, disk: MemoryDisk) -> Result<String, Fault> {
    match Core::open(alloc, disk, 0) {
        Ok(mut core) => {
            let root = core.root();
            listing(&mut core, alloc, root)
        }
        Err(fault) => Ok(format!(in alloc; "{}", Fault::Volume(fault.why))?),
    }
}

fn put_once(found: &mut Vec<String>, text: String) -> Result<(), Fault> {
    if !found.contains(&text) {
        found.push(text)?;
    }
    Ok(())
}

/// Returns what the images of a crash at this moment read as, each once.
pub fn readings_at(
    alloc: Global,
    disk: &MemoryDisk,
    at: u64,
    waits: &[u32],
) -> Result<Vec<String>, Fault> {
    let mut found = Vec::new(alloc);
    for number in 0..count_of(waits)? {
        let text = reading(alloc, numbered(alloc, disk, at, waits, number)?)?;
        put_once(&mut found, text)?;
    }
    Ok(found)
}

/// Which of the writes that wait a crash leaves.
#[derive(Clone, Copy)]
enum Kept {
    /// None of any block.
    None,
    /// The last of each block.
    Last,
    /// The last of each block with an even number, and none of any other.
    LastOfEven,
}

fn picks_by(alloc: Global, waits: &[u32], kept: Kept) -> Result<Vec<Pick>, Fault> {
    let mut picks = Vec::new(alloc);
    let mut block = 0u32;
    for wait in waits {
        let choice = match kept {
            Kept::Last => *wait,
            Kept::LastOfEven if block % 2 == 0 => *wait,
            _ => 0,
        };
        picks.push(Pick { block, choice })?;
        block = block.saturating_add(1);
    }
    Ok(picks)
}

/// Returns what three images of a crash at this moment read as, each once.
///
/// They are without the writes that wait, with the last of each block, and with the last of each block with an even
/// number.
pub fn three_at(
    alloc: Global,
    disk: &MemoryDisk,
    at: u64,
    waits: &[u32],
) -> Result<Vec<String>, Fault> {
    let mut found = Vec::new(alloc);
    for kept in [Kept::None, Kept::Last, Kept::LastOfEven] {
        let picks = picks_by(alloc, waits, kept)?;
        let text = reading(alloc, image(alloc, disk, at, picks.as_slice())?)?;
        put_once(&mut found, text)?;
    }
    Ok(found)
}

/// Makes a disk that records, with these blocks.
fn recorded(alloc: Global, blocks: &[Block]) -> Result<MemoryDisk, Fault> {
    let count = u32::try_from(blocks.len()).unwrap_or(0);
    let mut disk = MemoryDisk::recording(alloc, count, Vec::new(alloc))?;
    let mut at = 0u32;
    for block in blocks {
        if at < disk.blocks() {
            disk.write(BlockNo(at), block)?;
        }
        at = at.saturating_add(1);
    }
    disk.barrier()?;
    Ok(disk)
}

/// Returns the disk after an opening.
fn opened(alloc: Global, disk: MemoryDisk) -> MemoryDisk {
    match Core::open(alloc, disk, 0) {
        Ok(core) => core.into_disk(),
        Err(fault) => fault.disk,
    }
}

/// Returns what the images of a crash at each moment from one to another read as, each once.
pub fn readings(
    alloc: Global,
    disk: &MemoryDisk,
    from: u64,
    to: u64,
) -> Result<Vec<String>, Fault> {
    let mut found = Vec::new(alloc);
    let mut last = Vec::new(alloc);
    for at in from..=to {
        let waits = waiting(alloc, disk, at)?;
        if waits != last {
            for text in readings_at(alloc, disk, at, waits.as_slice())? {
                put_once(&mut found, text)?;
            }
        }
        last = waits;
    }
    Ok(found)
}

/// Returns what the images of openings of these images read as, if they don't read as the image that was opened.
pub fn cuts_at(
    alloc: Global,
    disk: &MemoryDisk,
    at: u64,
    waits: &[u32],
) -> Result<Vec<String>, Fault> {
    let mut found = Vec::new(alloc);
    for number in 0..count_of(waits)? {
        let text = reading(alloc, numbered(alloc, disk, at, waits, number)?)?;
        let blocks = blocks_of(alloc, &mut numbered(alloc, disk, at, waits, number)?)?;
        put_cuts(alloc, blocks.as_slice(), text.as_str(), &mut found)?;
    }
    Ok(found)
}

fn put_cuts(
    alloc: Global,
    blocks: &[Block],
    text: &str,
    found: &mut Vec<String>,
) -> Result<(), Fault> {
    let disk = recorded(alloc, blocks)?;
    let from = disk.moment();
    let disk = opened(alloc, disk);
    for other in readings(alloc, &disk, from, disk.moment())? {
        if other.as_str() != text {
            put_once(found, other)?;
        }
    }
    Ok(())
}
