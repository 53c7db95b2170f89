//! A volume in memory, byte by byte.
use crate::fault::Fault;
use cfs_base::{Block, BlockNo, Disk};
use cfs_check::{Checked, load, mend, report};
use cfs_fakes::MemoryDisk;
use std::alloc::Global;
use std::thread::Threads;

/// The blocks of a volume, and those that are remembered.
#[derive(Drop)]
pub struct Volume {
    blocks: Vec<Block>,
    kept: Vec<Block>,
}

fn copies(alloc: Global, blocks: &[Block]) -> Result<Vec<Block>, Fault> {
    let mut copy = Vec::with_capacity(alloc, blocks.len())?;
    for block in blocks {
        copy.push(*block)?;
    }
    Ok(copy)
}

fn put_block(disk: &mut MemoryDisk, at: u32, block: &Block) -> Result<(), Fault> {
    if at >= disk.blocks() {
        return Err(Fault::Place);
    }
    disk.write(BlockNo(at), block)?;
    Ok(())
}

fn block_of(disk: &mut MemoryDisk, at: u32) -> Result<Block, Fault> {
    if at >= disk.blocks() {
        return Err(Fault::Place);
    }
    let mut block = Block::zero();
    disk.read(BlockNo(at), &mut block)?;
    Ok(block)
}

/// Returns what a disk holds.
pub fn blocks_of(alloc: Global, disk: &mut MemoryDisk) -> Result<Vec<Block>, Fault> {
    let mut blocks = Vec::new(alloc);
    for at in 0..disk.blocks() {
        blocks.push(block_of(disk, at)?)?;
    }
    Ok(blocks)
}

/// Mends what a disk holds, and returns the moment at which that begins.
pub fn mend_disk<R: Threads + Sync, D: Disk>(
    rt: &R,
    alloc: Global,
    disk: &mut D,
) -> Result<u64, Fault> {
    let image = load(alloc, disk)?;
    let from = disk.moment();
    mend(rt, alloc, disk, &image)?;
    Ok(from)
}

impl Volume {
    /// Makes a volume of no blocks.
    pub fn new(alloc: Global) -> Volume {
        Volume {
            blocks: Vec::new(alloc),
            kept: Vec::new(alloc),
        }
    }

    /// Makes a volume of `blocks` zero blocks.
    pub fn disk(&mut self, alloc: Global, blocks: u32) -> Result<(), Fault> {
        self.blocks = vec![in alloc; Block::zero(); blocks as usize]?;
        Ok(())
    }

    /// Puts these bytes into a block, beginning at a place.
    pub fn put(&mut self, block: u32, place: u32, bytes: &[u8]) -> Result<(), Fault> {
        let Some(old) = self.blocks.get_mut(block as usize) else {
            return Err(Fault::Place);
        };
        let mut new = *old.bytes();
        for (byte, put) in new.iter_mut().skip(place as usize).zip(bytes.iter()) {
            *byte = *put;
        }
        *old = Block::of(new);
        Ok(())
    }

    /// Copies a block to another.
    pub fn copy(&mut self, from: u32, to: u32) -> Result<(), Fault> {
        let Some(content) = self.blocks.get(from as usize).copied() else {
            return Err(Fault::Place);
        };
        let Some(block) = self.blocks.get_mut(to as usize) else {
            return Err(Fault::Place);
        };
        *block = content;
        Ok(())
    }

    /// Remembers the blocks.
    pub fn keep(&mut self, alloc: Global) -> Result<(), Fault> {
        self.kept = copies(alloc, &self.blocks)?;
        Ok(())
    }

    /// Puts the remembered blocks back.
    pub fn again(&mut self, alloc: Global) -> Result<(), Fault> {
        self.blocks = copies(alloc, &self.kept)?;
        Ok(())
    }

    fn count(&self) -> Result<u32, Fault> {
        match u32::try_from(self.blocks.len()) {
            Ok(blocks) => Ok(blocks),
            Err(_) => Err(Fault::Large),
        }
    }

    fn put_on(&self, disk: &mut MemoryDisk) -> Result<(), Fault> {
        for at in 0..disk.blocks() {
            if let Some(block) = self.blocks.get(at as usize) {
                put_block(disk, at, block)?;
            }
        }
        disk.barrier()?;
        Ok(())
    }

    /// Returns a disk that holds the volume.
    fn mounted(&self, alloc: Global) -> Result<MemoryDisk, Fault> {
        let mut disk = MemoryDisk::new(alloc, self.count()?)?;
        self.put_on(&mut disk)?;
        Ok(disk)
    }

    /// Returns a disk that holds the volume, and records its calls.
    pub fn recorded(&self, alloc: Global) -> Result<MemoryDisk, Fault> {
        let mut disk = MemoryDisk::recording(alloc, self.count()?, Vec::new(alloc))?;
        self.put_on(&mut disk)?;
        Ok(disk)
    }

    /// Checks the volume.
    pub fn check<R: Threads + Sync>(&self, rt: &R, alloc: Global) -> Result<Checked, Fault> {
        let mut disk = self.mounted(alloc)?;
        let image = load(alloc, &mut disk)?;
        Ok(report(rt, alloc, &image)?)
    }

    /// Mends the volume.
    pub fn mend<R: Threads + Sync>(&mut self, rt: &R, alloc: Global) -> Result<(), Fault> {
        let mut disk = self.mounted(alloc)?;
        mend_disk(rt, alloc, &mut disk)?;
        self.blocks = blocks_of(alloc, &mut disk)?;
        Ok(())
    }
}
