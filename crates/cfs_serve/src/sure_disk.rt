//! The disk of a volume in memory.
ghost use Rattle.std.specs.Prelude.{◌≡◌, true, IfOk, refl};
ghost use Rattle.std.proofs.Common.{◌∙◌};
ghost use Rattle.cfs_fakes.specs.Sizes.{left_size};
ghost use Rattle.cfs_serve.specs.SureDisk.{IsSure};

use cfs_base::{Block, BlockNo, Disk, Failed, NoMemory};
use cfs_fakes::MemoryDisk;
use std::alloc::Global;

/// A disk in memory of which no call fails, so its count of faults is 0.
#[derive(Debug, Drop)]
pub(crate) struct SureDisk {
    disk: MemoryDisk,
    ghost sure: { IsSure disk },
}

impl Disk for SureDisk {
    ghost blocks = { λ d. ⟦<MemoryDisk as Disk>⟧.blocks d.disk };

    ghost honest = { λ d. true };

    ghost content = { λ d. ⟦<MemoryDisk as Disk>⟧.content d.disk };

    ghost told = { λ d n. true };

    ghost tells_images = { λ d. ⟦<MemoryDisk as Disk>⟧.tells_images d.disk };

    ghost left_since = { λ d. ⟦<MemoryDisk as Disk>⟧.left_since d.disk };

    ghost moment = { λ d. ⟦<MemoryDisk as Disk>⟧.moment d.disk };

    ghost calls = { λ d. ⟦<MemoryDisk as Disk>⟧.calls d.disk };

    ghost tries = { λ d. ⟦<MemoryDisk as Disk>⟧.tries d.disk };

    ghost faults = { λ d. 0 };

    ghost only_honest = { λ d n told. told };

    ghost sized = { λ d honest. refl };

    ghost of_blocks = { λ d honest. d.disk.blocks };

    ghost left_sized = { λ d t c left. left_size d.disk.recorder t c left ∙ d.disk.size };

    fn blocks(&self) -> u32 {
        self.disk.blocks()
    }

    fn moment(&self) -> u64 {
        self.disk.moment()
    }

    fn calls(&self) -> u64 {
        self.disk.calls()
    }

    fn read(&mut self, at: BlockNo, into: &mut Block) -> Result<(), Failed> {
        match self.disk.read(at, into) {
            Ok(()) => Ok(()),
            Err(_) => unreachable!(),
        }
    }

    fn write(&mut self, at: BlockNo, from: &Block) -> Result<(), Failed> {
        match self.disk.write(at, from) {
            Ok(()) => Ok(()),
            Err(_) => unreachable!(),
        }
    }

    fn barrier(&mut self) -> Result<(), Failed> {
        match self.disk.barrier() {
            Ok(()) => Ok(()),
            Err(_) => unreachable!(),
        }
    }
}

impl SureDisk {
    /// Makes a disk of `blocks` zero blocks.
    pub fn new(alloc: Global, blocks: u32) -> Result<SureDisk, NoMemory>
        ensures { IfOk result (λ d. ⟦<SureDisk as Disk>⟧.blocks d ≡ blocks) }
    {
        let disk = MemoryDisk::new(alloc, blocks)?;
        Ok(SureDisk { disk })
    }
}
