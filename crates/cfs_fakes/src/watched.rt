//! A disk that counts its calls by their sort, and tells nothing.
ghost use Rattle.std.specs.Prelude.{◌≡◌, ◌<◌};

use cfs_base::{Block, BlockNo, Disk, Failed};

/// The calls since the last look.
///
/// It tells 128 blocks apart.
#[derive(Clone, Copy, Debug)]
pub struct Seen {
    /// Reads of maps, and of other blocks.
    pub reads: [u32; 2],
    /// Writes of maps, and of other blocks.
    pub writes: [u32; 2],
    /// Barriers.
    pub barriers: u32,
    /// How many reads came before the first write or barrier.
    pub untried: u32,
    /// Whether a block other than a map was read twice.
    pub is_twice: bool,
    was_read: [bool; 128],
}

/// 0 for a map, 1 for another block.
fn sort_of(at: BlockNo) -> usize
    ensures { result < 2 }
{
    (at.0 % 64 != 0) as usize
}

impl Seen {
    /// Returns the record of no calls.
    pub fn nothing() -> Seen {
        Seen {
            reads: [0; 2],
            writes: [0; 2],
            barriers: 0,
            untried: 0,
            is_twice: false,
            was_read: [false; 128],
        }
    }

    fn read(&mut self, at: BlockNo) {
        let sort = sort_of(at);
        let block = at.0 as usize % 128;
        if self.writes == [0; 2] && self.barriers == 0 {
            self.untried = self.untried.saturating_add(1);
        }
        self.reads[sort] = self.reads[sort].saturating_add(1);
        self.is_twice = self.is_twice || self.was_read[block] && sort == 1;
        self.was_read[block] = true;
    }

    fn write(&mut self, at: BlockNo) {
        let sort = sort_of(at);
        self.writes[sort] = self.writes[sort].saturating_add(1);
    }
}

/// A disk over another one. It counts as that one does, and tells neither content nor crash images.
#[derive(Debug, Drop)]
pub struct Watched<D> {
    pub lower: D,
    pub seen: Seen,
}

impl<D: Disk> Disk for Watched<D> {
    ghost blocks = { λ d. D.blocks d.lower };

    ghost moment = { λ d. D.moment d.lower };

    ghost calls = { λ d. D.calls d.lower };

    ghost tries = { λ d. D.tries d.lower };

    ghost faults = { λ d. D.faults d.lower };

    ghost only_honest = { λ d n told. told };

    ghost sized = { λ d honest. Prim.cc };

    ghost of_blocks = { λ d honest. Prim.cc };

    ghost left_sized = { λ d t c left. absurd left };

    fn blocks(&self) -> u32 {
        self.lower.blocks()
    }

    fn moment(&self) -> u64 {
        self.lower.moment()
    }

    fn calls(&self) -> u64 {
        self.lower.calls()
    }

    fn read(&mut self, at: BlockNo, into: &mut Block) -> Result<(), Failed> {
        self.seen.read(at);
        self.lower.read(at, into)
    }

    fn write(&mut self, at: BlockNo, from: &Block) -> Result<(), Failed> {
        self.seen.write(at);
        self.lower.write(at, from)
    }

    fn barrier(&mut self) -> Result<(), Failed> {
        self.seen.barriers = self.seen.barriers.saturating_add(1);
        self.lower.barrier()
    }
}

impl<D> Watched<D> {
    /// Makes a disk over this one. No call was made on it yet.
    pub fn new(lower: D) -> Watched<D>
        ensures { result.lower ≡ lower }
    {
        Watched {
            lower,
            seen: Seen::nothing(),
        }
    }
}
