//! A disk in memory that may tear its blocks.
ghost use Rattle.std.specs.Prelude.{◌≡◌, ◌≤◌, ℕ, IsTrue, true, false, [], length, replicate, IfOk};
ghost use Rattle.std.proofs.Common.{◌∙◌, sym};
ghost use Rattle.cfs_base.specs.Disk.{AreBlocks, block_at};
ghost use Rattle.cfs_base.specs.Outside.{Rose, count_after};
ghost use Rattle.pair_disk.specs.History.{history_clock, history_left, count_of, torn_state_at, torn_now};
ghost use Rattle.pair_disk.specs.Replay.{may_tear, picked};
ghost use Rattle.pair_disk.specs.Stays.{stays_image};

use crate::TornDisk;
use crate::history::History;
use crate::kept::{Call, TornPick};
use crate::replay::tear;
use crate::store::{copy, put};
use cfs_base::{Block, BlockNo, Failed, NoMemory};
use std::alloc::Global;

/// A disk in memory whose blocks a crash may tear. It tells its content and its crash images.
///
/// The calls at the listed moments fail, and write nothing, though a crash may leave any bytes of a block whose write
/// failed. The disk also fails at a write or barrier that it can't keep for want of memory, and at each of them once
/// its clock has reached its end.
#[derive(Drop)]
pub struct TornMemory {
    count: u32,
    content: Vec<Block>,
    listed: Vec<u64>,
    history: History,
    tries: u64,
    faults: u64,
    ghost counted: { length content.items ≡ count },
    ghost size: { count_of history ≡ length content.items },
    ghost blocks: { AreBlocks content.items },
    ghost held: { (n : ℕ) → (torn_now history).torn n ≡ false
        → block_at content.items n ≡ block_at (torn_now history).base n },
}

/// Counts a call that fails, and returns its error.
fn failed(faults: &mut u64) -> Failed
    ensures rose { Rose faults.old faults.new }
    ensures no_fewer { faults.old ≤ faults.new }
{
    *faults = faults.saturating_add(1);
    Failed
}

impl TornDisk for TornMemory {
    ghost blocks = { λ d. d.count };

    ghost honest = { λ d. true };

    ghost content = { λ d. d.content.items };

    ghost told = { λ d n. true };

    ghost tells_images = { λ d. true };

    ghost left_since = { λ d. history_left d.history };

    ghost moment = { λ d. history_clock d.history };

    ghost calls = { λ d. history_clock d.history };

    ghost tries = { λ d. d.tries };

    ghost faults = { λ d. d.faults };

    ghost only_honest = { λ d n told. told };

    ghost sized = { λ d honest. d.counted };

    ghost of_blocks = { λ d honest. d.blocks };

    ghost left_sized = { λ d t c left. left.3.size ∙ (d.history.sized left.0).size ∙ d.size ∙ d.counted };

    ghost may_stay = { λ d t tells early. stays_image d.history d.content.items t early d.size d.blocks d.held };

    ghost clocked = { λ d tells. d.history.clocked };

    fn blocks(&self) -> u32 {
        self.count
    }

    fn moment(&self) -> u64 {
        self.history.moment()
    }

    fn calls(&self) -> u64 {
        self.history.moment()
    }

    fn read(&mut self, at: BlockNo, into: &mut Block) -> Result<(), Failed> {
        let listed = self.is_listed();
        self.history.pass();
        if listed {
            return Err(failed(&mut self.faults));
        }
        *into = self.content[at.0 as usize];
        Ok(())
    }

    fn write(&mut self, at: BlockNo, from: &Block) -> Result<(), Failed> {
        let listed = self.is_listed();
        self.tries = self.tries.saturating_add(1);
        let Ok(()) = self.history.keep(Call::Write(at.0)) else {
            return Err(failed(&mut self.faults));
        };
        if listed {
            return Err(failed(&mut self.faults));
        }
        put(&mut self.content, at.0, from.bytes());
        Ok(())
    }

    fn barrier(&mut self) -> Result<(), Failed> {
        let listed = self.is_listed();
        self.tries = self.tries.saturating_add(1);
        if listed {
            self.history.pass();
            return Err(failed(&mut self.faults));
        }
        let Ok(content) = copy(&self.content) else {
            self.history.pass();
            return Err(failed(&mut self.faults));
        };
        let Ok(()) = self.history.keep(Call::Barrier(content)) else {
            return Err(failed(&mut self.faults));
        };
        Ok(())
    }
}

impl TornMemory {
    ghost use Rattle.pair_disk.specs.Memory.{IsUncalledMemory, torn_content, history_of};

    /// Makes a disk of zero blocks. The call at each of these moments fails.
    pub fn new(alloc: Global, blocks: u32, calls: Vec<u64>) -> Result<TornMemory, NoMemory>
        ensures { IfOk result (λ d. IsUncalledMemory d (replicate blocks (replicate 512 0)) calls.items) }
    {
        let content = vec![in alloc; Block::zero(); blocks as usize]?;
        TornMemory::made(alloc, blocks, content, calls)
    }

    /// Returns whether all these blocks were written since the last barrier before this moment.
    ///
    /// A write that failed counts too.
    pub fn may_tear(&self, at: u64, picks: &[TornPick]) -> bool
        ensures { result ≡ may_tear (torn_state_at (history_of self.now) at) picks.now }
    {
        self.history.may_tear(at, picks)
    }

    /// Returns the disk after a crash at this moment.
    ///
    /// The crash leaves the picked bytes of the blocks that were picked, and of each other block those at the last
    /// barrier. Of two picks of a block the later one counts. The calls of the new disk don't fail.
    pub fn image(&self, alloc: Global, at: u64, picks: &[TornPick]) -> Result<TornMemory, NoMemory>
        requires in_time { at ≤ history_clock (history_of self.now) }
        requires written { IsTrue (may_tear (torn_state_at (history_of self.now) at) picks.now) }
        ensures picked { IfOk result
            (λ d. IsUncalledMemory d (picked (torn_state_at (history_of self.now) at).base picks.now) []) }
        ensures allowed { IfOk result (λ d. history_left (history_of self.now) at (torn_content d)) }
    {
        let mut content = self.history.base(at)?;
        tear(&mut content, picks);
        TornMemory::made(alloc, self.count, content, Vec::new(alloc))
    }

    // the disk on which no call was made yet
    fn made(
        alloc: Global,
        count: u32,
        content: Vec<Block>,
        listed: Vec<u64>,
    ) -> Result<TornMemory, NoMemory>
        requires size { length content.items ≡ count }
        requires blocks { AreBlocks content.items }
        ensures { IfOk result (λ d. IsUncalledMemory d content.items listed.items) }
    {
        let first = copy(&content)?;
        let history = History::new(alloc, first);
        Ok(TornMemory {
            count,
            content,
            listed,
            history,
            tries: 0,
            faults: 0,
        })
    }

    // whether the next call fails
    fn is_listed(&self) -> bool {
        self.listed.contains(&self.history.moment())
    }
}
