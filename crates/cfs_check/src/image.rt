//! The image of a volume, in memory.
ghost use Rattle.std.specs.Prelude.{◌≡◌, ◌≢◌, ◌+◌, ◌<◌, ◌≤◌, Err, IfErr, IfOk, IsTrue, OnErr, OnOk, length, take};
ghost use Rattle.cfs_base.specs.Calls.{HasFailed, MakesAtMost, OnlyReads};
ghost use Rattle.cfs_base.specs.Disk.{block_at};
ghost use Rattle.cfs_base.specs.Run.{IsSettled, Tells};
ghost use Rattle.cfs_check.specs.Loaded.{IsLoadFault};
ghost use Rattle.cfs_check.specs.Sized.{AreSized, word_in};
ghost use Rattle.cfs_recover.specs.Recovered.{IsUntouched};

use crate::fault::LoadFault;
use cfs_base::{Block, BlockNo, Disk, Failed};
use std::alloc::Global;
use std::marker::Model;

/// The number of blocks of the largest volume that is loaded.
pub const MOST_BLOCKS: u32 = 524_288;

/// The place in a root block of its word.
const WORD_AT: usize = 4;

/// What each block of a disk holds. Contracts see the list of the blocks.
#[derive(Debug, Drop)]
pub struct Image {
    blocks: Vec<Block>,
    /// For each block the word that it has if it is a root.
    words: Vec<u32>,
}

impl Model for Image {
    ghost use Rattle.std.specs.Prelude.{List, ℕ};
    ghost use Rattle.cfs_check.specs.Sized.{IsLoadedImage};

    ghost Value = { List (List ℕ) };

    ghost view = { λ a. a.blocks.items };

    ghost invariant = { λ a. IsLoadedImage a.blocks.items a.words.items };
}

impl Image {
    /// Returns the number of blocks.
    pub fn blocks(&self) -> u32
        ensures is { result ≡ length self.now }
        ensures most { length self.now ≤ 524288 }
        ensures whole { AreSized self.now }
    {
        self.blocks.len() as u32
    }

    /// Returns a block.
    pub fn block(&self, at: u32) -> &Block
        requires { at < length self.now }
        ensures { result.now ≡ block_at self.now at }
    {
        &self.blocks[at as usize]
    }

    /// Returns the word that a block has if it is a root.
    ///
    /// The words are kept beside the blocks, close together.
    pub(crate) fn word(&self, at: u32) -> u32
        requires { at < length self.now }
        ensures { result ≡ word_in (block_at self.now at) }
    {
        self.words[at as usize]
    }
}

/// Reads a block.
fn read_block<D: Disk>(disk: &mut D, at: u32) -> Result<Block, Failed>
    requires { at < D.blocks disk.old }
    ensures told { Tells D.Disk disk.old → IfOk result (λ block. block ≡ block_at (D.content disk.old) at) }
    ensures whole { IfOk result (λ block. length block ≡ 512) }
    ensures cause { OnErr result (HasFailed D.Disk disk.old disk.new) }
    ensures reads { OnlyReads D.Disk 1 disk.old disk.new }
{
    let mut block = Block::zero();
    disk.read(BlockNo(at), &mut block)?;
    prove!(block.bytes().len() == 512);
    Ok(block)
}

/// Reads all blocks, with one read each.
fn read_all<D: Disk>(alloc: Global, disk: &mut D) -> Result<Image, LoadFault>
    requires few { D.blocks disk.old ≤ 524288 }
    ensures told { Tells D.Disk disk.old
        → IfOk result (λ image. image ≡ take (D.blocks disk.old) (D.content disk.old)) }
    ensures size { IfOk result (λ image. length image ≡ D.blocks disk.old) }
    ensures cause { IfErr result (IsLoadFault D.Disk disk.old disk.new) }
    ensures reads { OnlyReads D.Disk (D.blocks disk.old) disk.old disk.new }
{
    let count = disk.blocks();
    let mut blocks = Vec::with_capacity(alloc, count as usize)?;
    let mut words = Vec::with_capacity(alloc, count as usize)?;
    for at in 0..count {
        let block = read_block(disk, at)?;
        words.push(block.u32_at(WORD_AT))?;
        blocks.push(block)?;
    }
    Ok(Image { blocks, words })
}

/// Loads the image of a volume: makes a barrier, and reads each block once.
///
/// Nothing is written. Refused for more than 524,288 blocks before any call, for a call that failed, or for want of
/// memory.
pub fn load<D: Disk>(alloc: Global, disk: &mut D) -> Result<Image, LoadFault>
    ensures content { IsTrue (D.honest disk.old) → IfOk result (λ image. image ≡ D.content disk.new) }
    ensures size { IfOk result (λ image. length image ≡ D.blocks disk.old) }
    ensures settled { IsTrue (D.honest disk.old) → OnOk result (IsSettled D.Disk disk.new) }
    ensures large { 524288 < D.blocks disk.old
        → (result ≡ Err (LoadFault.Large (D.blocks disk.old))) × (disk.new ≡ disk.old) }
    ensures untouched { IsUntouched D.Disk disk.old disk.new }
    ensures cause { IfErr result (IsLoadFault D.Disk disk.old disk.new) }
    ensures calls { MakesAtMost D.Disk (D.blocks disk.old + 1) 1 disk.old disk.new }
{
    let count = disk.blocks();
    if count > MOST_BLOCKS {
        return Err(LoadFault::Large { blocks: count });
    }
    disk.barrier()?;
    let image = read_all(alloc, disk)?;
    Ok(image)
}
