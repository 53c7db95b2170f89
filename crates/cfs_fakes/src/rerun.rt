//! Calls made again, up to a crash.
ghost use Rattle.std.specs.Prelude.{◌≡◌, length, IfOk};
ghost use Rattle.cfs_base.specs.Replay.{after_before};
ghost use Rattle.cfs_fakes.specs.Picks.{choice_of, IsWanted};
ghost use Rattle.cfs_fakes.specs.Replay.{DiskState, zeros, after, made, made_at, replayed_calls, choices_of, IsChoice};

use crate::kept::{Call, KeptCall, Pick};
use crate::store::Store;
use cfs_base::Block;
use std::alloc::{AllocError, Global};

/// A disk on which the calls are made again, and the image that a crash then leaves.
#[derive(Drop)]
struct Rerun {
    content: Store,
    image: Store,
    /// Which write a crash leaves, for each block.
    wanted: Vec<u32>,
    /// How many writes are to come until that one, for each block.
    left: Vec<u32>,
    ghost image_size: { length image ≡ length content },
    ghost wanted_size: { length wanted.items ≡ length content },
    ghost left_size: { length left.items ≡ length content },
}

impl Rerun {
    ghost use Rattle.std.specs.Prelude.{[], replicate, List};
    ghost use Rattle.cfs_fakes.specs.Rerun.{Follows};

    /// Begins with a disk and an image of zeros.
    fn new(alloc: Global, blocks: u32, picks: &[Pick]) -> Result<Rerun, AllocError>
        ensures zeros { IfOk result (λ r. Follows r (zeros blocks)) }
        ensures wanted { IfOk result (λ r. IsWanted r.wanted.items picks.now blocks) }
        ensures size { IfOk result (λ r. length r.wanted.items ≡ blocks) }
    {
        let content = Store::zeros(alloc, blocks)?;
        let image = Store::zeros(alloc, blocks)?;
        let wanted = choices(alloc, blocks, picks)?;
        let left = wanted.clone()?;
        Ok(Rerun {
            content,
            image,
            wanted,
            left,
        })
    }

    /// Makes the call again if it was made before this moment.
    fn make_before(&mut self, at: u64, kept: &KeptCall)
        ensures follows { (s : DiskState) → Follows self.old s
            → Follows self.new (after_before made_at made at kept.now s) }
        ensures wanted { self.new.wanted ≡ self.old.wanted }
    {
        if kept.moment < at {
            match &kept.call {
                Call::Write(n, block, done) => self.write(*n, block, *done),
                Call::Barrier => self.barrier(),
            }
        }
    }

    fn write(&mut self, at: u32, block: &Block, done: bool)
        ensures follows { (s : DiskState) → Follows self.old s
            → Follows self.new (after (Call.Write at block.now done) s) }
        ensures wanted { self.new.wanted ≡ self.old.wanted }
    {
        if at >= self.content.count() {
            return;
        }
        if done {
            self.content.write(at, block);
        }
        let left = self.left[at as usize];
        if left > 0 {
            self.left[at as usize] = left - 1;
            self.image.write(at, block);
        }
    }

    fn barrier(&mut self)
        ensures follows { (s : DiskState) → Follows self.old s → Follows self.new (after Call.Barrier s) }
        ensures wanted { self.new.wanted ≡ self.old.wanted }
    {
        self.image.copy_from(&self.content);
        self.left.copy_from_slice(&self.wanted);
    }
}

// the choice for each block
fn choices(alloc: Global, blocks: u32, picks: &[Pick]) -> Result<Vec<u32>, AllocError>
    ensures wanted { IfOk result (λ v. IsWanted v.items picks.now blocks) }
    ensures size { IfOk result (λ v. length v.items ≡ blocks) }
{
    let mut wanted = vec![in alloc; 0u32; blocks as usize]?;
    for i in (0..picks.len()).rev() {
        let pick = picks[i];
        if pick.block < blocks {
            wanted[pick.block as usize] = pick.choice;
        }
    }
    Ok(wanted)
}

// how many writes to the block wait, after one more call if that was made before this moment
fn waiting_after(count: u32, kept: &KeptCall, at: u64, block: u32) -> u32
    ensures { (s : DiskState) → count ≡ choices_of s block
        → result ≡ choices_of (after_before made_at made at kept.now s) block }
{
    if kept.moment >= at {
        return count;
    }
    match &kept.call {
        Call::Write(n, _, _) => {
            if *n == block {
                count.saturating_add(1)
            } else {
                count
            }
        }
        Call::Barrier => 0,
    }
}

/// Returns how many choices a crash at this moment has for a block, beside 0.
///
/// The disk was one of zeros, on which these calls were made.
pub fn choices_at(blocks: u32, calls: &[KeptCall], at: u64, block: u32) -> u32
    ensures { result ≡ choices_of (replayed_calls (zeros blocks) at calls.now) block }
{
    let mut count = 0u32;
    for kept in calls {
        count = waiting_after(count, kept, at, block);
    }
    count
}

/// Returns the image that a crash at this moment leaves of a disk of zeros on which these calls were made.
pub fn image_at(
    alloc: Global,
    blocks: u32,
    calls: &[KeptCall],
    at: u64,
    picks: &[Pick],
) -> Result<Store, AllocError>
    ensures { IfOk result (λ image. IsChoice (replayed_calls (zeros blocks) at calls.now) (choice_of picks.now) image) }
{
    let mut rerun = Rerun::new(alloc, blocks, picks)?;
    for kept in calls {
        rerun.make_before(at, kept);
    }
    Ok(rerun.image)
}
