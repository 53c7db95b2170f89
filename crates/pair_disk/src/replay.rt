//! Kept calls, made again up to a crash.
ghost use Rattle.std.specs.Prelude.{◌≡◌, ◌<◌, IsTrue, length, set};
ghost use Rattle.cfs_base.specs.Disk.{AreBlocks, IsBlock};
ghost use Rattle.cfs_base.specs.Replay.{after_before};
ghost use Rattle.pair_disk.specs.Replay.{IsTornImage, TornState, torn_by, call_moment, may_tear, picked};

use crate::kept::{Call, KeptCall, TornPick};
use crate::store::put;
use cfs_base::Block;

/// Returns the content at the last barrier, after this call if it was made before the moment.
pub fn base_after<'a>(base: &'a Vec<Block>, kept: &'a KeptCall, at: u64) -> &'a Vec<Block>
    ensures { (s : TornState) → base.now.items ≡ s.base
        → result.now.items ≡ (after_before call_moment torn_by at kept.now s).base }
{
    match &kept.call {
        Call::Barrier(blocks) if kept.moment < at => blocks,
        _ => base,
    }
}

/// Returns whether a block was written since the last barrier, after this call if it was made before the moment.
pub fn torn_after(torn: bool, kept: &KeptCall, at: u64, block: u32) -> bool
    ensures { (s : TornState) → torn ≡ s.torn block
        → result ≡ (after_before call_moment torn_by at kept.now s).torn block }
{
    if kept.moment >= at {
        return torn;
    }
    match &kept.call {
        Call::Write(n) => block == *n || torn,
        Call::Barrier(_) => false,
    }
}

/// Puts one pick into the content, if its block is on the disk.
fn put_pick(content: &mut Vec<Block>, pick: &TornPick)
    ensures put { content.new.items ≡ set content.old.items pick.now.block pick.now.content }
    ensures block { pick.now.block < length content.old.items → IsBlock pick.now.content }
{
    if (pick.block as usize) < content.len() {
        put(content, pick.block, pick.content.bytes());
    }
}

/// Puts the picks into the content at the last barrier.
///
/// Of two picks of a block the later one counts.
pub fn tear(content: &mut Vec<Block>, picks: &[TornPick])
    ensures picked { content.new.items ≡ picked content.old.items picks.now }
    ensures allowed { (s : TornState) → IsTornImage s content.old.items → IsTrue (may_tear s picks.now)
        → IsTornImage s content.new.items }
    ensures size { length content.new.items ≡ length content.old.items }
    ensures blocks { AreBlocks content.old.items → AreBlocks content.new.items }
{
    for pick in picks {
        put_pick(content, pick);
    }
}
