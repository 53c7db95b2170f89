//! A disk of blocks, as the server calls it: what it holds, and what a crash may leave of it.
ghost use Rattle.std.specs.Prelude.{◌≡◌, ◌≢◌, ◌⊎◌, ◌<◌, ℕ, Bool, false, List, [], length, set};
ghost use Rattle.std.specs.Prelude.{IsErr, IsTrue, OnErr, OnOk};
ghost use Rattle.cfs_base.specs.Disk.{AreBlocks, IsSameDisk, CountsRead, CountsTry, block_at};
ghost use Rattle.cfs_base.specs.Disk.{Nothing, Written, Only, LeavesOnly, KeepsLeft};

use crate::{Block, BlockNo, Failed};

/// A disk of blocks that are numbered from 0.
///
/// A block is written whole or not at all. After a crash each block, whatever the others hold, has the content of the
/// last barrier that was done, or that of some write since then, even of a write that failed.
///
/// A disk need not tell its content and its images. One that gives no `honest`, `content`, `told`, `tells_images` and
/// `left_since` tells neither: it counts its calls and promises nothing more.
pub trait Disk {
    /// The number of blocks.
    ghost blocks: { Self → ℕ };

    /// Whether the disk tells its content.
    ghost honest: { Self → Bool } = { λ _. false };

    /// What each block holds. A block that isn't told holds it after the next barrier that is done.
    ghost content: { Self → List (List ℕ) } = { λ _. [] };

    /// Whether a read of this block gives its content.
    ///
    /// After a write that failed it need not, until a barrier is done.
    ghost told: { Self → ℕ → Bool } = { λ _ _. false };

    /// Whether the disk tells its crash images.
    ghost tells_images: { Self → Bool } = { λ _. false };

    /// The images that a crash may have left at some moment since this one.
    ///
    /// A disk that doesn't tell its images has none here.
    ghost left_since: { Self → ℕ → List (List ℕ) → Type 0 } = { λ _ _ _. ⊥ };

    /// A clock, which never falls.
    ///
    /// Writes, barriers and calls that fail raise it, up to the last number of a u64.
    ghost moment: { Self → ℕ };

    /// How many reads, writes and barriers were called, up to the last number of a u64.
    ghost calls: { Self → ℕ };

    /// How many writes and barriers were called, up to the last number of a u64.
    ghost tries: { Self → ℕ };

    /// How many calls failed.
    ghost faults: { Self → ℕ };

    /// Returns the number of blocks.
    fn blocks(&self) -> u32
        ensures { result ≡ blocks self.now };

    /// Returns the disk's clock.
    fn moment(&self) -> u64
        ensures { result ≡ moment self.now };

    /// Returns the number of calls.
    fn calls(&self) -> u64
        ensures { result ≡ calls self.now };

    /// Reads a block.
    ///
    /// A read that fails may leave anything in `into`.
    fn read(&mut self, at: BlockNo, into: &mut Block) -> Result<(), Failed>
        requires { at.0 < blocks self.old }
        ensures bytes { OnOk result (IsTrue (told self.old at.0) → into.new ≡ block_at (content self.old) at.0) }
        ensures content { content self.new ≡ content self.old }
        ensures told { (n : ℕ) → IsTrue (told self.old n) → IsTrue (told self.new n) }
        ensures images { LeavesOnly moment left_since self.old self.new Nothing }
        ensures keeps { KeepsLeft moment left_since self.old self.new }
        ensures same { IsSameDisk blocks honest tells_images self.old self.new }
        ensures counts { CountsRead moment calls tries faults self.old self.new (IsErr result) };

    /// Writes a block.
    ///
    /// After a write that failed the block has its old or its new content, and isn't told.
    fn write(&mut self, at: BlockNo, from: &Block) -> Result<(), Failed>
        requires { at.0 < blocks self.old }
        ensures written { OnOk result (content self.new ≡ set (content self.old) at.0 from.now) }
        ensures either { OnErr result ((content self.new ≡ content self.old)
            ⊎ (content self.new ≡ set (content self.old) at.0 from.now)) }
        ensures told { OnOk result ((n : ℕ) → IsTrue (told self.old n) → IsTrue (told self.new n)) }
        ensures told_others { (n : ℕ) → n ≢ at.0 → IsTrue (told self.old n) → IsTrue (told self.new n) }
        ensures images { LeavesOnly moment left_since self.old self.new
            (Written (left_since self.old (moment self.old)) at.0 from.now) }
        ensures keeps { KeepsLeft moment left_since self.old self.new }
        ensures same { IsSameDisk blocks honest tells_images self.old self.new }
        ensures counts { CountsTry moment calls tries faults tells_images self.old self.new (IsErr result) };

    /// Makes the writes before it survive a crash.
    ///
    /// A barrier that fails promises nothing of them.
    fn barrier(&mut self) -> Result<(), Failed>
        ensures content { content self.new ≡ content self.old }
        ensures told { (n : ℕ) → IsTrue (told self.old n) → IsTrue (told self.new n) }
        ensures all_told { OnOk result (IsTrue (honest self.old) → (n : ℕ) → IsTrue (told self.new n)) }
        ensures durable { OnOk result (Only (content self.new) (left_since self.new (moment self.new))) }
        ensures images { LeavesOnly moment left_since self.old self.new Nothing }
        ensures keeps { KeepsLeft moment left_since self.old self.new }
        ensures same { IsSameDisk blocks honest tells_images self.old self.new }
        ensures counts { CountsTry moment calls tries faults tells_images self.old self.new (IsErr result) };

    /// Only an honest disk tells a block.
    ghost only_honest: { (d : Self) (n : ℕ) → IsTrue (told d n) → IsTrue (honest d) };

    /// The content of an honest disk has as many blocks as the disk.
    ghost sized: { (d : Self) → IsTrue (honest d) → length (content d) ≡ blocks d };

    /// Each block of the content of an honest disk has 512 bytes.
    ghost of_blocks: { (d : Self) → IsTrue (honest d) → AreBlocks (content d) };

    /// An image that a crash leaves has as many blocks as the disk.
    ghost left_sized: { (d : Self) (t : ℕ) (c : List (List ℕ)) → left_since d t c → length c ≡ blocks d };
}
