//! A disk whose writes may tear.
ghost use Rattle.std.specs.Prelude.{◌≡◌, ◌≢◌, ◌-◌, ◌^◌, ◌<◌, ◌≤◌, ℕ, Bool, false, List, [], length, set};
ghost use Rattle.std.specs.Prelude.{IsErr, IsTrue, OnErr, OnOk};
ghost use Rattle.cfs_base.specs.Disk.{AreBlocks, IsSameDisk, CountsRead, CountsTry, block_at};
ghost use Rattle.cfs_base.specs.Disk.{Nothing, Only, LeavesOnly, KeepsLeft};
ghost use Rattle.pair_disk.specs.Torn.{Torn, TornAt};

use cfs_base::{Block, BlockNo, Failed};

/// A disk of blocks that are numbered from 0, and that a crash may tear.
///
/// After a crash each block that was written since the last barrier that was done, even by a write that failed, holds
/// any bytes. All others hold what they held at that barrier. A block whose write failed may read as any bytes until
/// a barrier is done.
///
/// A disk need not tell its content and its images. One that gives no `honest`, `content`, `told`, `tells_images` and
/// `left_since` tells neither: it counts its calls and promises nothing more.
pub trait TornDisk {
    /// The number of blocks.
    ghost blocks: { Self → ℕ };

    /// Whether the disk tells its content.
    ghost honest: { Self → Bool } = { λ _. false };

    /// What each block holds. A block that isn't told holds it after the next barrier that is done.
    ghost content: { Self → List (List ℕ) } = { λ _. [] };

    /// Whether a read of this block gives its content.
    ///
    /// After a write that failed it need not, until a barrier is done.
    ghost told: { Self → ℕ → Bool } = { λ _ _. false };

    /// Whether the disk tells its crash images.
    ghost tells_images: { Self → Bool } = { λ _. false };

    /// The images that a crash may have left at some moment since this one.
    ///
    /// A disk that doesn't tell its images has none here.
    ghost left_since: { Self → ℕ → List (List ℕ) → Type 0 } = { λ _ _ _. ⊥ };

    /// A clock, which never falls.
    ///
    /// Writes, barriers and calls that fail raise it, up to the last number of a u64.
    ghost moment: { Self → ℕ };

    /// How many reads, writes and barriers were called, up to the last number of a u64.
    ghost calls: { Self → ℕ };

    /// How many writes and barriers were called, up to the last number of a u64.
    ghost tries: { Self → ℕ };

    /// How many calls failed.
    ghost faults: { Self → ℕ };

    /// Returns the number of blocks.
    fn blocks(&self) -> u32
        ensures { result ≡ blocks self.now };

    /// Returns the disk's clock.
    fn moment(&self) -> u64
        ensures { result ≡ moment self.now };

    /// Returns the number of calls.
    fn calls(&self) -> u64
        ensures { result ≡ calls self.now };

    /// Reads a block.
    ///
    /// A read that fails may leave anything in `into`.
    fn read(&mut self, at: BlockNo, into: &mut Block) -> Result<(), Failed>
        requires { at.0 < blocks self.old }
        ensures bytes { OnOk result (IsTrue (told self.old at.0) → into.new ≡ block_at (content self.old) at.0) }
        ensures content { content self.new ≡ content self.old }
        ensures told { (n : ℕ) → IsTrue (told self.old n) → IsTrue (told self.new n) }
        ensures images { LeavesOnly moment left_since self.old self.new Nothing }
        ensures keeps { KeepsLeft moment left_since self.old self.new }
        ensures same { IsSameDisk blocks honest tells_images self.old self.new }
        ensures counts { CountsRead moment calls tries faults self.old self.new (IsErr result) };

    /// Writes a block.
    ///
    /// After a write that failed the block has any bytes, and isn't told. Until a barrier is done a crash may leave
    /// any bytes in it.
    fn write(&mut self, at: BlockNo, from: &Block) -> Result<(), Failed>
        requires { at.0 < blocks self.old }
        ensures written { OnOk result (content self.new ≡ set (content self.old) at.0 from.now) }
        ensures torn { OnErr result (IsTrue (honest self.old) → TornAt at.0 (content self.old) (content self.new)) }
        ensures told { OnOk result ((n : ℕ) → IsTrue (told self.old n) → IsTrue (told self.new n)) }
        ensures told_others { (n : ℕ) → n ≢ at.0 → IsTrue (told self.old n) → IsTrue (told self.new n) }
        ensures images { LeavesOnly moment left_since self.old self.new
            (Torn (left_since self.old (moment self.old)) at.0) }
        ensures keeps { KeepsLeft moment left_since self.old self.new }
        ensures same { IsSameDisk blocks honest tells_images self.old self.new }
        ensures counts { CountsTry moment calls tries faults tells_images self.old self.new (IsErr result) };

    /// Makes the writes before it survive a crash.
    ///
    /// A barrier that fails promises nothing of them.
    fn barrier(&mut self) -> Result<(), Failed>
        ensures content { content self.new ≡ content self.old }
        ensures told { (n : ℕ) → IsTrue (told self.old n) → IsTrue (told self.new n) }
        ensures all_told { OnOk result (IsTrue (honest self.old) → (n : ℕ) → IsTrue (told self.new n)) }
        ensures durable { OnOk result (Only (content self.new) (left_since self.new (moment self.new))) }
        ensures images { LeavesOnly moment left_since self.old self.new Nothing }
        ensures keeps { KeepsLeft moment left_since self.old self.new }
        ensures same { IsSameDisk blocks honest tells_images self.old self.new }
        ensures counts { CountsTry moment calls tries faults tells_images self.old self.new (IsErr result) };

    /// Only an honest disk tells a block.
    ghost only_honest: { (d : Self) (n : ℕ) → IsTrue (told d n) → IsTrue (honest d) };

    /// The content of an honest disk has as many blocks as the disk.
    ghost sized: { (d : Self) → IsTrue (honest d) → length (content d) ≡ blocks d };

    /// Each block of the content of an honest disk has 512 bytes.
    ghost of_blocks: { (d : Self) → IsTrue (honest d) → AreBlocks (content d) };

    /// An image that a crash leaves has as many blocks as the disk.
    ghost left_sized: { (d : Self) (t : ℕ) (c : List (List ℕ)) → left_since d t c → length c ≡ blocks d };

    /// If the disk tells its images, a crash now may leave its content.
    ghost may_stay: { (d : Self) (t : ℕ) → IsTrue (tells_images d) → t ≤ moment d → left_since d t (content d) };

    /// The clock of a disk that tells its images is a u64.
    ghost clocked: { (d : Self) → IsTrue (tells_images d) → moment d ≤ 2 ^ 64 - 1 };
}
