//! Leaves that are held, written in place.
ghost use Rattle.std.specs.Prelude.{◌≡◌, ◌≢◌, ◌||◌, ◌<◌, ◌≤◌, ◌+◌, ◌*◌, ◌/◌, ◌-◌, ℕ, false, true, length, IsTrue};
ghost use Rattle.std.specs.Prelude.{IfErr, IfOk, OnOk};
ghost use Rattle.block_tree.specs.Pointers.{leaf_limit, size_limit};
ghost use Rattle.cfs_base.specs.Calls.{HasTried, MakesAtMost, OnlyReads};
ghost use Rattle.cfs_base.specs.Disk.{block_at};
ghost use Rattle.cfs_base.specs.Refusals.{trouble_had_tried};
ghost use Rattle.cfs_base.specs.declared.refusal.Trouble.TheVariants as troubles;
ghost use Rattle.cfs_base.specs.Run.{Tells};
ghost use Rattle.cyl_alloc.specs.Space.{Kept};
ghost use Rattle.leaf_changes.specs.Bytes.{patched as patched_with};
ghost use Rattle.normal_files.specs.Parts.{IsPart, IsReadPart};
ghost use Rattle.ufs_model.specs.Object.{leaves_in};
ghost use Rattle.block_tree.specs.Reads.{HasStoppedBy};
ghost use Rattle.normal_files.specs.Steps.{ComesOrStops, IsAmid, Puts, WritesBlock, told_after};
ghost use Rattle.normal_files.specs.View.{Way};

use crate::part::Part;
use block_tree::read_block;
use cfs_base::{Block, BlockNo, Disk, Trouble};
use leaf_changes::patch_leaf;

/// Writes a block.
pub(crate) fn write_block<D: Disk>(disk: &mut D, block: u32, content: &Block) -> Result<(), Trouble>
    requires { block < D.blocks disk.old }
    ensures writes { WritesBlock D.Disk 1 block content.now disk.old disk.new result }
    ensures failed { IfErr result (λ t. t ≡ troubles.Disk true) }
{
    disk.write(BlockNo(block), content)
        .map_err(|_| Trouble::Disk { tried: true })
}

/// Returns a leaf with the bytes that are written into it.
///
/// The leaf is read only if the bytes leave some of it as it was.
fn patched<D: Disk>(
    disk: &mut D,
    block: u32,
    leaf: u32,
    offset: u64,
    bytes: &[u8],
) -> Result<Block, Trouble>
    requires on_disk { block < D.blocks disk.old }
    requires some { block ≢ 0 }
    requires leaf { leaf < leaf_limit }
    requires inside { offset + length bytes.now ≤ size_limit }
    requires first { offset / 512 ≤ leaf }
    requires last { leaf < leaves_in (offset + length bytes.now) }
    ensures content { Tells D.Disk disk.old → length (block_at (D.content disk.old) block) ≡ 512
        → IfOk result (λ content. content ≡ patched_with leaf offset bytes.now (block_at (D.content disk.old) block)) }
    ensures refused { IfErr result (HasStoppedBy D.Disk disk.old disk.new) }
    ensures untried { IfErr result (λ trouble. trouble_had_tried trouble ≡ false) }
    ensures reads { OnlyReads D.Disk 1 disk.old disk.new }
{
    let from = 512 * leaf as u64;
    if offset <= from && from + 512 <= offset + bytes.len() as u64 {
        let mut content = Block::zero();
        patch_leaf(&mut content, leaf, offset, bytes);
        return Ok(content);
    }
    let mut content = read_block(disk, block, 0)?;
    patch_leaf(&mut content, leaf, offset, bytes);
    Ok(content)
}

/// Writes bytes into a held leaf.
fn put_leaf<D: Disk>(
    disk: &mut D,
    block: u32,
    leaf: u32,
    offset: u64,
    bytes: &[u8],
) -> Result<(), Trouble>
    requires on_disk { block < D.blocks disk.old }
    requires some { block ≢ 0 }
    requires leaf { leaf < leaf_limit }
    requires inside { offset + length bytes.now ≤ size_limit }
    requires first { offset / 512 ≤ leaf }
    requires last { leaf < leaves_in (offset + length bytes.now) }
    ensures put { Tells D.Disk disk.old → length (block_at (D.content disk.old) block) ≡ 512
        → WritesBlock D.Disk 2 block (patched_with leaf offset bytes.now (block_at (D.content disk.old) block))
        disk.old disk.new result }
    ensures told { OnOk result ((b : ℕ) → IsTrue (D.told disk.old b) → IsTrue (D.told disk.new b)) }
    ensures tried { OnOk result (HasTried D.Disk disk.old disk.new) }
    ensures refused { IfErr result (HasStoppedBy D.Disk disk.old disk.new) }
    ensures untried { IfErr result (λ t. t ≡ troubles.Disk false → OnlyReads D.Disk 1 disk.old disk.new) }
    ensures calls { MakesAtMost D.Disk 2 1 disk.old disk.new }
{
    let content = patched(disk, block, leaf, offset, bytes)?;
    write_block(disk, block, &content)
}

/// Returns the same trouble, as of a call that may have tried a write before.
pub(crate) fn after(tried: bool, trouble: Trouble) -> Trouble
    ensures { result ≡ told_after tried trouble }
{
    if tried { trouble.after_try() } else { trouble }
}

/// Returns whether one of two calls tried a write.
pub(crate) fn either(tried: bool, now: bool) -> bool
    ensures { result ≡ (tried || now) }
{
    tried || now
}

impl Part {
    /// Writes bytes into one of the leaves, if it is held, and returns whether a write was tried.
    fn put_one<D: Disk>(
        &self,
        disk: &mut D,
        leaf: u32,
        offset: u64,
        bytes: &[u8],
    ) -> Result<bool, Trouble>
        requires read { IsReadPart (D.blocks disk.old) self.now }
        requires from { self.now.leaves.from ≤ leaf }
        requires to { leaf < self.now.leaves.to }
        requires inside { offset + length bytes.now ≤ size_limit }
        requires first { offset / 512 ≤ self.now.leaves.from }
        requires last { self.now.leaves.to ≤ leaves_in (offset + length bytes.now) }
        ensures puts { (block : ℕ) (w : Way D.Disk block) (kept : Kept) → IsPart (D.content w.start) w.root self.now
            → IsAmid w offset bytes.now leaf disk.old kept
            → Puts w offset bytes.now (leaf + 1) disk.old disk.new kept result }
        ensures ends { ComesOrStops D.Disk 2 1 disk.old disk.new result (λ tried. tried) }
        ensures size { D.blocks disk.new ≡ D.blocks disk.old }
    {
        let block = self.block(leaf);
        if block == 0 {
            return Ok(false);
        }
        put_leaf(disk, block, leaf, offset, bytes)?;
        Ok(true)
    }

    /// Writes bytes into each of the leaves that is held, and returns whether a write was tried.
    pub fn put<D: Disk>(&self, disk: &mut D, offset: u64, bytes: &[u8]) -> Result<bool, Trouble>
        requires read { IsReadPart (D.blocks disk.old) self.now }
        requires inside { offset + length bytes.now ≤ size_limit }
        requires first { offset / 512 ≤ self.now.leaves.from }
        requires last { self.now.leaves.to ≤ leaves_in (offset + length bytes.now) }
        ensures puts { (block : ℕ) (w : Way D.Disk block) (kept : Kept) → IsPart (D.content w.start) w.root self.now
            → IsAmid w offset bytes.now self.now.leaves.from disk.old kept
            → Puts w offset bytes.now self.now.leaves.to disk.old disk.new kept result }
        ensures ends { ComesOrStops D.Disk (2 * (self.now.leaves.to - self.now.leaves.from))
            (self.now.leaves.to - self.now.leaves.from) disk.old disk.new result (λ tried. tried) }
        ensures size { D.blocks disk.new ≡ D.blocks disk.old }
    {
        let mut tried = false;
        for leaf in self.leaves.from..self.leaves.to {
            let now = self
                .put_one(disk, leaf, offset, bytes)
                .map_err(|trouble| after(tried, trouble))?;
            tried = either(tried, now);
        }
        Ok(tried)
    }
}
