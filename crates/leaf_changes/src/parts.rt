//! The bytes of a leaf and those of a part of its file, copied from one to the other.
ghost use Rattle.std.specs.Prelude.{◌≡◌, ◌*◌, ◌≤◌, length};
ghost use Rattle.block_tree.specs.Pointers.{size_limit};
ghost use Rattle.ufs_model.specs.Object.{leaves_in as leaves_of};
ghost use Rattle.leaf_changes.specs.Bytes.{overlaid, patched, with_leaf_copied, cut};

use cfs_base::Block;

/// Returns how many leaves hold `size` bytes.
pub fn leaves_in(size: u64) -> u32
    requires { size ≤ size_limit }
    ensures { result ≡ leaves_of size }
{
    size.div_ceil(512) as u32
}

/// Copies the bytes `above` over the bytes `below`, as far as they overlap.
///
/// `above` begins at `from`, and `below` at `at`.
fn lay_over(below: &mut [u8], at: u64, above: &[u8], from: u64)
    ensures { below.new ≡ overlaid at below.old from above.now }
{
    let start = from.saturating_sub(at);
    let skipped = at.saturating_sub(from);
    let room = (below.len() as u64).saturating_sub(start);
    let rest = (above.len() as u64).saturating_sub(skipped);
    let count = room.min(rest);
    if count > 0 {
        let (start, skipped, count) = (start as usize, skipped as usize, count as usize);
        below[start..start + count].copy_from_slice(&above[skipped..skipped + count]);
    }
}

/// Writes bytes at an offset of a file, in bytes, into one of its leaves, as far as they lie in it.
pub fn patch_leaf(block: &mut Block, leaf: u32, offset: u64, bytes: &[u8])
    ensures patched { block.new ≡ patched leaf offset bytes.now block.old }
    ensures long { length block.old ≡ 512 }
{
    let mut content = *block.bytes();
    lay_over(&mut content, 512 * leaf as u64, bytes, offset);
    *block = Block::of(content);
}

/// Copies the bytes of a leaf into a part of its file that begins at an offset, as far as they lie in it.
pub fn read_part(block: &Block, leaf: u32, offset: u64, part: &mut [u8])
    ensures { part.new ≡ with_leaf_copied leaf block.now offset part.old }
{
    lay_over(part, offset, block.bytes(), 512 * leaf as u64);
}

/// Fills the leaf in which a file of this size ends with fill bytes from the file's end on.
///
/// If the size is a multiple of 512, all of the leaf is filled.
pub fn cut_leaf(block: &mut Block, size: u64, fill: u8)
    ensures cut { block.new ≡ cut size fill block.old }
    ensures long { length block.old ≡ 512 }
{
    let mut content = *block.bytes();
    content[(size % 512) as usize..].fill(fill);
    *block = Block::of(content);
}
