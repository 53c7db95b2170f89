//! The numbers in a block, and its pointers: numbers of 4 bytes, one after another. All are big-endian.
ghost use Rattle.std.specs.Prelude.{◌≡◌, ◌+◌, ◌*◌, ◌<◌, ◌≤◌, ◌^◌, ◌++◌, length, take, drop};
ghost use Rattle.std.specs.List.{All};
ghost use Rattle.block_tree.specs.Pointers.{numbers_from, numbers_spelling};

use cfs_base::Block;

/// Reads as many pointers as there is room for, from the beginning of the bytes.
pub fn read_pointers(bytes: &[u8], into: &mut [u32])
    requires { 4 * length into.old ≤ length bytes.now }
    ensures read { into.new ≡ numbers_from bytes.now 0 (length into.old) }
    ensures fit { All (λ n. n < 2 ^ 32) into.new }
    ensures spelled { numbers_spelling into.new ≡ take (4 * length into.old) bytes.now }
{
    for (i, pointer) in into.iter_mut().enumerate() {
        let at = 4 * i;
        *pointer = u32::from_be_bytes([bytes[at], bytes[at + 1], bytes[at + 2], bytes[at + 3]]);
    }
}

/// Writes pointers into the block, beginning at its pointer number `from`, and changes no other byte.
pub fn put_pointers(block: &mut Block, from: usize, pointers: &[u32])
    requires long { length block.old ≡ 512 }
    requires room { 4 * (from + length pointers.now) ≤ 512 }
    ensures fit { All (λ n. n < 2 ^ 32) pointers.now }
    ensures put { block.new ≡ take (4 * from) block.old ++ numbers_spelling pointers.now
        ++ drop (4 * (from + length pointers.now)) block.old }
{
    for (i, pointer) in pointers.iter().enumerate() {
        block.put_u32(4 * (from + i), *pointer);
    }
}
