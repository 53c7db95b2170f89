//! A block, and the numbers in it.
ghost use Rattle.std.specs.Prelude.{◌≡◌, ◌+◌, ◌≤◌, ◌++◌, ◌^◌, length, replicate, take, drop, slice_range};
ghost use Rattle.cfs_base.specs.Disk.{IsBlock};
ghost use Rattle.std.specs.Int.{from_be_bytes, to_be_bytes, w16, w32, w64};

use std::marker::Model;

/// A block of 512 bytes. Numbers in it are big-endian.
#[derive(Clone, Copy, Debug, PartialEq, Eq)]
pub struct Block {
    bytes: [u8; 512],
}

impl Model for Block {
    ghost use Rattle.std.specs.Prelude.{List, ℕ};
    ghost use Rattle.std.specs.Coded.{coded_list, coded_ℕ};

    ghost Value = { List ℕ };

    ghost coded = { coded_list coded_ℕ };

    ghost use Rattle.cfs_base.specs.Disk.{IsBlock};

    ghost view = { λ a. a.bytes };

    ghost invariant = { λ a. IsBlock a.bytes };

    ghost inverse = { λ d. record { bytes = d } };
}

// puts a piece into the bytes, beginning at `at`
fn put(bytes: &mut [u8; 512], at: usize, piece: &[u8])
    requires { at + length piece.now ≤ 512 }
    ensures put { bytes.new ≡ take at bytes.old ++ piece.now ++ drop (at + length piece.now) bytes.old }
    ensures block { IsBlock bytes.new }
{
    bytes[at..at + piece.len()].copy_from_slice(piece);
}

impl Block {
    /// Returns the block of 512 zero bytes.
    pub fn zero() -> Block
        ensures { result ≡ replicate 512 0 }
    {
        Block::of([0; 512])
    }

    /// Returns the block with these bytes.
    pub fn of(bytes: [u8; 512]) -> Block
        ensures { result ≡ bytes }
    {
        Block { bytes }
    }

    /// Returns the 512 bytes of the block.
    pub fn bytes(&self) -> &[u8; 512]
        ensures bytes { result.now ≡ self.now }
        ensures long { length self.now ≡ 512 }
    {
        &self.bytes
    }

    /// Reads the number in the 2 bytes at `at`.
    pub fn u16_at(&self, at: usize) -> u16
        requires { at + 2 ≤ 512 }
        ensures value { result ≡ from_be_bytes w16 (slice_range self.now at (at + 2)) }
        ensures spelled { to_be_bytes w16 result ≡ slice_range self.now at (at + 2) }
        ensures long { length self.now ≡ 512 }
    {
        let b = &self.bytes;
        u16::from_be_bytes([b[at], b[at + 1]])
    }

    /// Reads the number in the 4 bytes at `at`.
    pub fn u32_at(&self, at: usize) -> u32
        requires { at + 4 ≤ 512 }
        ensures value { result ≡ from_be_bytes w32 (slice_range self.now at (at + 4)) }
        ensures spelled { to_be_bytes w32 result ≡ slice_range self.now at (at + 4) }
        ensures long { length self.now ≡ 512 }
    {
        let b = &self.bytes;
        u32::from_be_bytes([b[at], b[at + 1], b[at + 2], b[at + 3]])
    }

    /// Reads the number in the 8 bytes at `at`.
    pub fn u64_at(&self, at: usize) -> u64
        requires { at + 8 ≤ 512 }
        ensures value { result ≡ from_be_bytes w64 (slice_range self.now at (at + 8)) }
        ensures spelled { to_be_bytes w64 result ≡ slice_range self.now at (at + 8) }
        ensures long { length self.now ≡ 512 }
    {
        let b = &self.bytes;
        u64::from_be_bytes([
            b[at],
            b[at + 1],
            b[at + 2],
            b[at + 3],
            b[at + 4],
            b[at + 5],
            b[at + 6],
            b[at + 7],
        ])
    }

    /// Writes a number into the 2 bytes at `at`, and changes no other byte.
    pub fn put_u16(&mut self, at: usize, value: u16)
        requires { at + 2 ≤ 512 }
        ensures put { self.new ≡ take at self.old ++ to_be_bytes w16 value ++ drop (at + 2) self.old }
        ensures long { length self.old ≡ 512 }
    {
        put(&mut self.bytes, at, &value.to_be_bytes());
    }

    /// Writes a number into the 4 bytes at `at`, and changes no other byte.
    pub fn put_u32(&mut self, at: usize, value: u32)
        requires { at + 4 ≤ 512 }
        ensures put { self.new ≡ take at self.old ++ to_be_bytes w32 value ++ drop (at + 4) self.old }
        ensures long { length self.old ≡ 512 }
    {
        put(&mut self.bytes, at, &value.to_be_bytes());
    }

    /// Writes a number into the 8 bytes at `at`, and changes no other byte.
    pub fn put_u64(&mut self, at: usize, value: u64)
        requires { at + 8 ≤ 512 }
        ensures put { self.new ≡ take at self.old ++ to_be_bytes w64 value ++ drop (at + 8) self.old }
        ensures long { length self.old ≡ 512 }
    {
        put(&mut self.bytes, at, &value.to_be_bytes());
    }
}
