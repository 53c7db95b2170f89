//! Bits.
ghost use Rattle.std.specs.Prelude.{◌≡◌, ◌<◌, false, true, get_or, length, replicate, set, IfOk};

use cfs_base::NoMemory;
use std::alloc::Global;
use std::marker::Model;

/// The number of bits in a word.
const WORD: u32 = 64;

/// Bits, in words of 64. Clauses see the list of the bits.
#[derive(Debug, Drop)]
pub(crate) struct Bits {
    words: Vec<u64>,
    count: u32,
}

impl Model for Bits {
    ghost use Rattle.std.specs.Prelude.{◌≤◌, ◌*◌, Bool, List, length};
    ghost use Rattle.collector_marks.specs.Bits.{bits_of};

    ghost Value = { List Bool };

    ghost view = { λ b. bits_of b.count b.words.items };

    ghost invariant = { λ b. b.count ≤ 64 * length b.words.items };
}

impl Bits {
    /// Makes `count` bits, of which none is set.
    pub fn new(alloc: Global, count: u32) -> Result<Bits, NoMemory>
        ensures { IfOk result (λ b. b ≡ replicate count false) }
    {
        let words = vec![in alloc; 0u64; count.div_ceil(WORD) as usize]?;
        Ok(Bits { words, count })
    }

    /// Clears all bits.
    pub fn clear(&mut self)
        ensures { self.new ≡ replicate (length self.old) false }
    {
        self.words.fill(0);
    }

    /// Returns the number of bits.
    pub fn len(&self) -> usize
        ensures { result ≡ length self.now }
    {
        self.count as usize
    }

    /// Returns whether a bit is set. No bit past the last is set.
    pub fn has(&self, at: u32) -> bool
        ensures { result ≡ get_or self.now at false }
    {
        at < self.count && self.is_set(at)
    }

    /// Returns whether one of these bits is set.
    pub fn is_set(&self, at: u32) -> bool
        requires { at < length self.now }
        ensures { result ≡ get_or self.now at false }
    {
        self.words[(at / WORD) as usize] >> (at % WORD) & 1 == 1
    }

    /// Sets a bit, and returns whether it was set before.
    pub fn put(&mut self, at: u32) -> bool
        requires { at < length self.old }
        ensures put { self.new ≡ set self.old at true }
        ensures was { result ≡ get_or self.old at false }
    {
        let was_set = self.is_set(at);
        self.words[(at / WORD) as usize] |= 1 << (at % WORD);
        was_set
    }
}
