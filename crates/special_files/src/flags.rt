//! One flag for each leaf, or each node.
ghost use Rattle.std.specs.Prelude.{◌≡◌, ◌-◌, ◌<◌, ◌≤◌, ◌+◌, ◌++◌, ℕ, false, count_by, get_or, length, replicate, set};
ghost use Rattle.std.specs.Prelude.{IfOk};
ghost use Rattle.std.specs.Vec.{vec_capacity};
ghost use Rattle.block_tree.specs.Pointers.{leaf_limit};
ghost use Rattle.special_files.specs.Drafting as spec;

use cfs_base::NoMemory;
use std::alloc::Global;
use std::marker::Model;

/// Flags, and how many of them are set. Clauses see the list of the flags.
#[derive(Debug, Drop)]
pub(crate) struct Flags {
    /// The flags up to the last that was ever put. No other flag is set.
    items: Vec<bool>,
    len: u32,
    count: u32,
}

impl Model for Flags {
    ghost use Rattle.std.specs.Prelude.{◌≡◌, ◌≤◌, ◌-◌, ◌++◌, Bool, List, count_by, false, length, replicate};
    ghost use Rattle.std.specs.Vec.{vec_capacity};
    ghost use Rattle.block_tree.specs.Pointers.{leaf_limit};

    ghost Value = { List Bool };

    ghost view = { λ a. a.items.items ++ replicate (a.len - length a.items.items) false };

    ghost invariant = { λ a. (a.count ≡ count_by (λ b. b) a.items.items) × (length a.items.items ≤ a.len)
        × (a.len ≤ leaf_limit)
        × (a.len ≤ vec_capacity a.items) };
}

/// Makes a list longer, up to this length, with flags that aren't set.
fn reach(items: &mut Vec<bool>, len: usize)
    requires { len ≤ vec_capacity items.old }
    ensures items { items.new.items ≡ items.old.items ++ replicate (len - length items.old.items) false }
    ensures room { vec_capacity items.old ≤ vec_capacity items.new }
{
    if items.len() < len {
        let _ = items.resize(len, false);
    }
}

fn one_unless(flag: bool) -> u32
    ensures { result ≡ spec.one_unless flag }
{
    !flag as u32
}

impl Flags {
    /// Makes `count` flags, of which none is set.
    pub fn none(alloc: Global, count: usize) -> Result<Flags, NoMemory>
        requires { count ≤ leaf_limit }
        ensures { IfOk result (λ flags. flags ≡ replicate count false) }
    {
        let items = Vec::with_capacity(alloc, count)?;
        Ok(Flags {
            items,
            len: count as u32,
            count: 0,
        })
    }

    /// Returns how many flags are set.
    pub fn count(&self) -> u32
        ensures count { result ≡ count_by (λ b. b) self.now }
        ensures most { result ≤ length self.now }
    {
        self.count
    }

    /// Returns a flag.
    pub fn has(&self, at: u32) -> bool
        requires { at < length self.now }
        ensures { result ≡ get_or self.now at false }
    {
        let at = at as usize;
        at < self.items.len() && self.items[at]
    }

    /// Sets or clears a flag.
    pub fn put(&mut self, at: u32, flag: bool)
        requires { at < length self.old }
        ensures { self.new ≡ set self.old at flag }
    {
        let at = at as usize;
        reach(&mut self.items, at + 1);
        let was = self.items[at];
        self.items[at] = flag;
        self.count = self.count - was as u32 + flag as u32;
    }

    /// Clears all flags from `from` on.
    pub fn clear_from(&mut self, from: u32)
        ensures long { length self.new ≡ length self.old }
        ensures before { (k : ℕ) → k < from → get_or self.new k false ≡ get_or self.old k false }
        ensures after { (k : ℕ) → from ≤ k → get_or self.new k false ≡ false }
    {
        let reached = self.items.len() as u32;
        for at in from..reached {
            self.put(at, false);
        }
    }

    /// Returns how many of these flags aren't set.
    pub fn lacking(&self, from: u32, to: u32) -> u32
        requires order { from ≤ to }
        requires within { to ≤ length self.now }
        ensures count { result ≡ length (spec.unset_in self.now from to) }
        ensures most { result ≤ to - from }
    {
        let mut count = 0;
        for at in from..to {
            count += one_unless(self.has(at));
        }
        count
    }
}
