//! The calls of a fake that fail.
ghost use Rattle.std.specs.Prelude.{◌↔◌, ℕ, IsTrue, Contains, IsSorted};
ghost use Rattle.std.specs.Ordering.{nat_cmp};

/// Numbers of calls, which are counted from 0.
///
/// Looking one up takes no longer for later calls.
#[derive(Debug, Drop)]
pub struct Listed {
    calls: Vec<u64>,
    ghost ordered: { IsSorted nat_cmp calls.items },
}

impl Listed {
    /// Makes the list of these calls. Takes no memory.
    pub fn new(calls: Vec<u64>) -> Listed
        ensures { (n : ℕ) → Contains result.calls.items n ↔ Contains calls.items n }
    {
        let mut calls = calls;
        calls.sort_unstable();
        Listed { calls }
    }

    /// Returns whether this call is on the list.
    pub fn contains(&self, call: u64) -> bool
        ensures { IsTrue result ↔ Contains self.now.calls.items call }
    {
        self.calls.binary_search(&call).is_ok()
    }
}
