//! How many blocks of each cylinder are Free, in memory.
ghost use Rattle.std.specs.Prelude.{◌≡◌, ◌<◌, ◌≤◌, length, get_or, replicate, set, sum, IfOk};
ghost use Rattle.cyl_alloc.specs.Counts.{IsFirstAbove, AreFreeCounts};

use cfs_base::NoMemory;
use std::alloc::Global;
use std::marker::Model;

/// How many cylinders are added up in one number.
const GROUP: u32 = 256;

/// How many blocks of each cylinder are Free. Clauses see the list of these counts.
#[derive(Debug, Drop)]
pub(crate) struct Counts {
    each: Vec<u32>,
    /// The sum of each 256 counts, so that two short scans find the first that isn't 0.
    groups: Vec<u32>,
    total: u32,
}

impl Model for Counts {
    ghost use Rattle.std.specs.Prelude.{List, ℕ};
    ghost use Rattle.cyl_alloc.specs.Counts.{AreSums};

    ghost Value = { List ℕ };

    ghost view = { λ a. a.each.items };

    ghost invariant = { λ a. AreSums a.each.items a.groups.items a.total };
}

/// Returns the place of the first number above 0.
fn first_above(numbers: &[u32]) -> Option<usize>
    ensures { IsFirstAbove numbers.now result }
{
    numbers.iter().position(|number| *number > 0)
}

impl Counts {
    /// Makes counts by which no block is Free.
    pub fn zeros(alloc: Global, cylinders: u32) -> Result<Counts, NoMemory>
        requires some { 1 ≤ cylinders }
        requires most { cylinders ≤ 65536 }
        ensures zeros { IfOk result (λ counts. counts ≡ replicate cylinders 0) }
        ensures kept { IfOk result AreFreeCounts }
    {
        let each = vec![in alloc; 0; cylinders as usize]?;
        let groups = vec![in alloc; 0; cylinders.div_ceil(GROUP) as usize]?;
        Ok(Counts {
            each,
            groups,
            total: 0,
        })
    }

    /// Returns the sum of all counts.
    pub fn total(&self) -> u32
        ensures sum { result ≡ sum self.now }
        ensures kept { AreFreeCounts self.now }
    {
        self.total
    }

    /// Returns the count of a cylinder.
    pub fn at(&self, cylinder: u32) -> u32
        requires { cylinder < length self.now }
        ensures count { result ≡ get_or self.now cylinder 0 }
        ensures most { result ≤ 64 }
    {
        self.each[cylinder as usize]
    }

    /// Replaces the count of a cylinder.
    pub fn put(&mut self, cylinder: u32, count: u32)
        requires cylinder { cylinder < length self.old }
        requires most { count ≤ 64 }
        ensures put { self.new ≡ set self.old cylinder count }
        ensures kept { AreFreeCounts self.new }
    {
        let at = cylinder as usize;
        let old = self.each[at];
        self.each[at] = count;
        let group = self.groups[at / GROUP as usize];
        self.groups[at / GROUP as usize] = group - old + count;
        self.total = self.total - old + count;
    }

    /// Returns the first cylinder whose count isn't 0.
    pub fn first(&self) -> Option<u32>
        ensures first { IsFirstAbove self.now result }
        ensures kept { AreFreeCounts self.now }
    {
        let group = first_above(&self.groups)?;
        let from = group * GROUP as usize;
        let end = self.each.len().min(from + GROUP as usize);
        let place = first_above(&self.each[from..end])?;
        Some((from + place) as u32)
    }
}
