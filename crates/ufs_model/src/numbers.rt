//! The numbers of the blocks that an object holds, level by level.
ghost use Rattle.std.specs.Prelude.{◌≡◌, ◌+◌, ◌<◌, ◌≤◌, [], ◌∷◌, IfOk, IfSome, IfNone, OnOk, OnErr, unwrap_or, insert};
ghost use Rattle.std.specs.Prelude.{length, nat_le, nat_lt, filter};
ghost use Rattle.std.specs.List.{range_with_len};
ghost use Rattle.ufs_model.specs.Numbers.{branches, has_number, lacking, merged, missing, parents, shared, with_number};
ghost use Rattle.ufs_model.specs.Numbers.{with_numbers, within};

use crate::limits::FAN_OUT;
use std::alloc::{AllocError, Global};
use std::marker::Model;

/// The numbers of blocks of one level, in increasing order.
#[derive(Debug, Drop)]
pub struct Numbers {
    numbers: Vec<u64>,
}

impl Model for Numbers {
    ghost use Rattle.std.specs.Prelude.{◌≡◌, List, ℕ, true};
    ghost use Rattle.ufs_model.specs.Numbers.{numbers_rise};

    ghost Value = { List ℕ };

    ghost view = { λ a. a.numbers.items };

    ghost invariant = { λ a. numbers_rise a.numbers.items ≡ true };
}

impl Numbers {
    /// Makes a list of no numbers. Takes no memory.
    pub fn empty(alloc: Global) -> Numbers
        ensures { result ≡ [] }
    {
        Numbers {
            numbers: Vec::new(alloc),
        }
    }

    /// Makes a list of `count` numbers in a row, beginning at `from`.
    pub fn row(alloc: Global, from: u64, count: u64) -> Result<Numbers, AllocError>
        requires { from + count < 18446744073709551616 }
        ensures { IfOk result (λ row. row ≡ range_with_len from count) }
    {
        let mut row = Vec::new(alloc);
        for number in from..from + count {
            row.push(number)?;
        }
        Ok(Numbers { numbers: row })
    }

    /// Returns the numbers as a slice.
    pub fn as_slice(&self) -> &[u64]
        ensures { result.now ≡ self.now }
    {
        self.numbers.as_slice()
    }

    /// Returns a copy.
    pub fn copy(&self, alloc: Global) -> Result<Numbers, AllocError>
        ensures { IfOk result (λ copy. copy ≡ self.now) }
    {
        Ok(Numbers {
            numbers: self.numbers.as_slice().to_vec(alloc)?,
        })
    }

    /// Returns whether this number is among them.
    pub fn contains(&self, number: u64) -> bool
        ensures { result ≡ has_number number self.now }
    {
        self.numbers.iter().any(|n| *n == number)
    }

    /// Returns the numbers with one more at its place, or `None` if it is there already.
    pub fn with(&self, alloc: Global, number: u64) -> Result<Option<Numbers>, AllocError>
        ensures { IfOk result (λ more. unwrap_or more self.now ≡ with_number number self.now) }
    {
        if self.place_for(number).is_none() {
            return Ok(None);
        }
        let mut more = self.copy(alloc)?;
        more.add(number)?;
        Ok(Some(more))
    }

    /// Puts one more number at its place. On an error nothing is changed.
    pub fn add(&mut self, number: u64) -> Result<(), AllocError>
        ensures ok { OnOk result (self.new ≡ with_number number self.old) }
        ensures err { OnErr result (self.new ≡ self.old) }
    {
        if let Some(at) = self.place_for(number) {
            self.numbers.insert(at, number)?;
        }
        Ok(())
    }

    /// Returns the place of one more number, or `None` if it is there already.
    fn place_for(&self, number: u64) -> Option<usize>
        ensures there { IfNone result (with_number number self.now ≡ self.now) }
        ensures inside { IfSome result (λ at. at ≤ length self.now) }
        ensures place { IfSome result (λ at. with_number number self.now ≡ insert self.now at number) }
    {
        match self.numbers.as_slice().binary_search(&number) {
            Ok(_) => None,
            Err(at) => Some(at),
        }
    }

    /// Returns the numbers with these added.
    pub fn with_all(&self, alloc: Global, new: &[u64]) -> Result<Numbers, AllocError>
        ensures { IfOk result (λ all. all ≡ with_numbers new.now self.now) }
    {
        let mut all = self.copy(alloc)?;
        let mut left = new.len();
        while left > 0 {
            left -= 1;
            all.add(new[left])?;
        }
        Ok(all)
    }

    /// Returns the inner blocks that lead to these blocks.
    pub fn parents(&self, alloc: Global) -> Result<Numbers, AllocError>
        ensures { IfOk result (λ above. above ≡ parents self.now) }
    {
        let mut each = Vec::new(alloc);
        for number in self.numbers.as_slice() {
            each.push(*number / FAN_OUT)?;
        }
        Numbers::empty(alloc).with_all(alloc, each.as_slice())
    }

    /// Returns those numbers that are among the others.
    pub fn shared(&self, alloc: Global, others: &Numbers) -> Result<Numbers, AllocError>
        ensures { IfOk result (λ both. both ≡ shared self.now others.now) }
    {
        let both = self.numbers.iter().copied().filter(|n| others.contains(*n));
        Ok(Numbers {
            numbers: both.collect(alloc)?,
        })
    }

    /// Returns those numbers that are not among the others.
    pub fn lacking(&self, alloc: Global, others: &Numbers) -> Result<Numbers, AllocError>
        ensures { IfOk result (λ rest. rest ≡ lacking self.now others.now) }
    {
        let rest = self
            .numbers
            .iter()
            .copied()
            .filter(|n| !others.contains(*n));
        Ok(Numbers {
            numbers: rest.collect(alloc)?,
        })
    }

    /// Returns how many numbers are not among the others.
    fn count_lacking(&self, others: &Numbers) -> usize
        ensures { result ≡ length (lacking self.now others.now) }
    {
        self.numbers
            .iter()
            .filter(|n| !others.contains(**n))
            .count()
    }

    /// Returns the numbers below a limit.
    pub fn below(&self, alloc: Global, limit: u64) -> Result<Numbers, AllocError>
        ensures { IfOk result (λ kept. kept ≡ filter (λ n. nat_lt n limit) self.now) }
    {
        let kept = self.numbers.iter().copied().filter(|n| *n < limit);
        Ok(Numbers {
            numbers: kept.collect(alloc)?,
        })
    }

    /// Returns the numbers that are not below a limit.
    pub fn from(&self, alloc: Global, limit: u64) -> Result<Numbers, AllocError>
        ensures { IfOk result (λ gone. gone ≡ filter (λ n. nat_le limit n) self.now) }
    {
        let gone = self.numbers.iter().copied().filter(|n| limit <= *n);
        Ok(Numbers {
            numbers: gone.collect(alloc)?,
        })
    }
}

/// The numbers of blocks, level by level from the leaves up.
#[derive(Debug, Drop)]
pub struct Levels {
    levels: Vec<Numbers>,
}

impl Model for Levels {
    ghost use Rattle.std.specs.Prelude.{List, ℕ};

    ghost Value = { List (List ℕ) };

    ghost view = { λ a. a.levels.items };
}

impl Levels {
    /// Makes a list of no levels. Takes no memory.
    pub fn empty(alloc: Global) -> Levels
        ensures { result ≡ [] }
    {
        Levels {
            levels: Vec::new(alloc),
        }
    }

    /// Makes a list of two levels.
    pub fn of_two(alloc: Global, leaves: Numbers, nodes: Numbers) -> Result<Levels, AllocError>
        ensures { IfOk result (λ levels. levels ≡ leaves ∷ nodes ∷ []) }
    {
        let mut levels = Vec::new(alloc);
        levels.push(leaves)?;
        levels.push(nodes)?;
        Ok(Levels { levels })
    }

    /// Returns the levels of these leaves and the nodes above them.
    pub fn above(alloc: Global, leaves: Numbers) -> Result<Levels, AllocError>
        ensures { IfOk result (λ levels. levels ≡ branches 1 leaves) }
    {
        let nodes = leaves.parents(alloc)?;
        Levels::of_two(alloc, leaves, nodes)
    }

    /// Returns the levels as a slice.
    pub fn as_slice(&self) -> &[Numbers]
        ensures { result.now ≡ self.now }
    {
        self.levels.as_slice()
    }

    /// Returns these numbers and the others, level by level.
    pub fn merged(&self, alloc: Global, others: &Levels) -> Result<Levels, AllocError>
        ensures { IfOk result (λ all. all ≡ merged self.now others.now) }
    {
        let none = Numbers::empty(alloc);
        let mut levels = Vec::new(alloc);
        for i in 0..self.levels.len().max(others.levels.len()) {
            let new = self.levels.get(i).unwrap_or(&none);
            let there = others.levels.get(i).unwrap_or(&none);
            levels.push(there.with_all(alloc, new.as_slice())?)?;
        }
        Ok(Levels { levels })
    }

    /// Returns those numbers that are among the others, level by level.
    pub fn within(&self, alloc: Global, others: &Levels) -> Result<Levels, AllocError>
        ensures { IfOk result (λ both. both ≡ within self.now others.now) }
    {
        let none = Numbers::empty(alloc);
        let mut levels = Vec::new(alloc);
        for (i, numbers) in self.levels.iter().enumerate() {
            let there = others.levels.get(i).unwrap_or(&none);
            levels.push(numbers.shared(alloc, there)?)?;
        }
        Ok(Levels { levels })
    }

    /// Returns how many numbers are not among the others, over all levels.
    pub fn missing(&self, alloc: Global, others: &Levels) -> u128
        ensures count { result ≡ missing self.now others.now }
        ensures small { result < 170141183460469231731687303715884105728 }
    {
        let none = Numbers::empty(alloc);
        let mut count = 0;
        for (i, numbers) in self.levels.iter().enumerate() {
            let there = others.levels.get(i).unwrap_or(&none);
            count += numbers.count_lacking(there) as u128;
        }
        count
    }
}
