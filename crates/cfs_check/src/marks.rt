//! The faults that were found.
ghost use Rattle.std.specs.Prelude.{◌≡◌, ◌+◌, ◌*◌, ◌<◌, ◌≤◌, true, false, length, replicate, IfOk};
ghost use Rattle.cfs_check.specs.Marks as spec;

use crate::damages::Damages;
use cfs_base::{Damage, NoMemory};
use std::alloc::Global;
use std::marker::Model;

/// How many codes there are, with 0, which is none.
const CODES: usize = 12;

/// For each block of a volume and each code, whether the block was found with that fault.
#[derive(Debug, Drop)]
pub(crate) struct Marks {
    marks: Vec<bool>,
    /// Whether any fault was found.
    any: bool,
}

impl Model for Marks {
    ghost use Rattle.std.specs.Prelude.{Bool, List};
    ghost use Rattle.cfs_check.specs.Marks.{AreMarks};

    ghost Value = { List Bool };

    ghost view = { λ a. a.marks.items };

    ghost invariant = { λ a. AreMarks a.marks.items a.any };
}

impl Marks {
    /// Makes marks of no fault, for a volume of `blocks` blocks.
    pub fn none(alloc: Global, blocks: u32) -> Result<Marks, NoMemory>
        ensures { IfOk result (λ marks. marks ≡ replicate (12 * blocks) false) }
    {
        let marks = vec![in alloc; false; CODES * blocks as usize]?;
        Ok(Marks { marks, any: false })
    }

    /// Marks a fault of a block if `told` is set.
    pub fn note_if(&mut self, told: bool, code: u8, block: u32)
        requires code { code < 12 }
        requires block { told ≡ true → 12 * block + 12 ≤ length self.old }
        ensures { spec.AddsMarks (spec.IsToldOf told code block) self.old self.new }
    {
        if told {
            self.marks[CODES * block as usize + code as usize] = true;
            self.any = true;
        }
    }

    /// Returns the faults that are marked, by block and then by code.
    pub fn list(&self, alloc: Global) -> Result<Damages, NoMemory>
        ensures { IfOk result (λ faults. faults ≡ spec.damages_in self.now) }
    {
        let mut faults = Vec::new(alloc);
        if !self.any {
            return Ok(Damages::of(faults));
        }
        for (place, marked) in self.marks.iter().enumerate() {
            if !*marked {
                continue;
            }
            faults.push(Damage {
                block: (place / CODES) as u32,
                code: (place % CODES) as u8,
            })?;
        }
        Ok(Damages::of(faults))
    }
}
