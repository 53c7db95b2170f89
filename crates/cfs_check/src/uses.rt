//! What each block of a volume is used for.
ghost use Rattle.std.specs.Prelude.{◌≡◌, ◌<◌, get_or, length, IfOk};
ghost use Rattle.cfs_check.specs.Uses as spec;
ghost use Rattle.cfs_check.specs.declared.uses.Use.TheVariants as uses;

use cfs_base::{NoMemory, Place};
use cfs_recover::is_fixed;
use std::alloc::Global;
use std::marker::Model;

/// What a block is used for.
#[derive(Clone, Copy, Debug, PartialEq, Eq)]
pub(crate) enum Use {
    Free,
    /// A map block, or the label.
    Fixed,
    /// An object uses it, at this place.
    By { owner: u32, place: Place },
    /// It has two uses: by two objects, by one at two places, or by one though it is a map block or the label.
    Twice,
}

/// What each block of a volume is used for. Contracts see the list.
#[derive(Debug, Drop)]
pub(crate) struct Uses {
    of: Vec<Use>,
}

impl Model for Uses {
    ghost use Rattle.std.specs.Prelude.{List, length, ◌<◌};
    ghost use Rattle.cfs_check.specs.declared.uses.Use.{Use};

    ghost Value = { List Use };

    ghost view = { λ a. a.of.items };

    ghost invariant = { λ a. length a.of.items < 4294967296 };
}

/// Returns what a block is used for at first.
fn first_use(block: u32) -> Use
    ensures { result ≡ spec.first_use block }
{
    if is_fixed(block) {
        Use::Fixed
    } else {
        Use::Free
    }
}

impl Use {
    /// Returns the use with one more.
    fn with(self, owner: u32, place: Place) -> Use
        ensures { spec.IsUseWith self owner place result }
    {
        match self {
            Use::Free => Use::By { owner, place },
            Use::By {
                owner: other,
                place: its,
            } if other == owner && its == place => self,
            _ => Use::Twice,
        }
    }
}

impl Uses {
    /// Makes a table of `blocks` blocks, none of which an object uses.
    pub fn none(alloc: Global, blocks: u32) -> Result<Uses, NoMemory>
        ensures { IfOk result (λ of. of ≡ spec.first_uses blocks) }
    {
        let mut of = Vec::with_capacity(alloc, blocks as usize)?;
        for block in 0..blocks {
            of.push(first_use(block))?;
        }
        Ok(Uses { of })
    }

    /// Returns what a block is used for.
    pub fn of(&self, block: u32) -> Use
        requires { block < length self.now }
        ensures { result ≡ get_or self.now block uses.Free }
    {
        self.of[block as usize]
    }

    /// Notes one more use of a block.
    pub fn take(&mut self, block: u32, owner: u32, place: Place)
        requires { block < length self.old }
        ensures { spec.TakesUse self.old self.new block owner place }
    {
        let used = &mut self.of[block as usize];
        *used = used.with(owner, place);
    }

    /// Returns how many blocks nothing uses.
    pub fn left(&self) -> u32
        ensures { result ≡ spec.unused_in self.now }
    {
        self.of.iter().filter(|used| **used == Use::Free).count() as u32
    }
}
