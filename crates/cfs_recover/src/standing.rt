//! The shadow roots that stand for root blocks.
ghost use Rattle.std.specs.Prelude.{◌≡◌, ◌<◌, ◌≤◌, replicate, length, get_or, slice_set, IfOk};
ghost use Rattle.cfs_recover.specs.Standing as spec;
ghost use Rattle.cfs_recover.specs.declared.standing.Shadow.TheVariants as shadows;

use cfs_base::NoMemory;
use std::alloc::Global;
use std::marker::Model;

/// The shadow roots that stand for a root block.
#[derive(Clone, Copy, Debug, PartialEq, Eq)]
pub enum Shadow {
    /// No shadow root stands for it.
    None,
    /// This block alone stands for it.
    One(u32),
    /// More than one shadow root stands for it.
    Several,
}

/// The shadow roots that stand for each block of a volume.
#[derive(Debug, Drop)]
pub struct Standing {
    /// For each block 0, or one more than the shadow root, or `SEVERAL`.
    of: Vec<u32>,
}

/// More than one shadow root stands for the block.
const SEVERAL: u32 = u32::MAX;

impl Model for Standing {
    ghost use Rattle.std.specs.Prelude.{List};
    ghost use Rattle.cfs_recover.specs.declared.standing.Shadow.{Shadow};

    ghost Value = { List Shadow };

    ghost use Rattle.std.specs.Prelude.{map};
    ghost use Rattle.cfs_recover.specs.Standing.{shadow_of, AreWithin};

    ghost view = { λ a. map shadow_of a.of.items };

    ghost invariant = { λ a. AreWithin a.of.items };
}

impl Standing {
    /// Makes a table of `blocks` blocks, for none of which a shadow root stands.
    pub fn none(alloc: Global, blocks: u32) -> Result<Standing, NoMemory>
        requires { blocks ≤ 4294967294 }
        ensures { IfOk result (λ standing. standing ≡ replicate blocks shadows.None) }
    {
        let of = vec![in alloc; 0; blocks as usize]?;
        Ok(Standing { of })
    }

    /// Returns the number of blocks.
    pub fn blocks(&self) -> u32
        ensures { result ≡ length self.now }
    {
        self.of.len() as u32
    }

    /// Returns what stands for a block.
    pub fn of(&self, block: u32) -> Shadow
        requires { block < length self.now }
        ensures of { result ≡ get_or self.now block shadows.None }
        ensures within { spec.IsShadowBelow (length self.now) result }
    {
        match self.of[block as usize] {
            0 => Shadow::None,
            SEVERAL => Shadow::Several,
            next => Shadow::One(next - 1),
        }
    }

    /// Notes one more shadow root that stands for a block.
    pub fn note(&mut self, block: u32, shadow: u32)
        requires block { block < length self.old }
        requires within { shadow < length self.old }
        ensures { self.new ≡ slice_set self.old block (spec.one_more (get_or self.old block shadows.None) shadow) }
    {
        let of = &mut self.of[block as usize];
        *of = if *of == 0 { shadow + 1 } else { SEVERAL };
    }
}
