//! The three blocks below that keep one block: two halves, and a gate that says which of them is shown.
ghost use Rattle.std.specs.Prelude.{◌≡◌, ◌<◌, ◌^◌};
ghost use Rattle.pair_disk.specs.Pair.{gate_at, gate_for, half_at, other_half, shown_by};

use cfs_base::{Block, BlockNo};

/// The half that holds the content of a block.
#[derive(Clone, Copy)]
pub enum Half {
    /// The block `3n` below, for block `n`.
    First,
    /// The block `3n + 1` below, for block `n`.
    Second,
}

impl Half {
    /// Returns the half that isn't this one.
    pub fn other(self) -> Half
        ensures { result ≡ other_half self }
    {
        match self {
            Half::First => Half::Second,
            Half::Second => Half::First,
        }
    }

    /// Returns where this half of block `n` is.
    pub fn at(self, n: BlockNo) -> BlockNo
        requires { gate_at n.0 < 2 ^ 32 }
        ensures { result.0 ≡ half_at self n.0 }
    {
        match self {
            Half::First => BlockNo(3 * n.0),
            Half::Second => BlockNo(3 * n.0 + 1),
        }
    }

    /// Returns the gate that shows this half.
    pub fn gate(self) -> Block
        ensures { result ≡ gate_for self }
    {
        let mut bytes = [0; 512];
        bytes[0] = match self {
            Half::First => 0,
            Half::Second => 1,
        };
        Block::of(bytes)
    }

    /// Returns the half that this gate shows.
    pub fn shown_by(gate: &Block) -> Half
        ensures { result ≡ shown_by gate.now }
    {
        if gate.bytes()[0] == 1 {
            Half::Second
        } else {
            Half::First
        }
    }
}

/// Returns where the gate of block `n` is.
pub fn gate_of(n: BlockNo) -> BlockNo
    requires { gate_at n.0 < 2 ^ 32 }
    ensures { result.0 ≡ gate_at n.0 }
{
    BlockNo(3 * n.0 + 2)
}
