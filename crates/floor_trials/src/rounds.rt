//! Two workers who write down whose turn it was.
use cfs_base::Machine;
use cfs_fakes::Turns;

/// The turns that each of two workers has left, and all turns that were made, as the digits 1 and 2 of a number.
#[derive(Clone, Copy, Debug)]
pub struct Rounds {
    pub turns: Turns,
    pub made: u64,
}

impl Machine for Rounds {
    ghost use Rattle.std.specs.Prelude.{◌==◌};
    ghost use Rattle.cfs_fakes.specs.Turns.{left_of, none_is_done, none_is_left};

    ghost worker_count = { λ m. 2 };

    ghost left = { λ m w. left_of m.turns w };

    ghost done = { λ m w. left_of m.turns w == 0 };

    ghost turned = { λ old worker new. Unit {0} };

    ghost outside = { λ m w beyond. none_is_done m.turns w beyond };

    ghost at_rest = { λ m w beyond. none_is_left m.turns w beyond };

    fn workers(&self) -> u32 {
        2
    }

    fn is_done(&self, worker: u32) -> bool {
        self.turns.left(worker) == 0
    }

    fn turns_left(&self, worker: u32) -> u64 {
        self.turns.left(worker)
    }

    fn turn(&mut self, worker: u32) -> bool {
        if self.turns.take(worker) {
            self.made = self.made.wrapping_mul(10).wrapping_add(worker as u64 + 1);
        }
        self.turns.left(worker) == 0
    }
}
