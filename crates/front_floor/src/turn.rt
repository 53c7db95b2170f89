//! One turn, step by step.
ghost use Rattle.std.specs.Prelude.{◌≡◌, ℕ, ◌-◌, ◌<◌, ◌^◌, length};
ghost use Rattle.front_floor.specs.Knows.{EntersLog, Grows, Turns};
ghost use Rattle.front_floor.specs.Seats.{IsIdle, SitsAt};

use crate::rule::{RowSeat, SharedRows};
use crate::steps::{count, draw, give, pass_on, take, wait_for_turn};
use cfs_base::Logged;
use std::sync::Wait;

/// Makes a turn of a worker, and returns whether it is done, and how many entries the turn added to the log.
fn turn_counted<M: Logged>(machine: &mut M, worker: u32) -> (bool, u64)
    ensures turns { Turns M.done M.turned worker machine.old machine.new }
    ensures answers { result.0 ≡ M.done machine.new worker }
    ensures grows { Grows (M.log machine.old) (M.log machine.new) result.1 }
    ensures small { length (M.log machine.new) < 2 ^ 64 }
{
    let before = machine.events();
    let done = machine.turn(worker);
    let after = machine.events();
    (done, after - before)
}

/// Waits until it is the seat's turn, makes it, and returns whether the worker is done.
pub fn make_turn<M: Logged, R: Wait>(
    rt: &R,
    words: &SharedRows<M>,
    seat: &mut RowSeat<M>,
    worker: u32,
) -> bool
    requires table { SitsAt words.now.table_id seat.old.table_id }
    requires idle { IsIdle seat.old.me }
    requires left { 0 < seat.old.me.0.left }
    requires live { 0 < seat.old.me.0.parts }
    ensures table { seat.new.table_id ≡ seat.old.table_id }
    ensures idle { IsIdle seat.new.me }
    ensures left { seat.new.me.0.left ≡ seat.old.me.0.left - 1 }
    ensures parts { seat.new.me.0.parts ≡ seat.old.me.0.parts }
    ensures turn { EntersLog M.done M.turned M.log worker result seat.old.me.0.heard seat.new.me.0.heard }
{
    let ticket = draw(words, seat);
    wait_for_turn(rt, words, seat, ticket);
    let mut machine = take(words, seat);
    let (done, added) = turn_counted(&mut *machine, worker);
    give(words, seat, machine);
    count(words, seat, added);
    pass_on(words, seat);
    done
}
