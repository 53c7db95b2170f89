//! The single steps that seats make, with a function for each kind.
ghost use Rattle.std.specs.Prelude.{◌≡◌, ℕ, ◌<◌, ◌^◌, [], ◌∷◌, length, Some, None, true};
ghost use Rattle.front_floor.specs.Knows.{Grows};
ghost use Rattle.front_floor.specs.Seats.{IsIdle, Looked, SitsAt, Steps, log_in};
ghost use Rattle.front_floor.specs.Seats as kinds;
ghost use Rattle.front_floor.specs.declared.view.Stand.TheVariants as stands;

use crate::rule::{Count, Deal, DrawTicket, Look, PassOn, RowSeat, SharedRows, TakeIn, Tell};
use cfs_base::Logged;
use std::sync::Wait;
use std::thread;

/// Gives a new seat the first of the budgets that the keeper has to deal.
pub fn deal<M: Logged>(words: &SharedRows<M>, keeper: &mut RowSeat<M>) -> RowSeat<M>
    requires table { SitsAt words.now.table_id keeper.old.table_id }
    requires idle { IsIdle keeper.old.me }
    requires parts { 1 < keeper.old.me.0.parts }
    ensures table { (keeper.new.table_id ≡ keeper.old.table_id) × (result.table_id ≡ keeper.old.table_id) }
    ensures step { Steps (log_in M.log) kinds.deal 0 keeper.old.me 0 keeper.new.me }
    ensures dealt { result.me ≡ (kinds.dealt keeper.old.me.0, []) }
{
    words.split_seat::<Deal>(keeper)
}

/// Draws a ticket.
pub fn draw<M: Logged>(words: &SharedRows<M>, seat: &mut RowSeat<M>) -> u64
    requires table { SitsAt words.now.table_id seat.old.table_id }
    requires idle { IsIdle seat.old.me }
    requires left { 0 < seat.old.me.0.left }
    requires live { 0 < seat.old.me.0.parts }
    ensures table { seat.new.table_id ≡ seat.old.table_id }
    ensures step { Steps (log_in M.log) kinds.draw 1 seat.old.me result seat.new.me }
{
    words.fetch_add::<DrawTicket>(seat, 0, 1)
}

/// Looks until the ticket is served. The seat has the machine then.
pub fn wait_for_turn<M: Logged, R: Wait>(
    rt: &R,
    words: &SharedRows<M>,
    seat: &mut RowSeat<M>,
    ticket: u64,
)
    requires table { SitsAt words.now.table_id seat.old.table_id }
    requires waits { seat.old.me.0.stand ≡ stands.Waits ticket }
    ensures table { seat.new.table_id ≡ seat.old.table_id }
    ensures here { Looked (log_in M.log) true seat.old.me seat.new.me }
{
    for _ in rt.forever() {
        if words.load::<Look>(seat, 1) == ticket {
            return;
        }
        thread::yield_now();
    }
    unreachable!()
}

/// Takes the machine out of the slot.
pub fn take<M: Logged>(words: &SharedRows<M>, seat: &mut RowSeat<M>) -> Box<M>
    requires table { SitsAt words.now.table_id seat.old.table_id }
    requires has { (m : _) × (seat.old.me.1 ≡ (0, Some m) ∷ []) }
    ensures table { seat.new.table_id ≡ seat.old.table_id }
    ensures step { Steps (log_in M.log) kinds.take 0 seat.old.me 0 seat.new.me }
    ensures taken { seat.old.me.1 ≡ (0, Some result) ∷ [] }
{
    match words.exchange(seat, 0, None) {
        Some(machine) => machine,
        None => unreachable!(),
    }
}

/// Puts the machine back into the slot.
pub fn give<M: Logged>(words: &SharedRows<M>, seat: &mut RowSeat<M>, machine: Box<M>)
    requires table { SitsAt words.now.table_id seat.old.table_id }
    requires empty { seat.old.me.1 ≡ (0, None) ∷ [] }
    ensures table { seat.new.table_id ≡ seat.old.table_id }
    ensures step { Steps (log_in M.log) kinds.give 0 seat.old.me 0 seat.new.me }
    ensures given { seat.new.me ≡ (seat.old.me.0, (0, Some machine) ∷ []) }
{
    match words.exchange(seat, 0, Some(machine)) {
        None => {}
        Some(_machine) => unreachable!(),
    }
}

/// Counts what was added to the log.
pub fn count<M: Logged>(words: &SharedRows<M>, seat: &mut RowSeat<M>, added: u64) -> u64
    requires table { SitsAt words.now.table_id seat.old.table_id }
    requires grown { (own : _) × (m : _) × (seat.old.me.0.stand ≡ stands.Holds own)
        × (seat.old.me.1 ≡ (0, Some m) ∷ []) × Grows own (log_in M.log m) added × (length (log_in M.log m) < 2 ^ 64) }
    ensures table { seat.new.table_id ≡ seat.old.table_id }
    ensures step { Steps (log_in M.log) kinds.count added seat.old.me result seat.new.me }
{
    words.fetch_add::<Count>(seat, 2, added)
}

/// Lets the next ticket be served.
pub fn pass_on<M: Logged>(words: &SharedRows<M>, seat: &mut RowSeat<M>) -> u64
    requires table { SitsAt words.now.table_id seat.old.table_id }
    requires counted { (m : _) × (seat.old.me.0.stand ≡ stands.Holds (log_in M.log m))
        × (seat.old.me.1 ≡ (0, Some m) ∷ []) }
    ensures table { seat.new.table_id ≡ seat.old.table_id }
    ensures step { Steps (log_in M.log) kinds.pass_on 1 seat.old.me result seat.new.me }
{
    words.fetch_add::<PassOn>(seat, 1, 1)
}

/// Returns how long the log is.
pub fn tell<M: Logged>(words: &SharedRows<M>, seat: &mut RowSeat<M>) -> u64
    requires table { SitsAt words.now.table_id seat.old.table_id }
    requires idle { IsIdle seat.old.me }
    ensures table { seat.new.table_id ≡ seat.old.table_id }
    ensures step { Steps (log_in M.log) kinds.tell 0 seat.old.me result seat.new.me }
{
    words.load::<Tell>(seat, 2)
}

/// Takes a seat in, and remembers what it knew of the log.
pub fn take_in<M: Logged>(words: &SharedRows<M>, keeper: &mut RowSeat<M>, handle: RowSeat<M>)
    requires table { SitsAt words.now.table_id keeper.old.table_id }
    requires handle { handle.table_id ≡ words.now.table_id }
    requires idle { IsIdle keeper.old.me }
    requires pass_idle { IsIdle handle.me }
    ensures table { keeper.new.table_id ≡ keeper.old.table_id }
    ensures step { Steps (log_in M.log) kinds.take_in 0 keeper.old.me 0 keeper.new.me }
    ensures taken { keeper.new.me ≡ (kinds.taken_in keeper.old.me.0 handle.me.0, keeper.old.me.1) }
{
    words.join_seat::<TakeIn>(keeper, handle);
}
