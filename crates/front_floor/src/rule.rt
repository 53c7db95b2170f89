//! The rule of a lock, and what the seat that makes a step learns from it, for each kind of step.
use crate::view::View;
use atomic_table::{Join, Play, Seat, Shared, Split, TableRule};
use cfs_base::Logged;
use std::marker::PhantomData;

/// The rule. It gets the budgets when the table is made.
pub struct Ticketed<M: Logged>(PhantomData<M>);

/// The words and the slot of a lock.
///
/// The machine is in a box, so that a turn moves a pointer out of the slot and back, however large the machine is.
pub type SharedRows<M> = Shared<Option<Box<M>>, View<<M as Logged>::Entry>, Vec<u64>, Ticketed<M>>;

/// What a thread uses to make steps.
pub type RowSeat<M> = Seat<Option<Box<M>>, View<<M as Logged>::Entry>>;

impl<M: Logged> TableRule<Option<Box<M>>, View<M::Entry>, Vec<u64>> for Ticketed<M> {
    ghost use Rattle.std.specs.Prelude.{sum, ◌^◌};
    ghost use Rattle.front_floor.specs.Seats.{IsServed, idle, log_in};

    ghost holds = { λ budgets s. IsServed (log_in M.log) (sum budgets.items) s };

    ghost first = { λ budgets. idle (2 ^ 32) 0 budgets.items };
}

/// The step that draws a ticket.
pub struct DrawTicket;

impl<M: Logged> Play<Option<Box<M>>, View<M::Entry>> for DrawTicket {
    ghost use Rattle.front_floor.specs.Seats.{Steps, draw, log_in};

    ghost then = { λ s v n w. Steps (log_in M.log) draw s.first v n w };
}

/// The step that looks which ticket is served.
pub struct Look;

impl<M: Logged> Play<Option<Box<M>>, View<M::Entry>> for Look {
    ghost use Rattle.front_floor.specs.Seats.{Steps, log_in, look};

    ghost then = { λ s v n w. Steps (log_in M.log) look s.first v n w };
}

/// The step that counts what was added to the log.
pub struct Count;

impl<M: Logged> Play<Option<Box<M>>, View<M::Entry>> for Count {
    ghost use Rattle.front_floor.specs.Seats.{Steps, count, log_in};

    ghost then = { λ s v n w. Steps (log_in M.log) count s.first v n w };
}

/// The step that lets the next ticket be served.
pub struct PassOn;

impl<M: Logged> Play<Option<Box<M>>, View<M::Entry>> for PassOn {
    ghost use Rattle.front_floor.specs.Seats.{Steps, log_in, pass_on};

    ghost then = { λ s v n w. Steps (log_in M.log) pass_on s.first v n w };
}

/// The step that reads how long the log is.
pub struct Tell;

impl<M: Logged> Play<Option<Box<M>>, View<M::Entry>> for Tell {
    ghost use Rattle.front_floor.specs.Seats.{Steps, log_in, tell};

    ghost then = { λ s v n w. Steps (log_in M.log) tell s.first v n w };
}

/// The step that deals a handle.
pub struct Deal;

impl<E> Split<View<E>> for Deal {
    ghost use Rattle.front_floor.specs.Seats.{dealer, dealt};

    ghost left = { dealer };

    ghost right = { dealt };
}

/// The step that takes a handle in.
pub struct TakeIn;

impl<E> Join<View<E>> for TakeIn {
    ghost use Rattle.std.specs.Prelude.{[]};
    ghost use Rattle.front_floor.specs.Seats.{idle, taken_in};

    ghost both = { taken_in };

    ghost spent = { idle 0 0 [] };
}
