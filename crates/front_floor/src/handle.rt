//! The handles of a lock.
ghost use Rattle.std.specs.Prelude.{◌≡◌, ℕ, ◌<◌, length, slice_index_or, slice_set};
ghost use Rattle.std.specs.Borrow.{Lends, sem};
ghost use Rattle.front_floor.specs.contracts.handle.WorkerHandle.{the_row as handle_row};
ghost use Rattle.front_floor.specs.contracts.handle.WorkerHandles.{the_row as handles_row};
ghost use Rattle.front_floor.specs.Knows.{HandleKnows};
ghost use Rattle.front_floor.specs.Seats.{IsHandle};

use crate::rule::RowSeat;
use cfs_base::Logged;
use std::marker::Model;

/// The right to make turns of a worker, and what the handle knows of the log.
pub struct WorkerHandle<M: Logged> {
    pub(crate) seat: RowSeat<M>,
    pub(crate) number: u32,
    pub(crate) left: u64,
}

impl<M: Logged> Model for WorkerHandle<M> {
    ghost use Rattle.front_floor.specs.Knows.{HandleKnows};
    ghost use Rattle.front_floor.specs.Seats.{IsHandle};

    ghost Value = { HandleKnows M.Entry };

    ghost view = { λ p. record {
      table = p.seat.table_id;
      number = p.number;
      left = p.left;
      heard = p.seat.me.0.heard;
    } };

    ghost invariant = { λ p. IsHandle p.left p.seat.me };
}

impl<M: Logged> WorkerHandle<M> {
    pub(crate) fn new(seat: RowSeat<M>, number: u32, left: u64) -> WorkerHandle<M>
        requires handle { IsHandle left seat.me }
        ensures { result ≡ record { table = seat.table_id; number = number; left = left; heard = seat.me.0.heard } }
    {
        WorkerHandle { seat, number, left }
    }

    pub(crate) fn into_seat(self) -> RowSeat<M>
        ensures table { result.table_id ≡ self.table }
        ensures heard { result.me.0.heard ≡ self.heard }
        ensures handle { IsHandle self.left result.me }
    {
        let WorkerHandle {
            seat,
            number: _,
            left: _,
        } = self;
        seat
    }

    /// Returns the worker whose turns it makes.
    pub fn number(&self) -> u32
        ensures { result ≡ self.now.number }
    {
        self.number
    }

    /// Returns how many turns it may still make.
    pub fn left(&self) -> u64
        ensures { result ≡ self.now.left }
    {
        self.left
    }
}

/// All handles of a lock, numbered from 0.
pub struct WorkerHandles<M: Logged> {
    pub(crate) keeper: RowSeat<M>,
    pub(crate) handles: Vec<WorkerHandle<M>>,
}

impl<M: Logged> Model for WorkerHandles<M> {
    ghost use Rattle.std.specs.Prelude.{length};
    ghost use Rattle.front_floor.specs.Knows.{Dealt};
    ghost use Rattle.front_floor.specs.Seats.{IsKeeper};

    ghost Value = { Dealt M.Entry };

    ghost view = { λ p. record { table = p.keeper.table_id; handles = p.handles.items } };

    ghost invariant = { λ p. IsKeeper (length p.handles.items) p.keeper.me };
}

impl<M: Logged> WorkerHandles<M> {
    /// Returns the handle of this number, which is below their count.
    pub fn at(&mut self, number: u32) -> &mut WorkerHandle<M>
        requires within { number < length self.old.handles }
        ensures* writes_back { sem 𝓛 (Lends (handles_row M.row M.Entry.row (record { log = M.log }) M.Machine)
            (handle_row M.row M.Entry.row (record { log = M.log }) M.Machine) self.entry result
            (λ handle. record self.old { handles = slice_set self.old.handles number handle })) }
        ensures value { (handle : HandleKnows M.Entry) → result.now ≡ slice_index_or self.old.handles number handle }
    {
        &mut self.handles[number as usize]
    }
}
