//! A machine behind tickets.
ghost use Rattle.std.specs.Prelude.{◌≡◌, ℕ, ◌+◌, ◌-◌, ◌<◌, ◌≤◌, ◌^◌, [], length, sum, All, IfOk, IfErr};
ghost use Rattle.std.specs.Prelude.{vec_capacity};
ghost use Rattle.front_floor.specs.Knows.{AreOf, EntersLog, Fits, HandleKnows, fresh_from};
ghost use Rattle.front_floor.specs.Seats.{IsIdle, IsKeeper, SitsAt, idle};

use crate::handle::{WorkerHandle, WorkerHandles};
use crate::rule::{RowSeat, SharedRows, Ticketed};
use crate::steps::{deal, take_in, tell};
use crate::turn::make_turn;
use crate::view::View;
use atomic_table::{Refused, Table};
use cfs_base::Logged;
use std::alloc::{AllocFailed, Global};
use std::marker::Model;
use std::sync::Wait;

type Rows<M> = Table<Option<Box<M>>, View<<M as Logged>::Entry>, Vec<u64>, Ticketed<M>, Global>;

/// A machine that handles enter one at a time, in the order of their tickets.
///
/// Contracts see a lock as the identity of its table.
pub struct TicketLock<M: Logged> {
    rows: Rows<M>,
}

impl<M: Logged> Model for TicketLock<M> {
    ghost use Rattle.atomic_table.specs.Seated.{TableId};
    ghost use Rattle.front_floor.specs.Seats.{SitsAt};

    ghost Value = { TableId };

    ghost view = { λ f. f.rows.shared.table_id };

    ghost invariant = { λ f. SitsAt f.rows.shared.table_id f.rows.shared.table_id };
}

/// A lock, and its handles.
pub struct Workplace<M: Logged> {
    pub lock: TicketLock<M>,
    pub handles: WorkerHandles<M>,
}

/// There was no memory for a lock. It hands back the machine.
pub struct LockFault<M> {
    pub machine: M,
}

/// Makes a table with this machine, and its first seat, which has all budgets to deal.
fn lay<M: Logged>(
    alloc: Global,
    machine: M,
    plan: &Vec<u64>,
) -> Result<(Rows<M>, RowSeat<M>), LockFault<M>>
    requires sum { sum plan.now.items < 2 ^ 64 - 1 }
    ensures table { IfOk result (λ t. SitsAt t.0.shared.table_id t.1.table_id) }
    ensures first { IfOk result (λ t. t.1.me ≡ (idle (2 ^ 32) 0 plan.now.items, [])) }
    ensures machine { IfErr result (λ fault. fault.machine ≡ machine) }
{
    let entries = machine.events();
    let boxed = match Box::new(alloc, machine) {
        Ok(boxed) => boxed,
        Err(AllocFailed { value }) => return Err(LockFault { machine: value }),
    };
    let mut slots = Vec::new(alloc);
    if let Err(AllocFailed { value }) = slots.push(Some(boxed)) {
        slots.destroy_empty();
        return match value {
            Some(boxed) => Err(LockFault {
                machine: Box::into_inner(boxed),
            }),
            None => unreachable!(),
        };
    }
    match Table::new(alloc, &[0, 0, entries], slots, plan) {
        Ok(laid) => Ok(laid),
        Err(Refused { mut slots }) => {
            let slot = slots.pop();
            slots.destroy_empty();
            match slot {
                Some(Some(boxed)) => Err(LockFault {
                    machine: Box::into_inner(boxed),
                }),
                _ => unreachable!(),
            }
        }
    }
}

/// Deals a handle for each budget. The list has room for them.
fn deal_all<M: Logged>(
    words: &SharedRows<M>,
    keeper: &mut RowSeat<M>,
    handles: &mut Vec<WorkerHandle<M>>,
    budgets: &[u64],
)
    requires table { SitsAt words.now.table_id keeper.old.table_id }
    requires first { keeper.old.me ≡ (idle (2 ^ 32) 0 budgets.now, []) }
    requires few { length budgets.now < 2 ^ 32 }
    requires none { handles.old.items ≡ [] }
    requires room { length budgets.now ≤ vec_capacity handles.old }
    ensures table { keeper.new.table_id ≡ keeper.old.table_id }
    ensures keeper { IsKeeper (length budgets.now) keeper.new.me }
    ensures handles { handles.new.items ≡ fresh_from keeper.old.table_id 0 budgets.now }
{
    let mut number: u32 = 0;
    for left in budgets {
        let handle = WorkerHandle::new(deal(words, keeper), number, *left);
        match handles.push(handle) {
            Ok(()) => {}
            Err(_) => unreachable!(),
        }
        number += 1;
    }
}

/// Takes the machine out of a table. One seat has every part of the lock.
fn finish<M: Logged>(rows: Rows<M>, keeper: RowSeat<M>) -> M
    requires table { SitsAt rows.shared.table_id keeper.table_id }
    requires parts { keeper.me.0.parts ≡ 2 ^ 32 }
    requires idle { IsIdle keeper.me }
    ensures told { All (Fits (M.log result)) keeper.me.0.told }
{
    let mut closed = rows.close_with(keeper);
    let slot = closed.take(0);
    closed.free();
    match slot {
        Some(boxed) => Box::into_inner(boxed),
        None => unreachable!(),
    }
}

impl<M: Logged> TicketLock<M> {
    /// Makes a lock with this machine, and a handle for each budget, numbered from 0.
    ///
    /// Fails only for want of memory, and then hands back the machine as it was.
    pub fn new(alloc: Global, machine: M, budgets: &[u64]) -> Result<Workplace<M>, LockFault<M>>
        requires some { 0 < length budgets.now }
        requires few { length budgets.now < 2 ^ 32 }
        requires sum { sum budgets.now < 2 ^ 64 - 1 }
        ensures of { IfOk result (λ w. AreOf w.lock w.handles) }
        ensures handles { IfOk result (λ w. w.handles.handles ≡ fresh_from w.lock 0 budgets.now) }
        ensures machine { IfErr result (λ fault. fault.machine ≡ machine) }
    {
        let Ok(plan) = Vec::from_slice(alloc, budgets) else {
            return Err(LockFault { machine });
        };
        let Ok(mut handles) = Vec::with_capacity(alloc, budgets.len()) else {
            return Err(LockFault { machine });
        };
        match lay(alloc, machine, &plan) {
            Ok((rows, mut keeper)) => {
                deal_all(&rows.shared, &mut keeper, &mut handles, budgets);
                Ok(Workplace {
                    lock: TicketLock { rows },
                    handles: WorkerHandles { keeper, handles },
                })
            }
            Err(fault) => {
                handles.destroy_empty();
                Err(fault)
            }
        }
    }

    /// Makes one turn of the handle's worker, once its ticket is served, and returns whether the worker is done.
    ///
    /// Waits while those with earlier tickets make their turns.
    pub fn enter<R: Wait>(&self, rt: &R, handle: &mut WorkerHandle<M>) -> bool
        requires of { handle.old.table ≡ self.now }
        requires left { 0 < handle.old.left }
        ensures same { (handle.new.table ≡ handle.old.table) × (handle.new.number ≡ handle.old.number) }
        ensures left { handle.new.left + 1 ≡ handle.old.left }
        ensures turn { EntersLog M.done M.turned M.log handle.old.number result handle.old.heard handle.new.heard }
    {
        let done = make_turn(rt, &self.rows.shared, &mut handle.seat, handle.number);
        handle.left -= 1;
        done
    }

    /// Returns how many entries the log has. Waits for nobody.
    pub fn status(&self, handle: &mut WorkerHandle<M>) -> u64
        requires of { handle.old.table ≡ self.now }
        ensures fresh { handle.old.heard.known ≤ result }
        ensures known { handle.new ≡ record handle.old { heard = record handle.old.heard { known = result } } }
    {
        tell(&self.rows.shared, &mut handle.seat)
    }

    /// Returns the machine, once all handles of the lock are handed in.
    pub fn close(self, handles: WorkerHandles<M>) -> M
        requires of { AreOf self handles }
        ensures fits { All (λ (handle : HandleKnows M.Entry). Fits (M.log result) handle.heard) handles.handles }
    {
        let TicketLock { rows } = self;
        let WorkerHandles {
            mut keeper,
            handles: mut out,
        } = handles;
        while let Some(handle) = out.pop() {
            take_in(&rows.shared, &mut keeper, handle.into_seat());
        }
        out.destroy_empty();
        finish(rows, keeper)
    }
}
