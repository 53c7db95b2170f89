//! What seats know. These types are for proofs alone: no value of them is made.
use std::collections::LinkedList;

/// What is known of the log.
pub struct LogView<E> {
    /// The log as the last turn left it.
    pub seen: LinkedList<E>,
    /// The places in it of the entries that turns of this handle added.
    pub mine: LinkedList<u64>,
    /// A length of the log that was read.
    pub known: u64,
}

/// What a seat has to do with the machine.
pub enum Stand<E> {
    /// The seat is between two turns.
    Idle,
    /// The seat has this ticket.
    Waits(u64),
    /// The seat has the machine, whose log is this one.
    Holds(LinkedList<E>),
}

/// What a seat knows.
pub struct View<E> {
    /// The turns that it may still make.
    pub left: u64,
    /// What it has to do with the machine.
    pub stand: Stand<E>,
    /// What it knows of the log.
    pub heard: LogView<E>,
    /// Its parts of the lock, of which there are 2^32 in all.
    pub parts: u64,
    /// The budgets that it has still to deal.
    pub plan: LinkedList<u64>,
    /// What the handles that it took in knew of the log.
    pub told: LinkedList<LogView<E>>,
}
