//! A machine under a lock.
use cfs_base::Machine;
use std::sync::{Mutex, Wait};

/// A machine under a lock.
///
/// While others may make turns, nothing but its type is known of the machine.
pub struct Floor<M: Machine> {
    lock: Mutex<M>,
}

impl<M: Machine> Floor<M> {
    /// Puts a machine under a lock.
    pub fn new(machine: M) -> Floor<M> {
        Floor {
            lock: Mutex::new(machine),
        }
    }

    /// Takes the lock, makes one turn, and returns whether the worker is done.
    ///
    /// Waits while another worker has the lock.
    pub fn enter<R: Wait>(&self, rt: &R, worker: u32) -> bool {
        self.lock.lock(rt).turn(worker)
    }

    /// Returns the machine, once nobody enters any more.
    pub fn close(self) -> M {
        let Floor { lock } = self;
        lock.into_inner()
    }
}
