//! A machine that threads enter by tickets, and whose log anybody counts without waiting.
//!
//! The layer above uses what a handle knows of the log after each call, and that the machine which is taken out has
//! the type of the one that was put in, and a log that begins with what each handle saw.
#![tactic(auto)]

mod handle;
mod lock;
mod rest;
mod rule;
mod steps;
mod threads;
mod turn;
mod view;

pub use handle::{WorkerHandle, WorkerHandles};
pub use lock::{LockFault, TicketLock, Workplace};
pub use rest::make_all_turns;
pub use threads::run_workers;
