//! A machine under one lock, and threads that make its turns.
//!
//! The layer above uses that the machine which is taken out has the type of the one that was put in, whose invariant
//! held at each turn, and that the turns which are left then bring all to an end.
#![tactic(auto)]

mod floor;
mod rest;
mod workers;

pub use floor::Floor;
pub use rest::{make_all_turns, make_turns_left};
pub use workers::{Share, run_workers, shares_of};
