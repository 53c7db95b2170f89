//! Intentions: what a draft is to take and to give up, and the commit bit that carries it out.
//!
//! The layer above uses which entry each call changes and how, and that a crash leaves the map as it was or with that
//! entry changed.
#![tactic(auto)]

mod bit;
mod calls;
mod change;
mod entry;
pub mod laws;
mod run;

pub use bit::{barrier, clear_bit, commit, copy_root};
pub use calls::{finish, intend_claim, intend_release, undo};
pub use change::EntryChange;
pub use entry::{change_entry, change_in};
pub use run::{Rule, Run, change_first, is_freed, write_map};
