//! Marking: what a collection knows between any two of its steps, as definitions and laws over the model alone.
//!
//! The layers above use that each step, and whatever is asked meanwhile, keeps it, and that with nothing left to read
//! exactly the objects that aren't marked may vanish.
#![tactic(auto)]

pub mod laws;
mod memory;

pub use memory::{Grey, Rescue};
