//! What is done to the slots of an index: one is read, filled or emptied, or filled with an object that is made.
//!
//! The layer above uses that each call is the model's change of one object, and that a crash leaves it done or not
//! done.
#![tactic(auto)]

mod changing;
mod creating;
mod reading;

pub use changing::{delete, retain};
pub use creating::create;
pub use reading::retrieve;
