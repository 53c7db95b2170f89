//! The trail of a run: each event with the disk's moment when it was recorded.
//!
//! The layers above use that it is the list of what was pushed, and that a push takes no memory.
#![tactic(auto)]

mod trail;

pub use trail::Trail;
