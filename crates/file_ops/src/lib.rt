//! What is done to a file of either kind: its bytes and its size are read, bytes are written, and its size is set.
//!
//! The layer above uses that each change is the model's, in place for a normal file and as one commit for a special
//! one.
#![tactic(auto)]

mod changing;
mod reading;
mod special;

pub use changing::{resize, write};
pub use reading::{read, read_root, size};
