//! What a collection keeps in memory while it marks.
//!
//! That is what it has marked, which indices it has still to read, and what was put into an index or opened
//! meanwhile. The layer above uses that the marks are a set of root blocks, and that grey indices and rescues are
//! lists, on which a call takes the same time for any length.
#![tactic(auto)]

mod bits;
mod marks;
mod rescues;

pub use marking::{Grey, Rescue};
pub use marks::Marks;
pub use rescues::Rescues;
