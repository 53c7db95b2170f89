//! Normal files, which are changed in place.
//!
//! The layer above uses that the bytes which `read` gives are the file's, and that after `write` and `resize` the
//! store has the changed file, or else each of its leaves and its size are old or new.
#![tactic(auto)]

mod absent;
mod cut;
mod flush;
mod free;
mod grow;
mod in_place;
pub mod laws;
mod link;
mod lowest;
mod need;
mod next;
mod part;
mod range;
mod reading;
mod resizing;
mod shrink;
mod touched;
mod two_nodes;
mod writing;

pub use reading::read;
pub use resizing::resize;
pub use writing::write;
