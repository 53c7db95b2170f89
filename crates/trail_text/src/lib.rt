//! The text of a trail: each event is a line, and a line is read as the one event whose line it is.
//!
//! The layers above use that an event that fits has one line, and that no two such events have the same.
#![tactic(auto)]

mod ends;
mod fault;
pub mod laws;
mod print;
mod print_ask;
mod read;
mod read_ask;
mod read_word;
mod shape;
mod word;

pub use ends::{Opening, print_opening, print_status, read_opening, read_status};
pub use fault::TrailFault;
pub use print::print_event;
pub use read::read_event;
