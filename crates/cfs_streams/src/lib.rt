//! Sources that are read whole and sinks that are written whole, by as many calls as it takes.
//!
//! The layers above use `WritesWhole`: all of a text was taken, or some of its beginning if the sink failed. Two
//! texts written one after the other are one.
#![tactic(auto)]

mod fault;
mod reading;
mod writing;

pub use fault::ReadFault;
pub use reading::read_whole;
pub use writing::write_whole;
