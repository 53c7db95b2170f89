//! The port of a session, and the lines of a source, read as they come.
//!
//! A port has a script and how far it was read, its names and its sink. The layers above use that a request is what its
//! line spells, that the sink has the printed replies, and that a source is asked for more only if each line that it
//! gave has its reply.
#![tactic(auto)]

mod binding;
mod hearing;
pub mod laws;
mod lines;
mod port;

pub use hearing::Heard;
pub use lines::{Exchange, LineFault, Lines};
pub use port::{Port, PortFault};
