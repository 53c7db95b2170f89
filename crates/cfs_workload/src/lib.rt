//! The workload of a spin: the script of each of its sessions, drawn from a seed.
//!
//! The layers above use that a script is exactly the lines of the definitions, and how many they are.
#![tactic(auto)]

mod act;
pub mod laws;
mod session;

pub use act::{Act, Left};
pub use session::script;
