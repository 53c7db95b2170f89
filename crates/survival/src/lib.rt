//! What a crash leaves of one call of a server, and of a whole run.
//!
//! The layers above use that a run survives if each of its calls does.
#![tactic(auto)]

pub mod laws;
