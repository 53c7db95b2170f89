//! A commit past its bit, carried out part by part: the copy of the root, the entries, and the commit bit.
//!
//! The layer above uses that no part changes the image that is to come, that each image on the way holds all objects,
//! and that at the end nothing is left and no write waits for a barrier.
#![tactic(auto)]

mod finish;
mod part;
mod run;

pub use finish::{finish_all, step};
