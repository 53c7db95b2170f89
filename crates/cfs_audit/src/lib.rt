//! The judgement of a trail that was printed: whether its text is one, and whether the definitions allow its events.
//!
//! The layers above use that a verdict names the first bad line or the first event that may not happen, or says that
//! the whole is a legal run.
#![tactic(auto)]

mod cut;
pub mod laws;
mod trail;

pub use trail::{Verdict, audit};
