//! The steps of the collector: a collection begins, marks, condemns, sweeps and ends, one short step at a time.
//!
//! The layer above uses that each step keeps what holds of a collection between any two calls, that exactly what may
//! vanish is condemned, and that only blocks of vanished objects are swept.
#![tactic(auto)]

mod collector;
mod condemn;
mod leaf;
mod phase;
mod scan;
mod shading;
mod sweep;
mod sweeps;

pub use collector::Collector;
pub use phase::Phase;
