//! A disk over a disk that holds the map blocks used last, so that a read of one of them makes no call below.
#![tactic(auto)]

mod cache;
mod held;

pub use cache::{CacheFault, MapCache};
