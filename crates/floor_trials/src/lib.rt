//! Workers in threads, and the order that a gate makes them keep: two on a floor, and those of whole services.
//!
//! And whole services whose sources, sinks and disks fail at a call. Nothing of the server uses this crate.
#![tactic(auto)]

#[cfg(test)]
mod disks;
#[cfg(test)]
mod ends;
#[cfg(test)]
mod front;
#[cfg(test)]
mod orders;
mod rounds;
#[cfg(test)]
mod service;
#[cfg(test)]
mod sink;
#[cfg(test)]
mod stated;
#[cfg(test)]
mod tests;
#[cfg(test)]
mod torn;

pub use rounds::Rounds;
