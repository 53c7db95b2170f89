//! The collector tried on small graphs: each interleaving of its steps with a request or two, beside the definitions
//! written plainly. No crate is above this one: it is made for its tests.
#![tactic(auto)]

#[cfg(test)]
mod blocks;
#[cfg(test)]
mod graph;
#[cfg(test)]
mod judge;
#[cfg(test)]
mod run;
#[cfg(test)]
mod tests;
#[cfg(test)]
mod volume;
