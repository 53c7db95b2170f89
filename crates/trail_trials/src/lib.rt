//! Lines of trails, printed and read, and a script of the workload. No crate is above this one: it is made for its
//! tests.
#![tactic(auto)]

#[cfg(test)]
mod lines;
#[cfg(test)]
mod workload;
