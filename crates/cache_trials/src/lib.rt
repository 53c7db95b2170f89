//! A cache of map blocks, tried on disks in memory. No crate is above this one: it is made for its tests.
#![tactic(auto)]

#[cfg(test)]
mod caches;
