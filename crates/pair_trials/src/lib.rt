//! The pair disk tried on disks that tear their blocks: which calls a write makes below, and what a crash leaves. No
//! crate is above this one: it is made for its tests.
#![tactic(auto)]

#[cfg(test)]
mod torn;
