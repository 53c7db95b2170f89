//! Blocks claimed one after another: which block is taken for which leaf and node of an object, and in what order.
//!
//! The layers above use that claims follow one another, and that contents don't matter to them.
#![tactic(auto)]
