//! The label of a volume: how many cylinders it has, and which object is the root index.
//!
//! The layer above uses that `decode` reads exactly the blocks that `encode` writes, refuses another version by its
//! number, and anything else as no volume.
#![tactic(auto)]

mod label;

pub use label::{Label, LabelFault, NEWEST};
