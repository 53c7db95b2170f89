//! What a change of an object does to its leaves.
//!
//! It relates an object as a list of bytes or slots to its leaves of 512 bytes. The layers above use that leaves with
//! the bytes of a change give the changed object.
#![tactic(auto)]

mod parts;
mod slots;

pub use parts::{cut_leaf, leaves_in, patch_leaf, read_part};
pub use slots::{put_slot, slot_at};
