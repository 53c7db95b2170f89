//! A fresh volume: the maps, the label, and a root index of empty slots.
//!
//! The layer above uses that a disk that was formatted is sound and reads as that root index alone, and that a crash
//! on the way leaves no other volume than one that it might have left before.
#![tactic(auto)]

mod format;
mod map;

pub use format::format_volume;
