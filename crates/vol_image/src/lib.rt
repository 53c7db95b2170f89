//! Images of a volume: when one is sound, the graph as which it reads, and what may change while both stay.
//!
//! The layers above use the law of frames: an image within the frame of a sound one is sound, and reads the same.
#![tactic(auto)]

pub mod laws;
