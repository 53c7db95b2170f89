//! The identifiers of a volume's objects, and the random words of which new ones are made.
//!
//! The layers above use that `Directory` is a finite map from identifiers to kinds, and that `Draw` gives the words
//! of a seed in turn.
#![tactic(auto)]

mod directory;
mod draw;
pub mod laws;

pub use directory::Directory;
pub use draw::{Draw, Drawn, root_word};
