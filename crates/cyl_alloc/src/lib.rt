//! The Free blocks of a volume, and one commit that is past its bit, while it isn't carried out.
//!
//! It counts how many Free blocks each cylinder has, and makes their claim, intention and release in the maps on the
//! disk. The layer above uses that a claim or an intention gives the least-numbered Free block, that each of the
//! three changes the entry of its block and no other, and that a crash leaves the map as it was or with that one
//! entry changed.
#![tactic(auto)]

mod commits;
mod counts;
mod known;
pub mod laws;
pub mod maps;
mod part;
mod space;
mod unfinished;

pub use known::KnownMaps;
pub use part::Part;
pub use space::Space;
pub use unfinished::Blocks;
