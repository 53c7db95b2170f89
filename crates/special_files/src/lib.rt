//! Drafts of special files and indices: an object that is changed beside itself, while the object stays as it was.
//!
//! The layer above uses that a draft is the model's draft, and that each image on the way holds all objects as they
//! were.
#![tactic(auto)]

mod abort;
mod adopt;
mod becoming;
mod begin;
mod blocks;
mod changed;
mod commit;
mod commit_bit;
mod creating;
mod direct;
mod draft;
mod fill;
mod flags;
mod flips;
mod freed;
mod leaf;
mod node;
mod read;
mod resize;
mod shrink;
mod slot;
mod write;

pub use begin::Room;
pub use creating::{bare_root, least, write_root};
pub use draft::ObjectDraft;
pub use fill::Swap;
