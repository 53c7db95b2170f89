//! Drafts of indices.
//!
//! An index is changed beside itself, slot by slot, until all is committed at once or given up. The layer above uses
//! that a draft is the model's draft of the index, that an object made in it is in the graph at once, and that each
//! image on the way holds all objects as they were, or that one too.
#![tactic(auto)]

mod changing;
mod creating;
mod draft;

pub use changing::put_in;
pub use creating::create_in;
pub use draft::IndexDraft;
