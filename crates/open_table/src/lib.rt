//! The grants of all sessions: which object each has open, and how.
//!
//! The layers above use that `Grants` is a list in the order of acquiring, and that each call is the same operation
//! on that list.
#![tactic(auto)]

mod fault;
mod grant;
mod grants;
pub mod laws;
mod objects;
mod sessions;

pub use fault::{AcquireFault, NoGrant};
pub use grant::OpenGrant;
pub use grants::Grants;
