//! The core: the universal file server on one disk.
//!
//! The layer above uses that each call is one event of the definitions, and that what a crash leaves of it survives.
#![tactic(auto)]

mod asking;
mod changing;
mod closing;
mod collecting;
mod creating;
mod drafting;
mod filling;
mod finishing;
mod granting;
mod handles;
mod kernel;
mod laws;
mod looking;
mod opening;
mod reading;
mod rescuing;
mod stopping;
mod tidying;
mod visiting;
mod way;
mod writing;

pub use collecting::{CollectFault, Step};
pub use kernel::{Core, Halt, Status, Stop};
pub use opening::OpenFault;
pub use tidying::{Tidy, TidyFault};
