//! Directories of names over any asker: an index of identifiers, whose first slot holds a table of names.
//!
//! The layers above use that each call leaves the names old, or old with its one change, after each request that it
//! makes.
#![tactic(auto)]

mod asking;
mod binding;
mod changing;
mod fault;
mod looking;
mod making;
mod opening;
mod row;
mod table;
mod text;

pub use binding::{bind, unbind};
pub use fault::DirFault;
pub use looking::{list, look, top};
pub use making::{MOST_CAPACITY, make, make_root};
pub use text::{Text, Texts, is_text};
