//! Lines that ask for directories of names, over any asker: each is read, done and answered.
//!
//! The layers above use that the names of the state before and after allow the answer, and that each request of a
//! line leaves the names old, or old with the line's one change.
#![tactic(auto)]

mod answer;
mod line;
mod print;
mod read;
mod serve;
mod walk;

pub use answer::Answer;
pub use line::{Capacity, Line, NameAt, Pathname};
pub use read::read_line;
pub use serve::serve_line;
