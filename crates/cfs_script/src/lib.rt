//! The lines of a session: requests are read from the bytes of its script, and replies are written as bytes.
//!
//! The layers above use that a line is read as exactly what the definitions say that it asks, and that a reply is
//! written as exactly its line.
#![tactic(auto)]

mod fault;
mod line;
mod name;
mod names;
mod reply;
mod request;
mod spoken;
mod verb;
mod word;
mod words;

pub use fault::ScriptFault;
pub use line::{NextLine, next_line};
pub use name::{Name, is_name};
pub use names::Names;
pub use reply::{REPLY_ROOM, print_reply, print_unread, put_line};
pub use spoken::{Spoken, read_line};
pub use verb::{Verb, all_verbs};
pub use word::{id_of, number_of};
pub use words::{Words, is_readable};
