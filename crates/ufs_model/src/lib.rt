//! The universal file server in definitions, and `Plain`, a slow server in memory.
//!
//! The definitions are those of objects, the graph, grants, requests and their answers, the collection, and whole
//! runs. The layers above use that `Plain` answers as the definitions say.
#![tactic(auto)]

mod asked;
mod asker;
mod blocks;
mod change;
mod collection;
mod effect;
mod follower;
mod index;
pub mod laws;
mod limits;
mod marks;
mod need;
mod numbers;
mod object;
mod outcome;
mod plain;
mod progress;
mod refusal;
mod request;
mod server;
mod told;
mod vanish;
mod word;

pub use asked::{Bound, Event, Ref, Reply, Request, Unread, Wanted};
pub use asker::Asker;
pub use change::Change;
pub use collection::{Collection, Pairs};
pub use follower::Follower;
pub use limits::{
    FAN_OUT, LEAF_BYTES, LEAF_SLOTS, MOST_AT_ONCE, MOST_BYTES, MOST_GRANTS, MOST_LEAVES, MOST_LINE,
    MOST_NAME, MOST_SLOTS, RESERVE, ROOT_SLOTS,
};
pub use numbers::{Levels, Numbers};
pub use object::{Content, Draft, File, Grant, Index, Object, Slots};
pub use plain::Plain;
pub use word::word_of;
