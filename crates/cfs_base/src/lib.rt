//! The types and traits that every layer uses.
//!
//! The traits are those of the outside, disk, source, sink and gate, and of work that is made in turns. The layers
//! above use what these traits mean, and that a call returns `Failed` only if the count of faults of its own object
//! rose.
#![tactic(auto)]

mod block;
mod disk;
mod gate;
mod identifier;
mod kind;
mod lists;
mod machine;
mod outside;
mod refusal;

pub use block::Block;
pub use disk::Disk;
pub use gate::Gate;
pub use identifier::{BlockNo, Puid, Session, Tuid};
pub use kind::{FileKind, Kind, Mode, Place};
pub use lists::{Bytes, Ids};
pub use machine::{Logged, Machine};
pub use outside::{Sink, Source};
pub use refusal::{Damage, Failed, Need, NoMemory, Refused, Trouble, code};
