//! Atomic blocks on a disk whose writes may tear.
//!
//! The layer above uses that a pair disk over an honest disk that may tear its blocks is a `Disk`, crash images
//! included: after a crash each block has its old content or the new one.
#![tactic(auto)]

mod below;
mod half;
mod history;
mod kept;
mod pair;
mod replay;
mod store;
mod torn_disk;
mod torn_memory;

pub use kept::TornPick;
pub use pair::PairDisk;
pub use torn_disk::TornDisk;
pub use torn_memory::TornMemory;
