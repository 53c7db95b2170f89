//! Disks, sources and sinks in memory, and gates that hold nobody up, or hold workers back.
//!
//! Each keeps the meaning of its trait. A recording disk gives exactly the images that a crash may leave, so that
//! what the layers above promise can be tried.
#![tactic(auto)]

mod faults;
mod gate;
mod hold_gate;
mod kept;
mod listed;
mod memory_disk;
mod memory_sink;
mod memory_source;
mod recorder;
mod rerun;
mod store;
mod turns;
mod watched;

pub use gate::OpenGate;
pub use hold_gate::{Hold, HoldGate};
pub use kept::Pick;
pub use memory_disk::MemoryDisk;
pub use memory_sink::MemorySink;
pub use memory_source::MemorySource;
pub use turns::Turns;
pub use watched::{Seen, Watched};
