//! A service that has ended, and one that never began.
use crate::ending::Ending;
use cfs_base::Sink;
use cfs_ports::Port;
use cfs_trail::Trail;

/// What a service leaves.
#[derive(Drop)]
pub(crate) struct Served<A, K: Sink> {
    pub server: A,
    pub trail: Trail,
    pub ports: Vec<Port<K>>,
    /// Whether an answer reported want of memory.
    pub starved: bool,
    /// Whether a reply reported a failed call of the disk.
    pub failed: bool,
    /// How the service ended.
    pub ending: Ending,
}

/// A service that never began, for want of memory: its server and its ports are as they were.
#[derive(Drop)]
pub(crate) struct Unserved<A, K: Sink> {
    pub server: A,
    pub ports: Vec<Port<K>>,
}
