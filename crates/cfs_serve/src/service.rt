//! A service as it begins.
ghost use Rattle.cfs_serve.specs.Service.{IsServiceReady};

use crate::server::Server;
use cfs_base::Sink;
use cfs_ports::Port;
use cfs_trail::Trail;

/// Which collections a service makes.
#[derive(Clone, Copy, Debug)]
pub(crate) struct Schedule {
    /// How many collections are called for.
    pub collections: u32,
    /// Whether the collector makes no step once one is finished, until the sessions have left.
    pub rests: bool,
}

/// A service that is ready to begin.
#[derive(Drop)]
pub(crate) struct Service<A: Server, K: Sink> {
    pub server: A,
    /// Where the events are recorded: empty, with room for all of them.
    pub trail: Trail,
    /// The ports of the sessions.
    pub ports: Vec<Port<K>>,
    pub schedule: Schedule,
    /// How many turns the collector may make for its collections.
    pub turns: u64,
    ghost ready: { IsServiceReady A.Server server trail ports.items schedule.collections turns },
}
