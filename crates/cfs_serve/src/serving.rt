//! Services, from their beginning to their end.
ghost use Rattle.std.specs.Prelude.{◌≡◌, IfErr, IfOk};
ghost use Rattle.cfs_serve.specs.Machine.{AllLeft, AreFresh};
ghost use Rattle.cfs_serve.specs.Service.{HasServed, IsServiceBegun, IsEndOf};

use crate::logged::Charter;
use crate::machine::ServiceMachine;
use crate::served::{Served, Unserved};
use crate::server::Server;
use crate::service::Service;
use cfs_base::{Gate, Sink};
use front_floor::{LockFault, make_all_turns};
use std::alloc::Global;
use std::marker::Brand;
use std::sync::Wait;
use std::thread::Threads;

/// Makes a machine of this charter, and all its turns.
///
/// If memory is wanting for the front, the error hands back the server and the ports.
fn serve_by<
    A: Server + Send,
    J: Charter<A> + Send,
    K: Sink + Send,
    G: Gate + Sync,
    R: Threads + Wait + Sync,
>(rt: &R, alloc: Global, gate: &G, service: Service<A, K>) -> Result<Served<A, K>, Unserved<A, K>>
    requires begun { IsServiceBegun A.Server J.charter service.server }
    requires fresh { AreFresh J.charter service.ports.items }
    requires called { J.charter.collections ≡ service.schedule.collections }
    ensures ended { IfOk result (IsEndOf A.Server J.charter) }
    ensures left { IfOk result (λ s. AllLeft s.ports.items) }
    ensures unserved { IfErr result (λ u. (u.server ≡ service.server) × (u.ports.items ≡ service.ports.items)) }
{
    let machine: ServiceMachine<A, J, K> = ServiceMachine::new(alloc, service);
    match make_all_turns(rt, alloc, gate, machine) {
        Ok(machine) => Ok(machine.into_served()),
        Err(LockFault { machine }) => Err(machine.into_unserved()),
    }
}

impl<A: Server + Send, K: Sink + Send> Service<A, K> {
    /// Serves the sessions until each has left, and collects beside them.
    ///
    /// Each session has a thread, and leaves at its script's end or once its sink failed. The collector has a thread
    /// of its own. It carries out what a commit has left, and makes its steps, which are fewer than it is given. It is
    /// done once as many collections are finished as were called for, or at a refusal.
    ///
    /// Turns are made by tickets. Before each turn a session or the collector passes the gate, and learns how many
    /// events the trail has.
    ///
    /// Takes memory only for the front, the threads, the answers and the collector. If memory is wanting for the front,
    /// nothing is served, and the error has the server and the ports as they were.
    pub fn run<G: Gate + Sync, R: Threads + Wait + Sync>(
        self,
        rt: &R,
        alloc: Global,
        gate: &G,
    ) -> Result<Served<A, K>, Unserved<A, K>>
        ensures served { IfOk result (HasServed A.Server self.server self.ports.items
            self.schedule.collections) }
        ensures unserved { IfErr result (λ u. (u.server ≡ self.server) × (u.ports.items ≡ self.ports.items)) }
    {
        serve_by::<A, Brand, K, G, R>(rt, alloc, gate, self)
    }
}
