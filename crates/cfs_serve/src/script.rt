//! The script of a session, and what ports are made of.
ghost use Rattle.std.specs.Prelude.{◌≡◌, ◌≤◌, length, IfErr, IfOk};
ghost use Rattle.ufs_model.specs.Script.{request_lines};
ghost use Rattle.cfs_ports.specs.Port.{IsNewPort};

use cfs_base::{Puid, Sink};
use cfs_ports::{Port, PortFault};
use cfs_script::next_line;
use std::alloc::Global;
use std::marker::Model;

/// Returns how many request lines a script has.
pub(crate) fn count_lines(script: &[u8]) -> u64
    ensures count { result ≡ length (request_lines script.now) }
    ensures few { result ≤ length script.now }
{
    let mut rest = script;
    let mut count = 0;
    'lines: while let Some(next) = next_line(rest) {
        count += 1;
        rest = &rest[next.taken..];
    }
    count
}

/// The script of a session, and how many request lines it has.
#[derive(Drop)]
pub(crate) struct Script {
    bytes: Vec<u8>,
    lines: u64,
}

impl Model for Script {
    ghost use Rattle.std.specs.Prelude.{◌≡◌, ◌≤◌, List, ℕ, length};
    ghost use Rattle.ufs_model.specs.Script.{request_lines};

    ghost Value = { List ℕ };

    ghost view = { λ s. s.bytes.items };

    ghost invariant = { λ s. (s.lines ≡ length (request_lines s.bytes.items)) × (s.lines ≤ length s.bytes.items) };
}

impl Script {
    /// Makes a script of these bytes, and counts its request lines.
    pub fn new(bytes: Vec<u8>) -> Script
        ensures { result ≡ bytes.items }
    {
        let lines = count_lines(bytes.as_slice());
        Script { bytes, lines }
    }

    /// Returns the bytes of the script.
    pub fn as_slice(&self) -> &[u8]
        ensures { result.now ≡ self.now }
    {
        self.bytes.as_slice()
    }

    /// Returns how many request lines the script has.
    pub fn lines(&self) -> u64
        ensures count { result ≡ length (request_lines self.now) }
        ensures few { result ≤ length self.now }
    {
        self.lines
    }

    /// Makes the port of a session with this script, which knows the root index.
    ///
    /// If memory is wanting, the error is the sink.
    pub fn into_port<K: Sink>(self, alloc: Global, root: Puid, sink: K) -> Result<Port<K>, K>
        ensures new { IfOk result (IsNewPort root) }
        ensures lines { IfOk result (λ p. p.lines ≡ request_lines self) }
        ensures sink { IfOk result (λ p. p.sink ≡ K.intake sink) }
        ensures back { IfErr result (λ back. back ≡ sink) }
    {
        match Port::new(alloc, root, self.bytes, self.lines, sink) {
            Ok(port) => Ok(port),
            Err(PortFault { script: _, sink }) => Err(sink),
        }
    }
}
