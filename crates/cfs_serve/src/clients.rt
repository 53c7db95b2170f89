//! The ports of a service's clients: made from scripts and sinks, and taken apart once the clients have left.
ghost use Rattle.std.specs.Prelude.{◌≡◌, ◌≤◌, ◌+◌, ◌++◌, [], IfNone, IfSome, length, map, reverse, vec_capacity};
ghost use Rattle.ufs_model.specs.Script.{request_lines};
ghost use Rattle.cfs_serve.specs.Machine.{AreNew};

use crate::script::Script;
use cfs_base::{Puid, Sink};
use cfs_ports::Port;
use std::alloc::Global;

/// Takes these ports apart, the last one first, and puts their sinks after those in `sinks`.
fn unstack<K: Sink>(mut ports: Vec<Port<K>>, sinks: &mut Vec<K>)
    requires room { length sinks.old.items + length ports.items ≤ vec_capacity sinks.old }
    ensures sinks { map K.intake sinks.new.items ≡ map K.intake sinks.old.items ++ map (λ p. p.sink)
        (reverse ports.items) }
    ensures room { vec_capacity sinks.new ≡ vec_capacity sinks.old }
{
    'ports: while !ports.is_empty() {
        let port = ports.take_last();
        sinks.push_reserved(port.into_sink());
    }
    ports.destroy_empty();
}

/// Makes the ports of sessions with these scripts and sinks, the last one first.
///
/// No sink is left in `sinks`. Returns `None` for want of memory, and then the sinks are as they were.
fn stack_ports<K: Sink>(
    alloc: Global,
    root: Puid,
    mut scripts: Vec<Script>,
    sinks: &mut Vec<K>,
) -> Option<Vec<Port<K>>>
    requires { length scripts.items ≡ length sinks.old.items }
    ensures empty { IfSome result (λ ports. sinks.new.items ≡ []) }
    ensures lines { IfSome result (λ ports. map (λ p. p.lines) (reverse ports.items) ≡ map request_lines
        scripts.items) }
    ensures sinks { IfSome result (λ ports. map (λ p. p.sink) (reverse ports.items) ≡ map K.intake sinks.old.items) }
    ensures new { IfSome result (λ ports. AreNew root (reverse ports.items)) }
    ensures none { IfNone result (map K.intake sinks.new.items ≡ map K.intake sinks.old.items) }
    ensures room { vec_capacity sinks.new ≡ vec_capacity sinks.old }
{
    let Ok(mut ports) = Vec::with_capacity(alloc, sinks.len()) else {
        return None;
    };
    'clients: while !scripts.is_empty() {
        let script = scripts.take_last();
        match script.into_port(alloc, root, sinks.take_last()) {
            Ok(port) => ports.push_reserved(port),
            Err(sink) => {
                sinks.push_reserved(sink);
                unstack(ports, sinks);
                return None;
            }
        }
    }
    Some(ports)
}

/// Makes the ports of sessions with these scripts and sinks, in order.
///
/// No sink is left in `sinks`. Returns `None` for want of memory, and then the sinks are as they were.
pub(crate) fn make_ports<K: Sink>(
    alloc: Global,
    root: Puid,
    scripts: Vec<Script>,
    sinks: &mut Vec<K>,
) -> Option<Vec<Port<K>>>
    requires { length scripts.items ≡ length sinks.old.items }
    ensures empty { IfSome result (λ ports. sinks.new.items ≡ []) }
    ensures lines { IfSome result (λ ports. map (λ p. p.lines) ports.items ≡ map request_lines scripts.items) }
    ensures sinks { IfSome result (λ ports. map (λ p. p.sink) ports.items ≡ map K.intake sinks.old.items) }
    ensures new { IfSome result (λ ports. AreNew root ports.items) }
    ensures none { IfNone result (map K.intake sinks.new.items ≡ map K.intake sinks.old.items) }
    ensures room { vec_capacity sinks.new ≡ vec_capacity sinks.old }
{
    let mut ports = stack_ports(alloc, root, scripts, sinks)?;
    ports.reverse();
    Some(ports)
}

/// Takes these ports apart, and puts their sinks back, session by session.
pub(crate) fn take_sinks<K: Sink>(mut ports: Vec<Port<K>>, sinks: &mut Vec<K>)
    requires empty { sinks.old.items ≡ [] }
    requires room { length ports.items ≤ vec_capacity sinks.old }
    ensures { map K.intake sinks.new.items ≡ map (λ p. p.sink) ports.items }
{
    ports.reverse();
    unstack(ports, sinks);
}
