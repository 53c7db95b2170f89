//! A port.
ghost use Rattle.std.specs.Prelude.{◌≡◌, ◌∷◌, [], true, length, vec_capacity, IfErr, IfNone, IfOk, IfSome};
ghost use Rattle.cfs_script.specs.Room.{FitsLine};
ghost use Rattle.ufs_model.specs.Script.{request_lines};
ghost use Rattle.cfs_ports.specs.Heard.{HasRoomForName};
ghost use Rattle.cfs_ports.specs.Lines.{is_within_line};
ghost use Rattle.cfs_ports.specs.Port.{WritesReply, IsNewPort, Replied, TakesLine, TellsWhy};

use crate::binding::bind_reply;
use crate::hearing::{Heard, hear};
use cfs_base::{Puid, Sink};
use cfs_script::{Name, Names, REPLY_ROOM, next_line, print_reply, print_unread};
use cfs_streams::write_whole;
use std::alloc::Global;
use std::marker::Model;
use ufs_model::{Reply, Unread};

/// A session's script, its names and its sink.
#[derive(Drop)]
pub struct Port<K: Sink> {
    script: Vec<u8>,
    at: usize,
    /// The request lines from there on.
    left: u64,
    names: Names,
    sink: K,
    /// One reply line. It has room for the longest.
    text: Vec<u8>,
    failed: bool,
    has_left: bool,
}

impl<K: Sink> Model for Port<K> {
    ghost use Rattle.std.specs.Prelude.{◌≡◌, ◌≤◌, [], drop, length, vec_len, vec_capacity};
    ghost use Rattle.cfs_script.specs.declared.reply.TheConstants.{REPLY_ROOM};
    ghost use Rattle.ufs_model.specs.Script.{request_lines};
    ghost use Rattle.cfs_ports.specs.Port.{PortReading};

    ghost Value = { PortReading };

    ghost view = { λ p. record {
      lines = request_lines (drop p.at p.script.items);
      names = p.names;
      sink = K.intake p.sink;
      failed = p.failed;
      has_left = p.has_left;
    } };

    ghost invariant = { λ p. (p.at ≤ vec_len p.script) × (p.left ≡ length (request_lines (drop p.at p.script.items)))
        × (p.text.items ≡ []) × (REPLY_ROOM ≤ vec_capacity p.text) };
}

/// Memory was wanting for a port. Script and sink come back.
#[derive(Drop)]
pub struct PortFault<K: Sink> {
    pub script: Vec<u8>,
    pub sink: K,
}

/// Writes a line to the sink, and empties it. Answers whether the sink took it.
fn send<K: Sink>(sink: &mut K, line: &mut Vec<u8>) -> bool
    ensures written { Replied (K.intake sink.old) (K.intake sink.new) line.old.items result }
    ensures empty { line.new.items ≡ [] }
    ensures room { vec_capacity line.new ≡ vec_capacity line.old }
{
    let written = write_whole(sink, line.as_slice()).is_ok();
    line.clear();
    written
}

impl<K: Sink> Port<K> {
    /// The port of a session with this script, of so many request lines. It knows the root index. All memory that
    /// replies are written in is taken here.
    pub fn new(
        alloc: Global,
        root: Puid,
        script: Vec<u8>,
        lines: u64,
        sink: K,
    ) -> Result<Port<K>, PortFault<K>>
        requires count { lines ≡ length (request_lines script.items) }
        ensures new { IfOk result (IsNewPort root) }
        ensures lines { IfOk result (λ p. p.lines ≡ request_lines script.items) }
        ensures sink { IfOk result (λ p. p.sink ≡ K.intake sink) }
        ensures back { IfErr result (λ e. (e.script ≡ script) × (e.sink ≡ sink)) }
    {
        let Ok(text) = Vec::with_capacity(alloc, REPLY_ROOM) else {
            return Err(PortFault { script, sink });
        };
        Ok(Port {
            script,
            at: 0,
            left: lines,
            names: Names::new(alloc, root),
            sink,
            text,
            failed: false,
            has_left: false,
        })
    }

    /// Takes the next request line, and makes room for the name that it may bind. None at the script's end.
    pub fn next_request(&mut self, alloc: Global) -> Option<Heard>
        ensures taken { IfSome result (TakesLine self.old self.new) }
        ensures over { IfNone result ((self.old.lines ≡ []) × (self.new ≡ self.old)) }
    {
        let next = next_line(&self.script[self.at..])?;
        let taken = next.taken;
        let heard = hear(alloc, next.line, &mut self.names);
        self.at += taken;
        self.left -= 1;
        Some(heard)
    }

    /// Hears a line that came, and makes room for the name that it may bind. Nothing where it is no request line.
    pub fn hear_line(&mut self, alloc: Global, line: &[u8]) -> Option<Heard>
        requires over { self.old.lines ≡ [] }
        requires within { is_within_line line.now ≡ true }
        ensures heard { IfSome result (TakesLine (record self.old { lines = request_lines line.now }) self.new) }
        ensures none { IfNone result ((request_lines line.now ≡ []) × (self.new ≡ self.old)) }
    {
        let next = next_line(line)?;
        Some(hear(alloc, next.line, &mut self.names))
    }

    /// Writes the line of a reply, and binds the name to what it names. Takes no memory.
    pub fn answer(&mut self, name: Option<Name>, reply: &Reply)
        requires name { HasRoomForName name self.old.names.room }
        requires fits { FitsLine reply.now }
        ensures { WritesReply self.old self.new name reply.now }
    {
        print_reply(reply, &mut self.text);
        bind_reply(&mut self.names, name, reply);
        self.failed = !send(&mut self.sink, &mut self.text);
    }

    /// Tells why a line is no request. Takes no memory.
    pub fn tell(&mut self, why: Unread)
        ensures { TellsWhy self.old self.new why }
    {
        print_unread(why, &mut self.text);
        self.failed = !send(&mut self.sink, &mut self.text);
    }

    /// The session leaves.
    pub fn leave(&mut self)
        ensures { self.new ≡ record self.old { has_left = true } }
    {
        self.has_left = true;
    }

    /// How many request lines are left.
    pub fn lines_left(&self) -> u64
        ensures { result ≡ length self.now.lines }
    {
        self.left
    }

    /// Whether the sink failed: then no line is taken any more.
    pub fn has_failed(&self) -> bool
        ensures { result ≡ self.now.failed }
    {
        self.failed
    }

    /// Whether the session has left.
    pub fn has_left(&self) -> bool
        ensures { result ≡ self.now.has_left }
    {
        self.has_left
    }

    /// The sink, to look at.
    pub fn sink(&self) -> &K
        ensures { K.intake result.now ≡ self.now.sink }
    {
        &self.sink
    }

    /// The sink.
    pub fn into_sink(self) -> K
        ensures { K.intake result ≡ self.sink }
    {
        let Port {
            script: _,
            at: _,
            left: _,
            names: _,
            sink,
            text: _,
            failed: _,
            has_left: _,
        } = self;
        sink
    }
}
