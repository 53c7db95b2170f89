//! A conversation with a server: its session's lines are answered as they come, and collections go on between them.
ghost use Rattle.std.specs.Prelude.{◌≡◌, ◌+◌, ◌<◌, ◌≤◌, [], ◌++◌, None, false, true, length, vec_capacity};
ghost use Rattle.std.specs.Prelude.{IfNone, IfSome, List, ℕ};
ghost use Rattle.cfs_base.specs.Outside.{Intake};
ghost use Rattle.cfs_base.specs.declared.identifier.Puid.{Puid};
ghost use Rattle.cfs_ports.specs.Lines.{is_within_line};
ghost use Rattle.ufs_model.specs.Script.{request_lines};
ghost use Rattle.cfs_serve.specs.Calls.{SessionPasses};
ghost use Rattle.cfs_serve.specs.Limits.{most_lines};
ghost use Rattle.cfs_serve.specs.Logs.{Raises, StaysStopped, refusal_in};
ghost use Rattle.cfs_serve.specs.Service.{IsServiceBegun};
ghost use Rattle.cfs_serve.specs.Talk.{HasTalked, IsTalkReady, most_calls};
ghost use Rattle.cfs_serve.specs.Talking as spec;

use crate::ending::Ending;
use crate::limits::MOST_LINES;
use crate::logged::{Charter, Closed, CollectorTurn, LoggedServer};
use crate::served::Served;
use crate::server::Server;
use cfs_base::{Session, Sink, Source};
use cfs_core::CollectFault;
use cfs_ports::{Exchange, Heard, LineFault, Lines, Port};
use cfs_trail::Trail;
use std::alloc::Global;
use std::marker::{Brand, Model};

/// What ended a conversation.
#[derive(Clone, Copy, Debug, PartialEq, Eq)]
pub enum TalkEnd {
    /// The source ended.
    Ended,
    /// The sink broke.
    Broken,
    /// The source failed.
    Failed,
    /// A line is too long.
    Long,
    /// A line more came than a run may have.
    LongTotal,
}

/// The session of a conversation.
const SESSION: Session = 0;

/// The most turns that the collector makes after a line.
const STEPS: u32 = 8;

/// What a conversation leaves: its service, its source, and what ended it.
#[derive(Drop)]
pub(crate) struct Talked<A: Server, S: Source, K: Sink> {
    pub served: Served<A, K>,
    pub source: S,
    pub end: TalkEnd,
}

/// When a collection is called for.
#[derive(Clone, Copy, Debug, PartialEq, Eq)]
pub(crate) struct Pace {
    /// After so many request lines. Never where it is 0.
    pub every: u64,
    /// The request lines since the last one was called for.
    pub since: u64,
    /// One was called for, and isn't finished.
    pub due: bool,
}

impl Pace {
    /// No line came yet.
    fn new(every: u64) -> Pace
        ensures { result ≡ record { every = every; since = 0; due = false } }
    {
        Pace {
            every,
            since: 0,
            due: false,
        }
    }

    /// Whether the next collection is to be called for: enough lines have come, and none is due.
    fn is_up(self) -> bool
        ensures { result ≡ true → (0 < self.every) × (self.every ≤ self.since) × (self.due ≡ false) }
    {
        self.every > 0 && self.since >= self.every && !self.due
    }

    /// A request line more came.
    fn counted(self) -> Pace
        requires { self.since < most_lines }
        ensures { result ≡ record self { since = self.since + 1 } }
    {
        Pace {
            since: self.since + 1,
            ..self
        }
    }

    /// A collection was called for.
    fn begun(self) -> Pace
        ensures { result ≡ record self { since = 0; due = true } }
    {
        Pace {
            since: 0,
            due: true,
            ..self
        }
    }

    /// After a turn of the collector.
    fn after(self, progress: CollectorTurn) -> Pace
        ensures { result ≡ record self { due = spec.due_after self.due progress } }
    {
        match progress {
            CollectorTurn::Finished => Pace { due: false, ..self },
            _ => self,
        }
    }
}

/// The refusal of a turn, if it is one.
fn refusal_of(progress: CollectorTurn) -> Option<CollectFault>
    ensures { result ≡ refusal_in progress }
{
    match progress {
        CollectorTurn::Refused(fault) => Some(fault),
        _ => None,
    }
}

/// Hears a line, and answers it where it is a request line. Answers whether it is one.
fn answer_line<A: Server, J: Charter<A>, K: Sink>(
    alloc: Global,
    logged: &mut LoggedServer<A, J>,
    port: &mut Port<K>,
    line: &[u8],
) -> bool
    requires room { 0 < logged.old.room }
    requires few { length logged.old.events < 4294967295 }
    requires unread { port.old.lines ≡ [] }
    requires stays { port.old.has_left ≡ false }
    requires goes { port.old.failed ≡ false }
    requires within { is_within_line line.now ≡ true }
    ensures answers { result ≡ true → spec.HearsRequestLine logged.old logged.new port.old port.new line.now }
    ensures none { result ≡ false → (request_lines line.now ≡ []) × (port.new ≡ port.old)
        × (logged.new ≡ logged.old) }
    ensures stays { StaysStopped A.stop logged.old logged.new }
    ensures raised { result ≡ true → Raises A.faults A.stands J.charter logged.old logged.new }
    ensures passes { SessionPasses A.clock A.tally logged.old.server logged.new.server }
    ensures called { (A.tally logged.new.server).called ≡ (A.tally logged.old.server).called }
{
    cfs_ports::laws::lines_are_asked();
    match port.hear_line(alloc, line) {
        None => return false,
        Some(Heard::Not(why)) => {
            port.tell(why);
            logged.unread(SESSION, why);
        }
        Some(Heard::Ready { request, name }) => logged.ask(alloc, SESSION, request, name, port),
    }
    true
}

/// The logged server, the session's port, and how far the collector is.
#[derive(Drop)]
pub(crate) struct Talk<A: Server, J: Charter<A>, K: Sink> {
    logged: LoggedServer<A, J>,
    port: Port<K>,
    pace: Pace,
    /// The refusal at which the collector was done.
    refused: Option<CollectFault>,
    /// How many lines may still be answered.
    lines: u64,
    /// Where the answers' memory comes from.
    alloc: Global,
}

impl<A: Server, J: Charter<A>, K: Sink> Model for Talk<A, J, K> {
    ghost use Rattle.cfs_serve.specs.Talking.{KeepsTalk, Talking};

    ghost Value = { Talking A };

    ghost view = { λ h. record {
      logged = h.logged;
      port = h.port;
      pace = h.pace;
      refused = h.refused;
      lines = h.lines;
    } };

    ghost invariant = { λ h. KeepsTalk A.Server J.charter (record {
      logged = h.logged;
      port = h.port;
      pace = h.pace;
      refused = h.refused;
      lines = h.lines;
    }) };
}

impl<A: Server, J: Charter<A>, K: Sink> Talk<A, J, K> {
    /// No line came yet.
    fn new(alloc: Global, server: A, trail: Trail, port: Port<K>, every: u64) -> Talk<A, J, K>
        requires begun { IsServiceBegun A.Server J.charter server }
        requires ready { spec.StartsTalk A.Server server trail port every }
        ensures server { result.logged.server ≡ server }
        ensures events { result.logged.events ≡ [] }
        ensures port { result.port ≡ port }
        ensures pace { result.pace ≡ record { every = every; since = 0; due = false } }
        ensures lines { result.lines ≡ most_lines }
    {
        Talk {
            logged: LoggedServer::new(server, trail),
            port,
            pace: Pace::new(every),
            refused: None,
            lines: MOST_LINES,
            alloc,
        }
    }

    /// The session's sink, to look at.
    fn sink(&self) -> &K
        ensures { K.intake result.now ≡ self.now.port.sink }
    {
        self.port.sink()
    }

    /// Whether the sink failed.
    fn has_failed(&self) -> bool
        ensures { result ≡ self.now.port.failed }
    {
        self.port.has_failed()
    }

    /// How many lines may still be answered.
    fn lines_left(&self) -> u64
        ensures { result ≡ self.now.lines }
    {
        self.lines
    }

    /// Whether the collector has parts of a commit to make.
    fn has_parts(&self) -> bool
        ensures some { result ≡ true → 0 < spec.work_of A.Server self.now }
        ensures none { result ≡ false → spec.parts_to_make A.Server self.now ≡ 0 }
    {
        self.refused.is_none() && self.logged.parts_left() > 0
    }

    /// Whether it has anything to do.
    fn has_work(&self) -> bool
        ensures some { result ≡ true → 0 < spec.work_of A.Server self.now }
        ensures none { result ≡ false → spec.work_of A.Server self.now ≡ 0 }
        ensures begun { result ≡ false → spec.HasBegunAll A.Server self.now }
    {
        self.refused.is_none() && (self.pace.due || self.logged.parts_left() > 0)
    }

    /// One turn of the collector: a part of a commit, or a step of the collection that is due. A refusal ends it for
    /// good.
    fn turn(&mut self)
        requires { 0 < spec.work_of A.Server self.old }
        ensures made { spec.MakesTurns A.Server self.old self.new }
        ensures less { spec.work_of A.Server self.new < spec.work_of A.Server self.old }
    {
        let progress = self.logged.turn(self.alloc);
        self.pace = self.pace.after(progress);
        self.refused = refusal_of(progress);
    }

    /// Carries out what is left of a commit.
    fn tidy(&mut self)
        ensures made { spec.MakesTurns A.Server self.old self.new }
        ensures done { spec.parts_to_make A.Server self.new ≡ 0 }
    {
        'parts: while self.has_parts() {
            self.turn();
        }
    }

    /// One turn, where there is anything to do.
    fn step(&mut self)
        ensures { spec.MakesTurns A.Server self.old self.new }
    {
        if self.has_work() {
            self.turn();
        }
    }

    /// Makes some steps of a collection that is due. No part of a commit is left.
    fn collect_some(&mut self)
        requires { spec.parts_to_make A.Server self.old ≡ 0 }
        ensures { spec.MakesTurns A.Server self.old self.new }
    {
        for _step in 0..STEPS {
            self.step();
        }
    }

    /// Does all that the collector has to do.
    fn finish(&mut self)
        ensures made { spec.MakesTurns A.Server self.old self.new }
        ensures done { spec.work_of A.Server self.new ≡ 0 }
        ensures begun { spec.HasBegunAll A.Server self.new }
    {
        'turns: while self.has_work() {
            self.turn();
        }
    }

    /// Calls for a collection.
    fn call(&mut self)
        requires idle { self.old.pace.due ≡ false }
        requires goes { self.old.refused ≡ None }
        requires few { spec.called_in A.Server self.old < most_calls self.old.pace.every }
        ensures calls { spec.CallsNext A.Server self.old self.new }
        ensures parts { spec.parts_to_make A.Server self.new ≡ spec.parts_to_make A.Server self.old }
    {
        self.logged.call();
        self.pace = self.pace.begun();
    }

    /// Whether the next collection is to be called for.
    fn is_up(&self) -> bool
        ensures { result ≡ true → (self.now.refused ≡ None) × (0 < self.now.pace.every)
            × (self.now.pace.every ≤ self.now.pace.since) × (self.now.pace.due ≡ false) }
    {
        self.refused.is_none() && self.pace.is_up()
    }

    /// Calls for a collection at its pace.
    fn call_at_pace(&mut self)
        requires { spec.lines_spread A.Server self.old ≤ most_lines }
        ensures paced { spec.KeepsPace A.Server self.old self.new }
        ensures parts { spec.parts_to_make A.Server self.new ≡ spec.parts_to_make A.Server self.old }
    {
        if self.is_up() {
            self.call();
        }
    }

    /// What comes after a line that was answered: the rest of a commit, and a collection at its pace.
    fn go_on(&mut self)
        requires { spec.lines_spread A.Server self.old ≤ most_lines }
        ensures { spec.KeepsPace A.Server self.old self.new }
    {
        self.tidy();
        self.call_at_pace();
        self.collect_some();
    }

    /// Hears a line, and answers it where it is a request line. Answers whether it is one.
    fn answer(&mut self, line: &[u8]) -> bool
        requires some { 0 < self.old.lines }
        requires stays { self.old.port.has_left ≡ false }
        requires goes { self.old.port.failed ≡ false }
        requires within { is_within_line line.now ≡ true }
        requires since { self.old.pace.since < most_lines }
        ensures answers { result ≡ true → spec.TakesRequest A.Server self.old self.new line.now }
        ensures none { result ≡ false → spec.PassesLine self.old self.new line.now }
    {
        self.lines -= 1;
        let asks = answer_line(self.alloc, &mut self.logged, &mut self.port, line);
        if asks {
            self.pace = self.pace.counted();
        }
        asks
    }

    /// Takes a line that came.
    fn take_line(&mut self, line: &[u8])
        requires some { 0 < self.old.lines }
        requires stays { self.old.port.has_left ≡ false }
        requires goes { self.old.port.failed ≡ false }
        requires within { is_within_line line.now ≡ true }
        requires spread { spec.lines_spread A.Server self.old + self.old.lines ≤ most_lines }
        ensures lines { self.new.lines + 1 ≡ self.old.lines }
        ensures every { self.new.pace.every ≡ self.old.pace.every }
        ensures on { (root : Puid) (sink : Intake) (heard : List (List ℕ))
            → spec.TalkGoesOn A.Server root sink heard self.old
            → spec.TalkGoesOn A.Server root sink (heard ++ request_lines line.now) self.new }
    {
        if self.answer(line) {
            self.go_on();
        }
    }

    /// Waits for the next line, and takes it. Or what ended the conversation.
    fn take_next<S: Source, X: Exchange>(&mut self, lines: &mut Lines<S>) -> Option<TalkEnd>
        requires session { X.session ≡ 0 }
        requires goes { self.old.port.failed ≡ false }
        requires heard { spec.HasHeardLines A.Server J.charter.root X.source X.sink lines.old self.old }
        ensures on { IfNone result (spec.HasHeardLines A.Server J.charter.root X.source X.sink lines.new self.new) }
        ensures fewer { IfNone result (self.new.lines < self.old.lines) }
        ensures every { self.new.pace.every ≡ self.old.pace.every }
        ensures ends { IfSome result (spec.EndsTalk A.Server J.charter.root X.source X.sink lines.new self.new) }
    {
        cfs_ports::laws::lines_are_asked();
        match lines.advance::<K, X>(self.sink()) {
            Err(LineFault::Failed) => return Some(TalkEnd::Failed),
            Err(LineFault::Long) => return Some(TalkEnd::Long),
            Ok(false) => return Some(TalkEnd::Ended),
            Ok(true) => {}
        }
        if self.lines_left() == 0 {
            return Some(TalkEnd::LongTotal);
        }
        self.take_line(lines.line());
        None
    }

    /// Takes line after line, until something ends the conversation.
    fn converse<S: Source, X: Exchange>(&mut self, lines: &mut Lines<S>) -> TalkEnd
        requires session { X.session ≡ 0 }
        requires heard { spec.HasHeardLines A.Server J.charter.root X.source X.sink lines.old self.old }
        ensures ends { spec.EndsTalk A.Server J.charter.root X.source X.sink lines.new self.new result }
        ensures every { self.new.pace.every ≡ self.old.pace.every }
    {
        'lines: while !self.has_failed() {
            if let Some(end) = self.take_next::<S, X>(lines) {
                return end;
            }
        }
        TalkEnd::Broken
    }

    /// The session leaves.
    fn leave(&mut self)
        requires { self.old.port.has_left ≡ false }
        ensures { spec.LeavesTalk A.Server self.old self.new }
    {
        self.port.leave();
        self.logged.leave(SESSION);
    }

    /// Whether a collection is called for once the session has left.
    fn collects_last(&self) -> bool
        ensures some { result ≡ true → (self.now.refused ≡ None) × (0 < self.now.pace.every) }
        ensures none { result ≡ false → self.now.refused ≡ None → self.now.pace.every ≡ 0 }
    {
        self.refused.is_none() && self.pace.every > 0
    }

    /// Does what is left to the collector, and makes one collection more.
    fn collect_last(&mut self)
        requires { spec.lines_spread A.Server self.old ≤ most_lines }
        ensures { spec.CollectsLast A.Server self.old self.new }
    {
        self.finish();
        if self.collects_last() {
            self.call();
            self.finish();
        }
    }

    /// Takes it apart.
    fn into_served(self, mut ports: Vec<Port<K>>) -> Served<A, K>
        requires done { spec.work_of A.Server self ≡ 0 }
        requires empty { ports.items ≡ [] }
        requires room { 1 ≤ vec_capacity ports }
        ensures { spec.ClosesTalk A.Server J.charter self result }
    {
        let Talk {
            logged,
            port,
            pace: _,
            refused,
            lines: _,
            alloc: _,
        } = self;
        ports.push_reserved(port);
        let Closed {
            server,
            trail,
            starved,
            failed,
        } = logged.close();
        let stop = server.stopped();
        Served {
            server,
            trail,
            ports,
            starved,
            failed,
            ending: Ending {
                stop,
                refused,
                last: None,
            },
        }
    }

    /// The session leaves, and the collector does what is left to it.
    fn end(mut self, ports: Vec<Port<K>>) -> Served<A, K>
        requires stays { self.port.has_left ≡ false }
        requires unread { self.port.lines ≡ [] }
        requires spread { spec.lines_spread A.Server self ≤ most_lines }
        requires empty { ports.items ≡ [] }
        requires room { 1 ≤ vec_capacity ports }
        ensures { spec.LeavesService A.Server J.charter self result }
    {
        self.tidy();
        self.leave();
        self.collect_last();
        self.into_served(ports)
    }
}

/// A conversation of this charter.
fn converse_by<A: Server, J: Charter<A>, X: Exchange, S: Source, K: Sink>(
    alloc: Global,
    server: A,
    trail: Trail,
    port: Port<K>,
    ports: Vec<Port<K>>,
    mut lines: Lines<S>,
    every: u64,
) -> Talked<A, S, K>
    requires ready { IsTalkReady A.Server server trail port lines every }
    requires begun { IsServiceBegun A.Server J.charter server }
    requires root { J.charter.root ≡ A.root server }
    requires exchange { (X.session ≡ 0) × (X.source ≡ lines.supply) × (X.sink ≡ port.sink) }
    requires room { (ports.items ≡ []) × (1 ≤ vec_capacity ports) }
    ensures { spec.TalksBy A.Server J.charter port every X.source (S.supply result.source) X.sink result.end
        result.served }
{
    let mut talk: Talk<A, J, K> = Talk::new(alloc, server, trail, port, every);
    let end = talk.converse::<S, X>(&mut lines);
    Talked {
        served: talk.end(ports),
        source: lines.into_source(),
        end,
    }
}

/// Has a conversation with a server: each line of the source is answered before more is asked of it, until the source
/// or the sink ends it. After a line what it left of a commit is carried out. A collection is called for after so many
/// request lines, and once the session has left, and goes on between lines. `ports` has room for the port, which is put
/// there at the end. Takes no memory but for the answers and the collector.
pub(crate) fn converse_with<A: Server, S: Source, K: Sink>(
    alloc: Global,
    server: A,
    trail: Trail,
    port: Port<K>,
    ports: Vec<Port<K>>,
    lines: Lines<S>,
    every: u64,
) -> Talked<A, S, K>
    requires ready { IsTalkReady A.Server server trail port lines every }
    requires room { (ports.items ≡ []) × (1 ≤ vec_capacity ports) }
    ensures { HasTalked A.Server server every lines.supply (S.supply result.source) port.sink result.end
        result.served }
{
    converse_by::<A, Brand, Brand, S, K>(alloc, server, trail, port, ports, lines, every)
}
