//! The lines of a source, one by one as they come.
ghost use Rattle.std.specs.Prelude.{◌≡◌, ◌≢◌, ◌⊎◌, ◌+◌, ◌≤◌, ◌==◌, ◌++◌, [], true, false, length, vec_len};
ghost use Rattle.std.specs.Prelude.{vec_capacity, position, IfErr, IfOk, Ok};
ghost use Rattle.cfs_base.specs.Outside.{Reads};
ghost use Rattle.cfs_ports.specs.Lines as spec;
ghost use Rattle.cfs_ports.specs.Pieces.{HoldsMore, HoldsNothing, TakesPiece};
ghost use Rattle.ufs_model.specs.Limits.{most_line};
ghost use Rattle.ufs_model.specs.Script.{LF};

use cfs_base::{Failed, Sink, Source};
use std::alloc::Global;
use std::marker::{Brand, Model};
use ufs_model::MOST_LINE;

/// The most bytes that one read asks for.
const CHUNK: usize = 4096;

/// The bytes of the longest line before its LF: a request line and a CR.
const LONGEST: usize = MOST_LINE as usize + 1;

/// Which conversation it is: its session, and source and sink as it began.
pub trait Exchange {
    ghost use Rattle.std.specs.Prelude.{ℕ};
    ghost use Rattle.cfs_base.specs.Outside.{Intake, Supply};

    ghost session: { ℕ };

    ghost source: { Supply };

    ghost sink: { Intake };
}

/// Those that the caller picks.
impl Exchange for Brand {
    ghost use Rattle.std.specs.Prelude.{None};

    ghost session = { 0 };

    ghost source = { record { left = None; faults = 0 } };

    ghost sink = { record { taken = None; faults = 0 } };
}

/// Why no line comes.
#[derive(Clone, Copy, Debug, PartialEq, Eq)]
pub enum LineFault {
    /// A read failed. The source's count of faults rose.
    Failed,
    /// The line has more bytes than the longest request line and a CR.
    Long,
}

/// A source that is read line by line. It keeps what came after the last line.
#[derive(Drop)]
pub struct Lines<S: Source> {
    source: S,
    /// The line that came last. It has room for the longest.
    line: Vec<u8>,
    /// What was read last. From `at` to `end` it is still to be taken.
    chunk: [u8; CHUNK],
    at: usize,
    end: usize,
    ended: bool,
}

impl<S: Source> Model for Lines<S> {
    ghost use Rattle.std.specs.Prelude.{◌≡◌, ◌+◌, ◌≤◌, true, drop, take, vec_capacity};
    ghost use Rattle.cfs_ports.specs.declared.lines.TheConstants.{CHUNK, LONGEST};
    ghost use Rattle.cfs_ports.specs.Lines.{LinesReading};

    ghost Value = { LinesReading };

    ghost view = { λ l. record {
      supply = S.supply l.source;
      line = l.line.items;
      held = drop l.at (take l.end l.chunk);
      ended = l.ended;
    } };

    ghost invariant = { λ l. (l.at ≤ l.end) × (l.end ≤ CHUNK) × (LONGEST + CHUNK ≤ vec_capacity l.line)
        × (l.ended ≡ true → l.at ≡ l.end) };
}

impl From<Failed> for LineFault {
    ghost use Rattle.std.specs.Prelude.{◌≡◌};
    ghost use Rattle.cfs_ports.specs.declared.lines.LineFault.TheVariants.{Failed};

    ghost from_gives = { λ _ f. f ≡ Failed };

    fn from(_failed: Failed) -> LineFault {
        LineFault::Failed
    }
}

/// Where the first LF stands.
fn line_end(bytes: &[u8]) -> Option<usize>
    ensures { result ≡ position (λ c. c == LF) bytes.now }
{
    bytes.iter().position(|byte| *byte == b'\n')
}

/// Appends the bytes. Takes no memory.
fn put(into: &mut Vec<u8>, bytes: &[u8])
    requires { vec_len into.old + length bytes.now ≤ vec_capacity into.old }
    ensures items { into.new.items ≡ into.old.items ++ bytes.now }
    ensures capacity { vec_capacity into.old ≤ vec_capacity into.new }
{
    let _ = into.extend_from_slice(bytes);
}

/// Asks the source for more. Each whole line that it gave has its reply. The sink is there for the contract alone.
fn ask_for_more<S: Source, K: Sink, J: Exchange>(
    source: &mut S,
    sink: &K,
    into: &mut [u8],
) -> Result<usize, Failed>
    requires caught_up { spec.IsCaughtUp J.session J.source J.sink (S.supply source.old) (K.intake sink.now) }
    ensures { Reads (S.supply source.old) (S.supply source.new) into.old into.new result }
{
    source.read(into)
}

impl<S: Source> Lines<S> {
    /// The lines that a source gives from now on. All memory that they need is taken here. Where it is wanting the
    /// source comes back.
    pub fn new(alloc: Global, source: S) -> Result<Lines<S>, S>
        ensures new { IfOk result (λ l. l ≡ record { supply = S.supply source; line = []; held = []; ended = false }) }
        ensures back { IfErr result (λ s. s ≡ source) }
    {
        let Ok(line) = Vec::with_capacity(alloc, LONGEST + CHUNK) else {
            return Err(source);
        };
        Ok(Lines {
            source,
            line,
            chunk: [0; CHUNK],
            at: 0,
            end: 0,
            ended: false,
        })
    }

    /// Goes on to the next line: with its LF, or the last bytes before the source's end. Answers false once there is
    /// none. The source is asked for more only where each whole line that it gave has its reply.
    pub fn advance<K: Sink, J: Exchange>(&mut self, sink: &K) -> Result<bool, LineFault>
        requires answered { self.old.ended ≡ false
            → spec.HasAnsweredLines J.session J.source J.sink self.old.supply (K.intake sink.now) self.old.held }
        ensures came { result ≡ Ok true → spec.TakesWholeLine self.old self.new ⊎ spec.TakesLastLine self.old self.new }
        ensures over { result ≡ Ok false → spec.TakesLastLine self.old self.new × (self.new.line ≡ []) }
        ensures once { result ≡ Ok true → self.old.ended ≡ false }
        ensures some { result ≡ Ok true → self.new.ended ≡ true → self.new.line ≢ [] }
        ensures before { IfErr result (λ _. self.old.ended ≡ false) }
        ensures fits { result ≡ Ok true → length self.new.line ≤ most_line + 1 }
        ensures refused { IfErr result (spec.RefusesLine self.old self.new) }
    {
        self.begin_line();
        while !self.has_ended() {
            let whole = self.take_piece();
            if self.line().len() > LONGEST {
                return Err(LineFault::Long);
            }
            if whole {
                return Ok(true);
            }
            self.refill::<K, J>(sink)?;
        }
        Ok(!self.line().is_empty())
    }

    /// The line that came last, without its end's LF.
    pub fn line(&self) -> &[u8]
        ensures { result.now ≡ self.now.line }
    {
        self.line.as_slice()
    }

    /// The source.
    pub fn into_source(self) -> S
        ensures { S.supply result ≡ self.supply }
    {
        let Lines {
            source,
            line: _,
            chunk: _,
            at: _,
            end: _,
            ended: _,
        } = self;
        source
    }

    /// Whether the source has ended. Then nothing is held.
    fn has_ended(&self) -> bool
        ensures ended { result ≡ self.now.ended }
        ensures nothing { result ≡ true → self.now.held ≡ [] }
    {
        self.ended
    }

    /// Begins a line.
    fn begin_line(&mut self)
        ensures line { self.new ≡ record self.old { line = [] } }
        ensures nothing { self.old.ended ≡ true → self.old.held ≡ [] }
    {
        self.line.clear();
    }

    /// Takes what is held up to the first LF, or all, into the line. Answers whether the LF was there.
    fn take_piece(&mut self) -> bool
        requires { length self.old.line ≤ LONGEST }
        ensures { TakesPiece self.old self.new result }
    {
        let held = &self.chunk.as_slice()[self.at..self.end];
        match line_end(held) {
            Some(end) => {
                put(&mut self.line, &held[..end]);
                self.at += end + 1;
                true
            }
            None => {
                put(&mut self.line, held);
                self.at = self.end;
                false
            }
        }
    }

    /// Holds what the source gives next, or learns that it has ended.
    fn refill<K: Sink, J: Exchange>(&mut self, sink: &K) -> Result<(), LineFault>
        requires empty { self.old.held ≡ [] }
        requires goes_on { self.old.ended ≡ false }
        requires caught_up { spec.IsCaughtUp J.session J.source J.sink self.old.supply (K.intake sink.now) }
        ensures more { IfOk result (λ _. HoldsMore self.old self.new) }
        ensures nothing { IfErr result (λ _. HoldsNothing self.old self.new) }
        ensures fault { IfErr result (λ e. e ≡ LineFault.Failed) }
    {
        let count = ask_for_more::<S, K, J>(&mut self.source, sink, &mut self.chunk)?;
        self.at = 0;
        self.end = count;
        self.ended = count == 0;
        Ok(())
    }
}
