//! The verdict on a text, line after line.
ghost use Rattle.std.specs.Prelude.{◌≡◌, ◌≤◌, ◌++◌, IfOk, length, true};
ghost use Rattle.trail_text.specs.Trail.{ended, opening_fits, opening_line};
ghost use Rattle.cfs_audit.specs.Verdict.{IsLastLine, IsVerdict};

use crate::cut::first_line;
use cfs_base::{NoMemory, Puid};
use std::alloc::Global;
use trail_text::{Opening, TrailFault, read_event, read_opening, read_status};
use ufs_model::{Follower, word_of};

/// The verdict on a text.
#[derive(Clone, Copy, Debug, PartialEq, Eq)]
pub enum Verdict {
    /// It is a trail of `events` events, each of which may happen in its turn.
    Legal { events: u64 },
    /// This event, counted from 1, may not happen. All before it may.
    Illegal { event: u64 },
    /// This line, counted from 1, is none that a trail has there.
    ///
    /// If it is past the last line, the text breaks off before it.
    BadLine { line: u64 },
}

/// Returns the verdict on a text of at most 268,435,456 bytes.
///
/// `NoMemory` comes only for want of memory.
pub fn audit(alloc: Global, bytes: &[u8]) -> Result<Verdict, NoMemory>
    requires { length bytes.now ≤ 268435456 }
    ensures { IfOk result (λ verdict. IsVerdict bytes.now verdict) }
{
    let Some(first) = first_line(bytes) else {
        return Ok(Verdict::BadLine { line: 1 });
    };
    match read_opening(alloc, first.line) {
        Ok(opening) => follow(alloc, opening, first.rest),
        Err(TrailFault::BadLine) => Ok(Verdict::BadLine { line: 1 }),
        Err(TrailFault::Memory) => Err(NoMemory),
    }
}

/// Returns the verdict on a text that follows a first line.
fn follow(alloc: Global, opening: Opening, text: &[u8]) -> Result<Verdict, NoMemory>
    requires opened { opening_fits opening ≡ true }
    requires few { length text.now ≤ 268435456 }
    ensures { IfOk result (λ verdict. IsVerdict (ended (opening_line opening) ++ text.now) verdict) }
{
    let root = Puid {
        block: 2,
        word: word_of(opening.seed, 0),
    };
    let mut follower = Follower::new(alloc, root, opening.seed)?;
    let mut events = 0;
    let mut rest = text;
    'lines: while let Some(next) = first_line(rest) {
        match read_event(alloc, next.line) {
            Ok(event) => {
                if !follower.step(alloc, &event)? {
                    return Ok(Verdict::Illegal { event: events + 1 });
                }
            }
            Err(TrailFault::BadLine) => return last(alloc, next.line, next.rest, events),
            Err(TrailFault::Memory) => return Err(NoMemory),
        }
        events += 1;
        rest = next.rest;
    }
    Ok(Verdict::BadLine { line: events + 2 })
}

/// Returns the verdict once `events` events were followed and this line is none.
fn last(alloc: Global, line: &[u8], rest: &[u8], events: u64) -> Result<Verdict, NoMemory>
    requires { events ≤ 268435456 }
    ensures { IfOk result (λ verdict. IsLastLine line.now rest.now events verdict) }
{
    match read_status(alloc, line) {
        Ok(_) if rest.is_empty() => Ok(Verdict::Legal { events }),
        Ok(_) | Err(TrailFault::BadLine) => Ok(Verdict::BadLine { line: events + 2 }),
        Err(TrailFault::Memory) => Err(NoMemory),
    }
}
