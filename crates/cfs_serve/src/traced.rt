//! The report of a trace: the trail of its service, line by line.
ghost use Rattle.std.specs.Prelude.{ℕ, List, IfErr, IfOk};
ghost use Rattle.cfs_streams.specs.Writing.{WritesWhole, Wrote, WroteSome};
ghost use Rattle.cfs_serve.specs.Traced.{IsTraced};
ghost use Rattle.cfs_serve.specs.Text.{IsStart};
ghost use Rattle.trail_text.specs.Trail.{begun, ended};

use crate::report::{Cause, write_number};
use cfs_base::{Failed, Sink};
use cfs_streams::write_whole;
use cfs_trail::Trail;
use std::alloc::Global;
use trail_text::{Opening, print_event, print_opening};

/// How a report was written.
#[derive(Clone, Copy, Debug, PartialEq, Eq)]
pub(crate) struct Written {
    /// Whether the sink took all of it.
    pub whole: bool,
    /// Whether memory was wanting for a line of it, so that it ends before that line.
    pub short: bool,
}

/// Writes a line and its end.
fn write_line<K: Sink>(sink: &mut K, line: &str) -> Result<(), Failed>
    ensures { WritesWhole (K.intake sink.old) (K.intake sink.new) (ended line.now) result }
{
    write_whole(sink, line.as_bytes())?;
    write_whole(sink, b"\n")
}

/// Writes the first line of a trail and those of its events, up to one for which memory is wanting.
///
/// Returns whether there was such a line. If the sink fails, it has taken some beginning of the lines.
fn write_lines<K: Sink>(
    alloc: Global,
    opening: Opening,
    trail: &Trail,
    sink: &mut K,
) -> Result<bool, Failed>
    ensures lines { IfOk result (λ short. (start : List ℕ) × IsStart opening trail.now.events short start
        × Wrote (K.intake sink.old) (K.intake sink.new) start) }
    ensures failed { IfErr result (λ _. WroteSome (K.intake sink.old) (K.intake sink.new)
        (begun opening trail.now.events)) }
{
    let Ok(first) = print_opening(alloc, opening) else {
        return Ok(true);
    };
    write_line(sink, first.as_str())?;
    'events: for at in 0..trail.len() {
        let Ok(line) = print_event(alloc, trail.event(at)) else {
            return Ok(true);
        };
        write_line(sink, line.as_str())?;
    }
    Ok(false)
}

/// Writes the trail as a report, with the status of this cause.
///
/// If memory is wanting for a line, the lines before it and the status are written.
pub(crate) fn write_trail<K: Sink>(
    alloc: Global,
    opening: Opening,
    trail: &Trail,
    cause: Cause,
    sink: &mut K,
) -> Written
    ensures { IsTraced opening cause trail.now.events (K.intake sink.old) (K.intake sink.new) result }
{
    match write_lines(alloc, opening, trail, sink) {
        Ok(short) => {
            let status = cause.at_last(short).status();
            Written {
                whole: write_number(sink, b"status", u64::from(status)).is_ok(),
                short,
            }
        }
        Err(Failed) => Written {
            whole: false,
            short: false,
        },
    }
}
