//! The scripts of the sessions, read from their sources.
ghost use Rattle.std.specs.Prelude.{◌≡◌, ◌≤◌, IfErr, IfOk, length, map};
ghost use Rattle.cfs_serve.specs.Scripts.{HasScript, HaveScripts, IsOneCause, IsSourceCause, lines_in};

use crate::limits::{MOST_LINES, MOST_SCRIPT};
use crate::report::Cause;
use crate::script::Script;
use cfs_base::Source;
use cfs_streams::{ReadFault, read_whole};
use std::alloc::Global;

/// The scripts, session by session, and how many request lines they have together.
#[derive(Drop)]
pub(crate) struct Scripts {
    pub scripts: Vec<Script>,
    pub lines: u64,
}

/// Reads the source of this number whole.
///
/// If it gives no script, the error is the cause to report: it failed or is too long, or memory was wanting.
fn read_script<S: Source>(alloc: Global, source: &mut S, number: u64) -> Result<Script, Cause>
    ensures script { IfOk result (HasScript (S.supply source.old)) }
    ensures cause { IfErr result (IsOneCause number (S.supply source.old) (S.supply source.new)) }
{
    match read_whole(alloc, source, MOST_SCRIPT) {
        Ok(bytes) => Ok(Script::new(bytes)),
        Err(ReadFault::Failed) => Err(Cause::Source(number)),
        Err(ReadFault::Long) => Err(Cause::Long(number)),
        Err(ReadFault::Memory) => Err(Cause::Memory),
    }
}

/// Reads each source whole, one after the other, and then counts the request lines.
///
/// If the scripts can't be served, the error is the cause to report: the first source that failed or is too long, too
/// many request lines in all, or want of memory.
pub(crate) fn read_scripts<S: Source>(alloc: Global, sources: &mut Vec<S>) -> Result<Scripts, Cause>
    requires few { length sources.old.items ≤ 64 }
    ensures scripts { IfOk result (λ s. HaveScripts (map S.supply sources.old.items) s.scripts.items) }
    ensures lines { IfOk result (λ s. (s.lines ≡ lines_in s.scripts.items) × (s.lines ≤ 500000)) }
    ensures cause { IfErr result (IsSourceCause (map S.supply sources.old.items) (map S.supply sources.new.items)) }
    ensures count { length sources.new.items ≡ length sources.old.items }
{
    let Ok(mut scripts) = Vec::with_capacity(alloc, sources.len()) else {
        return Err(Cause::Memory);
    };
    let mut lines = 0;
    'sources: for at in 0..sources.len() {
        let script = read_script(alloc, &mut sources[at], at as u64)?;
        lines += script.lines();
        scripts.push_reserved(script);
    }
    if lines > MOST_LINES {
        return Err(Cause::LongTotal);
    }
    Ok(Scripts { scripts, lines })
}
