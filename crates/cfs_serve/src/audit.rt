//! Audits: the trail in a source is read and judged.
ghost use Rattle.std.specs.Prelude.{◌≡◌, ◌≤◌, Some, length, map, slice_get};
ghost use Rattle.cfs_base.specs.Outside.{Supply};
ghost use Rattle.cfs_serve.specs.Audit.{Finds, Judges};

use crate::limits::MOST_TRAIL;
use crate::report::Cause;
use cfs_audit::{Verdict, audit};
use cfs_base::Source;
use cfs_streams::{ReadFault, read_whole};
use std::alloc::Global;

/// Returns the verdict on the text of a trail, or want of memory.
fn judge(alloc: Global, text: &[u8]) -> Cause
    requires { length text.now ≤ 268435456 }
    ensures { Judges result text.now }
{
    match audit(alloc, text) {
        Ok(Verdict::Legal { events }) => Cause::Legal { events },
        Ok(Verdict::BadLine { line }) => Cause::BadLine { line },
        Ok(Verdict::Illegal { event }) => Cause::Illegal { event },
        Err(_) => Cause::Memory,
    }
}

/// Reads the source of a trail whole, and returns what is found.
///
/// That is the verdict; or that the source failed or is too long, or that memory was wanting.
fn audit_source<S: Source>(alloc: Global, source: &mut S) -> Cause
    ensures { Finds result (S.supply source.old) (S.supply source.new) }
{
    match read_whole(alloc, source, MOST_TRAIL) {
        Ok(text) => judge(alloc, text.as_slice()),
        Err(ReadFault::Failed) => Cause::Source(0),
        Err(ReadFault::Long) => Cause::Long(0),
        Err(ReadFault::Memory) => Cause::Memory,
    }
}

/// Audits the trail in the only source.
pub(crate) fn audit_only<S: Source>(alloc: Global, sources: &mut Vec<S>) -> Cause
    requires { length sources.old.items ≡ 1 }
    ensures count { length sources.new.items ≡ length sources.old.items }
    ensures found { (source : Supply) (after : Supply) → slice_get (map S.supply sources.old.items) 0 ≡ Some source
        → slice_get (map S.supply sources.new.items) 0 ≡ Some after → Finds result source after }
{
    audit_source(alloc, &mut sources[0])
}
