//! The count of faults.
ghost use Rattle.std.specs.Prelude.{◌≤◌};
ghost use Rattle.cfs_base.specs.Outside.{Rose};

use cfs_base::Failed;

/// Counts a call that fails, and returns its error.
pub(crate) fn failed(faults: &mut u64) -> Failed
    ensures rose { Rose faults.old faults.new }
    ensures kept { faults.old ≤ faults.new }
{
    *faults = faults.saturating_add(1);
    Failed
}
