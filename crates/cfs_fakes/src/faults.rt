//! The count of faults.
ghost use Rattle.std.specs.Prelude.{◌≡◌, ◌≤◌};
ghost use Rattle.cfs_base.specs.Outside.{Rose, count_after};

use cfs_base::Failed;

/// Counts a call that fails, and returns its error.
pub fn failed(faults: &mut u64) -> Failed
    ensures one_more { faults.new ≡ count_after faults.old }
    ensures rose { Rose faults.old faults.new }
    ensures no_fewer { faults.old ≤ faults.new }
{
    *faults = faults.saturating_add(1);
    Failed
}

/// Counts a call that fails for want of memory, both as a fault and apart, and returns its error.
pub fn starve(starved: &mut u64, faults: &mut u64) -> Failed
    ensures starved { starved.new ≡ count_after starved.old }
    ensures one_more { faults.new ≡ count_after faults.old }
    ensures rose { Rose faults.old faults.new }
    ensures no_fewer { faults.old ≤ faults.new }
{
    *starved = starved.saturating_add(1);
    failed(faults)
}
