//! What holds of the parts of a core, as contracts of functions that do nothing.
ghost use Rattle.std.specs.Prelude.{◌<◌, IsTrue};
ghost use Rattle.cfs_core.specs.Kernel.{grants_in};
ghost use Rattle.cyl_alloc.specs.Counts.{AreFreeCounts};
ghost use Rattle.open_table.specs.Grants.{is_grant_table};

use crate::collecting::Collections;
use crate::handles::Handles;
use cyl_alloc::Space;

/// The grants are a table: each has a temporary identifier of its own.
pub(crate) fn grants_are_a_table(handles: &Handles)
    ensures { IsTrue (is_grant_table (grants_in handles.now.handles)) }
{
    handles.len();
}

/// There is at least one cylinder, and each has its count.
pub(crate) fn cylinders_are_counted(space: &Space)
    ensures { AreFreeCounts space.now.free }
{
    space.free();
}

/// The number of collections that were called for fits a `u32`.
pub(crate) fn calls_are_counted(collections: &Collections)
    ensures { collections.now.called < 4294967296 }
{
    let _called = collections.called;
}
