//! The at most two nodes that bytes touch.
ghost use Rattle.std.specs.Prelude.{◌≡◌, ◌≢◌, ◌⊎◌, ◌||◌, ◌+◌, ◌-◌, ◌*◌, ◌<◌, true, length, IfOk, OnOk};
ghost use Rattle.block_tree.specs.Pointers.{node_pointers};
ghost use Rattle.cfs_base.specs.Run.{IsSettled, Leaves as LeavesOf};
ghost use Rattle.normal_files.specs.Ends.{Finishes};
ghost use Rattle.normal_files.specs.Laid.{node_of};
ghost use Rattle.normal_files.specs.Links.{linked_image, linked_root};
ghost use Rattle.normal_files.specs.Parts.{IsReadPart, part_need};
ghost use Rattle.normal_files.specs.Plans.{plan_of};
ghost use Rattle.normal_files.specs.Steps.{ComesOrStops};
ghost use Rattle.normal_files.specs.Takes as spec;

use crate::absent::{Patch, refused};
use crate::in_place::after;
use crate::link::link;
use crate::next::Next;
use crate::part::Part;
use block_tree::Root;
use cfs_base::{BlockNo, Disk, Refused, Trouble};
use cyl_alloc::Space;

/// Two nodes as they are to be.
#[derive(Clone, Copy)]
pub(crate) struct Both {
    pub low: Next,
    pub high: Next,
}

/// Takes the absent leaves of two nodes, the low node's first.
pub(crate) fn take_both<D: Disk>(
    disk: &mut D,
    space: &mut Space,
    at: BlockNo,
    root: &Root,
    low: &Part,
    high: &Part,
    offset: u64,
    bytes: &[u8],
) -> Result<Both, Refused>
    requires size { D.blocks disk.old ≡ 64 * length space.old.free }
    requires some { at.0 ≢ 0 }
    requires low { IsReadPart (D.blocks disk.old) low.now }
    requires high { IsReadPart (D.blocks disk.old) high.now }
    requires low_near { low.now.leaves.from < low.now.leaves.to → node_of root.now low.now.number < D.blocks disk.old }
    requires high_near { high.now.leaves.from < high.now.leaves.to
        → node_of root.now high.now.number < D.blocks disk.old }
    requires apart { high.now.leaves.from < high.now.leaves.to → low.now.number ≢ high.now.number }
    ensures takes { spec.TakesBlocks D.Disk at.0 offset bytes.now disk.old disk.new space.old space.new result
        (λ a c both.
        spec.TakesBoth a c at.0 root.now.fill offset bytes.now low.now (node_of root.now low.now.number)
        (plan_of low.now.number both.low)
        high.now (node_of root.now high.now.number) (plan_of high.now.number both.high)) }
    ensures low_near { IfOk result (λ both. both.low.grown ≡ true
        → node_of both.low.root low.now.number < D.blocks disk.old) }
    ensures high_near { IfOk result (λ both. both.high.grown ≡ true
        → node_of both.high.root high.now.number < D.blocks disk.old) }
    ensures low_leads { IfOk result (λ both.
        both.low.root ≡ linked_root root.now low.now.number (plan_of low.now.number both.low)) }
    ensures high_leads { IfOk result (λ both.
        both.high.root ≡ linked_root both.low.root high.now.number (plan_of high.now.number both.high)) }
    ensures ends { Finishes D.Disk
        (5 * (low.now.leaves.to - low.now.leaves.from) + 1 + (5 * (high.now.leaves.to - high.now.leaves.from) + 1))
        (3 * (low.now.leaves.to - low.now.leaves.from) + 1 + (3 * (high.now.leaves.to - high.now.leaves.from) + 1))
        (part_need root.now low.now + part_need root.now high.now)
        disk.old disk.new space.old space.new result (λ both. both.low.grown || both.high.grown) }
    ensures size { D.blocks disk.new ≡ D.blocks disk.old }
    ensures cylinders { length space.new.free ≡ length space.old.free }
    ensures left { space.new.left ≡ space.old.left }
{
    let patch = Patch {
        at,
        root,
        offset,
        bytes,
    };
    let first = match low.take(disk, space, &patch, *root) {
        Ok(next) => next,
        Err(error) => return Err(error),
    };
    match high.take(disk, space, &patch, first.root) {
        Ok(second) => Ok(Both {
            low: first,
            high: second,
        }),
        Err(error) => Err(refused(first.grown, error)),
    }
}

/// Makes the file lead to what was taken, the low node first.
pub(crate) fn link_both<D: Disk>(
    disk: &mut D,
    at: BlockNo,
    root: &Root,
    low: u32,
    high: u32,
    both: &Both,
) -> Result<(), Trouble>
    requires at { at.0 < D.blocks disk.old }
    requires low { low < node_pointers.count }
    requires high { high < node_pointers.count }
    requires low_near { both.now.low.grown ≡ true → node_of both.now.low.root low < D.blocks disk.old }
    requires high_near { both.now.high.grown ≡ true → node_of both.now.high.root high < D.blocks disk.old }
    requires low_leads { both.now.low.root ≡ linked_root root.now low (plan_of low both.now.low) }
    requires high_leads { both.now.high.root ≡ linked_root both.now.low.root high (plan_of high both.now.high) }
    ensures done { IsSettled D.Disk disk.old → OnOk result ((D.content disk.new ≡ linked_image
        (linked_image (D.content disk.old) at.0 root.now low (plan_of low both.now.low)) at.0
        (linked_root root.now low (plan_of low both.now.low)) high (plan_of high both.now.high))
        × IsSettled D.Disk disk.new) }
    ensures images { IsSettled D.Disk disk.old → LeavesOf D.Disk disk.old disk.new (λ c.
        (c ≡ linked_image (D.content disk.old) at.0 root.now low (plan_of low both.now.low))
        ⊎ (c ≡ linked_image (linked_image (D.content disk.old) at.0 root.now low (plan_of low both.now.low)) at.0
        (linked_root root.now low (plan_of low both.now.low)) high (plan_of high both.now.high))) }
    ensures ends { ComesOrStops D.Disk 4 4 disk.old disk.new result
        (λ done. both.now.low.grown || both.now.high.grown) }
{
    let led = match link(disk, at, root, low, &both.low) {
        Ok(led) => led,
        Err(trouble) => return Err(trouble),
    };
    match link(disk, at, &led, high, &both.high) {
        Ok(_) => Ok(()),
        Err(trouble) => Err(after(both.low.grown, trouble)),
    }
}
