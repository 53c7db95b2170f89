//! The blocks of a commit that lie in one map and follow one another: their entries are changed by one write of it.
ghost use Rattle.std.specs.Prelude.{◌≡◌, ◌*◌, ◌<◌, length, IsErr, OnOk};
ghost use Rattle.cyl_alloc.specs.Left as left;
ghost use Rattle.intentions.specs.Runs.{IsFirst};
ghost use Rattle.finisher.specs.Going as spec;
ghost use Rattle.finisher.specs.Runs as runs;

use cfs_base::{Block, BlockNo, Disk, Trouble};
use cyl_alloc::Space;
use intentions::{Rule, change_first, write_map};

/// Carries out the intentions with the next blocks that lie in one map, by one read and one write of it.
pub(crate) fn flip_run<D: Disk>(disk: &mut D, space: &mut Space, first: u32) -> Result<(), Trouble>
    requires size { D.blocks disk.old ≡ 64 * length space.old.free }
    requires on_disk { first < D.blocks disk.old }
    requires first { IsFirst first (left.flips_in space.old.left) }
    ensures goes { spec.Goes D.Disk disk.old disk.new space.old space.new result }
    ensures run { OnOk result (runs.AfterRun space.old.left space.new.left) }
    ensures kept { IsErr result → space.new ≡ space.old }
    ensures ends { spec.PartEnds D.Disk 2 1 disk.old disk.new space.old space.new result }
{
    let mut map = Block::zero();
    space.known().load_map(disk, first, &mut map)?;
    let rule = Rule::Settle {
        shadow: space.shadow(),
    };
    let run = change_first(&mut map, space.next_flips(), rule, first);
    write_map(disk, space.known(), first, &map)?;
    space.gave(BlockNo(first), run.freed);
    space.flips_done(run.count);
    Ok(())
}
