//! A commit that is past its bit, carried out.
ghost use Rattle.std.specs.Prelude.{◌≡◌, ℕ, ◌*◌, ◌/◌, ◌<◌, if◌then◌else◌, is_some, length, IfOk, IsErr};
ghost use Rattle.std.specs.Prelude.{IsSome, None, OnOk, Some};
ghost use Rattle.std.specs.List.{All};
ghost use Rattle.cfs_base.specs.Calls.{MakesAtMost};
ghost use Rattle.cfs_base.specs.Refusals.{trouble_after_try};
ghost use Rattle.cfs_base.specs.Run.{IsSettled, Tells};
ghost use Rattle.cyl_alloc.specs.Left as left;
ghost use Rattle.finisher.specs.Going as spec;
ghost use Rattle.finisher.specs.Runs as runs;

use crate::part::make;
use crate::run::flip_run;
use cfs_base::{Disk, Trouble};
use cyl_alloc::Space;

/// Makes one part of the commit that is kept, and returns whether there was one.
///
/// Makes at most four device calls. `Damaged` names a map block, with code 2, if it is no map. On an error the part
/// isn't done.
pub fn step<D: Disk>(disk: &mut D, space: &mut Space) -> Result<bool, Trouble>
    requires size { D.blocks disk.old ≡ 64 * length space.old.free }
    ensures goes { spec.Goes D.Disk disk.old disk.new space.old space.new (spec.unit_of result) }
    ensures told { IfOk result (λ some. some ≡ is_some space.old.left) }
    ensures left { OnOk result (space.new.left ≡ left.after_next space.old.left) }
    // After the last part no write waits for a barrier.
    ensures settled { IsSome space.old.left → left.after_next space.old.left ≡ None → Tells D.Disk disk.old
        → OnOk result (IsSettled D.Disk disk.new) }
    ensures kept { IsErr result → space.new ≡ space.old }
    ensures none { space.old.left ≡ None → (disk.new ≡ disk.old) × (space.new ≡ space.old) }
    ensures cylinders { length space.new.free ≡ length space.old.free }
    ensures ends { IsSome space.old.left
        → spec.PartEnds D.Disk 4 3 disk.old disk.new space.old space.new (spec.unit_of result) }
    ensures of_part { (l : left.LeftCommit) → space.old.left ≡ Some l
        → MakesAtMost D.Disk (spec.part_calls (left.next_part_of l))
        (spec.part_tries (left.next_part_of l)) disk.old disk.new }
    ensures calls { MakesAtMost D.Disk 4 3 disk.old disk.new }
{
    let Some(part) = space.next_part() else {
        return Ok(false);
    };
    make(disk, space, part, space.is_shadow_next())?;
    space.part_done();
    Ok(true)
}

/// Returns the trouble of a call that may have made parts before.
fn since(tried: bool, trouble: Trouble) -> Trouble
    ensures { result ≡ if tried then trouble_after_try trouble else trouble }
{
    if tried { trouble.after_try() } else { trouble }
}

/// Makes the next part.
///
/// Of entries it changes those of the next blocks that lie in one map, at once.
fn advance<D: Disk>(disk: &mut D, space: &mut Space) -> Result<(), Trouble>
    requires size { D.blocks disk.old ≡ 64 * length space.old.free }
    requires some { IsSome space.old.left }
    ensures goes { spec.Goes D.Disk disk.old disk.new space.old space.new result }
    ensures settled { space.new.left ≡ None → Tells D.Disk disk.old → OnOk result (IsSettled D.Disk disk.new) }
    ensures kept { IsErr result → space.new ≡ space.old }
    ensures ends { spec.PartEnds D.Disk 4 3 disk.old disk.new space.old space.new result }
    ensures fewer { OnOk result (left.parts_left space.new.left < left.parts_left space.old.left) }
    ensures spends { OnOk result (runs.Spends D.Disk disk.old disk.new space.old.left space.new.left) }
{
    let next = space.next_flips();
    if !next.is_empty() {
        let first = next[0];
        return flip_run(disk, space, first);
    }
    step(disk, space)?;
    Ok(())
}

/// Makes all parts that are left of the commit that is kept.
///
/// One write changes the entries of consecutive blocks in one map. Refused as by `step`. The parts before are done.
pub fn finish_all<D: Disk>(disk: &mut D, space: &mut Space) -> Result<(), Trouble>
    requires size { D.blocks disk.old ≡ 64 * length space.old.free }
    ensures goes { spec.Goes D.Disk disk.old disk.new space.old space.new result }
    ensures done { OnOk result (space.new.left ≡ None) }
    // If something was left, no write waits for a barrier then.
    ensures settled { IsSome space.old.left → Tells D.Disk disk.old → OnOk result (IsSettled D.Disk disk.new) }
    ensures none { space.old.left ≡ None → (disk.new ≡ disk.old) × (space.new ≡ space.old) }
    ensures ends { spec.Ends D.Disk (spec.calls_left space.old.left) (spec.tries_left space.old.left) disk.old disk.new
        space.old space.new result }
    ensures by_map { MakesAtMost D.Disk (runs.calls_by_map space.old.left) (runs.tries_by_map space.old.left) disk.old
        disk.new }
    // If the blocks lie in one cylinder, the calls are the copy, one read and one write of its map, and the bit.
    ensures one_map { (l : left.LeftCommit) (c : ℕ) → space.old.left ≡ Some l → All (λ n. n / 64 ≡ c) l.rest
        → MakesAtMost D.Disk 9 6 disk.old disk.new }
{
    let mut tried = false;
    'parts: while space.unfinished() > 0 {
        advance(disk, space).map_err(|trouble| since(tried, trouble))?;
        tried = true;
    }
    Ok(())
}
