//! One part of a commit that is past its bit.
ghost use Rattle.std.specs.Prelude.{◌≡◌, ◌==◌, ◌*◌, ◌<◌, ℕ, true, false, length, List, [], ◌∷◌, Option, Some, None};
ghost use Rattle.std.specs.Prelude.{IfErr, IsErr, OnOk};
ghost use Rattle.cfs_base.specs.Calls.{HasStopped, OnlyReads};
ghost use Rattle.cfs_base.specs.Disk.{Image, block_at};
ghost use Rattle.cfs_base.specs.Run.{IsSettled, Tells};
ghost use Rattle.cfs_base.specs.declared.refusal.Trouble.TheVariants as troubles;
ghost use Rattle.cyl_alloc.specs.Left as left;
ghost use Rattle.cyl_alloc.specs.Space.{AreCounts, Kept};
ghost use Rattle.cyl_map.specs.Entry.{IsEntry};
ghost use Rattle.cyl_map.specs.Map as map;
ghost use Rattle.cyl_map.specs.Volume.{entry_in, with_entry};
ghost use Rattle.intentions.specs.Entries as entries;
ghost use Rattle.intentions.specs.Left.{how_for};
ghost use Rattle.finisher.specs.Going as spec;

use cfs_base::{Block, BlockNo, Disk, Trouble};
use cyl_alloc::{Part, Space};
use cyl_map::MapEntry;
use intentions::{EntryChange, change_entry, clear_bit, copy_root, is_freed};

/// Returns how an entry changes: the shadow root is given back, and all else is carried out.
fn how_to(is_shadow: bool) -> EntryChange
    ensures value { result ≡ how_for is_shadow }
    ensures fits { entries.FitsEntry result }
{
    if is_shadow {
        EntryChange::Undo
    } else {
        EntryChange::Finish
    }
}

/// Counts the block if it became Free.
fn count_freed(space: &mut Space, block: BlockNo, was: MapEntry, now: MapEntry)
    requires on_disk { block.0 < 64 * length space.old.free }
    requires entry { IsEntry now }
    requires stays { map.is_free was ≡ true → map.is_free now ≡ true }
    ensures counts { (image : Image) → AreCounts image space.old → entry_in image block.0 ≡ Some was
        → AreCounts (with_entry image block.0 now) space.new }
    ensures cylinders { length space.new.free ≡ length space.old.free }
    ensures left { space.new.left ≡ space.old.left }
{
    if is_freed(was, now) {
        space.gave(block, 1);
    }
}

/// Carries out the intention with a block.
fn flip<D: Disk>(
    disk: &mut D,
    space: &mut Space,
    block: BlockNo,
    is_shadow: bool,
) -> Result<(), Trouble>
    requires size { D.blocks disk.old ≡ 64 * length space.old.free }
    requires on_disk { block.0 < D.blocks disk.old }
    ensures goes { (l : left.LeftCommit) (ns : List ℕ) → l.copied ≡ true → l.rest ≡ block.0 ∷ ns
        → is_shadow ≡ (block.0 == l.shadow) → spec.GoesFrom D.Disk disk.old disk.new space.old space.new (Some l)
        (Some (record l { rest = ns })) result }
    ensures kept { IsErr result → space.new ≡ space.old }
    ensures left { space.new.left ≡ space.old.left }
    ensures ends { spec.PartEnds D.Disk 2 1 disk.old disk.new space.old space.new result }
{
    let how = how_to(is_shadow);
    let entry = change_entry(disk, space.known(), block, how)?;
    count_freed(space, block, entry, how.of(entry));
    Ok(())
}

/// Writes this content, which is the shadow root's, into the root.
fn copy<D: Disk>(disk: &mut D, root: BlockNo, content: &Block) -> Result<(), Trouble>
    requires { root.0 < D.blocks disk.old }
    ensures goes { (l : left.LeftCommit) (space : Kept) → l.copied ≡ false → l.root ≡ root.0
        → block_at (D.content disk.old) l.shadow ≡ content.now
        → spec.GoesFrom D.Disk disk.old disk.new space space (Some l) (Some (record l { copied = true })) result }
    ensures ends { (space : Kept) → spec.PartEnds D.Disk 2 2 disk.old disk.new space space result }
    ensures told { IfErr result (λ t. t ≡ troubles.Disk true) }
{
    copy_root(disk, root, content)
}

/// Reads a shadow root.
fn read_shadow<D: Disk>(disk: &mut D, shadow: BlockNo, into: &mut Block) -> Result<(), Trouble>
    requires { shadow.0 < D.blocks disk.old }
    ensures content { Tells D.Disk disk.old → OnOk result (into.new ≡ block_at (D.content disk.old) shadow.0) }
    ensures refused { IfErr result (λ t. (t ≡ troubles.Disk false) × HasStopped D.Disk false disk.old disk.new) }
    ensures reads { OnlyReads D.Disk 1 disk.old disk.new }
{
    disk.read(shadow, into)
        .map_err(|_| Trouble::Disk { tried: false })
}

/// Reads the shadow root, and writes its content into the root.
fn copy_read<D: Disk>(disk: &mut D, root: BlockNo, shadow: BlockNo) -> Result<(), Trouble>
    requires root_on_disk { root.0 < D.blocks disk.old }
    requires shadow_on_disk { shadow.0 < D.blocks disk.old }
    ensures goes { (l : left.LeftCommit) (space : Kept) → l.copied ≡ false → l.root ≡ root.0 → l.shadow ≡ shadow.0
        → spec.GoesFrom D.Disk disk.old disk.new space space (Some l) (Some (record l { copied = true })) result }
    ensures ends { (space : Kept) → spec.PartEnds D.Disk 3 2 disk.old disk.new space space result }
{
    let mut content = Block::zero();
    read_shadow(disk, shadow, &mut content)?;
    copy(disk, root, &content)
}

/// Clears the commit bit.
fn clear<D: Disk>(disk: &mut D, space: &mut Space, root: BlockNo) -> Result<(), Trouble>
    requires on_disk { root.0 < D.blocks disk.old }
    ensures goes { (l : left.LeftCommit) → l.copied ≡ true → l.rest ≡ [] → l.root ≡ root.0
        → spec.GoesFrom D.Disk disk.old disk.new space.old space.new (Some l) None result }
    ensures settled { Tells D.Disk disk.old → OnOk result (IsSettled D.Disk disk.new) }
    ensures kept { space.new ≡ space.old }
    ensures ends { spec.PartEnds D.Disk 4 3 disk.old disk.new space.old space.new result }
{
    clear_bit(disk, space.known(), root)
}

/// Makes one part.
pub(crate) fn make<D: Disk>(
    disk: &mut D,
    space: &mut Space,
    part: Part,
    is_shadow: bool,
) -> Result<(), Trouble>
    requires size { D.blocks disk.old ≡ 64 * length space.old.free }
    requires near { left.IsPartNear (D.blocks disk.old) part }
    ensures goes { (l : left.LeftCommit) → part ≡ left.next_part_of l → is_shadow ≡ left.is_first l.shadow l.rest
        → spec.GoesFrom D.Disk disk.old disk.new space.old space.new (Some l) (left.after_part l) result }
    ensures settled { (l : left.LeftCommit) → part ≡ left.next_part_of l → left.after_part l ≡ None
        → Tells D.Disk disk.old
        → OnOk result (IsSettled D.Disk disk.new) }
    ensures kept { IsErr result → space.new ≡ space.old }
    ensures left { space.new.left ≡ space.old.left }
    ensures ends { spec.PartEnds D.Disk (spec.part_calls part) (spec.part_tries part) disk.old disk.new space.old
        space.new result }
{
    match part {
        Part::Copy { root, shadow } => copy_read(disk, root, shadow),
        Part::Flip { block } => flip(disk, space, block, is_shadow),
        Part::Clear { root } => clear(disk, space, root),
    }
}
