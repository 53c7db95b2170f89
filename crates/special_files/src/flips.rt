//! Entries of many blocks, changed with one write for consecutive blocks in one map.
ghost use Rattle.std.specs.Prelude.{◌≡◌, ◌<◌, ◌*◌, ℕ, [], ◌∷◌, length};
ghost use Rattle.std.specs.List.{All};
ghost use Rattle.cfs_base.specs.Calls.{MakesAtMost};
ghost use Rattle.intentions.specs.Entries.{FitsEntry};
ghost use Rattle.intentions.specs.Runs.{runs};
ghost use Rattle.special_files.specs.Committing as spec;

use cfs_base::{Block, BlockNo, Disk, Trouble};
use cyl_alloc::{KnownMaps, Space};
use intentions::{EntryChange, Rule, change_entry, change_first, write_map};

/// Changes the entry of a block. A write or a barrier was tried before.
pub(crate) fn flip<D: Disk>(
    disk: &mut D,
    known: &mut KnownMaps,
    block: BlockNo,
    how: EntryChange,
) -> Result<(), Trouble>
    requires on_disk { block.0 < D.blocks disk.old }
    requires fits { FitsEntry how }
    ensures flips { spec.Flips D.Disk 2 1 how (block.0 ∷ []) disk.old disk.new result }
{
    change_entry(disk, known, block, how).map_err(Trouble::after_try)?;
    Ok(())
}

/// Changes the entries of the first of these blocks that are in one map, and returns how many they are.
///
/// It makes one read and one write of the map. A write or a barrier was tried before.
fn flip_run<D: Disk>(
    disk: &mut D,
    known: &mut KnownMaps,
    blocks: &[u32],
    how: EntryChange,
) -> Result<usize, Trouble>
    requires some { 0 < length blocks.now }
    requires on_disk { All (λ n. n < D.blocks disk.old) blocks.now }
    requires fits { FitsEntry how }
    ensures { spec.FlipsRun D.Disk how blocks.now disk.old disk.new result }
{
    let first = blocks[0];
    let mut map = Block::zero();
    known
        .load_map(disk, first, &mut map)
        .map_err(Trouble::after_try)?;
    let run = change_first(&mut map, blocks, Rule::Alike(how), first);
    write_map(disk, known, first, &map)?;
    Ok(run.count)
}

/// Changes the entries of all these blocks, with one write for consecutive blocks in one map.
pub(crate) fn flip_all<D: Disk>(
    disk: &mut D,
    known: &mut KnownMaps,
    blocks: &[u32],
    how: EntryChange,
) -> Result<(), Trouble>
    requires on_disk { All (λ n. n < D.blocks disk.old) blocks.now }
    requires fits { FitsEntry how }
    ensures flips { spec.Flips D.Disk (2 * length blocks.now) (length blocks.now) how blocks.now
        disk.old disk.new result }
    ensures by_map { MakesAtMost D.Disk (2 * runs blocks.now) (runs blocks.now) disk.old disk.new }
{
    let mut done = 0;
    while done < blocks.len() {
        done += flip_run(disk, known, &blocks[done..], how)?;
    }
    Ok(())
}

/// Counts each of these blocks as Free again.
pub(crate) fn give_all(space: &mut Space, blocks: &[u32])
    requires on_disk { All (λ n. n < 64 * length space.old.free) blocks.now }
    ensures given { space.new ≡ spec.given_all space.old blocks.now }
    ensures cylinders { length space.new.free ≡ length space.old.free }
    ensures left { space.new.left ≡ space.old.left }
{
    for block in blocks {
        space.gave(BlockNo(*block), 1);
    }
}
