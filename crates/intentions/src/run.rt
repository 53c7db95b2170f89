//! The first of some blocks, which lie in one map: their entries are changed by one write of it.
ghost use Rattle.std.specs.Prelude.{◌≡◌, ℕ, ◌+◌, if◌then◌else◌, ◌<◌, [], ◌∷◌, drop, set};
ghost use Rattle.cfs_base.specs.Disk.{Image, block_at};
ghost use Rattle.cyl_alloc.specs.Space.{HasMoreFree};
ghost use Rattle.cyl_map.specs.Map as maps;
ghost use Rattle.cyl_map.specs.Mapped.{IsMapped};
ghost use Rattle.cyl_map.specs.Volume.{map_of};
ghost use Rattle.intentions.specs.Entries.{FitsEntry};
ghost use Rattle.intentions.specs.Turned.{turned};
ghost use Rattle.intentions.specs.Runs as spec;

use crate::change::EntryChange;
use crate::entry::change_in;
use cfs_base::{Block, BlockNo, Disk, Trouble};
use cyl_alloc::KnownMaps;
use cyl_map::{BlockState, MapEntry};

/// The change that the entry of each of some blocks gets.
#[derive(Clone, Copy, Debug, PartialEq, Eq)]
pub enum Rule {
    /// Each entry gets the same change.
    Alike(EntryChange),
    /// The intentions are carried out, except that the one with the shadow root is taken back.
    Settle { shadow: BlockNo },
}

impl Rule {
    /// Returns the change of the entry of a block.
    fn of(self, block: BlockNo) -> EntryChange
        requires { spec.AllFit self }
        ensures value { result ≡ spec.how_of self block.0 }
        ensures fits { FitsEntry result }
    {
        match self {
            Rule::Alike(how) => how,
            Rule::Settle { shadow } => {
                if block.0 == shadow.0 {
                    EntryChange::Undo
                } else {
                    EntryChange::Finish
                }
            }
        }
    }
}

/// The first of some blocks, which lie in one map.
#[derive(Clone, Copy, Debug, PartialEq, Eq)]
pub struct Run {
    /// How many blocks the run has.
    pub count: usize,
    /// How many of them became Free.
    pub freed: u32,
}

fn is_free(entry: MapEntry) -> bool
    ensures { result ≡ maps.is_free entry }
{
    matches!(entry.state, BlockState::Free)
}

/// Returns whether a block became Free.
pub fn is_freed(was: MapEntry, now: MapEntry) -> bool
    ensures { result ≡ spec.is_freed was now }
{
    if is_free(was) {
        return false;
    }
    is_free(now)
}

/// Changes the entry of a block in its map, which was read, and returns whether the block became Free.
fn flip_in(map: &mut Block, block: BlockNo, how: EntryChange) -> bool
    requires spells { maps.SpellsMap map.old }
    requires fits { FitsEntry how }
    ensures spells { maps.SpellsMap map.new }
    ensures now { (image : Image) → block_at image (map_of block.0) ≡ map.old
        → IsMapped (turned (λ n. how) (block.0 ∷ [])) image (set image (map_of block.0) map.new) }
    ensures freed { spec.KeepsFree how → (image other : Image) (n count : ℕ) → map_of block.0 ≡ map_of n
        → block_at other (map_of block.0) ≡ map.old → HasMoreFree image n count other
        → HasMoreFree image n (count + (if result then 1 else 0)) (set other (map_of block.0) map.new) }
{
    let was = change_in(map, block, how);
    is_freed(was, how.of(was))
}

/// Changes the entries of the first of the blocks in a map that was read, up to the first block that isn't in it.
pub fn change_first(map: &mut Block, blocks: &[u32], rule: Rule, first: u32) -> Run
    requires spells { maps.SpellsMap map.old }
    requires fits { spec.AllFit rule }
    requires first { spec.IsFirst first blocks.now }
    ensures flips { spec.FlipsFirst rule first result.count result.freed blocks.now map.old map.new }
    ensures runs { 1 + spec.runs (drop result.count blocks.now) ≡ spec.runs blocks.now }
{
    let mut freed = 0u32;
    for (count, block) in blocks.iter().enumerate() {
        if *block / 64 != first / 64 {
            return Run { count, freed };
        }
        let block = BlockNo(*block);
        let is_freed = flip_in(map, block, rule.of(block));
        freed = freed.saturating_add(is_freed as u32);
    }
    Run {
        count: blocks.len(),
        freed,
    }
}

/// Writes a map that was read and changed.
pub fn write_map<D: Disk>(
    disk: &mut D,
    known: &mut KnownMaps,
    block: u32,
    map: &Block,
) -> Result<(), Trouble>
    requires on_disk { map_of block < D.blocks disk.old }
    requires spells { maps.SpellsMap map.now }
    ensures { spec.WritesMap D.Disk (map_of block) map.now disk.old disk.new result }
{
    known
        .store_map(disk, block, map)
        .map_err(|_| Trouble::Disk { tried: true })
}
