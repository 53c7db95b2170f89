//! The commit bit, and the copy of a root.
ghost use Rattle.std.specs.Prelude.{◌≡◌, ℕ, ◌<◌, true, IsTrue, IfErr, OnErr, OnOk, Some, set};
ghost use Rattle.block_tree.specs.Reads.{HasStoppedBy};
ghost use Rattle.cfs_base.specs.Calls.{HasStopped, HasTried, MakesAtMost};
ghost use Rattle.cfs_base.specs.Disk.{Nothing, Written, block_at};
ghost use Rattle.cfs_base.specs.Run.{IsSettled, Leaves, Tells, left_now};
ghost use Rattle.cfs_base.specs.declared.refusal.Trouble.TheVariants as troubles;
ghost use Rattle.cfs_base.specs.declared.identifier.Puid.{Puid};
ghost use Rattle.cyl_map.specs.Entry.{IsEntry};
ghost use Rattle.cyl_map.specs.Map.{SpellsMap, entries_of};
ghost use Rattle.cyl_map.specs.Volume.{with_entry};
ghost use Rattle.cyl_alloc.specs.Maps.{IsMapOf};
ghost use Rattle.intentions.specs.Calls as spec;
ghost use Rattle.intentions.specs.Commit.{Commits, Copies, IsCommitted};
ghost use Rattle.intentions.specs.Entries as entries;
ghost use Rattle.ufs_model.specs.Graph.{Graph, object_at, with_object};
ghost use Rattle.ufs_model.specs.declared.object.Object.{Object};
ghost use Rattle.vol_image.specs.Commit.{IsDraft};
ghost use Rattle.vol_image.specs.Run.{Carries};
ghost use Rattle.vol_image.specs.Sound.{Holds};

use crate::change::EntryChange;
use crate::entry::{put_entry, read_entry};
use cfs_base::{Block, BlockNo, Disk, Trouble};
use cyl_alloc::KnownMaps;
use cyl_map::MapEntry;

/// Makes what was written survive a crash.
pub fn barrier<D: Disk>(disk: &mut D) -> Result<(), Trouble>
    ensures content { D.content disk.new ≡ D.content disk.old }
    ensures told { (n : ℕ) → IsTrue (D.told disk.old n) → IsTrue (D.told disk.new n) }
    ensures settled { Tells D.Disk disk.old → OnOk result (IsSettled D.Disk disk.new) }
    ensures images { Leaves D.Disk disk.old disk.new Nothing }
    ensures refused { IfErr result (λ trouble. trouble ≡ troubles.Disk true) }
    ensures stopped { OnErr result (HasStopped D.Disk true disk.old disk.new) }
    ensures made { HasTried D.Disk disk.old disk.new }
    ensures calls { MakesAtMost D.Disk 1 1 disk.old disk.new }
{
    disk.barrier().map_err(|_| Trouble::Disk { tried: true })
}

/// Puts another entry in the place of the one that was read, with a barrier before and one after.
fn put_between<D: Disk>(
    disk: &mut D,
    known: &mut KnownMaps,
    block: BlockNo,
    map: &mut Block,
    entry: MapEntry,
) -> Result<(), Trouble>
    requires on_disk { block.0 < D.blocks disk.old }
    requires entry { IsEntry entry }
    requires spells { SpellsMap map.old }
    ensures written { IsMapOf (D.content disk.old) block.0 (entries_of map.old) →
        OnOk result (D.content disk.new ≡ with_entry (D.content disk.old) block.0 entry) }
    ensures told { OnOk result ((n : ℕ) → IsTrue (D.told disk.old n) → IsTrue (D.told disk.new n)) }
    ensures settled { Tells D.Disk disk.old → OnOk result (IsSettled D.Disk disk.new) }
    ensures images { Tells D.Disk disk.old → IsMapOf (D.content disk.old) block.0 (entries_of map.old)
        → Leaves D.Disk disk.old disk.new (λ c. c ≡ with_entry (D.content disk.old) block.0 entry) }
    ensures refused { IfErr result (λ trouble. trouble ≡ troubles.Disk true) }
    ensures stopped { OnErr result (HasStopped D.Disk true disk.old disk.new) }
    ensures made { HasTried D.Disk disk.old disk.new }
    ensures calls { MakesAtMost D.Disk 3 3 disk.old disk.new }
{
    barrier(disk)?; // what the entry leads to
    put_entry(disk, known, block, map, entry)?;
    barrier(disk) // the entry
}

/// Changes the commit bit of a root.
fn change_bit<D: Disk>(
    disk: &mut D,
    known: &mut KnownMaps,
    root: BlockNo,
    how: EntryChange,
) -> Result<(), Trouble>
    requires on_disk { root.0 < D.blocks disk.old }
    requires fits { entries.FitsEntry how }
    ensures changes { spec.ChangesBit D.Disk root.0 (λ e. entries.changed_entry how e) disk.old disk.new result }
{
    let mut map = Block::zero();
    let entry = read_entry(disk, known, root, &mut map)?;
    let now = how.of(entry);
    put_between(disk, known, root, &mut map, now)
}

/// Sets the commit bit of a root.
///
/// The barrier before it makes all to which the root leads durable. From the barrier after it on the change survives
/// a crash. `Damaged` names the map block of the root, with code 2, if it is no map.
pub fn commit<D: Disk>(disk: &mut D, known: &mut KnownMaps, root: BlockNo) -> Result<(), Trouble>
    requires { root.0 < D.blocks disk.old }
    ensures changes { spec.ChangesBit D.Disk root.0 (λ e. entries.with_bit e) disk.old disk.new result }
    // The draft becomes the object. All that a crash leaves, besides what it might have left before, has it.
    ensures commits { (graph : Graph) (id : Puid) (was o : Object) (s : ℕ) → id.block ≡ root.0
        → Carries D.Disk graph disk.old
        → object_at graph id ≡ Some was → IsDraft (D.content disk.old) id.block s o
        → OnOk result (Commits (D.content disk.old) (D.content disk.new) graph id o s) }
    ensures holds { (graph : Graph) (id : Puid) (was o : Object) (s : ℕ) → id.block ≡ root.0
        → Carries D.Disk graph disk.old
        → object_at graph id ≡ Some was → IsDraft (D.content disk.old) id.block s o
        → Leaves D.Disk disk.old disk.new (λ c. Holds c (with_object graph id o)) }
{
    change_bit(disk, known, root, EntryChange::SetBit)
}

/// Clears the commit bit of a root.
///
/// The barrier before it makes durable what was finished. `Damaged` as in `commit`.
pub fn clear_bit<D: Disk>(disk: &mut D, known: &mut KnownMaps, root: BlockNo) -> Result<(), Trouble>
    requires { root.0 < D.blocks disk.old }
    ensures { spec.ChangesBit D.Disk root.0 (λ e. entries.without_bit e) disk.old disk.new result }
{
    change_bit(disk, known, root, EntryChange::ClearBit)
}

/// Writes this content, which is its shadow root's, into the root, and makes it survive a crash.
///
/// Never `Damaged`.
pub fn copy_root<D: Disk>(disk: &mut D, root: BlockNo, content: &Block) -> Result<(), Trouble>
    requires { root.0 < D.blocks disk.old }
    ensures copied { OnOk result (D.content disk.new ≡ set (D.content disk.old) root.0 content.now) }
    ensures told { OnOk result ((n : ℕ) → IsTrue (D.told disk.old n) → IsTrue (D.told disk.new n)) }
    ensures images { Leaves D.Disk disk.old disk.new (Written (left_now D.Disk disk.old) root.0 content.now) }
    ensures settled { Tells D.Disk disk.old → OnOk result (IsSettled D.Disk disk.new) }
    // If the bit is set and no write waits for a barrier, all that a crash leaves has the object.
    ensures copies { (graph : Graph) (id : Puid) (o : Object) (s : ℕ) → id.block ≡ root.0 → IsSettled D.Disk disk.old
        → IsCommitted (D.content disk.old) graph id o s → block_at (D.content disk.old) s ≡ content.now
        → OnOk result (Copies (D.content disk.old) (D.content disk.new) graph id o s) }
    ensures holds { (graph : Graph) (id : Puid) (o : Object) (s : ℕ) → id.block ≡ root.0 → IsSettled D.Disk disk.old
        → IsCommitted (D.content disk.old) graph id o s → block_at (D.content disk.old) s ≡ content.now
        → Leaves D.Disk disk.old disk.new (λ c. Holds c graph) }
    ensures refused { IfErr result (λ trouble. trouble ≡ troubles.Disk true) }
    ensures stopped { OnErr result (HasStopped D.Disk true disk.old disk.new) }
    ensures made { HasTried D.Disk disk.old disk.new }
    ensures calls { MakesAtMost D.Disk 2 2 disk.old disk.new }
{
    let Ok(()) = disk.write(root, content) else {
        return Err(Trouble::Disk { tried: true });
    };
    barrier(disk) // the copy
}
