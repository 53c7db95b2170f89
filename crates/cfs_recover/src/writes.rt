//! What recovery writes, block by block.
ghost use Rattle.std.specs.Prelude.{◌≡◌, ◌≢◌, ◌+◌, ◌*◌, ◌<◌, ◌≤◌, ◌++◌, ℕ, List, None, IfSome, IsSome, IsTrue, OnErr};
ghost use Rattle.std.specs.Prelude.{OnOk, length, set};
ghost use Rattle.cfs_base.specs.Calls.{HasFailed, MakesAtMost};
ghost use Rattle.cfs_base.specs.Disk.{Image};
ghost use Rattle.cfs_base.specs.Outside.{count_after};
ghost use Rattle.cfs_base.specs.Run.{IsSettled};
ghost use Rattle.block_tree.specs.Root.{root_spelling};
ghost use Rattle.cyl_map.specs.Map.{map_spelling};
ghost use Rattle.ufs_model.specs.Graph.{Graph};
ghost use Rattle.vol_image.specs.Sound.{Holds};
ghost use Rattle.cfs_recover.specs.Copies.{BeginsAnew, pieces_of};
ghost use Rattle.cfs_recover.specs.Keeps.{AreKeptFor, AreShown, AreWritten, IsCopyOf, IsNamedCopy, RunKeeps, Leads};
ghost use Rattle.cfs_recover.specs.Recovered.{IsUntouched};
ghost use Rattle.cfs_recover.specs.Survey.{IsOfSize};
ghost use Rattle.vol_image.specs.Sight.{source};
ghost use Rattle.cfs_recover.specs.Tidy.{AreCopied, CopiesRoots, IsTidyMap, Tidies};

use crate::copies::{Copied, Piece, first_root};
use crate::found::Found;
use crate::head::source_of;
use crate::survey::Walked;
use cfs_base::{BlockNo, Disk, Failed};
use cyl_map::Map;

/// Writes the root by which an object is read to its root block.
pub(crate) fn write_root<D: Disk>(disk: &mut D, copied: &Copied) -> Result<(), Failed>
    requires { copied.now.block < D.blocks disk.old }
    ensures keeps { (a : Image) (g : Graph) (start : D) → RunKeeps D.Disk (CopiesRoots a g) start disk.old
        → IsCopyOf a g copied.now → OnOk result (RunKeeps D.Disk (CopiesRoots a g) start disk.new) }
    ensures leads { (a : Image) (g : Graph) (start : D) → RunKeeps D.Disk (CopiesRoots a g) start disk.old
        → IsCopyOf a g copied.now → Leads D.Disk (CopiesRoots a g) start disk.new }
    ensures written { OnOk result
        (D.content disk.new ≡ set (D.content disk.old) copied.now.block (root_spelling copied.now.root)) }
    ensures cause { OnErr result (HasFailed D.Disk disk.old disk.new) }
    ensures calls { MakesAtMost D.Disk 1 1 disk.old disk.new }
{
    disk.write(BlockNo(copied.block), &copied.root.encode())?;
    Ok(())
}

/// Returns the root by which the object of an item is read, and the pieces that follow.
///
/// It is `None` if that root is in the object's root block.
fn next_copy<'a>(
    maps: &[Map],
    walked: &Walked,
    item: Found,
    kept: &'a [Piece],
) -> Option<(Copied, &'a [Piece])>
    requires below { item.block < length walked.now.standing }
    requires maps { length walked.now.standing ≡ 64 * length maps.now }
    ensures own { (a : Image) → AreShown a maps.now walked.now item.block → source a item.block ≡ item.block
        → result ≡ None }
    ensures copied { (a : Image) (c : Copied) (rest : List Piece) → AreShown a maps.now walked.now item.block
        → source a item.block ≢ item.block → c.block ≡ item.block → IsNamedCopy walked.now c
        → kept.now ≡ pieces_of c.root ++ rest → BeginsAnew rest
        → IsSome result × IfSome result (λ r. (r.0 ≡ c) × (r.1.now ≡ rest)) }
    ensures block { IfSome result (λ r. r.0.block ≡ item.block) }
{
    let block = item.block;
    if source_of(maps, &walked.standing, block) == block {
        return None;
    }
    let (id, kind) = walked.walk.directory.at(block)?;
    let (root, rest) = first_root(kept, kind, id.word)?;
    Some((Copied { block, root }, rest))
}

/// Writes each root that was kept to its root block.
pub(crate) fn write_roots<D: Disk>(
    disk: &mut D,
    maps: &[Map],
    walked: &Walked,
) -> Result<(), Failed>
    requires maps { D.blocks disk.old ≡ 64 * length maps.now }
    requires size { IsOfSize (D.blocks disk.old) walked.now }
    ensures keeps { (a : Image) (g : Graph) (start : D) (copies : List Copied)
        → RunKeeps D.Disk (CopiesRoots a g) start disk.old
        → AreKeptFor a g maps.now walked.now copies → OnOk result (RunKeeps D.Disk (CopiesRoots a g) start disk.new
        × AreWritten a copies (D.content disk.new) (length copies)
        × (D.tries disk.new ≤ D.tries disk.old + length copies)) }
    ensures leads { (a : Image) (g : Graph) (start : D) (copies : List Copied)
        → RunKeeps D.Disk (CopiesRoots a g) start disk.old
        → AreKeptFor a g maps.now walked.now copies → Leads D.Disk (CopiesRoots a g) start disk.new }
    ensures cause { OnErr result (HasFailed D.Disk disk.old disk.new) }
    ensures calls { MakesAtMost D.Disk (D.blocks disk.old) (D.blocks disk.old) disk.old disk.new }
{
    let mut kept = walked.kept.as_slice();
    for item in &walked.walk.found {
        let Some((copied, rest)) = next_copy(maps, walked, *item, kept) else {
            continue;
        };
        write_root(disk, &copied)?;
        kept = rest;
    }
    Ok(())
}

/// Makes what was written survive a crash.
pub fn flush<D: Disk>(disk: &mut D) -> Result<(), Failed>
    ensures settled { OnOk result (IsTrue (D.honest disk.old) → IsSettled D.Disk disk.new) }
    ensures untouched { IsUntouched D.Disk disk.old disk.new }
    ensures one_call { D.calls disk.new ≡ count_after (D.calls disk.old) }
    ensures one_try { D.tries disk.new ≡ count_after (D.tries disk.old) }
    ensures cause { OnErr result (HasFailed D.Disk disk.old disk.new) }
    ensures calls { MakesAtMost D.Disk 1 1 disk.old disk.new }
{
    disk.barrier()?;
    Ok(())
}

/// Writes each root that was kept to its root block, and makes them survive a crash.
pub(crate) fn copy_roots<D: Disk>(disk: &mut D, maps: &[Map], walked: &Walked) -> Result<(), Failed>
    requires maps { D.blocks disk.old ≡ 64 * length maps.now }
    requires size { IsOfSize (D.blocks disk.old) walked.now }
    ensures copied { (a : Image) (g : Graph) (copies : List Copied) → IsSettled D.Disk disk.old → D.content disk.old ≡ a
        → Holds a g → AreKeptFor a g maps.now walked.now copies → OnOk result (IsSettled D.Disk disk.new
        × CopiesRoots a g (D.content disk.new) × AreCopied (D.content disk.new) g
        × (D.tries disk.new ≤ D.tries disk.old + length copies + 1)) }
    ensures leads { (a : Image) (g : Graph) (copies : List Copied) → IsSettled D.Disk disk.old → D.content disk.old ≡ a
        → AreKeptFor a g maps.now walked.now copies → Leads D.Disk (CopiesRoots a g) disk.old disk.new }
    ensures cause { OnErr result (HasFailed D.Disk disk.old disk.new) }
    ensures calls { MakesAtMost D.Disk (D.blocks disk.old + 1) (D.blocks disk.old + 1) disk.old disk.new }
{
    write_roots(disk, maps, walked)?;
    flush(disk)?;
    Ok(())
}

/// Writes the map of a cylinder.
pub(crate) fn write_map<D: Disk>(disk: &mut D, cylinder: u32, map: &Map) -> Result<(), Failed>
    requires on_disk { 64 * cylinder < D.blocks disk.old }
    requires few { cylinder < 65536 }
    ensures keeps { (a : Image) (g : Graph) (start : D) → RunKeeps D.Disk (Tidies a g) start disk.old
        → IsTidyMap a g cylinder (map_spelling map.now) → OnOk result (RunKeeps D.Disk (Tidies a g) start disk.new) }
    ensures leads { (a : Image) (g : Graph) (start : D) → RunKeeps D.Disk (Tidies a g) start disk.old
        → IsTidyMap a g cylinder (map_spelling map.now) → Leads D.Disk (Tidies a g) start disk.new }
    ensures written { OnOk result
        (D.content disk.new ≡ set (D.content disk.old) (64 * cylinder) (map_spelling map.now)) }
    ensures cause { OnErr result (HasFailed D.Disk disk.old disk.new) }
    ensures calls { MakesAtMost D.Disk 1 1 disk.old disk.new }
{
    disk.write(BlockNo(64 * cylinder), &map.encode())?;
    Ok(())
}
