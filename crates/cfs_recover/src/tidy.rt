//! The maps that recovery writes.
ghost use Rattle.std.specs.Prelude.{◌≡◌, ◌≢◌, ◌⊎◌, ◌+◌, ◌*◌, ◌<◌, ◌≤◌, ℕ, length, get_or, replicate, set, IfOk, OnErr};
ghost use Rattle.std.specs.Prelude.{OnOk};
ghost use Rattle.cfs_base.specs.Calls.{HasFailed, MakesAtMost};
ghost use Rattle.cfs_base.specs.Disk.{Image, block_at};
ghost use Rattle.cfs_base.specs.Run.{IsSettled};
ghost use Rattle.cyl_map.specs.Map.{map_spelling};
ghost use Rattle.ufs_model.specs.Graph.{Graph};
ghost use Rattle.cfs_recover.specs.Keeps.{RunKeeps, Leads};
ghost use Rattle.cfs_recover.specs.Recovered.{one_if_changed, changed_maps};
ghost use Rattle.cfs_recover.specs.Stored.{AreMapsOf};
ghost use Rattle.vol_image.specs.Part as part;
ghost use Rattle.cfs_recover.specs.Tidy as spec;

use crate::entry::is_fixed;
use crate::writes::{flush, write_map};
use cfs_base::{BlockNo, Disk, Failed};
use cyl_alloc::Space;
use cyl_map::{BlockState, Map, MapEntry};

/// The entry of a block that nothing owns.
const FREE: MapEntry = MapEntry {
    state: BlockState::Free,
    committed: false,
    place: None,
    owner: 0,
};

/// Returns the entry of a block once the volume is tidy.
///
/// A map block and the label keep theirs, what is held is Allocated, and all else is Free.
fn tidied(block: u32, held: bool, entry: MapEntry) -> MapEntry
    ensures { result ≡ spec.tidied (part.is_fixed block) held entry }
{
    if is_fixed(block) {
        return entry;
    }
    if held {
        return MapEntry {
            state: BlockState::Allocated,
            committed: false,
            ..entry
        };
    }
    FREE
}

/// Returns the map of a cylinder once the volume is tidy.
pub(crate) fn tidy_map(cylinder: u32, map: &Map, held: &[bool]) -> Map
    requires held { 64 * cylinder + 64 ≤ length held.now }
    requires few { cylinder < 65536 }
    ensures { spec.IsTidiedMap cylinder map.now held.now result }
{
    let mut tidy = *map;
    for entry in 0..64u8 {
        let block = 64 * cylinder + entry as u32;
        tidy.set(entry, tidied(block, held[block as usize], map.get(entry)));
    }
    tidy
}

/// Writes the map of a cylinder as it is in a tidy volume, if it differs, and returns that map.
fn write_tidy<D: Disk>(disk: &mut D, cylinder: u32, map: &Map, held: &[bool]) -> Result<Map, Failed>
    requires on_disk { 64 * cylinder < D.blocks disk.old }
    requires held { 64 * cylinder + 64 ≤ length held.now }
    requires few { cylinder < 65536 }
    ensures keeps { (a : Image) (g : Graph) (start : D) → RunKeeps D.Disk (spec.Tidies a g) start disk.old
        → spec.IsTidying a g held.now → spec.IsMapIn a cylinder map.now
        → OnOk result (RunKeeps D.Disk (spec.Tidies a g) start disk.new) }
    ensures leads { (a : Image) (g : Graph) (start : D) → RunKeeps D.Disk (spec.Tidies a g) start disk.old
        → spec.IsTidying a g held.now → spec.IsMapIn a cylinder map.now
        → Leads D.Disk (spec.Tidies a g) start disk.new }
    ensures written { IfOk result
        (λ tidy. (D.content disk.new ≡ set (D.content disk.old) (64 * cylinder) (map_spelling tidy))
        ⊎ ((D.content disk.new ≡ D.content disk.old) × (map_spelling tidy ≡ map_spelling map.now))) }
    ensures tidied { IfOk result (spec.IsTidiedMap cylinder map.now held.now) }
    ensures differs { IfOk result (λ tidy. D.tries disk.new
        ≤ D.tries disk.old + one_if_changed (map_spelling map.now) (map_spelling tidy)) }
    ensures cause { OnErr result (HasFailed D.Disk disk.old disk.new) }
    ensures calls { MakesAtMost D.Disk 1 1 disk.old disk.new }
{
    let tidy = tidy_map(cylinder, map, held);
    if tidy == *map {
        return Ok(tidy);
    }
    write_map(disk, cylinder, &tidy)?;
    Ok(tidy)
}

/// Writes the map of a cylinder as it is in a tidy volume, if it differs, and counts what is Free in it.
fn tidy_cylinder<D: Disk>(
    disk: &mut D,
    cylinder: u32,
    map: &Map,
    held: &[bool],
    space: &mut Space,
) -> Result<(), Failed>
    requires on_disk { 64 * cylinder < D.blocks disk.old }
    requires held { 64 * cylinder + 64 ≤ length held.now }
    requires few { cylinder < 65536 }
    requires counted { cylinder < length space.old.free }
    ensures keeps { (a : Image) (g : Graph) (start : D) → RunKeeps D.Disk (spec.Tidies a g) start disk.old
        → spec.IsTidying a g held.now → spec.IsMapIn a cylinder map.now
        → OnOk result (RunKeeps D.Disk (spec.Tidies a g) start disk.new) }
    ensures leads { (a : Image) (g : Graph) (start : D) → RunKeeps D.Disk (spec.Tidies a g) start disk.old
        → spec.IsTidying a g held.now → spec.IsMapIn a cylinder map.now
        → Leads D.Disk (spec.Tidies a g) start disk.new }
    ensures tidied { 64 * cylinder < length (D.content disk.old) → get_or space.old.free cylinder 0 ≡ 0
        → block_at (D.content disk.old) (64 * cylinder) ≡ map_spelling map.now
        → OnOk result (spec.HasTidied (D.content disk.new) cylinder map.now held.now
        (get_or space.new.free cylinder 0)) }
    ensures others { (n : ℕ) → n ≢ 64 * cylinder
        → OnOk result (block_at (D.content disk.new) n ≡ block_at (D.content disk.old) n) }
    ensures differs { 64 * cylinder < length (D.content disk.old)
        → block_at (D.content disk.old) (64 * cylinder) ≡ map_spelling map.now
        → OnOk result (D.tries disk.new ≤ D.tries disk.old
        + one_if_changed (block_at (D.content disk.old) (64 * cylinder))
        (block_at (D.content disk.new) (64 * cylinder))) }
    ensures counts { (k : ℕ) → k ≢ cylinder → OnOk result (get_or space.new.free k 0 ≡ get_or space.old.free k 0) }
    ensures size { length space.new.free ≡ length space.old.free }
    ensures left { space.new.left ≡ space.old.left }
    ensures cause { OnErr result (HasFailed D.Disk disk.old disk.new) }
    ensures calls { MakesAtMost D.Disk 1 1 disk.old disk.new }
{
    let tidy = write_tidy(disk, cylinder, map, held)?;
    space.gave(BlockNo(64 * cylinder), tidy.free_count());
    Ok(())
}

/// Writes each map that isn't tidy, and counts what is Free.
fn write_maps<D: Disk>(
    disk: &mut D,
    maps: &[Map],
    held: &[bool],
    space: &mut Space,
) -> Result<(), Failed>
    requires maps { D.blocks disk.old ≡ 64 * length maps.now }
    requires few { length maps.now ≤ 65536 }
    requires held { length held.now ≡ D.blocks disk.old }
    requires none { space.old.free ≡ replicate (length maps.now) 0 }
    ensures keeps { (a : Image) (g : Graph) → IsSettled D.Disk disk.old → D.content disk.old ≡ a
        → spec.IsTidying a g held.now → AreMapsOf a maps.now
        → OnOk result (RunKeeps D.Disk (spec.Tidies a g) disk.old disk.new
        × spec.AreTidied (D.content disk.new) maps.now held.now space.new.free (length maps.now)
        × (D.tries disk.new ≤ D.tries disk.old + changed_maps a (D.content disk.new) (length maps.now))) }
    ensures leads { (a : Image) (g : Graph) → IsSettled D.Disk disk.old → D.content disk.old ≡ a
        → spec.IsTidying a g held.now → AreMapsOf a maps.now → Leads D.Disk (spec.Tidies a g) disk.old disk.new }
    ensures size { length space.new.free ≡ length maps.now }
    ensures left { space.new.left ≡ space.old.left }
    ensures cause { OnErr result (HasFailed D.Disk disk.old disk.new) }
    ensures calls { MakesAtMost D.Disk (length maps.now) (length maps.now) disk.old disk.new }
{
    for cylinder in 0..maps.len() as u32 {
        tidy_cylinder(disk, cylinder, &maps[cylinder as usize], held, space)?;
    }
    Ok(())
}

/// Writes each map that isn't tidy, counts what is Free, and makes the maps survive a crash.
pub(crate) fn tidy_maps<D: Disk>(
    disk: &mut D,
    maps: &[Map],
    held: &[bool],
    space: &mut Space,
) -> Result<(), Failed>
    requires maps { D.blocks disk.old ≡ 64 * length maps.now }
    requires few { length maps.now ≤ 65536 }
    requires held { length held.now ≡ D.blocks disk.old }
    requires none { space.old.free ≡ replicate (length maps.now) 0 }
    ensures tidied { (a : Image) (g : Graph) → IsSettled D.Disk disk.old → D.content disk.old ≡ a
        → spec.IsTidying a g held.now → AreMapsOf a maps.now
        → OnOk result (IsSettled D.Disk disk.new × spec.Tidies a g (D.content disk.new)
        × spec.AreTidied (D.content disk.new) maps.now held.now space.new.free (length maps.now)
        × (D.tries disk.new ≤ D.tries disk.old + 1 + changed_maps a (D.content disk.new) (length maps.now))) }
    ensures leads { (a : Image) (g : Graph) → IsSettled D.Disk disk.old → D.content disk.old ≡ a
        → spec.IsTidying a g held.now → AreMapsOf a maps.now → Leads D.Disk (spec.Tidies a g) disk.old disk.new }
    ensures size { length space.new.free ≡ length maps.now }
    ensures left { space.new.left ≡ space.old.left }
    ensures cause { OnErr result (HasFailed D.Disk disk.old disk.new) }
    ensures calls { MakesAtMost D.Disk (length maps.now + 1) (length maps.now + 1) disk.old disk.new }
{
    write_maps(disk, maps, held, space)?;
    flush(disk)?;
    Ok(())
}
