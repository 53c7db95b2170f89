//! A volume mended: its roots are written, and then its maps, made anew from what objects use.
ghost use Rattle.std.specs.Prelude.{◌≡◌, ◌≢◌, ◌⊎◌, ◌+◌, ◌*◌, ◌/◌, ◌<◌, ◌≤◌, ℕ, List, length, set, IfErr, IsTrue, OnErr};
ghost use Rattle.std.specs.Prelude.{OnOk};
ghost use Rattle.cfs_base.specs.Calls.{HasFailed, MakesAtMost};
ghost use Rattle.cfs_base.specs.Disk.{Image as Content, block_at};
ghost use Rattle.cfs_base.specs.Run.{IsSettled, Tells};
ghost use Rattle.ufs_model.specs.Graph.{Graph};
ghost use Rattle.vol_image.specs.Fault.{reader};
ghost use Rattle.cfs_recover.specs.Keeps.{Leads, RunKeeps};
ghost use Rattle.cfs_recover.specs.Recovered.{IsUntouched};
ghost use Rattle.cfs_check.specs.Mended.{IsMendFault, IsMended, LeavesMending};
ghost use Rattle.cfs_check.specs.Repair as spec;

use crate::healed::survey_mendable;
use crate::image::Image;
use crate::mended::MendFault;
use crate::object::reader_of;
use crate::survey::Surveyed;
use crate::uses::{Use, Uses};
use cfs_base::{Block, BlockNo, Disk, Failed};
use cfs_recover::{RESERVED, flush};
use cyl_map::{BlockState, Map, MapEntry};
use std::alloc::Global;
use std::thread::Threads;

/// The entry of a block that nothing owns.
const FREE: MapEntry = MapEntry {
    state: BlockState::Free,
    committed: false,
    place: None,
    owner: 0,
};

/// Returns the entry of a block with this use.
fn mended_entry(used: Use) -> MapEntry
    ensures { result ≡ spec.mended_entry used }
{
    match used {
        Use::Free | Use::Twice => FREE,
        Use::Fixed => RESERVED,
        Use::By { owner, place } => MapEntry {
            state: BlockState::Allocated,
            committed: false,
            place: Some(place),
            owner,
        },
    }
}

/// Returns the map of a cylinder whose blocks have these uses.
fn mended_map(uses: &Uses, cylinder: u32) -> Block
    requires inside { 64 * cylinder + 64 ≤ length uses.now }
    requires few { cylinder < 65536 }
    requires entries { spec.AreMapUses uses.now }
    ensures { result ≡ spec.mended_map uses.now cylinder }
{
    let mut map = Block::zero();
    for entry in 0..64u8 {
        let used = uses.of(64 * cylinder + entry as u32);
        Map::put_in(&mut map, entry, mended_entry(used));
    }
    map
}

/// Writes the root by which an object is read to its root block.
fn write_root<D: Disk>(disk: &mut D, image: &Image, from: u32, block: u32) -> Result<(), Failed>
    requires on_disk { block < D.blocks disk.old }
    requires from { from < length image.now }
    ensures keeps { (g : Graph) (b : Content) (start : D) → RunKeeps D.Disk (spec.Mends g b) start disk.old
        → spec.IsRootIn g b block (block_at image.now from)
        → OnOk result (RunKeeps D.Disk (spec.Mends g b) start disk.new) }
    ensures leads { (g : Graph) (b : Content) (start : D) → RunKeeps D.Disk (spec.Mends g b) start disk.old
        → spec.IsRootIn g b block (block_at image.now from) → Leads D.Disk (spec.Mends g b) start disk.new }
    ensures written { OnOk result
        (D.content disk.new ≡ set (D.content disk.old) block (block_at image.now from)) }
    ensures cause { OnErr result (HasFailed D.Disk disk.old disk.new) }
    ensures calls { MakesAtMost D.Disk 1 1 disk.old disk.new }
{
    disk.write(BlockNo(block), image.block(from))?;
    Ok(())
}

/// Writes each root that is elsewhere than in its root block.
fn write_roots<D: Disk>(disk: &mut D, image: &Image, surveyed: &Surveyed) -> Result<(), Failed>
    requires size { length image.now ≡ D.blocks disk.old }
    requires mendable { spec.IsMendable image.now surveyed.now }
    ensures keeps { (g : Graph) (b : Content) → IsSettled D.Disk disk.old → D.content disk.old ≡ image.now
        → spec.IsMendPlan image.now surveyed.now.survey.roots.blocks surveyed.now.survey.uses g b
        → OnOk result (RunKeeps D.Disk (spec.Mends g b) disk.old disk.new
        × spec.WroteRoots image.now surveyed.now.survey.roots.blocks b (D.content disk.new)
        (length surveyed.now.survey.roots.blocks)) }
    ensures leads { (g : Graph) (b : Content) → IsSettled D.Disk disk.old → D.content disk.old ≡ image.now
        → spec.IsMendPlan image.now surveyed.now.survey.roots.blocks surveyed.now.survey.uses g b
        → Leads D.Disk (spec.Mends g b) disk.old disk.new }
    ensures cause { OnErr result (HasFailed D.Disk disk.old disk.new) }
    ensures calls { MakesAtMost D.Disk (D.blocks disk.old) (D.blocks disk.old) disk.old disk.new }
{
    let roots = &surveyed.survey.roots;
    for place in 0..roots.count() {
        let block = roots.at(place);
        let from = reader_of(image, &surveyed.standing, block);
        if from == block {
            continue;
        }
        write_root(disk, image, from, block)?;
    }
    Ok(())
}

/// Writes the map of a cylinder, if it differs.
fn write_map<D: Disk>(disk: &mut D, image: &Image, uses: &Uses, cylinder: u32) -> Result<(), Failed>
    requires size { length image.now ≡ D.blocks disk.old }
    requires uses { length uses.now ≡ length image.now }
    requires inside { 64 * cylinder + 64 ≤ length image.now }
    requires few { cylinder < 65536 }
    requires entries { spec.AreMapUses uses.now }
    ensures keeps { (g : Graph) (b : Content) (start : D) → RunKeeps D.Disk (spec.MendsMaps g b) start disk.old
        → block_at b (64 * cylinder) ≡ spec.mended_map uses.now cylinder
        → OnOk result (RunKeeps D.Disk (spec.MendsMaps g b) start disk.new) }
    ensures leads { (g : Graph) (b : Content) (start : D) → RunKeeps D.Disk (spec.MendsMaps g b) start disk.old
        → block_at b (64 * cylinder) ≡ spec.mended_map uses.now cylinder
        → Leads D.Disk (spec.MendsMaps g b) start disk.new }
    ensures written { OnOk result
        ((D.content disk.new ≡ set (D.content disk.old) (64 * cylinder) (spec.mended_map uses.now cylinder))
        ⊎ ((D.content disk.new ≡ D.content disk.old)
        × (block_at image.now (64 * cylinder) ≡ spec.mended_map uses.now cylinder))) }
    ensures cause { OnErr result (HasFailed D.Disk disk.old disk.new) }
    ensures calls { MakesAtMost D.Disk 1 1 disk.old disk.new }
{
    let map = mended_map(uses, cylinder);
    if map == *image.block(64 * cylinder) {
        return Ok(());
    }
    disk.write(BlockNo(64 * cylinder), &map)?;
    Ok(())
}

/// Writes each map that differs from the one made of the uses.
fn write_maps<D: Disk>(disk: &mut D, image: &Image, uses: &Uses) -> Result<(), Failed>
    requires size { length image.now ≡ D.blocks disk.old }
    requires uses { length uses.now ≡ length image.now }
    requires entries { spec.AreMapUses uses.now }
    ensures keeps { (found : List ℕ) (g : Graph) (b : Content) → IsSettled D.Disk disk.old
        → spec.MendsMaps g b (D.content disk.old) → spec.WroteMaps image.now b (D.content disk.old) 0
        → spec.IsMendPlan image.now found uses.now g b
        → OnOk result (RunKeeps D.Disk (spec.MendsMaps g b) disk.old disk.new
        × spec.WroteMaps image.now b (D.content disk.new) (length image.now / 64)) }
    ensures leads { (found : List ℕ) (g : Graph) (b : Content) → IsSettled D.Disk disk.old
        → spec.MendsMaps g b (D.content disk.old) → spec.WroteMaps image.now b (D.content disk.old) 0
        → spec.IsMendPlan image.now found uses.now g b → Leads D.Disk (spec.MendsMaps g b) disk.old disk.new }
    ensures cause { OnErr result (HasFailed D.Disk disk.old disk.new) }
    ensures calls { MakesAtMost D.Disk (D.blocks disk.old) (D.blocks disk.old) disk.old disk.new }
{
    for cylinder in 0..image.blocks() / 64 {
        write_map(disk, image, uses, cylinder)?;
    }
    Ok(())
}

/// Writes each root that is elsewhere than in its root block, and makes them survive a crash.
fn mend_roots<D: Disk>(disk: &mut D, image: &Image, surveyed: &Surveyed) -> Result<(), Failed>
    requires size { length image.now ≡ D.blocks disk.old }
    requires mendable { spec.IsMendable image.now surveyed.now }
    ensures mended { (g : Graph) (b : Content) → IsSettled D.Disk disk.old → D.content disk.old ≡ image.now
        → spec.IsMendPlan image.now surveyed.now.survey.roots.blocks surveyed.now.survey.uses g b
        → OnOk result (IsSettled D.Disk disk.new × spec.MendsMaps g b (D.content disk.new)
        × spec.WroteMaps image.now b (D.content disk.new) 0) }
    ensures leads { (g : Graph) (b : Content) → IsSettled D.Disk disk.old → D.content disk.old ≡ image.now
        → spec.IsMendPlan image.now surveyed.now.survey.roots.blocks surveyed.now.survey.uses g b
        → Leads D.Disk (spec.Mends g b) disk.old disk.new }
    ensures cause { OnErr result (HasFailed D.Disk disk.old disk.new) }
    ensures calls { MakesAtMost D.Disk (D.blocks disk.old + 1) (D.blocks disk.old + 1) disk.old disk.new }
{
    write_roots(disk, image, surveyed)?;
    flush(disk)?;
    Ok(())
}

/// Writes each map that differs from the one made of the uses, and makes them survive a crash.
fn mend_maps<D: Disk>(disk: &mut D, image: &Image, uses: &Uses) -> Result<(), Failed>
    requires size { length image.now ≡ D.blocks disk.old }
    requires uses { length uses.now ≡ length image.now }
    requires entries { spec.AreMapUses uses.now }
    ensures mended { (found : List ℕ) (g : Graph) (b : Content) → IsSettled D.Disk disk.old
        → spec.MendsMaps g b (D.content disk.old) → spec.WroteMaps image.now b (D.content disk.old) 0
        → spec.IsMendPlan image.now found uses.now g b
        → OnOk result (IsSettled D.Disk disk.new × (D.content disk.new ≡ b)) }
    ensures leads { (found : List ℕ) (g : Graph) (b : Content) → IsSettled D.Disk disk.old
        → spec.MendsMaps g b (D.content disk.old) → spec.WroteMaps image.now b (D.content disk.old) 0
        → spec.IsMendPlan image.now found uses.now g b → Leads D.Disk (spec.MendsMaps g b) disk.old disk.new }
    ensures cause { OnErr result (HasFailed D.Disk disk.old disk.new) }
    ensures calls { MakesAtMost D.Disk (D.blocks disk.old + 1) (D.blocks disk.old + 1) disk.old disk.new }
{
    write_maps(disk, image, uses)?;
    flush(disk)?;
    Ok(())
}

/// Writes the roots and then the maps, each followed by a barrier.
fn mend_volume<D: Disk>(disk: &mut D, image: &Image, surveyed: &Surveyed) -> Result<(), Failed>
    requires size { length image.now ≡ D.blocks disk.old }
    requires mendable { spec.IsMendable image.now surveyed.now }
    ensures mended { (g : Graph) (b : Content) → IsSettled D.Disk disk.old → D.content disk.old ≡ image.now
        → spec.IsMendPlan image.now surveyed.now.survey.roots.blocks surveyed.now.survey.uses g b
        → OnOk result (IsSettled D.Disk disk.new × (D.content disk.new ≡ b)) }
    ensures leads { (g : Graph) (b : Content) → IsSettled D.Disk disk.old → D.content disk.old ≡ image.now
        → spec.IsMendPlan image.now surveyed.now.survey.roots.blocks surveyed.now.survey.uses g b
        → Leads D.Disk (spec.Mends g b) disk.old disk.new }
    ensures cause { OnErr result (HasFailed D.Disk disk.old disk.new) }
    ensures calls { MakesAtMost D.Disk (2 * D.blocks disk.old + 2) (2 * D.blocks disk.old + 2) disk.old disk.new }
{
    mend_roots(disk, image, surveyed)?;
    mend_maps(disk, image, &surveyed.survey.uses)?;
    Ok(())
}

/// Mends the volume of which `image` is the content, as `load` gave it.
///
/// All memory is taken first. Then it makes a barrier, writes each root that is elsewhere to its root block, makes a
/// barrier, writes each map that differs from the one made from what objects use, and makes a barrier. It may be
/// stopped anywhere and begun again, once the volume is loaded anew.
///
/// Refused if there is no label of this version, for the first fault that maps don't heal, and for want of memory:
/// then no device call was made. Refused also for a device call that failed.
pub fn mend<R: Threads + Sync, D: Disk>(
    rt: &R,
    alloc: Global,
    disk: &mut D,
    image: &Image,
) -> Result<(), MendFault>
    requires size { length image.now ≡ D.blocks disk.old }
    requires same { IsTrue (D.honest disk.old) → Tells D.Disk disk.old × (D.content disk.old ≡ image.now) }
    ensures mended { IsTrue (D.honest disk.old) → OnOk result (IsMended D.Disk disk.old disk.new) }
    ensures images { IsTrue (D.honest disk.old) → LeavesMending D.Disk disk.old disk.new }
    ensures refused { IfErr result (IsMendFault image.now) }
    ensures untouched { IfErr result (λ e. e ≢ MendFault.Disk → IsUntouched D.Disk disk.old disk.new) }
    ensures cause { IfErr result (λ e. e ≡ MendFault.Disk → HasFailed D.Disk disk.old disk.new) }
    ensures calls { MakesAtMost D.Disk (2 * D.blocks disk.old + 3) (2 * D.blocks disk.old + 3) disk.old disk.new }
{
    let surveyed = survey_mendable(rt, alloc, image)?;
    flush(disk)?;
    mend_volume(disk, image, &surveyed)?;
    Ok(())
}
