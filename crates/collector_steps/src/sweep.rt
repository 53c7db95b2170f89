//! The sweep of one cylinder.
ghost use Rattle.std.specs.Prelude.{◌≡◌, ◌*◌, ◌<◌, ◌≤◌, count_by, get_or, length, set, true, OnErr, OnOk};
ghost use Rattle.cfs_base.specs.Calls.{HasStopped, MakesAtMost};
ghost use Rattle.cfs_base.specs.Run.{Leaves};
ghost use Rattle.cyl_map.specs.Map.{IsMap};
ghost use Rattle.ufs_model.specs.Graph.{Graph};
ghost use Rattle.vol_image.specs.Frame.{Frames};
ghost use Rattle.vol_image.specs.Run.{Carries};
ghost use Rattle.vol_image.specs.Sound.{Holds};
ghost use Rattle.collector_steps.specs.Sweep as spec;
ghost use Rattle.collector_steps.specs.Swept.{IsSweep};
ghost use Rattle.cyl_alloc.specs.Space.{unheld_entry};

use cfs_base::{Block, BlockNo, Disk, Failed, Place, Trouble};
use cyl_alloc::Space;
use cyl_alloc::maps::read_map;
use cyl_map::{BlockState, Map, MapEntry};
use puid_space::Directory;

/// The blocks that a sweep is over.
#[derive(Clone, Copy, Debug, PartialEq, Eq)]
pub enum Pass {
    /// Nodes, leaves and shadow roots.
    Inner,
    /// Roots.
    Roots,
}

/// Returns whether a pass is over a block with this entry.
///
/// The first pass is over nodes, leaves and shadow roots, the second over roots, except those that are being made.
fn is_of_pass(pass: Pass, entry: MapEntry) -> bool
    ensures { result ≡ spec.is_of_pass pass entry }
{
    match (pass, entry.state, entry.place) {
        (_, BlockState::Free, _) | (_, _, None) => false,
        (Pass::Inner, _, Some(place)) => place != Place::Root,
        (Pass::Roots, state, Some(place)) => {
            place == Place::Root && state != BlockState::IntendAllocate
        }
    }
}

/// Returns whether an entry is that of a block of the pass whose owner is the root block of no object.
fn goes(entry: MapEntry, directory: &Directory, pass: Pass) -> bool
    ensures { result ≡ spec.goes directory.now.named pass entry }
{
    is_of_pass(pass, entry) && !directory.has_root(entry.owner)
}

/// Makes one entry Free if it is to go, and returns whether it is.
fn sweep_entry(map: &mut Map, place: u8, directory: &Directory, pass: Pass) -> bool
    requires { place < 64 }
    ensures swept { map.new ≡ set map.old place
        (spec.swept directory.now.named pass (get_or map.old place unheld_entry)) }
    ensures goes { result ≡ spec.goes directory.now.named pass (get_or map.old place unheld_entry) }
    ensures map { IsMap map.old }
{
    let goes = goes(map.get(place), directory, pass);
    if goes {
        map.set(
            place,
            MapEntry {
                state: BlockState::Free,
                committed: false,
                place: None,
                owner: 0,
            },
        );
    }
    goes
}

/// Makes each entry Free that is to go, and returns how many they are.
fn sweep_map(map: &mut Map, directory: &Directory, pass: Pass) -> u32
    ensures swept { map.new ≡ spec.swept_map directory.now.named pass map.old }
    ensures count { result ≡ count_by (spec.goes directory.now.named pass) map.old }
    ensures few { result ≤ 64 }
{
    let mut freed = 0;
    for place in 0..64u8 {
        if sweep_entry(map, place, directory, pass) {
            freed += 1;
        }
    }
    freed
}

/// Writes a block with which the content stays within a frame.
///
/// Done or failed, each image that a crash leaves holds the graph.
fn write_block<D: Disk>(disk: &mut D, at: BlockNo, block: &Block) -> Result<(), Failed>
    requires on_disk { at.0 < D.blocks disk.old }
    ensures carries { (g : Graph) → Carries D.Disk g disk.old
        → Frames (D.content disk.old) g (set (D.content disk.old) at.0 block.now)
        → OnOk result (Carries D.Disk g disk.new) }
    ensures leaves { (g : Graph) → Carries D.Disk g disk.old
        → Frames (D.content disk.old) g (set (D.content disk.old) at.0 block.now)
        → Leaves D.Disk disk.old disk.new (λ c. Holds c g) }
    ensures content { OnOk result (D.content disk.new ≡ set (D.content disk.old) at.0 block.now) }
    ensures failed { OnErr result (HasStopped D.Disk true disk.old disk.new) }
    ensures calls { MakesAtMost D.Disk 1 1 disk.old disk.new }
{
    disk.write(at, block)
}

/// Sweeps one cylinder by one read, and one write if some entry goes.
pub fn sweep_cylinder<D: Disk>(
    disk: &mut D,
    space: &mut Space,
    directory: &Directory,
    pass: Pass,
    cylinder: u32,
) -> Result<(), Trouble>
    requires size { D.blocks disk.old ≡ 64 * length space.old.free }
    requires on_disk { cylinder < length space.old.free }
    ensures { IsSweep D.Disk directory.now.named pass cylinder disk.old disk.new space.old space.new result }
{
    puid_space::laws::kinds_follow_the_graph();
    let blocks = disk.blocks();
    prove!(cylinder < blocks / 64);
    let mut map = read_map(disk, 64 * cylinder)?;
    let freed = sweep_map(&mut map, directory, pass);
    if freed == 0 {
        return Ok(());
    }
    match write_block(disk, BlockNo(64 * cylinder), &map.encode()) {
        Ok(()) => {
            space.gave(BlockNo(64 * cylinder), freed);
            Ok(())
        }
        Err(_) => Err(Trouble::Disk { tried: true }),
    }
}
