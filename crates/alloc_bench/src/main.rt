//! Claims and releases for timing.
//!
//! `alloc_bench CYLINDERS COUNT` counts a volume of which only the last cylinder has Free blocks, makes COUNT rounds
//! of two claims and two releases, and prints what it did.
#![tactic(auto)]

mod disk;

ghost use Rattle.std.specs.Prelude.{◌≡◌, ◌*◌, ◌≤◌, length};

use cfs_base::Place;
use cyl_alloc::Space;
use disk::LastCylinderFree;
use std::alloc::Global;
use std::env;
use std::process::ExitCode;

/// A volume whose Free blocks are counted.
#[derive(Drop)]
struct Volume {
    disk: LastCylinderFree,
    space: Space,
    ghost size: { disk.cylinders ≡ length space.free },
}

impl Volume {
    /// Opens the volume, or returns `None` if it can't be counted.
    fn open(alloc: Global, cylinders: u32) -> Option<Volume>
        requires some { 1 ≤ cylinders }
        requires most { cylinders ≤ 65536 }
    {
        let mut disk = LastCylinderFree::new(cylinders)?;
        let space = Space::counted(alloc, &mut disk, cylinders).ok()?;
        Some(Volume { disk, space })
    }

    /// Makes two claims and two releases. If `turned` is set, the second block is released first.
    fn round(&mut self, turned: bool) -> Option<()> {
        let first = self.space.claim(&mut self.disk, Place::Leaf(7), 2).ok()?;
        let second = self.space.claim(&mut self.disk, Place::Node(1), 2).ok()?;
        let (one, other) = if turned {
            (second, first)
        } else {
            (first, second)
        };
        self.space.release(&mut self.disk, one).ok()?;
        self.space.release(&mut self.disk, other).ok()
    }
}

/// Returns the two numbers that the program's words are.
fn numbers(rt: &HostRuntime) -> Option<(u32, u32)> {
    let mut words = env::args(rt).ok()?.skip(1);
    let cylinders = words.next()?.as_str().parse::<u32>().ok()?;
    let count = words.next()?.as_str().parse::<u32>().ok()?;
    Some((cylinders, count))
}

fn run(rt: &HostRuntime, alloc: Global) -> Option<()> {
    let (cylinders, count) = numbers(rt)?;
    if cylinders == 0 || cylinders > 65_536 {
        return None;
    }
    let mut volume = Volume::open(alloc, cylinders)?;
    for round in 0..count {
        volume.round(round % 2 == 1)?;
    }
    let claims = 2 * count as u64;
    let free = volume.space.free();
    println!(rt; "{claims} claims, {free} blocks Free").ok()
}

fn main(rt: HostRuntime) -> ExitCode {
    let alloc = rt.alloc();
    match run(&rt, alloc) {
        Some(()) => ExitCode::SUCCESS,
        None => ExitCode::FAILURE,
    }
}
