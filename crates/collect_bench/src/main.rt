//! Collections for timing.
//!
//! `collect_bench CYLINDERS OBJECTS COUNT` makes COUNT collections of a tree of OBJECTS objects, of which a tenth
//! can't be reached, and prints what they did. If COUNT is 0 it opens the volume, as after a crash, and all its
//! objects can be reached.
#![tactic(auto)]

mod disk;

ghost use Rattle.std.specs.Prelude.{◌≡◌, ◌*◌, ◌≤◌, length, IfSome};
ghost use Rattle.collector_steps.specs.Collecting.{volume_of};

use cfs_base::{BlockNo, Disk, Kind, Puid};
use cfs_recover::recover;
use collector_steps::{Collector, Phase};
use cyl_alloc::Space;
use disk::{Tree, id_of};
use puid_space::Directory;
use std::alloc::Global;
use std::env;
use std::process::ExitCode;

/// A volume, the identifiers of its objects, and a collector.
#[derive(Drop)]
struct Volume {
    disk: Tree,
    space: Space,
    directory: Directory,
    collector: Collector,
    /// How many objects can be reached.
    kept: u32,
    /// What the last collection took.
    gone: Vec<Puid>,
    ghost size: { disk.cylinders ≡ length space.free },
    ghost blocks: { volume_of collector ≡ 64 * length space.free },
    ghost room: { directory.room ≤ volume_of collector },
}

fn collector_for(alloc: Global, blocks: u32) -> Option<Collector>
    requires { 1 ≤ blocks }
    ensures { IfSome result (λ k. volume_of k ≡ blocks) }
{
    match Collector::new(alloc, blocks) {
        Ok(collector) => Some(collector),
        Err(_) => None,
    }
}

/// Makes an empty directory, with room for the identifiers of `blocks` blocks.
fn directory_for(alloc: Global, blocks: u32) -> Option<Directory>
    ensures { IfSome result (λ directory. directory.room ≡ blocks) }
{
    let mut directory = Directory::new(alloc);
    match directory.reserve(blocks) {
        Ok(()) => Some(directory),
        Err(_) => None,
    }
}

impl Volume {
    /// Opens the volume, or returns `None` if the objects don't fit.
    fn open(alloc: Global, cylinders: u32, objects: u32) -> Option<Volume>
        requires some { 1 ≤ cylinders }
        requires most { cylinders ≤ 65536 }
    {
        let kept = objects - objects / 10;
        let mut disk = Tree::new(cylinders, objects, kept)?;
        let space = Space::counted(alloc, &mut disk, cylinders).ok()?;
        let collector = collector_for(alloc, 64 * cylinders)?;
        let directory = directory_for(alloc, 64 * cylinders)?;
        let mut volume = Volume {
            disk,
            space,
            directory,
            collector,
            kept,
            gone: Vec::new(alloc),
        };
        for object in 0..objects {
            let kind = volume.disk.kind_of(object);
            volume.name(id_of(object), kind)?;
        }
        Some(volume)
    }

    fn name(&mut self, id: Puid, kind: Kind) -> Option<()> {
        if id.block >= self.directory.room() || self.directory.has_root(id.block) {
            return None;
        }
        self.directory.add(id, kind);
        Some(())
    }

    /// Makes a whole collection, puts back what it took, and returns the number of its steps.
    fn round(&mut self) -> Option<u32> {
        if self.collector.phase() != Phase::Idle {
            return None;
        }
        self.collector.begin(&[id_of(0)], &self.directory).ok()?;
        for steps in 1..u32::MAX {
            if self.collector.phase() == Phase::Idle {
                self.restore()?;
                return Some(steps);
            }
            self.step(steps)?;
        }
        None
    }

    /// Puts back what was taken.
    fn restore(&mut self) -> Option<()> {
        for n in 0..self.gone.len() {
            let id = *self.gone.get(n)?;
            self.name(id, Kind::Normal)?;
            if id.block < self.directory.room() {
                self.space.took(BlockNo(id.block));
            }
        }
        Some(())
    }

    fn step(&mut self, steps: u32) -> Option<()> {
        match self.collector.phase() {
            Phase::Idle => None,
            Phase::Marking => self.mark(steps),
            Phase::Inner { .. } => self
                .collector
                .sweep_inner(&mut self.disk, &mut self.space, &self.directory)
                .ok(),
            Phase::Roots { .. } => self
                .collector
                .sweep_roots(&mut self.disk, &mut self.space, &self.directory)
                .ok(),
            Phase::Swept => {
                self.collector.end();
                Some(())
            }
        }
    }

    /// Makes the steps that mark. With each index that is read, an object is opened.
    fn mark(&mut self, steps: u32) -> Option<()> {
        if self.collector.phase() != Phase::Marking {
            return None;
        }
        if self.collector.has_rescue() {
            self.collector.take(&self.directory);
            return Some(());
        }
        if self.collector.has_grey() {
            self.collector
                .scan(&mut self.disk, &self.directory, None)
                .ok()?;
            self.collector.reserve().ok()?;
            self.collector
                .rescue(None, id_of(steps.wrapping_mul(77_773) % self.kept.max(1)));
            return Some(());
        }
        self.gone = self.collector.condemn(&mut self.directory).into_vec();
        Some(())
    }
}

/// Opens a volume, and prints what it has.
fn open(rt: &HostRuntime, alloc: Global, cylinders: u32, objects: u32) -> Option<()>
    requires { cylinders ≤ 65536 }
{
    let mut disk = Tree::new(cylinders, objects, objects)?;
    let opened = recover(alloc, &mut disk).ok()?;
    let (found, free, calls) = (opened.directory.len(), opened.space.free(), disk.calls());
    println!(rt; "{found} objects opened by {calls} device calls, {free} blocks Free").ok()
}

/// Returns the three numbers that the program's words are.
fn numbers(rt: &HostRuntime) -> Option<(u32, u32, u32)> {
    let mut words = env::args(rt).ok()?.skip(1);
    let cylinders = words.next()?.as_str().parse::<u32>().ok()?;
    let objects = words.next()?.as_str().parse::<u32>().ok()?;
    let count = words.next()?.as_str().parse::<u32>().ok()?;
    Some((cylinders, objects, count))
}

fn run(rt: &HostRuntime, alloc: Global) -> Option<()> {
    let (cylinders, objects, count) = numbers(rt)?;
    if cylinders == 0 || cylinders > 65_536 {
        return None;
    }
    if count == 0 {
        return open(rt, alloc, cylinders, objects);
    }
    let mut volume = Volume::open(alloc, cylinders, objects)?;
    let mut steps = 0;
    for _ in 0..count {
        steps = u64::saturating_add(steps, u64::from(volume.round()?));
    }
    let gone = volume.gone.len();
    let free = volume.space.free();
    println!(rt;
        "{count} collections, {steps} steps, {gone} objects taken by the last, {free} blocks Free"
    ).ok()
}

fn main(rt: HostRuntime) -> ExitCode {
    let alloc = rt.alloc();
    match run(&rt, alloc) {
        Some(()) => ExitCode::SUCCESS,
        None => ExitCode::FAILURE,
    }
}
