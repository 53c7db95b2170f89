//! How a collection sweeps: cylinder after cylinder, and roots last.
ghost use Rattle.std.specs.Prelude.{◌≡◌, ◌*◌, length};
ghost use Rattle.collector_steps.specs.Collecting.{volume_of};
ghost use Rattle.collector_steps.specs.Swept.{HasSwept, IsPhaseOf};
ghost use Rattle.collector_steps.specs.Swept as spec;
ghost use Rattle.collector_steps.specs.declared.sweep.Pass.TheVariants as passes;

use crate::collector::Collector;
use crate::phase::Phase;
use crate::sweep::{Pass, sweep_cylinder};
use cfs_base::{Disk, Trouble};
use cyl_alloc::Space;
use puid_space::Directory;

fn cylinder_of(phase: Phase) -> u32
    ensures { result ≡ spec.cylinder_of phase }
{
    match phase {
        Phase::Idle | Phase::Marking | Phase::Swept => 0,
        Phase::Inner { cylinder } | Phase::Roots { cylinder } => cylinder,
    }
}

/// Returns the phase after a step of the sweep.
///
/// The inner pass is over all cylinders before the root pass begins.
fn next_phase(phase: Phase, cylinders: u32) -> Phase
    ensures { result ≡ spec.next_phase cylinders phase }
{
    match phase {
        Phase::Idle | Phase::Marking | Phase::Swept => phase,
        Phase::Inner { cylinder } => match cylinder.checked_add(1) {
            Some(next) if next < cylinders => Phase::Inner { cylinder: next },
            _ => Phase::Roots { cylinder: 0 },
        },
        Phase::Roots { cylinder } => match cylinder.checked_add(1) {
            Some(next) if next < cylinders => Phase::Roots { cylinder: next },
            _ => Phase::Swept,
        },
    }
}

impl Collector {
    /// Sweeps nodes, leaves and shadow roots of one cylinder.
    ///
    /// Each whose owner is the root block of no object becomes Free. Makes one read, and one write if there is such a
    /// block. Takes no memory.
    pub fn sweep_inner<D: Disk>(
        &mut self,
        disk: &mut D,
        space: &mut Space,
        directory: &Directory,
    ) -> Result<(), Trouble>
        requires phase { IsPhaseOf passes.Inner self.old.phase }
        requires size { D.blocks disk.old ≡ volume_of self.old }
        requires counts { 64 * length space.old.free ≡ volume_of self.old }
        ensures { HasSwept D.Disk directory.now.named passes.Inner disk.old disk.new space.old space.new self.old
            self.new
            result }
    {
        self.sweep(disk, space, directory, Pass::Inner)
    }

    /// Sweeps the roots of one cylinder in the same way, except those of objects that are being made.
    pub fn sweep_roots<D: Disk>(
        &mut self,
        disk: &mut D,
        space: &mut Space,
        directory: &Directory,
    ) -> Result<(), Trouble>
        requires phase { IsPhaseOf passes.Roots self.old.phase }
        requires size { D.blocks disk.old ≡ volume_of self.old }
        requires counts { 64 * length space.old.free ≡ volume_of self.old }
        ensures { HasSwept D.Disk directory.now.named passes.Roots disk.old disk.new space.old space.new self.old
            self.new
            result }
    {
        self.sweep(disk, space, directory, Pass::Roots)
    }

    fn sweep<D: Disk>(
        &mut self,
        disk: &mut D,
        space: &mut Space,
        directory: &Directory,
        pass: Pass,
    ) -> Result<(), Trouble>
        requires phase { IsPhaseOf pass self.old.phase }
        requires size { D.blocks disk.old ≡ volume_of self.old }
        requires counts { 64 * length space.old.free ≡ volume_of self.old }
        ensures { HasSwept D.Disk directory.now.named pass disk.old disk.new space.old space.new self.old self.new
            result }
    {
        puid_space::laws::kinds_follow_the_graph();
        let cylinders = disk.blocks() / 64;
        sweep_cylinder(disk, space, directory, pass, cylinder_of(self.phase))?;
        self.phase = next_phase(self.phase, cylinders);
        self.steps = self.steps.saturating_add(1);
        Ok(())
    }
}
