//! Collections: how many were called for, and the steps of the collector.
ghost use Rattle.std.specs.Prelude.{◌≡◌, ◌||◌, ◌+◌, ◌*◌, ◌++◌, ◌∷◌, ◌<◌, ◌≤◌, IfOk, List};
ghost use Rattle.std.specs.Prelude.{None, Ok, OnOk, length, map, sum, true};
ghost use Rattle.cfs_core.specs.Collect.{CollectsStep, HasBegunCollection, StepsSo, TriesStep, fault_for};
ghost use Rattle.cfs_core.specs.Collect.{phase_of, stop_by, sweeps_blocks, told_as};
ghost use Rattle.cfs_core.specs.Kernel.{Handle, marks_in, collection_runs, sweeps_in};
ghost use Rattle.collector_steps.specs.Collecting.{volume_of};
ghost use Rattle.collector_steps.specs.Left.{most_steps};
ghost use Rattle.cyl_alloc.specs.Space as space;
ghost use Rattle.open_table.specs.declared.grant.OpenGrant as grant;

use crate::handles::Handles;
use crate::kernel::Core;
use cfs_base::{Damage, Disk, Ids, NoMemory, Puid, Refused, Trouble};
use collector_steps::{Collector, Phase};
use cyl_alloc::Space;
use open_table::Grants;
use puid_space::Directory;
use std::alloc::Global;

/// What a step of the collector did.
#[derive(Debug, Drop)]
pub enum Step {
    /// Nothing: no collection runs, and as many are finished as were called for.
    Idle,
    /// A collection began.
    Began,
    /// The oldest rescue was taken.
    Took,
    /// A leaf of a grey index was read.
    Scanned,
    /// These objects are gone, all at once.
    Condemned { ids: Ids },
    /// A cylinder was swept.
    Swept,
    /// A collection ended.
    Finished,
}

/// Why a step wasn't made.
#[derive(Clone, Copy, Debug, PartialEq, Eq)]
pub enum CollectFault {
    /// There was no memory. All is as it was.
    Memory,
    /// A device call failed. Without a doubt all is as it was. With one the core stopped, and that is the moment.
    Disk { doubt: Option<u64> },
    /// A block that was read is damaged. The core stopped at this moment.
    Damaged { damage: Damage, moment: u64 },
    /// The core had stopped at this moment.
    Stopped { moment: u64 },
}

/// How many collections were called for, how many are finished, and the collector, once one has begun.
#[derive(Drop)]
pub struct Collections {
    pub(crate) collector: Option<Collector>,
    pub(crate) called: u32,
    pub(crate) finished: u32,
}

impl Collections {
    /// Makes the state in which no collection was called for.
    pub(crate) fn new() -> Collections
        ensures { result ≡ record { collector = None; called = 0; finished = 0 } }
    {
        Collections {
            collector: None,
            called: 0,
            finished: 0,
        }
    }

    /// Returns whether a collection runs.
    pub(crate) fn is_running(&self) -> bool
        ensures { result ≡ collection_runs self.now.collector }
    {
        match &self.collector {
            Some(collector) => is_going(collector.phase()),
            None => false,
        }
    }

    /// Returns the phase of the collection.
    fn phase(&self) -> Phase
        ensures { result ≡ phase_of self.now.collector }
    {
        match &self.collector {
            Some(collector) => collector.phase(),
            None => Phase::Idle,
        }
    }
}

/// Returns whether a collection runs in this phase.
fn is_going(phase: Phase) -> bool
    ensures { result ≡ (marks_in phase || sweeps_in phase) }
{
    match phase {
        Phase::Idle => false,
        Phase::Marking | Phase::Inner { .. } | Phase::Roots { .. } | Phase::Swept => true,
    }
}

/// Makes a step of a collection that marks.
fn mark<D: Disk>(
    collector: &mut Collector,
    disk: &mut D,
    directory: &mut Directory,
    handles: &Handles,
) -> Result<Step, Refused>
    requires marks { collector.old.phase ≡ Phase.Marking }
    requires room { directory.old.room ≤ volume_of collector.old }
    requires size { D.blocks disk.old ≡ volume_of collector.old }
    ensures { (kept : space.Kept)
        → StepsSo D.Disk disk.old disk.new kept kept directory.old directory.new handles.now.handles collector.old
        collector.new result }
{
    if collector.has_rescue() {
        collector.take(directory);
        return Ok(Step::Took);
    }
    if let Some(id) = collector.next_index() {
        collector.scan(disk, directory, handles.root_on(id))?;
        return Ok(Step::Scanned);
    }
    let ids = collector.condemn(directory);
    Ok(Step::Condemned { ids })
}

/// Makes a step of a collection that sweeps.
fn sweep<D: Disk>(
    collector: &mut Collector,
    disk: &mut D,
    space: &mut Space,
    directory: &Directory,
) -> Result<Step, Refused>
    requires sweeps { sweeps_blocks collector.old.phase ≡ true }
    requires size { D.blocks disk.old ≡ volume_of collector.old }
    requires counts { 64 * length space.old.free ≡ volume_of collector.old }
    ensures { (handles : List Handle)
        → StepsSo D.Disk disk.old disk.new space.old space.new directory.now directory.now handles collector.old
        collector.new
        result }
{
    match collector.phase() {
        Phase::Inner { .. } => told(collector.sweep_inner(disk, space, directory)),
        Phase::Roots { .. } => told(collector.sweep_roots(disk, space, directory)),
        Phase::Idle | Phase::Marking | Phase::Swept => unreachable!(),
    }
}

/// Returns the end of a sweep, as that of a step.
fn told(swept: Result<(), Trouble>) -> Result<Step, Refused>
    ensures { result ≡ told_as swept }
{
    swept?;
    Ok(Step::Swept)
}

/// Makes a collector for `blocks` blocks, with a collection that has begun.
fn begun(
    alloc: Global,
    blocks: u32,
    roots: &[Puid],
    directory: &Directory,
) -> Result<Collector, NoMemory>
    requires some { 0 < blocks }
    requires room { directory.now.room ≤ blocks }
    ensures volume { IfOk result (λ k. volume_of k ≡ blocks) }
    ensures begun { IfOk result (HasBegunCollection roots.now directory.now.named) }
{
    let mut collector = Collector::new(alloc, blocks)?;
    collector.begin(roots, directory)?;
    Ok(collector)
}

/// Appends each object that is open.
fn push_open(roots: &mut Vec<Puid>, grants: &Grants) -> Result<(), NoMemory>
    ensures { OnOk result (roots.new.items ≡ roots.old.items ++ map (λ (g : grant.OpenGrant). g.id) grants.now.grants) }
{
    for place in 0..grants.len() {
        roots.push(grants.at(place).id)?;
    }
    Ok(())
}

impl<D: Disk> Core<D> {
    /// Calls for `more` collections. Takes no memory.
    pub fn call_for(&mut self, more: u32)
        requires few { self.old.collections.called + more < 4294967296 }
        ensures { self.new ≡ record self.old {
          collections = record self.old.collections {
            called = self.old.collections.called + more;
          };
        } }
    {
        self.collections.called += more;
    }

    /// Returns how many steps a collection takes at most on this disk, whatever it holds, beside one for each rescue.
    pub fn most_steps(&self) -> u64
        ensures steps { result ≡ most_steps (D.blocks self.now.disk) }
        ensures small { result < 140737488355328 }
    {
        let blocks = u64::from(self.disk.blocks());
        30_721 * blocks + 2 * (blocks / 64) + 5
    }

    /// Makes one step of the collector, the first that is due.
    ///
    /// Makes at most 4 device calls, at most one of them a write. Memory is taken only as a collection begins, before
    /// anything changes. No commit is unfinished.
    pub fn collect(&mut self, alloc: Global) -> Result<Step, CollectFault>
        requires left { self.old.space.left ≡ None }
        ensures { CollectsStep D.Disk self.old self.new result }
    {
        if let Some(stop) = self.stop {
            return Err(CollectFault::Stopped {
                moment: stop.moment,
            });
        }
        match self.step(alloc) {
            Ok(step) => Ok(step),
            Err(refused) => Err(self.fail(refused)),
        }
    }

    /// Tries to make a step.
    fn step(&mut self, alloc: Global) -> Result<Step, Refused>
        ensures { TriesStep D.Disk self.old self.new result }
    {
        match self.collections.phase() {
            Phase::Idle => {
                if self.collections.finished == self.collections.called {
                    Ok(Step::Idle)
                } else {
                    self.begin(alloc)
                }
            }
            Phase::Marking => self.mark(),
            Phase::Inner { .. } | Phase::Roots { .. } => self.sweep(),
            Phase::Swept => Ok(self.finish()),
        }
    }

    /// Makes a step of the collection that marks.
    fn mark(&mut self) -> Result<Step, Refused>
        requires { phase_of self.old.collections.collector ≡ Phase.Marking }
        ensures { TriesStep D.Disk self.old self.new result }
    {
        match &mut self.collections.collector {
            Some(collector) => mark(
                collector,
                &mut self.disk,
                &mut self.directory,
                &self.handles,
            ),
            None => unreachable!(),
        }
    }

    /// Makes a step of the collection that sweeps.
    fn sweep(&mut self) -> Result<Step, Refused>
        requires { sweeps_blocks (phase_of self.old.collections.collector) ≡ true }
        ensures { TriesStep D.Disk self.old self.new result }
    {
        match &mut self.collections.collector {
            Some(collector) => sweep(collector, &mut self.disk, &mut self.space, &self.directory),
            None => unreachable!(),
        }
    }

    /// Ends the collection.
    fn finish(&mut self) -> Step
        requires { phase_of self.old.collections.collector ≡ Phase.Swept }
        ensures { TriesStep D.Disk self.old self.new (Ok result) }
    {
        crate::laws::calls_are_counted(&self.collections);
        let Some(collector) = &mut self.collections.collector else {
            unreachable!()
        };
        collector.end();
        self.collections.finished += 1;
        Step::Finished
    }

    /// Returns the root, and each object that is open.
    fn roots(&self, alloc: Global) -> Result<Vec<Puid>, NoMemory>
        ensures { IfOk result (λ roots.
            roots.items ≡ self.now.root ∷ map (λ (handle : Handle). handle.grant.id) self.now.handles) }
    {
        let mut roots = Vec::new(alloc);
        roots.push(self.root)?;
        push_open(&mut roots, self.handles.grants())?;
        Ok(roots)
    }

    /// Begins a collection.
    fn begin(&mut self, alloc: Global) -> Result<Step, Refused>
        requires idle { phase_of self.old.collections.collector ≡ Phase.Idle }
        requires more { self.old.collections.finished < self.old.collections.called }
        ensures { TriesStep D.Disk self.old self.new result }
    {
        let roots = self.roots(alloc)?;
        if let Some(collector) = &mut self.collections.collector {
            collector.begin(&roots, &self.directory)?;
            return Ok(Step::Began);
        }
        crate::laws::cylinders_are_counted(&self.space);
        let collector = begun(alloc, self.directory.room(), &roots, &self.directory)?;
        self.collections.collector = Some(collector);
        Ok(Step::Began)
    }

    /// Returns why a step wasn't made.
    ///
    /// The core stops if a write had been tried, and at a damage.
    fn fail(&mut self, refused: Refused) -> CollectFault
        ensures told { result ≡ fault_for refused (D.moment self.old.disk) }
        ensures stop { self.new
            ≡ record self.old { stop = stop_by (fault_for refused (D.moment self.old.disk)) self.old.stop } }
    {
        match refused {
            Refused::Memory | Refused::Full(_) => CollectFault::Memory,
            Refused::Disk { tried } => CollectFault::Disk {
                doubt: self.stop_in_doubt(tried),
            },
            Refused::Damaged(damage) => CollectFault::Damaged {
                damage,
                moment: self.stop_at(damage),
            },
        }
    }
}
