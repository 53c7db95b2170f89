//! The collector: how a collection begins, takes rescues, condemns and ends.
ghost use Rattle.std.specs.Prelude.{◌≡◌, ℕ, ◌+◌, ◌-◌, ◌*◌, ◌/◌, ◌^◌, ◌<◌, ◌≤◌, List, [], ◌∷◌, ◌++◌, length, OnOk};
ghost use Rattle.std.specs.Prelude.{OnErr, IfOk, IsTrue, ◌↔◌, None, Some};
ghost use Rattle.cfs_base.specs.Disk.{Image};
ghost use Rattle.cfs_base.specs.Outside.{count_after};
ghost use Rattle.cfs_base.specs.declared.identifier.Puid.{Puid};
ghost use Rattle.collector_steps.specs.Collecting.{Collects, IsAsBefore, colours_in, volume_of, waiting_in};
ghost use Rattle.collector_steps.specs.Left.{most_steps, steps_left};
ghost use Rattle.marking.specs.Colours.{all_shaded, draft_over, first_grey, none_marked};
ghost use Rattle.std.specs.Option.{option_map};
ghost use Rattle.marking.specs.Pace.{unread};
ghost use Rattle.marking.specs.Steps.{rescued};
ghost use Rattle.marking.specs.declared.memory.Rescue as memory;
ghost use Rattle.puid_space.specs.Kinds.{kinds_of};
ghost use Rattle.ufs_model.specs.Identifier.{is_among};
ghost use Rattle.ufs_model.specs.Next.{next};
ghost use Rattle.ufs_model.specs.Reach.{starts_now};
ghost use Rattle.ufs_model.specs.State.{State, draft_at};
ghost use Rattle.ufs_model.specs.WellFormed.{IsState};
ghost use Rattle.ufs_model.specs.declared.asked.Event.TheVariants as events;

use crate::phase::Phase;
use crate::scan::OWN_PART;
use crate::shading::{shade_all, shade_rescued};
use cfs_base::{NoMemory, Puid};
use collector_marks::{Marks, Rescue, Rescues};
use puid_space::Directory;
use std::alloc::Global;
use std::marker::Model;

/// A collector of the objects of a volume.
///
/// Clauses see its marks, the rescues that wait, its phase, and two counts.
#[derive(Debug, Drop)]
pub struct Collector {
    pub(crate) marks: Marks,
    pub(crate) rescues: Rescues,
    /// Empty while a collection marks, with room for all that may be condemned.
    pub(crate) condemned: Vec<Puid>,
    pub(crate) phase: Phase,
    /// The number of steps since the collection began.
    pub(crate) steps: u64,
    /// The number of rescues that were added since then.
    added: u64,
    pub(crate) alloc: Global,
}

impl Model for Collector {
    ghost use Rattle.collector_steps.specs.Collecting.{Collecting};

    ghost Value = { Collecting };

    ghost use Rattle.std.specs.Prelude.{◌≡◌, [], vec_capacity};
    ghost use Rattle.collector_marks.specs.Kept.{blocks_marked};
    ghost use Rattle.collector_steps.specs.Steady.{IsSteady};

    ghost view = { λ a. record {
      marks = a.marks;
      rescues = a.rescues;
      phase = a.phase;
      steps = a.steps;
      added = a.added;
    } };

    ghost invariant = { λ a. (a.condemned.items ≡ [])
        × IsSteady a.phase (blocks_marked a.marks) (vec_capacity a.condemned) };
}

impl Collector {
    /// Makes a collector by which no collection runs, for a volume of `blocks` blocks.
    pub fn new(alloc: Global, blocks: u32) -> Result<Collector, NoMemory>
        requires { 0 < blocks }
        ensures phase { IfOk result (λ k. k.phase ≡ Phase.Idle) }
        ensures volume { IfOk result (λ k. volume_of k ≡ blocks) }
        ensures waiting { IfOk result (λ k. waiting_in k ≡ []) }
    {
        Ok(Collector {
            marks: Marks::new(alloc, blocks)?,
            rescues: Rescues::new(alloc),
            condemned: Vec::new(alloc),
            phase: Phase::Idle,
            steps: 0,
            added: 0,
            alloc,
        })
    }

    /// Begins a collection, in which only the objects `roots` are marked: the root and each that is open.
    ///
    /// Makes room for all that may be condemned.
    pub fn begin(&mut self, roots: &[Puid], directory: &Directory) -> Result<(), NoMemory>
        requires phase { self.old.phase ≡ Phase.Idle }
        requires blocks { directory.now.room ≤ volume_of self.old }
        ensures begun { OnOk result (colours_in self.new ≡ all_shaded directory.now.named roots.now none_marked) }
        ensures waiting { OnOk result (waiting_in self.new ≡ []) }
        ensures phase { OnOk result (self.new.phase ≡ Phase.Marking) }
        ensures counts { OnOk result ((self.new.steps ≡ 1) × (self.new.added ≡ 0)) }
        ensures volume { volume_of self.new ≡ volume_of self.old }
        // On any disk this many steps bring it to its end, if nothing is rescued.
        ensures left { OnOk result (steps_left self.new < most_steps (volume_of self.new)) }
        ensures same { OnErr result (IsAsBefore self.old self.new) }
        // The leaves of the objects and their drafts are no more than the blocks.
        ensures keeps { (seed : ℕ) (s t : State) (image : Image) → IsState s → directory.now.named ≡ kinds_of s.graph
            → ((x : Puid) → is_among x roots.now ≡ is_among x (starts_now s)) → next seed s events.Began ≡ Some t
            → unread t none_marked ≤ volume_of self.old → OnOk result (Collects image t self.new) }
    {
        puid_space::laws::kinds_follow_the_graph();
        puid_space::laws::directories_are_listings(directory);
        self.condemned.reserve(self.marks.blocks())?;
        self.marks.clear();
        self.rescues.clear();
        self.phase = Phase::Marking;
        self.steps = 1;
        self.added = 0;
        shade_all(&mut self.marks, directory, roots);
        Ok(())
    }

    /// Makes room for one rescue.
    pub fn reserve(&mut self) -> Result<(), NoMemory>
        ensures room { OnOk result (0 < self.new.rescues.room) }
        ensures same { IsAsBefore self.old self.new }
    {
        self.rescues.reserve()
    }

    /// Adds a rescue. Takes no memory.
    ///
    /// It is an object that was put into an index, or one that was opened, if `index` is `None`.
    pub fn rescue(&mut self, index: Option<Puid>, id: Puid)
        requires { 0 < self.old.rescues.room }
        ensures waiting { waiting_in self.new ≡ waiting_in self.old ++ record { index = index; id = id } ∷ [] }
        ensures marks { self.new.marks ≡ self.old.marks }
        ensures phase { self.new.phase ≡ self.old.phase }
        ensures steps { self.new.steps ≡ self.old.steps }
        ensures added { self.new.added ≡ count_after self.old.added }
    {
        self.rescues.push(Rescue { index, id });
        self.added = self.added.saturating_add(1);
    }

    /// Removes the oldest rescue, and shades its object if it has no index or its index is marked. Takes no memory.
    pub fn take(&mut self, directory: &Directory)
        requires phase { self.old.phase ≡ Phase.Marking }
        requires waits { ¬ (waiting_in self.old ≡ []) }
        requires blocks { directory.now.room ≤ volume_of self.old }
        ensures taken { (r : memory.Rescue) (rest : List memory.Rescue) → waiting_in self.old ≡ r ∷ rest
            → (waiting_in self.new ≡ rest)
            × (colours_in self.new ≡ rescued directory.now.named r (colours_in self.old)) }
        ensures phase { self.new.phase ≡ self.old.phase }
        ensures steps { self.new.steps ≡ count_after self.old.steps }
        ensures added { self.new.added ≡ self.old.added }
        ensures volume { volume_of self.new ≡ volume_of self.old }
        ensures less { steps_left self.new < steps_left self.old }
        ensures keeps { (s : State) (image : Image) → IsState s → directory.now.named ≡ kinds_of s.graph
            → Collects image s self.old → Collects image s self.new }
    {
        puid_space::laws::kinds_follow_the_graph();
        puid_space::laws::directories_are_listings(directory);
        let Some(rescue) = self.rescues.take() else {
            unreachable!();
        };
        self.steps = self.steps.saturating_add(1);
        shade_rescued(&mut self.marks, directory, rescue);
    }

    /// Ends the collection.
    pub fn end(&mut self)
        requires { self.old.phase ≡ Phase.Swept }
        ensures phase { self.new.phase ≡ Phase.Idle }
        ensures steps { self.new.steps ≡ count_after self.old.steps }
        ensures added { self.new.added ≡ self.old.added }
        ensures marks { self.new.marks ≡ self.old.marks }
        ensures waiting { waiting_in self.new ≡ waiting_in self.old }
        ensures less { steps_left self.new < steps_left self.old }
        ensures bounded { (s : State) (image : Image) → Collects image s self.old → self.old.added < 2 ^ 64 - 1
            → self.new.steps ≤ 2 * volume_of self.old + 2 * self.old.added + 2 * (volume_of self.old / 64) + 3 }
    {
        self.phase = Phase::Idle;
        self.steps = self.steps.saturating_add(1);
    }

    /// Returns the phase of the collection.
    pub fn phase(&self) -> Phase
        ensures { result ≡ self.now.phase }
    {
        self.phase
    }

    /// Returns whether a rescue waits.
    pub fn has_rescue(&self) -> bool
        ensures { IsTrue result ↔ ¬ (waiting_in self.now ≡ []) }
    {
        !self.rescues.is_empty()
    }

    /// Returns whether an index is grey.
    pub fn has_grey(&self) -> bool
        ensures { IsTrue result ↔ ¬ (self.now.marks.grey ≡ []) }
    {
        self.marks.next_grey().is_some()
    }

    /// Returns the first grey index, or `None` if none is grey.
    pub fn next_index(&self) -> Option<Puid>
        ensures { result ≡ option_map (λ e. e.id) (first_grey (colours_in self.now)) }
    {
        let first = self.marks.next_grey()?;
        Some(first.id)
    }

    /// Records that the draft of this index ended.
    ///
    /// If it was being read, the reading goes on at the index's own first leaf. It goes through all grey indices.
    /// Takes no memory.
    pub fn draft_ended(&mut self, id: Puid)
        ensures ended { colours_in self.new ≡ draft_over id (colours_in self.old) }
        ensures waiting { self.new.rescues ≡ self.old.rescues }
        ensures phase { self.new.phase ≡ self.old.phase }
        ensures steps { self.new.steps ≡ self.old.steps }
        ensures added { self.new.added ≡ self.old.added }
        ensures volume { volume_of self.new ≡ volume_of self.old }
        // On any disk this leaves no more steps than before.
        ensures left { steps_left self.new ≤ steps_left self.old }
        ensures keeps { (s : State) (image : Image) → draft_at s.grants id ≡ None → Collects image s self.old
            → Collects image s self.new }
    {
        let Some(cursor) = self.marks.cursor_of(id) else {
            return;
        };
        if cursor >= OWN_PART {
            return;
        }
        self.marks.set_cursor(id, OWN_PART);
    }
}
