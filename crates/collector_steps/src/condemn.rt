//! What a collection condemns.
ghost use Rattle.std.specs.Prelude.{◌≡◌, ℕ, ◌+◌, ◌<◌, ◌≤◌, List, [], ◌++◌, length, vec_capacity, vec_len, Some};
ghost use Rattle.std.specs.Map.{keys_of};
ghost use Rattle.cfs_base.specs.Disk.{Image};
ghost use Rattle.cfs_base.specs.Outside.{count_after};
ghost use Rattle.collector_marks.specs.Kept.{colours_of};
ghost use Rattle.collector_steps.specs.Collecting.{Collects, colours_in, volume_of, waiting_in};
ghost use Rattle.collector_steps.specs.Left.{steps_left};
ghost use Rattle.collector_steps.specs.declared.phase.Phase.TheVariants as phases;
ghost use Rattle.marking.specs.Steps.{unmarked};
ghost use Rattle.puid_space.specs.Directory.{kept_by, taken_by};
ghost use Rattle.puid_space.specs.Kinds.{kinds_of};
ghost use Rattle.ufs_model.specs.Next.{next};
ghost use Rattle.ufs_model.specs.State.{State};
ghost use Rattle.ufs_model.specs.Vanish.{MayVanish};
ghost use Rattle.ufs_model.specs.WellFormed.{IsState};
ghost use Rattle.ufs_model.specs.declared.asked.Event.TheVariants as events;
ghost use Rattle.vol_image.specs.Sound.{graph_blocks};

use crate::collector::Collector;
use crate::phase::Phase;
use cfs_base::{Ids, Puid};
use collector_marks::Marks;
use puid_space::Directory;
use std::mem;

/// Removes what isn't marked from a directory, and appends it to a list that has room for it. Takes no memory.
fn take_unmarked(marks: &Marks, directory: &mut Directory, gone: &mut Vec<Puid>)
    requires { vec_len gone.old + length directory.old.named ≤ vec_capacity gone.old }
    ensures named { directory.new.named ≡ kept_by (colours_of marks.now).marked directory.old.named }
    ensures gone { gone.new.items ≡ gone.old.items ++ taken_by (colours_of marks.now).marked directory.old.named }
    ensures room { directory.new.room ≡ directory.old.room }
    ensures capacity { vec_capacity gone.new ≡ vec_capacity gone.old }
{
    directory.take_unless(|block| marks.is_marked(block), gone);
}

impl Collector {
    /// Removes what isn't marked from the directory, all at once, and returns it in increasing order.
    ///
    /// Nothing is left to read or to take. Takes no memory.
    pub fn condemn(&mut self, directory: &mut Directory) -> Ids
        requires phase { self.old.phase ≡ Phase.Marking }
        requires read { self.old.marks.grey ≡ [] }
        requires taken { waiting_in self.old ≡ [] }
        requires blocks { directory.old.room ≤ volume_of self.old }
        ensures ids { result ≡ unmarked (colours_in self.old) (keys_of directory.old.named) }
        ensures named { directory.new.named ≡ kept_by (colours_in self.old).marked directory.old.named }
        ensures room { directory.new.room ≡ directory.old.room }
        ensures phase { self.new.phase ≡ phases.Inner 0 }
        ensures steps { self.new.steps ≡ count_after self.old.steps }
        ensures added { self.new.added ≡ self.old.added }
        ensures waiting { waiting_in self.new ≡ waiting_in self.old }
        ensures volume { volume_of self.new ≡ volume_of self.old }
        ensures less { steps_left self.new < steps_left self.old }
        ensures legal { (s : State) (image : Image) → IsState s → directory.old.named ≡ kinds_of s.graph
            → Collects image s self.old → MayVanish s result }
        ensures keeps { (seed : ℕ) (s t : State) (a b : Image) → directory.old.named ≡ kinds_of s.graph
            → Collects a s self.old → graph_blocks s.graph ≤ volume_of self.old
            → next seed s (events.Vanish result) ≡ Some t → Collects b t self.new }
        ensures left { (seed : ℕ) (s t : State) → directory.old.named ≡ kinds_of s.graph
            → next seed s (events.Vanish result) ≡ Some t → directory.new.named ≡ kinds_of t.graph }
    {
        puid_space::laws::kinds_follow_the_graph();
        puid_space::laws::taken_are_left_out();
        puid_space::laws::directories_are_listings(directory);
        let mut gone = mem::replace(&mut self.condemned, Vec::new(self.alloc));
        take_unmarked(&self.marks, directory, &mut gone);
        self.phase = Phase::Inner { cylinder: 0 };
        self.steps = self.steps.saturating_add(1);
        Ids::new(gone)
    }
}
