//! What was put into an index or opened while a collection marks.
ghost use Rattle.std.specs.Prelude.{◌≡◌, ◌+◌, ◌<◌, ◌≤◌, ◌↔◌, [], ◌∷◌, ◌++◌, drop, slice_get, IsTrue, OnOk};

use cfs_base::NoMemory;
use marking::Rescue;
use std::alloc::Global;
use std::collections::VecDeque;
use std::marker::Model;

/// Rescues, the oldest first. Clauses see their list, and for how many more there is room.
#[derive(Debug, Drop)]
pub struct Rescues {
    waiting: VecDeque<Rescue>,
}

impl Model for Rescues {
    ghost use Rattle.collector_marks.specs.Kept.{Waiting};

    ghost Value = { Waiting };

    ghost use Rattle.std.specs.Prelude.{◌-◌};
    ghost use Rattle.std.specs.VecDeque.{deque_len, deque_capacity};

    ghost view = { λ a. record { list = a.waiting.items; room = deque_capacity a.waiting - deque_len a.waiting } };
}

impl Rescues {
    /// Makes a list of no rescues. Takes no memory.
    pub fn new(alloc: Global) -> Rescues
        ensures { result.list ≡ [] }
    {
        Rescues {
            waiting: VecDeque::new(alloc),
        }
    }

    /// Makes room for one more rescue.
    pub fn reserve(&mut self) -> Result<(), NoMemory>
        ensures room { OnOk result (0 < self.new.room) }
        ensures same { self.new.list ≡ self.old.list }
    {
        self.waiting.reserve(1)?;
        Ok(())
    }

    /// Adds a rescue, which is then the youngest. Takes no memory.
    pub fn push(&mut self, rescue: Rescue)
        requires { 0 < self.old.room }
        ensures pushed { self.new.list ≡ self.old.list ++ rescue ∷ [] }
        ensures room { self.old.room ≤ self.new.room + 1 }
    {
        self.waiting.push_back_reserved(rescue);
    }

    /// Removes the oldest rescue and returns it, or `None` if none waits.
    pub fn take(&mut self) -> Option<Rescue>
        ensures taken { result ≡ slice_get self.old.list 0 }
        ensures rest { self.new.list ≡ drop 1 self.old.list }
        ensures room { self.old.room ≤ self.new.room }
    {
        self.waiting.pop_front()
    }

    /// Removes all rescues. Takes no memory.
    pub fn clear(&mut self)
        ensures none { self.new.list ≡ [] }
        ensures room { self.old.room ≤ self.new.room }
    {
        self.waiting.clear();
    }

    /// Returns whether no rescue waits.
    pub fn is_empty(&self) -> bool
        ensures { IsTrue result ↔ (self.now.list ≡ []) }
    {
        self.waiting.is_empty()
    }
}
