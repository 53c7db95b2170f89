//! The list of events with their moments.
ghost use Rattle.std.specs.Prelude.{◌≡◌, ◌+◌, ◌<◌, ◌≤◌, [], ◌∷◌, ◌++◌, length, slice_get, Some, IsOk, OnOk, OnErr};

use cfs_base::NoMemory;
use std::alloc::Global;
use std::marker::Model;
use ufs_model::Event;

/// An event, and the disk's moment when it was recorded.
#[derive(Debug, Drop)]
struct Entry {
    event: Event,
    moment: u64,
}

/// The events of a run in their order, each with the disk's moment when it was recorded.
#[derive(Debug, Drop)]
pub struct Trail {
    entries: Vec<Entry>,
}

impl Model for Trail {
    ghost use Rattle.cfs_trail.specs.Trail.{Recorded};

    ghost Value = { Recorded };

    ghost use Rattle.std.specs.Prelude.{◌-◌, map, vec_len, vec_capacity};

    ghost view = { λ t. record {
      events = map (λ e. e.event) t.entries.items;
      moments = map (λ e. e.moment) t.entries.items;
      room = vec_capacity t.entries - vec_len t.entries;
    } };
}

impl Trail {
    /// Makes a trail of no events. Takes no memory.
    pub fn new(alloc: Global) -> Trail
        ensures { result ≡ record { events = []; moments = []; room = 0 } }
    {
        Trail {
            entries: Vec::new(alloc),
        }
    }

    /// Returns the number of events. Each has its moment.
    pub fn len(&self) -> u64
        ensures events { result ≡ length self.now.events }
        ensures moments { result ≡ length self.now.moments }
    {
        self.entries.len() as u64
    }

    /// Returns the event at a place. Places are counted from 0.
    pub fn event(&self, at: u64) -> &Event
        requires { at < length self.now.events }
        ensures { slice_get self.now.events at ≡ Some result.now }
    {
        &self.entries[at as usize].event
    }

    /// Returns the moment at which the event at a place was recorded.
    pub fn moment(&self, at: u64) -> u64
        requires { at < length self.now.events }
        ensures { slice_get self.now.moments at ≡ Some result }
    {
        self.entries[at as usize].moment
    }

    /// Makes room for `more` events. On an error nothing is changed.
    pub fn reserve(&mut self, more: u64) -> Result<(), NoMemory>
        ensures room { OnOk result (more ≤ self.new.room) }
        ensures events { self.new.events ≡ self.old.events }
        ensures moments { self.new.moments ≡ self.old.moments }
        ensures kept { self.old.room ≤ self.new.room }
        ensures roomy { more ≤ self.old.room → IsOk result }
        ensures err { OnErr result (self.new ≡ self.old) }
    {
        self.entries.reserve(more as usize)?;
        Ok(())
    }

    /// Records an event with the disk's moment. Takes no memory.
    pub fn push(&mut self, event: Event, moment: u64)
        requires { 0 < self.old.room }
        ensures events { self.new.events ≡ self.old.events ++ event ∷ [] }
        ensures moments { self.new.moments ≡ self.old.moments ++ moment ∷ [] }
        ensures room { self.new.room + 1 ≡ self.old.room }
    {
        self.entries.push_reserved(Entry { event, moment });
    }
}
