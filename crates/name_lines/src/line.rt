//! What lines ask.
ghost use Rattle.std.specs.Prelude.{◌≡◌, ◌≤◌, [], MatchOption, None, Some};
ghost use Rattle.name_dirs.specs.Making.{most_capacity};
ghost use Rattle.name_lines.specs.Spoken as spec;

use cfs_base::Puid;
use name_dirs::{MOST_CAPACITY, Text};
use std::alloc::Global;
use std::marker::Model;

/// Names that lead on from the directory in slot 0 of the root index.
#[derive(Debug, Drop)]
pub struct Pathname {
    names: Vec<Text>,
}

impl Model for Pathname {
    ghost use Rattle.std.specs.Prelude.{List, ℕ};

    ghost Value = { List (List ℕ) };

    ghost view = { λ a. a.names.items };
}

/// A name in the directory to which a path leads.
#[derive(Debug, Drop)]
pub struct NameAt {
    /// The path of the directory.
    pub above: Pathname,
    /// The name in it.
    pub name: Text,
}

/// The number of entries of a new directory: 1 to 4,095.
#[derive(Debug, Drop)]
pub struct Capacity {
    entries: u32,
}

impl Model for Capacity {
    ghost use Rattle.std.specs.Prelude.{ℕ, ◌≤◌};
    ghost use Rattle.name_dirs.specs.Making.{most_capacity};

    ghost Value = { ℕ };

    ghost view = { λ a. a.entries };

    ghost invariant = { λ a. (1 ≤ a.entries) × (a.entries ≤ most_capacity) };
}

/// What a line asks.
#[derive(Debug, Drop)]
pub enum Line {
    /// `mkdir / CAPACITY`: a directory in slot 0 of the root index.
    MakeTop { capacity: Capacity },
    /// `mkdir PATH CAPACITY`
    MakeDir { place: NameAt, capacity: Capacity },
    /// `bind PATH ID`
    Bind { place: NameAt, id: Puid },
    /// `look PATH`
    Look { place: NameAt },
    /// `unbind PATH`
    Unbind { place: NameAt },
    /// `list PATH`
    ListDir { path: Pathname },
}

impl Pathname {
    /// Makes the path of these names.
    pub fn new(names: Vec<Text>) -> Pathname
        ensures { result ≡ names.items }
    {
        Pathname { names }
    }

    /// Returns the names.
    pub fn as_slice(&self) -> &[Text]
        ensures { result.now ≡ self.now }
    {
        self.names.as_slice()
    }

    /// Returns the last name, in the directory to which the others lead, or `None` if there is none. Takes no memory.
    pub fn into_place(self) -> Option<NameAt>
        ensures { result ≡ spec.place_at self }
    {
        let Pathname { mut names } = self;
        let name = names.pop()?;
        Some(NameAt {
            above: Pathname { names },
            name,
        })
    }
}

impl Capacity {
    /// Returns the capacity of this number of entries, if it is 1 to 4,095.
    pub fn new(entries: u64) -> Option<Capacity>
        ensures { result ≡ spec.capacity_of entries }
    {
        if entries == 0 || entries > u64::from(MOST_CAPACITY) {
            return None;
        }
        Some(Capacity {
            entries: entries as u32,
        })
    }

    /// Returns the number of entries.
    pub fn get(&self) -> u32
        ensures value { result ≡ self.now }
        ensures some { 1 ≤ self.now }
        ensures few { self.now ≤ most_capacity }
    {
        self.entries
    }
}
