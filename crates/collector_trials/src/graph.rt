//! Small graphs, what is asked of them, and what the definitions remember of a collection.
ghost use Rattle.std.specs.Prelude.{◌<◌};

use cfs_base::{Kind, Puid};

/// How many objects a graph has at most.
pub const OBJECTS: usize = 4;

/// How many slots are tried of all indices.
///
/// They are the first two of the root index, and of each other index the first slot of its first two leaves.
pub const SLOTS: usize = 8;

/// An object by its number. The root index is 0.
#[derive(Clone, Copy)]
pub struct Object {
    pub number: usize,
    ghost small: { number < 4 },
}

/// A slot that is tried, by its number: 0 and 1 are of the root index, 2 and 3 of object 1, and so on.
#[derive(Clone, Copy)]
pub struct Slot {
    pub number: usize,
    ghost small: { number < 8 },
}

/// What is asked while a collection runs.
#[derive(Clone, Copy)]
pub enum Request {
    Retain { slot: Slot, id: Object },
    Delete { slot: Slot },
    Open { id: Object },
    Close { id: Object },
}

/// Objects.
pub type Set = [bool; OBJECTS];

/// From which object a slot leads to which.
pub type Edges = [Set; OBJECTS];

/// A graph, what is open, and what there was at any time since the collection began.
#[derive(Clone, Copy)]
pub struct World {
    /// The kind of each object of the graph.
    pub kinds: [Option<Kind>; OBJECTS],
    pub filled: [Option<Object>; SLOTS],
    /// Which slots were ever filled: their leaves are held.
    pub held: [bool; SLOTS],
    /// How many times each object is open.
    pub open: [u32; OBJECTS],
    pub edges: Edges,
    pub starts: Set,
}

impl Object {
    /// Returns the object's identifier.
    pub fn id(self) -> Puid {
        let number = self.number as u32;
        Puid {
            block: 2 + number,
            word: 7 + number,
        }
    }
}

impl Slot {
    /// Returns the index that has the slot.
    pub fn index(self) -> Object {
        Object {
            number: self.number / 2,
        }
    }
}

impl World {
    /// Begins a collection with what there is now.
    pub fn begin(&mut self) {
        self.edges = self.edges_now();
        self.starts = self.starts_now();
    }

    /// Returns the root index, and what is open.
    pub fn starts_now(&self) -> Set {
        let mut starts = [true, false, false, false];
        for n in 1..OBJECTS {
            starts[n] = self.open[n] > 0;
        }
        starts
    }

    /// Returns the edges that there are now.
    pub fn edges_now(&self) -> Edges {
        let mut edges = [[false; OBJECTS]; OBJECTS];
        for n in 0..SLOTS {
            if let Some(id) = self.filled[n] {
                edges[n / 2][id.number] = true;
            }
        }
        edges
    }

    /// Returns whether a request isn't refused: all that it names exists, and an index that is open isn't changed.
    pub fn allows(&self, request: Request) -> bool {
        match request {
            Request::Retain { slot, id } => self.has(slot.index())
                && self.has(id)
                && !self.is_open(slot.index()),
            Request::Delete { slot } => self.filled[slot.number].is_some()
                && !self.is_open(slot.index()),
            Request::Open { id } => self.has(id),
            Request::Close { id } => self.is_open(id),
        }
    }

    /// Makes the effect of a request.
    pub fn ask(&mut self, request: Request) {
        match request {
            Request::Retain { slot, id } => {
                self.edges[slot.index().number][id.number] = true;
                self.filled[slot.number] = Some(id);
                self.held[slot.number] = true;
            }
            Request::Delete { slot } => self.filled[slot.number] = None,
            Request::Open { id } => {
                self.starts[id.number] = true;
                self.open[id.number] = self.open[id.number].saturating_add(1);
            }
            Request::Close { id } => self.open[id.number] = self.open[id.number].saturating_sub(1),
        }
    }

    /// Removes objects from the graph, with their slots and leaves.
    pub fn vanish(&mut self, taken: &Set) {
        for n in 0..SLOTS {
            if taken[n / 2] {
                self.kinds[n / 2] = None;
                self.filled[n] = None;
                self.held[n] = false;
            }
        }
    }

    fn has(&self, id: Object) -> bool {
        self.kinds[id.number].is_some()
    }

    fn is_open(&self, id: Object) -> bool {
        self.open[id.number] > 0
    }
}
