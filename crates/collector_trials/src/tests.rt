//! All small graphs, each with every request or two at every place of a collection.
use crate::graph::{OBJECTS, Object, Request, SLOTS, Slot, World};
use crate::run::{Asked, MANY, Outcome, run};
use crate::volume::Volume;
use cfs_base::{Block, Kind};
use std::alloc::Global;

/// What is tried: graphs with this number of objects, of which those in the mask are files, and of slots of each
/// index.
#[derive(Clone, Copy)]
struct Shape {
    objects: usize,
    files: u32,
    slots: usize,
}

impl Shape {
    /// Returns the kind of an object, or `None` if there is none.
    fn kind(self, object: Object) -> Option<Kind> {
        let number = object.number;
        if number >= self.objects {
            return None;
        }
        if number > 0 && self.files >> (number as u32 - 1) & 1 == 1 {
            return Some(Kind::Normal);
        }
        Some(Kind::Index)
    }

    /// Returns whether a slot is tried.
    fn tries(self, slot: Slot) -> bool {
        slot.number % 2 < self.slots && self.kind(slot.index()) == Some(Kind::Index)
    }

    /// Returns the graph with this number, in which nothing is open, or `None` past the last.
    fn graph(self, number: u64) -> Option<World> {
        let mut world = World {
            kinds: [None; OBJECTS],
            filled: [None; SLOTS],
            held: [false; SLOTS],
            open: [0; OBJECTS],
            edges: [[false; OBJECTS]; OBJECTS],
            starts: [false; OBJECTS],
        };
        for number in 0..OBJECTS {
            world.kinds[number] = self.kind(Object { number });
        }
        let choices = self.objects.min(OBJECTS) as u64 + 1;
        let mut rest = number;
        for number in 0..SLOTS {
            if self.tries(Slot { number }) {
                let choice = rest % choices;
                rest = rest / choices;
                if choice > 0 {
                    let id = Object {
                        number: choice as usize - 1,
                    };
                    world.ask(Request::Retain {
                        slot: Slot { number },
                        id,
                    });
                }
            }
        }
        (rest == 0).then_some(world)
    }

    /// Returns all that may be asked.
    fn requests(self, alloc: Global) -> Option<Vec<Request>> {
        let mut requests = Vec::new(alloc);
        for number in 0..OBJECTS {
            let id = Object { number };
            if self.kind(id).is_none() {
                continue;
            }
            for number in 0..SLOTS {
                let slot = Slot { number };
                if self.tries(slot) {
                    requests.push(Request::Retain { slot, id }).ok()?;
                }
            }
            requests.push(Request::Open { id }).ok()?;
            requests.push(Request::Close { id }).ok()?;
        }
        for number in 0..SLOTS {
            let slot = Slot { number };
            if self.tries(slot) {
                requests.push(Request::Delete { slot }).ok()?;
            }
        }
        Some(requests)
    }
}

const WANTING: &str = "memory is wanting";

/// A volume, and how much was tried on it.
#[derive(Drop)]
struct Trial {
    alloc: Global,
    volume: Volume,
    requests: Vec<Request>,
    /// How many requests are made in a run at most: one or two.
    most: u32,
    graphs: u64,
    runs: u64,
}

impl Trial {
    /// Runs from a world whose blocks these are, and returns how it ended, or what is wrong.
    fn run(
        &mut self,
        start: &World,
        blocks: &[Block],
        asked: &[Asked],
    ) -> Result<Outcome, &'static str> {
        let mut world = *start;
        self.volume.reset(self.alloc, blocks, start).ok_or(WANTING)?;
        let outcome = run(&mut self.volume, &mut world, asked).ok_or(WANTING)?;
        match outcome {
            Outcome::Wrong(fault) => return Err(fault),
            Outcome::Ended => self.runs = self.runs.saturating_add(1),
            Outcome::Goes | Outcome::Refused | Outcome::Past => {}
        }
        Ok(outcome)
    }

    /// Tries all graphs of a shape, each with the first objects beside the root open, for each number of them.
    fn all(&mut self, shape: Shape) -> Result<(), &'static str> {
        for number in 0..u64::MAX {
            let Some(world) = shape.graph(number) else {
                return Ok(());
            };
            self.graphs = self.graphs.saturating_add(1);
            self.opened(shape, world)?;
        }
        Ok(())
    }

    fn opened(&mut self, shape: Shape, graph: World) -> Result<(), &'static str> {
        let mut world = graph;
        for number in 0..OBJECTS {
            if shape.kind(Object { number }).is_none() {
                return Ok(());
            }
            if number > 0 {
                world.open[number] = 1;
            }
            self.started(&world)?;
        }
        Ok(())
    }

    /// Makes all runs from a world.
    fn started(&mut self, start: &World) -> Result<(), &'static str> {
        let blocks = self.volume.laid(self.alloc, start).ok_or(WANTING)?;
        self.run(start, &blocks, &[])?;
        self.from(start, &blocks)
    }

    /// Tries each request at each place, alone, and if there are to be two, also with each other one from there on.
    fn from(&mut self, start: &World, blocks: &[Block]) -> Result<(), &'static str> {
        for place in 0..MANY {
            for n in 0..self.requests.len() {
                let Some(first) = self.asked(place, n) else {
                    continue;
                };
                if !start.allows(first.request) {
                    continue;
                }
                match self.run(start, blocks, &[first])? {
                    Outcome::Past => return Ok(()),
                    Outcome::Ended if self.most == 2 => self.with(start, blocks, first)?,
                    _ => {}
                }
            }
        }
        Ok(())
    }

    fn asked(&self, place: u32, n: usize) -> Option<Asked> {
        let request = self.requests.get(n).copied()?;
        Some(Asked { place, request })
    }

    /// Tries a request with each other one at its place and at each place after it.
    fn with(&mut self, start: &World, blocks: &[Block], first: Asked) -> Result<(), &'static str> {
        for place in first.place..MANY {
            for n in 0..self.requests.len() {
                let Some(second) = self.asked(place, n) else {
                    continue;
                };
                if let Outcome::Past = self.run(start, blocks, &[first, second])? {
                    return Ok(());
                }
            }
        }
        Ok(())
    }
}

/// Returns how many graphs are tried, and in how many runs, with each choice of files.
fn tried(
    alloc: Global,
    objects: usize,
    files: u32,
    slots: usize,
    most: u32,
) -> Result<(u64, u64), &'static str> {
    let mut trial = Trial {
        alloc,
        volume: Volume::new(alloc).ok_or(WANTING)?,
        requests: Vec::new(alloc),
        most,
        graphs: 0,
        runs: 0,
    };
    for files in 0..files {
        let shape = Shape {
            objects,
            files,
            slots,
        };
        trial.requests = shape.requests(alloc).ok_or(WANTING)?;
        trial.all(shape)?;
    }
    Ok((trial.graphs, trial.runs))
}

#[test]
fn three_indices_of_two_slots_with_a_request(rt: HostRuntime) {
    assert_eq!(rt; tried(rt.alloc(), 3, 1, 2, 1), Ok((4096, 1_576_660)));
}

#[test]
fn four_objects_of_a_slot_with_a_request(rt: HostRuntime) {
    assert_eq!(rt; tried(rt.alloc(), 4, 8, 1, 1), Ok((1080, 385_389)));
}

#[test]
fn three_objects_of_a_slot_with_two_requests(rt: HostRuntime) {
    assert_eq!(rt; tried(rt.alloc(), 3, 4, 1, 2), Ok((100, 677_484)));
}

#[test]
fn two_indices_of_two_slots_with_two_requests(rt: HostRuntime) {
    assert_eq!(rt; tried(rt.alloc(), 2, 2, 2, 2), Ok((90, 412_868)));
}
