//! One collection, with requests between its steps.
use crate::graph::{Request, World};
use crate::judge;
use crate::volume::{Made, Volume};

/// More steps than a small collection makes.
pub const MANY: u32 = 64;

/// A request after `place` steps of a collection that has begun.
#[derive(Clone, Copy)]
pub struct Asked {
    pub place: u32,
    pub request: Request,
}

/// How a run ended.
#[derive(Clone, Copy)]
pub enum Outcome {
    /// It goes on.
    Goes,
    /// A request was refused, so the run is another one's.
    Refused,
    /// The collection ended before the steps after which a request comes.
    Past,
    Ended,
    Wrong(&'static str),
}

/// Asks a request, unless it is refused. `None` for want of memory.
fn ask(volume: &mut Volume, world: &mut World, request: Request) -> Option<()> {
    world.ask(request);
    match request {
        Request::Retain { slot, id } => {
            volume.put(slot, Some(id))?;
            volume.rescue(Some(slot.index()), id)
        }
        Request::Delete { slot } => volume.put(slot, None),
        Request::Open { id } => volume.rescue(None, id),
        Request::Close { .. } => Some(()),
    }
}

/// Makes the requests of a place, and returns whether none was refused. `None` for want of memory.
fn ask_at(volume: &mut Volume, world: &mut World, asked: &[Asked], place: u32) -> Option<bool> {
    for at in asked {
        if at.place == place {
            if !world.allows(at.request) {
                return Some(false);
            }
            ask(volume, world, at.request)?;
        }
    }
    Some(true)
}

/// Makes a step of the collection. None for want of memory.
fn step(volume: &mut Volume, world: &mut World) -> Option<Outcome> {
    match volume.step()? {
        Made::Marked | Made::Swept => Some(Outcome::Goes),
        Made::Condemned(taken) => {
            let fault = judge::fault(world, &taken);
            world.vanish(&taken);
            Some(fault.map_or(Outcome::Goes, Outcome::Wrong))
        }
        Made::Disordered => Some(Outcome::Wrong("what is taken is no rising list of objects")),
        Made::Ended => Some(match volume.is_right(world)? {
            true => Outcome::Ended,
            false => Outcome::Wrong(
                "the map isn't that of the graph, or its Free blocks are counted otherwise",
            ),
        }),
    }
}

/// Runs a whole collection on a volume that holds the world's graph. `None` for want of memory.
pub fn run(volume: &mut Volume, world: &mut World, asked: &[Asked]) -> Option<Outcome> {
    world.begin();
    volume.begin(&world.starts)?;
    for place in 0..MANY {
        if !ask_at(volume, world, asked, place)? {
            return Some(Outcome::Refused);
        }
        match step(volume, world)? {
            Outcome::Goes => {}
            Outcome::Ended if asked.iter().any(|at| at.place > place) => return Some(Outcome::Past),
            outcome => return Some(outcome),
        }
    }
    Some(Outcome::Wrong("the collection doesn't end"))
}
