//! What may vanish, and what must, by the definitions.
ghost use Rattle.std.specs.Prelude.{◌<◌};

use crate::graph::{Edges, OBJECTS, Object, Set, World};
use cfs_base::Puid;

/// Returns the objects of a list, if it names them in increasing order and nothing else.
pub fn objects_in(ids: &[Puid]) -> Option<Set> {
    let mut set = [false; OBJECTS];
    let mut found = 0;
    for number in 0..OBJECTS {
        if ids.get(found) == Some(&Object { number }.id()) {
            set[number] = true;
            found = usize::saturating_add(found, 1);
        }
    }
    (found == ids.len()).then_some(set)
}

/// Returns what is reached from these objects.
///
/// All that was reached and all that its slots hold is added, as many times as there are objects.
fn reached(starts: &Set, edges: &Edges) -> Set {
    let mut found = *starts;
    for _ in 0..OBJECTS {
        for index in 0..OBJECTS {
            for id in 0..OBJECTS {
                if found[index] && edges[index][id] {
                    found[id] = true;
                }
            }
        }
    }
    found
}

/// Returns what is wrong with the objects that were taken, if anything is.
pub fn fault(world: &World, taken: &Set) -> Option<&'static str> {
    let edges = world.edges_now();
    let kept = reached(&world.starts_now(), &edges);
    let found = reached(&world.starts, &world.edges);
    for id in 0..OBJECTS {
        let is_there = world.kinds[id].is_some();
        if taken[id] && !is_there {
            return Some("an object is taken that isn't there");
        }
        if taken[id] && kept[id] {
            return Some("an object is taken that is kept");
        }
        if is_there && !taken[id] && !found[id] {
            return Some("an object remains that was cut off throughout");
        }
        if taken[id] && is_referred_to(&edges, taken, id) {
            return Some("an object is taken to which one refers that remains");
        }
    }
    None
}

/// Returns whether an index that remains refers to an object.
fn is_referred_to(edges: &Edges, taken: &Set, id: usize) -> bool
    requires { id < 4 }
{
    for index in 0..OBJECTS {
        if edges[index][id] && !taken[index] {
            return true;
        }
    }
    false
}
