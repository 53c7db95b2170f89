//! Sets of identifiers, and what is reached through what a collection has seen.
ghost use Rattle.std.specs.Prelude.{◌≡◌, ◌↔◌, IfOk, true};
ghost use Rattle.cfs_base.specs.declared.identifier.Puid.{Puid};
ghost use Rattle.ufs_model.specs.Followed.{IsReachedBy, IsSpread, leads_to};
ghost use Rattle.ufs_model.specs.Identifier.{is_among};

use crate::progress::Seen;
use cfs_base::{NoMemory, Puid};
use std::alloc::Global;
use std::collections::BTreeSet;

/// Returns the set of these identifiers.
pub fn set_of(alloc: Global, ids: &[Puid]) -> Result<BTreeSet<Puid>, NoMemory>
    ensures { IfOk result (λ set. (x : Puid) → is_among x set.keys ≡ is_among x ids.now) }
{
    let mut set = BTreeSet::new(alloc);
    'ids: for id in ids {
        set.insert(*id)?;
    }
    Ok(set)
}

/// Returns where this leads from what is reached, if it leads anywhere.
fn leads_to(seen: Seen, reached: &BTreeSet<Puid>) -> Option<Puid>
    ensures { result ≡ leads_to reached.now.keys seen }
{
    match seen {
        Seen::Edge(index, id) => {
            if reached.contains(&index) {
                Some(id)
            } else {
                None
            }
        }
        Seen::Start(id) => Some(id),
    }
}

/// Adds what is reached by going once through all that was seen, and returns whether any of it was new.
fn spread(seen: &[Seen], reached: &mut BTreeSet<Puid>) -> Result<bool, NoMemory>
    ensures { IfOk result (λ grew. IsSpread seen.now seen.now reached.old.keys reached.new.keys grew) }
{
    let mut grew = false;
    'seen: for one in seen {
        if let Some(id) = leads_to(*one, reached) {
            if reached.insert(id)? {
                grew = true;
            }
        }
    }
    Ok(grew)
}

/// Returns what is reached from the starts that were seen, through the edges that were seen.
pub fn reached_in(alloc: Global, seen: &[Seen]) -> Result<BTreeSet<Puid>, NoMemory>
    ensures { IfOk result (λ set. (x : Puid) → ((is_among x set.keys ≡ true) ↔ IsReachedBy seen.now x)) }
{
    let mut reached = BTreeSet::new(alloc);
    'rounds: while spread(seen, &mut reached)? {}
    Ok(reached)
}
