//! What is remembered of a collection.
ghost use Rattle.std.specs.Prelude.{◌≡◌};

use cfs_base::{Ids, Puid};
use std::marker::Model;

/// Pairs of an index and an object to which it refers or referred.
#[derive(Debug, Drop)]
pub struct Pairs {
    pairs: Vec<(Puid, Puid)>,
}

impl Model for Pairs {
    ghost use Rattle.std.specs.Prelude.{List};
    ghost use Rattle.cfs_base.specs.declared.identifier.Puid.{Puid};

    ghost Value = { List (Puid × Puid) };

    ghost view = { λ a. a.pairs.items };
}

impl Pairs {
    /// Makes the list of these pairs. Takes no memory.
    pub fn new(pairs: Vec<(Puid, Puid)>) -> Pairs
        ensures { result ≡ pairs.items }
    {
        Pairs { pairs }
    }

    /// Returns the pairs as a slice.
    pub fn as_slice(&self) -> &[(Puid, Puid)]
        ensures { result.now ≡ self.now }
    {
        self.pairs.as_slice()
    }
}

/// A collection: none, one that marks, or one that sweeps.
///
/// While it marks, `edges` has each entry that there was at any time since it began, and `starts` has the root and
/// each object that was open at any time since.
#[derive(Debug, Drop)]
pub enum Collection {
    /// No collection runs.
    None,
    /// A collection marks.
    Marking { edges: Pairs, starts: Ids },
    /// A collection sweeps.
    Sweeping,
}
