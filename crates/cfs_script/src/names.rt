//! What a session's names are bound to.
ghost use Rattle.std.specs.Prelude.{◌≡◌, ◌+◌, ◌<◌, ◌≤◌, OnOk};
ghost use Rattle.ufs_model.specs.Names.{bind, no_names};

use crate::name::Name;
use cfs_base::{NoMemory, Puid};
use std::alloc::Global;
use std::collections::HashMap;
use std::marker::Model;
use ufs_model::Bound;

/// The root, what each name is bound to, and room for new names.
#[derive(Drop)]
pub struct Names {
    root: Puid,
    bound: HashMap<Vec<u8>, Bound>,
}

impl Model for Names {
    ghost use Rattle.std.specs.Prelude.{map};
    ghost use Rattle.std.specs.HashMap.{spare};
    ghost use Rattle.cfs_script.specs.NameTable.{NameTable};

    ghost Value = { NameTable };

    ghost view = { λ a. record {
      root = a.root;
      entries = map (λ e. (e.0.items, e.1)) a.bound.entries;
      room = spare a.bound;
    } };
}

impl Names {
    ghost use Rattle.cfs_script.specs.NameTable.{names_of};

    /// Makes the names of a session that begins. Takes no memory.
    pub fn new(alloc: Global, root: Puid) -> Names
        ensures { names_of result ≡ no_names root }
    {
        Names {
            root,
            bound: HashMap::new(alloc),
        }
    }

    /// Makes room for one name. What names are bound to stays.
    pub fn reserve(&mut self) -> Result<(), NoMemory>
        ensures ok { OnOk result (0 < self.new.room) }
        ensures names { names_of self.new ≡ names_of self.old }
        ensures room { self.old.room ≤ self.new.room }
    {
        self.bound.reserve(1)?;
        Ok(())
    }

    /// Binds the name to `to`, whatever it was bound to. Takes no memory.
    pub fn bind(&mut self, name: Name, to: Bound)
        requires { 0 < self.old.room }
        ensures names { names_of self.new ≡ bind (names_of self.old) name to }
        ensures room { self.old.room ≤ self.new.room + 1 }
    {
        let _ = self.bound.insert(name.into_vec(), to);
    }

    /// Returns the root of the graph.
    pub fn root(&self) -> Puid
        ensures { result ≡ (names_of self.now).root }
    {
        self.root
    }

    /// Returns what the name is bound to.
    pub fn find(&self, name: &[u8]) -> Option<Bound>
        ensures { result ≡ (names_of self.now).bound name.now }
    {
        self.bound.get(name).copied()
    }
}
