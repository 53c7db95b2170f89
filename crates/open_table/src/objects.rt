//! How each object is open.
ghost use Rattle.std.specs.Prelude.{◌≡◌, ℕ, ◌<◌, ◌≤◌, ◌+◌, Some, None, IsOk, OnOk, if◌then◌else◌};
ghost use Rattle.std.specs.HashMap.{spare};
ghost use Rattle.cfs_base.specs.declared.identifier.Puid.{Puid};
ghost use Rattle.ufs_model.specs.Identifier.{same_puid};
ghost use Rattle.open_table.specs.Parts.{mode_at};

use cfs_base::{Mode, NoMemory, Puid};
use std::alloc::Global;
use std::collections::HashMap;

/// The mode of each object that is open.
#[derive(Drop)]
pub struct Objects {
    /// The modes, by the block and the word of the object's identifier.
    pub modes: HashMap<(u32, u32), Mode>,
}

impl Objects {
    /// Makes a table in which no object is open. Takes no memory.
    pub fn new(alloc: Global) -> Objects
        ensures { (q : Puid) → mode_at result.modes q ≡ None }
    {
        Objects {
            modes: HashMap::new(alloc),
        }
    }

    /// Makes room for one more object.
    pub fn reserve(&mut self) -> Result<(), NoMemory>
        ensures modes { (q : Puid) → mode_at self.new.modes q ≡ mode_at self.old.modes q }
        ensures room { OnOk result (0 < spare self.new.modes) }
        ensures kept { spare self.old.modes ≤ spare self.new.modes }
        ensures roomy { 0 < spare self.old.modes → IsOk result }
    {
        self.modes.reserve(1)?;
        Ok(())
    }

    /// Returns how an object is open.
    pub fn mode_on(&self, id: Puid) -> Option<Mode>
        ensures { result ≡ mode_at self.now.modes id }
    {
        self.modes.get(&(id.block, id.word)).copied()
    }

    /// Records that an object is open. Takes no memory.
    pub fn open(&mut self, id: Puid, mode: Mode)
        requires { 0 < spare self.old.modes }
        ensures { (q : Puid) → mode_at self.new.modes q
            ≡ (if same_puid q id then Some mode else mode_at self.old.modes q) }
    {
        let _ = self.modes.insert((id.block, id.word), mode);
    }

    /// Records that an object isn't open any more. Takes no memory.
    pub fn close(&mut self, id: Puid)
        ensures modes { (q : Puid) → mode_at self.new.modes q
            ≡ (if same_puid q id then None else mode_at self.old.modes q) }
        ensures kept { spare self.old.modes ≤ spare self.new.modes }
    {
        self.modes.remove(&(id.block, id.word));
    }
}
