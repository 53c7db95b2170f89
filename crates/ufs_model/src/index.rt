//! Files and indices, made in memory.
ghost use Rattle.std.specs.Prelude.{◌≡◌, ◌<◌, Some, IfOk, None, unwrap_or, length};
ghost use Rattle.ufs_model.specs.Object.{new_file, new_index, filled, slot_of};

use crate::numbers::Numbers;
use crate::object::{Content, File, Index, Slots};
use cfs_base::{FileKind, Puid};
use std::alloc::{AllocError, Global};

impl Index {
    /// Makes an index of empty slots.
    pub fn of_slots(alloc: Global, slots: usize) -> Result<Index, AllocError>
        ensures { IfOk result (λ i. i ≡ new_index slots) }
    {
        let slots = vec![in alloc; None; slots]?;
        Ok(Index {
            slots: Slots::new(slots),
            held: Numbers::empty(alloc),
        })
    }

    /// Returns the number of slots.
    pub fn len(&self) -> u64
        ensures { result ≡ length self.now.slots }
    {
        self.slots.as_slice().len() as u64
    }

    /// Returns what the slot holds.
    pub fn slot(&self, slot: u64) -> Option<Puid>
        requires { slot < length self.now.slots }
        ensures { result ≡ slot_of self.now slot }
    {
        self.slots.as_slice()[slot as usize]
    }

    /// Puts `what` into the slot, whatever the slot held.
    pub fn put(&mut self, slot: u64, what: Option<Puid>, held: Option<Numbers>)
        requires slot { slot < length self.old.slots }
        requires held { unwrap_or held self.old.held ≡ (filled self.old slot what).held }
        ensures { self.new ≡ filled self.old slot what }
    {
        self.slots.set(slot as usize, what);
        if let Some(held) = held {
            self.held = held;
        }
    }
}

impl File {
    /// Makes a file of no bytes. Takes no memory.
    pub fn empty(alloc: Global, kind: FileKind, fill: u8) -> File
        ensures { result ≡ new_file kind fill }
    {
        File {
            kind,
            fill,
            bytes: Content::empty(alloc),
            held: Numbers::empty(alloc),
        }
    }
}
