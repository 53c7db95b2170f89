//! Marked objects, and grey indices.
ghost use Rattle.std.specs.Prelude.{◌≡◌, ◌<◌, reverse, IfOk, IfSome, Some, None};
ghost use Rattle.collector_marks.specs.Kept.{blocks_marked, colours_of, place_among};
ghost use Rattle.marking.specs.Colours.{cursor_of, first_grey, is_index, moved, none_marked, shaded, with_cursor};

use crate::bits::Bits;
use cfs_base::{Kind, NoMemory, Puid};
use marking::Grey;
use std::alloc::Global;
use std::marker::Model;

/// The marked objects by their root blocks, and the grey indices.
///
/// There is room for as many grey indices as the volume has blocks. Clauses see the set, the list, and the number of
/// blocks of the volume.
#[derive(Debug, Drop)]
pub struct Marks {
    /// For each block of the volume, whether the object with this root block is marked.
    marked: Bits,
    /// The grey indices, the first in the last place.
    grey: Vec<Grey>,
}

impl Model for Marks {
    ghost use Rattle.std.specs.Prelude.{reverse};
    ghost use Rattle.collector_marks.specs.Kept.{Marked};

    ghost Value = { Marked };

    ghost view = { λ a. record { marks = a.marked; grey = reverse a.grey.items } };

    ghost use Rattle.std.specs.Prelude.{◌<◌, ◌≤◌, All, length, vec_capacity, vec_len};
    ghost use Rattle.collector_marks.specs.Kept.{count_marked};

    // Each is an object of the volume, and there are no more of them than are marked.
    ghost invariant = { λ a. All (λ e. e.id.block < length a.marked) a.grey.items
        × (vec_len a.grey ≤ count_marked a.marked) × (length a.marked ≤ vec_capacity a.grey) };
}

fn is_index(kind: Kind) -> bool
    ensures { result ≡ is_index kind }
{
    match kind {
        Kind::Index => true,
        Kind::Normal | Kind::Special => false,
    }
}

/// Returns the place of the last entry of this index, or `None` if there is none.
fn place_in(grey: &[Grey], id: Puid) -> Option<usize>
    ensures { result ≡ place_among (reverse grey.now) id }
{
    let mut place = None;
    for at in 0..grey.len() {
        if id == grey[at].id {
            place = Some(at);
        }
    }
    place
}

impl Marks {
    /// Makes marks by which nothing is marked, for a volume of `blocks` blocks. All memory is taken here.
    pub fn new(alloc: Global, blocks: u32) -> Result<Marks, NoMemory>
        ensures none { IfOk result (λ marks. colours_of marks ≡ none_marked) }
        ensures blocks { IfOk result (λ marks. blocks_marked marks ≡ blocks) }
    {
        let marked = Bits::new(alloc, blocks)?;
        let grey = Vec::with_capacity(alloc, blocks as usize)?;
        Ok(Marks { marked, grey })
    }

    /// Clears all marks.
    pub fn clear(&mut self)
        ensures none { colours_of self.new ≡ none_marked }
        ensures blocks { blocks_marked self.new ≡ blocks_marked self.old }
    {
        self.marked.clear();
        self.grey.clear();
    }

    /// Marks an object, and makes it the first grey index if it is an index.
    ///
    /// Does nothing if it is marked. Takes no memory.
    pub fn shade(&mut self, id: Puid, kind: Kind)
        requires { id.block < blocks_marked self.old }
        ensures shaded { colours_of self.new ≡ shaded id kind (colours_of self.old) }
        ensures blocks { blocks_marked self.new ≡ blocks_marked self.old }
    {
        let was_marked = self.marked.put(id.block);
        if !was_marked && is_index(kind) {
            self.grey.push_reserved(Grey { id, cursor: 0 });
        }
    }

    /// Returns whether the object with this root block is marked.
    ///
    /// It is false for a block past the volume's end.
    pub fn is_marked(&self, block: u32) -> bool
        ensures { result ≡ (colours_of self.now).marked block }
    {
        self.marked.has(block)
    }

    /// Returns the number of blocks of the volume.
    pub fn blocks(&self) -> usize
        ensures { result ≡ blocks_marked self.now }
    {
        self.marked.len()
    }

    /// Returns the first grey index, or `None` if none is grey.
    pub fn next_grey(&self) -> Option<Grey>
        ensures first { result ≡ first_grey (colours_of self.now) }
        ensures inside { IfSome result (λ e. e.id.block < blocks_marked self.now) }
    {
        self.grey.last().copied()
    }

    /// Moves the cursor of the first grey index.
    ///
    /// Does nothing if none is grey. Takes no memory.
    pub fn advance(&mut self, cursor: u32)
        ensures moved { colours_of self.new ≡ moved (Some cursor) (colours_of self.old) }
        ensures blocks { blocks_marked self.new ≡ blocks_marked self.old }
    {
        if let Some(first) = self.grey.pop() {
            self.grey.push_reserved(Grey {
                id: first.id,
                cursor,
            });
        }
    }

    /// Makes the first grey index grey no more.
    ///
    /// Does nothing if none is grey. Takes no memory.
    pub fn finish_grey(&mut self)
        ensures moved { colours_of self.new ≡ moved None (colours_of self.old) }
        ensures blocks { blocks_marked self.new ≡ blocks_marked self.old }
    {
        let _ = self.grey.pop();
    }

    /// Returns how far this index was read, or `None` if it isn't grey.
    ///
    /// It goes through all grey indices.
    pub fn cursor_of(&self, id: Puid) -> Option<u32>
        ensures { result ≡ cursor_of (colours_of self.now).grey id }
    {
        let Some(place) = place_in(self.grey.as_slice(), id) else {
            return None;
        };
        Some(self.grey[place].cursor)
    }

    /// Moves the cursor of this index.
    ///
    /// Does nothing if it isn't grey. It goes through all grey indices. Takes no memory.
    pub fn set_cursor(&mut self, id: Puid, cursor: u32)
        ensures moved { colours_of self.new ≡ with_cursor id cursor (colours_of self.old) }
        ensures blocks { blocks_marked self.new ≡ blocks_marked self.old }
    {
        let Some(place) = place_in(self.grey.as_slice(), id) else {
            return;
        };
        self.grey[place].cursor = cursor;
    }
}
