//! The identifiers of a volume's objects.
ghost use Rattle.std.specs.Prelude.{◌≡◌, ◌+◌, ◌<◌, ◌≤◌, [], ◌++◌, ℕ, Bool, false, max, length, is_some, IsTrue, IsOk};
ghost use Rattle.std.specs.Prelude.{OnOk, OnErr, slice_index_or, None, Some, vec_len, vec_capacity};
ghost use Rattle.cfs_base.specs.declared.identifier.Puid.{Puid};
ghost use Rattle.cfs_base.specs.declared.kind.Kind.{Kind};
ghost use Rattle.std.specs.BTreeMap.{insert_entry};
ghost use Rattle.ufs_model.specs.Identifier.{puid_cmp};
ghost use Rattle.puid_space.specs.Directory.{is_listing, directory_kind, has_root_in, without_id, first_in};
ghost use Rattle.puid_space.specs.Directory.{kept_by, taken_by, Computes};

use cfs_base::{Kind, NoMemory, Puid};
use std::alloc::Global;
use std::marker::Model;

/// An object, in the cell of its root block.
#[derive(Clone, Copy, Debug, PartialEq, Eq)]
struct Cell {
    word: u32,
    kind: Kind,
}

/// The identifiers of a volume's objects, each with the kind of its object.
///
/// No two have the same root block. A look-up takes the same time for any number of objects, and only `reserve` takes
/// memory.
#[derive(Debug, Drop)]
pub struct Directory {
    /// A cell for each block number that there is room for.
    cells: Vec<Option<Cell>>,
    len: u32,
}

impl Model for Directory {
    ghost use Rattle.puid_space.specs.Directory.{Listing};

    ghost Value = { Listing };

    ghost use Rattle.std.specs.Prelude.{vec_len};
    ghost use Rattle.puid_space.specs.Cells.{listed, IsTable};

    ghost view = { λ d. record { named = listed 0 d.cells.items; room = vec_len d.cells } };

    ghost invariant = { λ d. IsTable d.cells.items d.len };
}

impl Directory {
    /// Makes a directory of no identifiers, with room for none. Takes no memory.
    pub fn new(alloc: Global) -> Directory
        ensures { result ≡ record { named = []; room = 0 } }
    {
        Directory {
            cells: Vec::new(alloc),
            len: 0,
        }
    }

    /// Makes room for the identifiers of `blocks` blocks. On an error nothing is changed.
    pub fn reserve(&mut self, blocks: u32) -> Result<(), NoMemory>
        ensures named { self.new.named ≡ self.old.named }
        ensures room { OnOk result (self.new.room ≡ max self.old.room blocks) }
        ensures roomy { blocks ≤ self.old.room → IsOk result }
        ensures err { OnErr result (self.new ≡ self.old) }
    {
        let blocks = blocks as usize;
        if blocks > self.cells.len() {
            self.cells.resize(blocks, None)?;
        }
        Ok(())
    }

    /// Returns the number below which each identifier's root block must be.
    pub fn room(&self) -> u32
        ensures room { result ≡ self.now.room }
        ensures listing { IsTrue (is_listing self.now) }
    {
        self.cells.len() as u32
    }

    /// Returns the number of identifiers.
    pub fn len(&self) -> u32
        ensures len { result ≡ length self.now.named }
        ensures listing { IsTrue (is_listing self.now) }
    {
        self.len
    }

    /// Adds an identifier. No other has its root block yet. Takes no memory.
    pub fn add(&mut self, id: Puid, kind: Kind)
        requires room { id.block < self.old.room }
        requires free { has_root_in self.old.named id.block ≡ false }
        ensures named { self.new.named ≡ insert_entry puid_cmp self.old.named id kind }
        ensures room { self.new.room ≡ self.old.room }
    {
        self.cells[id.block as usize] = Some(Cell {
            word: id.word,
            kind,
        });
        self.len += 1;
    }

    /// Removes an identifier, and returns whether it was there. Takes no memory.
    pub fn remove(&mut self, id: Puid) -> bool
        ensures there { result ≡ is_some (directory_kind self.old.named id) }
        ensures named { self.new.named ≡ without_id self.old.named id }
        ensures room { self.new.room ≡ self.old.room }
    {
        let there = self.kind(id).is_some();
        if there {
            self.cells[id.block as usize] = None;
            self.len -= 1;
        }
        there
    }

    /// Returns the kind of the object with this identifier.
    pub fn kind(&self, id: Puid) -> Option<Kind>
        ensures { result ≡ directory_kind self.now.named id }
    {
        let cell = cell_of(&self.cells, id.block)?;
        (cell.word == id.word).then_some(cell.kind)
    }

    /// Returns the identifier with this root block, and the kind of its object.
    pub fn at(&self, block: u32) -> Option<(Puid, Kind)>
        ensures there { is_some result ≡ has_root_in self.now.named block }
        ensures listed { (id : Puid) (kind : Kind) → directory_kind self.now.named id ≡ Some kind → id.block ≡ block
            → result ≡ Some (id, kind) }
    {
        let Cell { word, kind } = cell_of(&self.cells, block)?;
        Some((Puid { block, word }, kind))
    }

    /// Returns whether an identifier has this root block.
    pub fn has_root(&self, block: u32) -> bool
        ensures { result ≡ has_root_in self.now.named block }
    {
        cell_of(&self.cells, block).is_some()
    }

    /// Returns the least identifier whose number is not below this one.
    pub fn first_from(&self, number: u64) -> Option<Puid>
        ensures { result ≡ first_in self.now.named number }
    {
        let least = Puid::of(number);
        for block in least.block..self.cells.len() as u32 {
            let Some(cell) = cell_of(&self.cells, block) else {
                continue;
            };
            if block > least.block || cell.word >= least.word {
                return Some(Puid {
                    block,
                    word: cell.word,
                });
            }
        }
        None
    }

    /// Removes all identifiers whose root block fails the test, and appends them to `gone` in increasing order.
    ///
    /// Takes no memory: `gone` must have room for as many as there are.
    pub fn take_unless<F: Fn(u32) -> bool>(&mut self, is_kept: F, gone: &mut Vec<Puid>)
        requires callable { F.IsAlwaysCallable is_kept }
        requires room { vec_len gone.old + length self.old.named ≤ vec_capacity gone.old }
        ensures named { (test : ℕ → Bool) → Computes (F.post is_kept) self.old.room test
            → self.new.named ≡ kept_by test self.old.named }
        ensures gone { (test : ℕ → Bool) → Computes (F.post is_kept) self.old.room test
            → gone.new.items ≡ gone.old.items ++ taken_by test self.old.named }
        ensures room { self.new.room ≡ self.old.room }
        ensures capacity { vec_capacity gone.new ≡ vec_capacity gone.old }
    {
        for block in 0..self.cells.len() as u32 {
            let Some(cell) = self.cells[block as usize] else {
                continue;
            };
            if is_kept(block) {
                continue;
            }
            self.cells[block as usize] = None;
            self.len -= 1;
            gone.push_reserved(Puid {
                block,
                word: cell.word,
            });
        }
    }
}

/// Returns the cell of a block, if there is one and it is filled.
fn cell_of(cells: &[Option<Cell>], block: u32) -> Option<Cell>
    ensures { result ≡ slice_index_or cells.now block None }
{
    cells.get(block as usize).copied().flatten()
}
