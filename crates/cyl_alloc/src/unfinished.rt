//! A commit past its bit, and how far it is carried out.
ghost use Rattle.std.specs.Prelude.{◌≡◌, ◌<◌, ◌≤◌, true, false, drop, length, None, Some};
ghost use Rattle.cyl_alloc.specs.Left as spec;

use crate::part::Part;
use cfs_base::BlockNo;
use std::marker::Model;

/// Blocks, in their order. Clauses see the list of their numbers.
#[derive(Debug, Drop)]
pub struct Blocks {
    items: Vec<u32>,
}

impl Model for Blocks {
    ghost use Rattle.std.specs.Prelude.{List, ℕ};

    ghost Value = { List ℕ };

    ghost view = { λ a. a.items.items };
}

impl Blocks {
    /// Wraps the numbers of these blocks.
    pub fn new(items: Vec<u32>) -> Blocks
        ensures { result ≡ items.items }
    {
        Blocks { items }
    }

    /// Returns the numbers.
    pub fn into_vec(self) -> Vec<u32>
        ensures { result.items ≡ self }
    {
        self.items
    }
}

/// What is left of a commit past its bit.
#[derive(Debug, Drop)]
pub(crate) struct Unfinished {
    root: BlockNo,
    shadow: BlockNo,
    rest: Blocks,
    /// How many of `rest` are done.
    done: usize,
    copied: bool,
}

impl Model for Unfinished {
    ghost use Rattle.std.specs.Prelude.{drop};
    ghost use Rattle.cyl_alloc.specs.Left.{LeftCommit};

    ghost Value = { LeftCommit };

    ghost view = { λ a. record {
      root = a.root.0;
      shadow = a.shadow.0;
      rest = drop a.done a.rest;
      copied = a.copied;
    } };
}

impl Unfinished {
    /// Makes the record of a commit of which all is left.
    pub fn new(root: BlockNo, shadow: BlockNo, rest: Blocks) -> Unfinished
        ensures { result ≡ record { root = root.0; shadow = shadow.0; rest = rest; copied = false } }
    {
        Unfinished {
            root,
            shadow,
            rest,
            done: 0,
            copied: false,
        }
    }

    /// Returns the block by which an object is read.
    pub fn shown(&self, root: BlockNo) -> BlockNo
        ensures { result.0 ≡ spec.block_shown (Some self.now) root.0 }
    {
        if self.root == root && !self.copied {
            self.shadow
        } else {
            root
        }
    }

    /// Returns the next part.
    pub fn part(&self) -> Part
        ensures { result ≡ spec.next_part_of self.now }
    {
        if !self.copied {
            return Part::Copy {
                root: self.root,
                shadow: self.shadow,
            };
        }
        match self.rest.items.get(self.done) {
            Some(block) => Part::Flip {
                block: BlockNo(*block),
            },
            None => Part::Clear { root: self.root },
        }
    }

    /// Returns how many parts are left.
    pub fn parts_left(&self) -> u64
        ensures is { result ≡ spec.parts_left (Some self.now) }
        ensures small { result < 4611686018427387904 }
    {
        let copy = if self.copied { 0 } else { 1 };
        match self.rest.items.get(self.done..) {
            Some(blocks) => 1 + blocks.len() as u64 + copy,
            None => 1 + copy,
        }
    }

    /// Returns whether the next block whose entry is changed is the shadow root.
    pub fn is_shadow_next(&self) -> bool
        ensures { result ≡ spec.is_first self.now.shadow self.now.rest }
    {
        match self.rest.items.get(self.done) {
            Some(block) => *block == self.shadow.0,
            None => false,
        }
    }

    /// Records that the next part was made, and returns whether it was the last.
    pub fn go_on(&mut self) -> bool
        ensures goes { result ≡ false → spec.after_part self.old ≡ Some self.new }
        ensures ends { result ≡ true → spec.after_part self.old ≡ None }
    {
        if !self.copied {
            self.copied = true;
            return false;
        }
        match self.rest.items.get(self.done) {
            Some(_) => {
                self.done += 1;
                false
            }
            None => true,
        }
    }

    /// Returns the blocks whose entries are changed next.
    pub fn next_flips(&self) -> &[u32]
        ensures { result.now ≡ spec.flips_in (Some self.now) }
    {
        if !self.copied {
            return &[];
        }
        match self.rest.items.get(self.done..) {
            Some(blocks) => blocks,
            None => &[],
        }
    }

    /// Returns the shadow root.
    pub fn shadow(&self) -> BlockNo
        ensures { result.0 ≡ self.now.shadow }
    {
        self.shadow
    }

    /// Records that the entries of `count` of the next blocks were changed.
    pub fn flips_done(&mut self, count: usize)
        requires { count ≤ length self.old.rest }
        ensures { self.new ≡ record self.old { rest = drop count self.old.rest } }
    {
        let all = self.rest.items.len();
        prove!(count <= all);
        self.done += count;
    }
}
