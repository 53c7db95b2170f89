//! The one commit that a space keeps while it isn't carried out. None of these calls takes memory.
ghost use Rattle.std.specs.Prelude.{◌≡◌, ◌<◌, ◌≤◌, ◌*◌, false, if◌then◌else◌, is_some, length, IsSome, None, Some};
ghost use Rattle.std.specs.Prelude.{IfSome};
ghost use Rattle.std.specs.List.{All};
ghost use Rattle.std.specs.Option.{option_map};
ghost use Rattle.cyl_alloc.specs.Left as left;

use crate::part::Part;
use crate::space::Space;
use crate::unfinished::{Blocks, Unfinished};
use cfs_base::BlockNo;

impl Space {
    /// Keeps a commit whose bit is durable.
    ///
    /// `rest` has the blocks whose entries are still to be changed, the shadow root last.
    pub fn note(&mut self, root: BlockNo, shadow: BlockNo, rest: Blocks)
        requires none { self.old.left ≡ None }
        requires root { root.0 < 64 * length self.old.free }
        requires shadow { shadow.0 < 64 * length self.old.free }
        requires rest { All (λ n. n < 64 * length self.old.free) rest }
        ensures { self.new ≡ record self.old {
          left = Some (record {
            root = root.0;
            shadow = shadow.0;
            rest = rest;
            copied = false;
          });
        } }
    {
        self.unfinished = Some(Unfinished::new(root, shadow, rest));
    }

    /// Returns how many commits aren't carried out: 1 or 0.
    pub fn unfinished(&self) -> u32
        ensures { result ≡ if is_some self.now.left then 1 else 0 }
    {
        self.unfinished.is_some() as u32
    }

    /// Returns how many parts are left of the commit that is kept.
    pub fn parts_left(&self) -> u64
        ensures is { result ≡ left.parts_left self.now.left }
        // A list in memory has fewer than 2 ^ 62 numbers.
        ensures small { result < 4611686018427387904 }
    {
        match &self.unfinished {
            Some(commit) => commit.parts_left(),
            None => 0,
        }
    }

    /// Returns the block by which an object is read.
    ///
    /// It is the shadow root if the object's commit is kept and its root isn't copied, else the root.
    pub fn shown(&self, root: BlockNo) -> BlockNo
        ensures shown { result.0 ≡ left.block_shown self.now.left root.0 }
        // That block is on the disk if the root is.
        ensures near { root.0 < 64 * length self.now.free → result.0 < 64 * length self.now.free }
    {
        match &self.unfinished {
            Some(commit) => commit.shown(root),
            None => root,
        }
    }

    /// Returns the next part of the commit that is kept, or `None` if none is kept.
    pub fn next_part(&self) -> Option<Part>
        ensures part { result ≡ option_map (λ l. left.next_part_of l) self.now.left }
        ensures near { IfSome result (left.IsPartNear (64 * length self.now.free)) }
    {
        let commit = self.unfinished.as_ref()?;
        Some(commit.part())
    }

    /// Returns whether the next block whose entry is changed is the shadow root.
    pub fn is_shadow_next(&self) -> bool
        ensures { (l : left.LeftCommit) → self.now.left ≡ Some l → result ≡ left.is_first l.shadow l.rest }
    {
        match &self.unfinished {
            Some(commit) => commit.is_shadow_next(),
            None => false,
        }
    }

    /// Records that the next part was made.
    pub fn part_done(&mut self)
        requires { IsSome self.old.left }
        ensures { self.new ≡ record self.old { left = left.after_next self.old.left } }
    {
        let is_over = match &mut self.unfinished {
            Some(commit) => commit.go_on(),
            None => true,
        };
        if is_over {
            self.unfinished = None;
        }
    }

    /// Returns the blocks whose entries are changed next, in their order.
    ///
    /// There are none while the root isn't copied.
    pub fn next_flips(&self) -> &[u32]
        ensures blocks { result.now ≡ left.flips_in self.now.left }
        ensures near { All (λ n. n < 64 * length self.now.free) result.now }
    {
        match &self.unfinished {
            Some(commit) => commit.next_flips(),
            None => &[],
        }
    }

    /// Returns the shadow root of the commit that is kept, or 0 if none is kept.
    pub fn shadow(&self) -> BlockNo
        ensures { (l : left.LeftCommit) → self.now.left ≡ Some l → result.0 ≡ l.shadow }
    {
        match &self.unfinished {
            Some(commit) => commit.shadow(),
            None => BlockNo(0),
        }
    }

    /// Records that the entries of `count` of the next blocks were changed.
    pub fn flips_done(&mut self, count: usize)
        requires { count ≤ length (left.flips_in self.old.left) }
        ensures { self.new ≡ record self.old { left = left.after_flips count self.old.left } }
    {
        if let Some(commit) = &mut self.unfinished {
            commit.flips_done(count);
        }
    }
}
