//! A change of one object, made in memory.
ghost use Rattle.std.specs.Prelude.{◌≡◌, ◌+◌, ◌<◌, IfOk, OnErr, OnOk, length, nat_le, unwrap_or};
ghost use Rattle.ufs_model.specs.Object.{IsInside, changed_object, cut_leaf, fresh_after, held_leaves};
ghost use Rattle.ufs_model.specs.Object.{leaves_in, resize_anew, size_of, touched, written_anew};
ghost use Rattle.ufs_model.specs.declared.change.Change.TheVariants as changes;
ghost use Rattle.ufs_model.specs.declared.object.Object.TheVariants as objects;
ghost use Rattle.ufs_model.specs.Numbers.{first_level, lacking, parents, shared, with_numbers};
ghost use Rattle.ufs_model.specs.State.{changed_draft};

use crate::limits::{LEAF_BYTES, LEAF_SLOTS};
use crate::numbers::{Levels, Numbers};
use crate::object::{Draft, File, Index, Object};
use cfs_base::{Bytes, Puid};
use std::alloc::{AllocError, Global};

/// A change of one object. Sizes and offsets are in bytes.
#[derive(Debug, Drop)]
pub enum Change {
    /// Puts `what` into a slot of an index, whatever the slot held.
    Fill { slot: u64, what: Option<Puid> },
    /// Replaces bytes of a file.
    Overwrite { offset: u64, bytes: Bytes },
    /// Sets the size of a file.
    SetSize { size: u64 },
}

/// Returns how many leaves hold `size` bytes.
fn leaves_in(size: u64) -> u64
    ensures { result ≡ leaves_in size }
{
    size / LEAF_BYTES + u64::from(size % LEAF_BYTES != 0)
}

/// Returns the leaves that hold these bytes.
fn touched(alloc: Global, offset: u64, bytes: &Bytes) -> Result<Numbers, AllocError>
    ensures { IfOk result (λ leaves. leaves ≡ touched offset (length bytes.now)) }
{
    let count = bytes.as_slice().len() as u64;
    Numbers::row(
        alloc,
        offset / LEAF_BYTES,
        leaves_in(offset % LEAF_BYTES + count),
    )
}

/// Returns the leaf within which a resize cuts, if it is held.
fn cut_leaf(alloc: Global, size: u64, held: &Numbers) -> Result<Numbers, AllocError>
    ensures { IfOk result (λ cut. cut ≡ cut_leaf size held.now) }
{
    if size % LEAF_BYTES == 0 {
        return Ok(Numbers::empty(alloc));
    }
    Numbers::row(alloc, size / LEAF_BYTES, 1)?.shared(alloc, held)
}

/// Returns those nodes above the kept leaves that lead to a leaf that is gone, or to one that is new and not fresh.
fn recut_nodes(
    alloc: Global,
    kept: &Numbers,
    gone: &Numbers,
    anew: &Numbers,
    fresh: &Levels,
) -> Result<Numbers, AllocError>
    ensures { IfOk result (λ nodes. nodes ≡ shared (parents kept.now) (parents (with_numbers gone.now (lacking anew.now
        (first_level fresh.now))))) }
{
    let none = Numbers::empty(alloc);
    let fresh_leaves = fresh.as_slice().first().unwrap_or(&none);
    let stale = anew.lacking(alloc, fresh_leaves)?;
    let changed = stale.with_all(alloc, gone.as_slice())?;
    kept.parents(alloc)?.shared(alloc, &changed.parents(alloc)?)
}

/// Returns the blocks that a resize to less writes anew, if these leaves are held and these blocks are fresh.
fn recut(alloc: Global, size: u64, held: &Numbers, fresh: &Levels) -> Result<Levels, AllocError>
    ensures { IfOk result (λ levels. levels ≡ resize_anew 1 size held.now fresh.now) }
{
    let limit = leaves_in(size);
    let kept = held.below(alloc, limit)?;
    let gone = held.from(alloc, limit)?;
    let anew = cut_leaf(alloc, size, held)?;
    let nodes = recut_nodes(alloc, &kept, &gone, &anew, fresh)?;
    Levels::of_two(alloc, anew, nodes)
}

impl Object {
    /// Returns the leaves that the object holds.
    pub fn held(&self) -> &Numbers
        ensures { result.now ≡ held_leaves self.now }
    {
        match self {
            Object::File(file) => &file.held,
            Object::Index(index) => &index.held,
        }
    }

    /// Returns whether the object has at most `size` bytes.
    fn fits(&self, size: u64) -> bool
        ensures { result ≡ nat_le (size_of self.now) size }
    {
        match self {
            Object::File(file) => file.bytes.as_slice().len() as u64 <= size,
            Object::Index(index) => index.len() <= size / 8,
        }
    }

    /// Returns the leaves that are held after a change, or `None` if they stay the same.
    pub fn held_after(&self, alloc: Global, change: &Change) -> Result<Option<Numbers>, AllocError>
        requires { IsInside change.now self.now }
        ensures { IfOk result (λ held. unwrap_or held (held_leaves self.now)
            ≡ held_leaves (changed_object change.now self.now)) }
    {
        match self {
            Object::Index(index) => match change {
                Change::Fill {
                    slot,
                    what: Some(_),
                } => index.held.with(alloc, *slot / LEAF_SLOTS),
                _ => Ok(None),
            },
            Object::File(file) => match change {
                Change::Fill { .. } => Ok(None),
                Change::Overwrite { offset, bytes } => {
                    let leaves = touched(alloc, *offset, bytes)?;
                    Ok(Some(file.held.with_all(alloc, leaves.as_slice())?))
                }
                Change::SetSize { size } => Ok(Some(file.held.below(alloc, leaves_in(*size))?)),
            },
        }
    }

    /// Makes the change. On an error nothing is changed.
    pub fn change(&mut self, change: &Change, held: Option<Numbers>) -> Result<(), AllocError>
        requires inside { IsInside change.now self.old }
        requires held { unwrap_or held (held_leaves self.old) ≡ held_leaves (changed_object change.now self.old) }
        ensures ok { OnOk result (self.new ≡ changed_object change.now self.old) }
        ensures err { OnErr result (self.new ≡ self.old) }
    {
        match self {
            Object::Index(index) => {
                if let Change::Fill { slot, what } = change {
                    index.put(*slot, *what, held);
                }
                Ok(())
            }
            Object::File(file) => file.change(change, held),
        }
    }

    /// Puts `what` into a slot of the index. Takes no memory.
    pub fn fill(&mut self, slot: u64, what: Option<Puid>, held: Option<Numbers>)
        requires inside { IsInside (changes.Fill slot what) self.old }
        requires held { unwrap_or held (held_leaves self.old)
            ≡ held_leaves (changed_object (changes.Fill slot what) self.old) }
        ensures { self.new ≡ changed_object (changes.Fill slot what) self.old }
    {
        if let Object::Index(index) = self {
            index.put(slot, what, held);
        }
    }

    /// Returns the blocks that a change writes anew, if these are fresh.
    pub fn written_anew(
        &self,
        alloc: Global,
        change: &Change,
        fresh: &Levels,
    ) -> Result<Levels, AllocError>
        requires { IsInside change.now self.now }
        ensures { IfOk result (λ levels. levels ≡ written_anew change.now self.now fresh.now) }
    {
        match change {
            Change::Fill { slot, .. } => {
                Levels::above(alloc, Numbers::row(alloc, *slot / LEAF_SLOTS, 1)?)
            }
            Change::Overwrite { offset, bytes } => {
                Levels::above(alloc, touched(alloc, *offset, bytes)?)
            }
            Change::SetSize { size } => {
                if self.fits(*size) {
                    return Ok(Levels::empty(alloc));
                }
                recut(alloc, *size, self.held(), fresh)
            }
        }
    }
}

impl File {
    /// Makes the change. On an error nothing is changed.
    fn change(&mut self, change: &Change, held: Option<Numbers>) -> Result<(), AllocError>
        requires inside { IsInside change.now (objects.File self.old) }
        requires held { unwrap_or held self.old.held ≡ held_leaves (changed_object change.now (objects.File self.old)) }
        ensures ok { OnOk result (objects.File self.new ≡ changed_object change.now (objects.File self.old)) }
        ensures err { OnErr result (self.new ≡ self.old) }
    {
        match change {
            Change::Fill { .. } => return Ok(()),
            Change::Overwrite { offset, bytes } => {
                self.bytes.overwrite(*offset as usize, bytes.as_slice());
            }
            Change::SetSize { size } => self.bytes.resize(*size as usize, self.fill)?,
        }
        if let Some(held) = held {
            self.held = held;
        }
        Ok(())
    }
}

impl Draft {
    /// Returns the fresh blocks after a change, if these leaves will be held, or `None` if they stay the same.
    fn fresh_after(
        &self,
        alloc: Global,
        change: &Change,
        held: &Option<Numbers>,
    ) -> Result<Levels, AllocError>
        requires inside { IsInside change.now self.now.object }
        requires held { unwrap_or held.now (held_leaves self.now.object)
            ≡ held_leaves (changed_object change.now self.now.object) }
        ensures { IfOk result (λ fresh. fresh ≡ fresh_after change.now self.now.object self.now.fresh) }
    {
        let leaves = match held {
            Some(held) => held.copy(alloc)?,
            None => self.object.held().copy(alloc)?,
        };
        self.object
            .written_anew(alloc, change, &self.fresh)?
            .merged(alloc, &self.fresh)?
            .within(alloc, &Levels::above(alloc, leaves)?)
    }

    /// Returns the draft that the change makes of this one.
    pub fn changed(&self, alloc: Global, change: &Change) -> Result<Draft, AllocError>
        requires { IsInside change.now self.now.object }
        ensures { IfOk result (λ draft. draft ≡ changed_draft change.now self.now) }
    {
        let held = self.object.held_after(alloc, change)?;
        let fresh = self.fresh_after(alloc, change, &held)?;
        let mut object = self.object.copy(alloc)?;
        object.change(change, held)?;
        Ok(Draft { object, fresh })
    }

    /// Makes the change, and updates the fresh blocks. On an error nothing is changed.
    pub fn change(&mut self, alloc: Global, change: &Change) -> Result<(), AllocError>
        requires { IsInside change.now self.old.object }
        ensures ok { OnOk result (self.new ≡ changed_draft change.now self.old) }
        ensures err { OnErr result (self.new ≡ self.old) }
    {
        let held = self.object.held_after(alloc, change)?;
        let fresh = self.fresh_after(alloc, change, &held)?;
        self.object.change(change, held)?;
        self.fresh = fresh;
        Ok(())
    }
}
