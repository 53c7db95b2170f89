//! Files, indices, drafts and grants.
ghost use Rattle.std.specs.Prelude.{◌≡◌, ◌+◌, ◌-◌, ◌<◌, ◌≤◌, [], ◌++◌, drop, length, replicate, slice_set, take, IfOk};
ghost use Rattle.std.specs.Prelude.{OnErr, OnOk};

use crate::numbers::{Levels, Numbers};
use cfs_base::{FileKind, Kind, Mode, Puid, Session, Tuid};
use std::alloc::{AllocError, Global};
use std::marker::Model;

/// The slots of an index.
#[derive(Debug, Drop)]
pub struct Slots {
    slots: Vec<Option<Puid>>,
}

impl Model for Slots {
    ghost use Rattle.std.specs.Prelude.{List, Option};
    ghost use Rattle.cfs_base.specs.declared.identifier.Puid.{Puid};

    ghost Value = { List (Option Puid) };

    ghost view = { λ a. a.slots.items };
}

impl Slots {
    /// Makes the list of these slots. Takes no memory.
    pub fn new(slots: Vec<Option<Puid>>) -> Slots
        ensures { result ≡ slots.items }
    {
        Slots { slots }
    }

    /// Returns the slots as a slice.
    pub fn as_slice(&self) -> &[Option<Puid>]
        ensures { result.now ≡ self.now }
    {
        self.slots.as_slice()
    }

    /// Returns a copy.
    pub fn copy(&self, alloc: Global) -> Result<Slots, AllocError>
        ensures { IfOk result (λ copy. copy ≡ self.now) }
    {
        Ok(Slots {
            slots: self.slots.as_slice().to_vec(alloc)?,
        })
    }

    /// Puts `what` into the slot.
    pub fn set(&mut self, slot: usize, what: Option<Puid>)
        requires { slot < length self.old }
        ensures { self.new ≡ slice_set self.old slot what }
    {
        self.slots[slot] = what;
    }
}

/// The bytes of a file.
#[derive(Debug, Drop)]
pub struct Content {
    bytes: Vec<u8>,
}

impl Model for Content {
    ghost use Rattle.std.specs.Prelude.{List, ℕ};

    ghost Value = { List ℕ };

    ghost view = { λ a. a.bytes.items };
}

impl Content {
    /// Makes a content of no bytes. Takes no memory.
    pub fn empty(alloc: Global) -> Content
        ensures { result ≡ [] }
    {
        Content {
            bytes: Vec::new(alloc),
        }
    }

    /// Returns the bytes as a slice.
    pub fn as_slice(&self) -> &[u8]
        ensures { result.now ≡ self.now }
    {
        self.bytes.as_slice()
    }

    /// Returns a copy.
    pub fn copy(&self, alloc: Global) -> Result<Content, AllocError>
        ensures { IfOk result (λ copy. copy ≡ self.now) }
    {
        Ok(Content {
            bytes: self.bytes.as_slice().to_vec(alloc)?,
        })
    }

    /// Replaces the bytes that begin at the offset. Takes no memory.
    pub fn overwrite(&mut self, offset: usize, new: &[u8])
        requires { offset + length new.now ≤ length self.old }
        ensures { self.new ≡ take offset self.old ++ new.now ++ drop (offset + length new.now) self.old }
    {
        for (i, byte) in new.iter().enumerate() {
            self.bytes[offset + i] = *byte;
        }
    }

    /// Drops bytes from the end, or adds fill bytes there. On an error nothing is changed.
    pub fn resize(&mut self, size: usize, fill: u8) -> Result<(), AllocError>
        ensures ok { OnOk result (self.new ≡ take size self.old ++ replicate (size - length self.old) fill) }
        ensures err { OnErr result (self.new ≡ self.old) }
    {
        self.bytes.resize(size, fill)
    }
}

/// A file.
#[derive(Debug, Drop)]
pub struct File {
    /// Whether the file is normal or special.
    pub kind: FileKind,
    /// The byte that stands for bytes that were never written.
    pub fill: u8,
    /// The bytes.
    pub bytes: Content,
    /// The numbers of the leaves that the file holds.
    pub held: Numbers,
}

/// An index.
#[derive(Debug, Drop)]
pub struct Index {
    /// The slots.
    pub slots: Slots,
    /// The numbers of the leaves that the index holds.
    pub held: Numbers,
}

/// A file or an index.
#[derive(Debug, Drop)]
pub enum Object {
    File(File),
    Index(Index),
}

/// A draft: what the object becomes when the grant is closed with a commit.
#[derive(Debug, Drop)]
pub struct Draft {
    /// What the object becomes.
    pub object: Object,
    /// The leaves and nodes that are the draft's own, level by level.
    pub fresh: Levels,
}

/// A grant: an object that a session has open.
#[derive(Debug, Drop)]
pub struct Grant {
    /// The temporary identifier of the grant.
    pub tuid: Tuid,
    /// The session that has the grant.
    pub session: Session,
    /// The permanent identifier of the object.
    pub id: Puid,
    /// Whether the object is open for reading or for writing.
    pub mode: Mode,
    /// The draft, if the grant has one.
    pub draft: Option<Draft>,
}

impl File {
    /// Returns a copy.
    pub fn copy(&self, alloc: Global) -> Result<File, AllocError>
        ensures { IfOk result (λ copy. copy ≡ self.now) }
    {
        Ok(File {
            kind: self.kind,
            fill: self.fill,
            bytes: self.bytes.copy(alloc)?,
            held: self.held.copy(alloc)?,
        })
    }
}

impl Index {
    /// Returns a copy.
    pub fn copy(&self, alloc: Global) -> Result<Index, AllocError>
        ensures { IfOk result (λ copy. copy ≡ self.now) }
    {
        Ok(Index {
            slots: self.slots.copy(alloc)?,
            held: self.held.copy(alloc)?,
        })
    }
}

impl Object {
    ghost use Rattle.ufs_model.specs.Kinds.{object_kind};

    /// Returns the kind of the object.
    pub fn kind(&self) -> Kind
        ensures { result ≡ object_kind self.now }
    {
        match self {
            Object::File(file) => match file.kind {
                FileKind::Normal => Kind::Normal,
                FileKind::Special => Kind::Special,
            },
            Object::Index(_) => Kind::Index,
        }
    }

    /// Returns a copy.
    pub fn copy(&self, alloc: Global) -> Result<Object, AllocError>
        ensures { IfOk result (λ copy. copy ≡ self.now) }
    {
        match self {
            Object::File(file) => Ok(Object::File(file.copy(alloc)?)),
            Object::Index(index) => Ok(Object::Index(index.copy(alloc)?)),
        }
    }
}
