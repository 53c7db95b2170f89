//! Lists of bytes and of identifiers. Contracts see them as lists.
ghost use Rattle.std.specs.Prelude.{◌≡◌};

use crate::Puid;
use std::marker::Model;

/// A list of bytes.
#[derive(Debug, Drop)]
pub struct Bytes {
    bytes: Vec<u8>,
}

impl Model for Bytes {
    ghost use Rattle.std.specs.Prelude.{List, ℕ};

    ghost Value = { List ℕ };

    ghost view = { λ b. b.bytes.items };
}

impl Bytes {
    /// Wraps a vector of bytes. Takes no memory.
    pub fn new(bytes: Vec<u8>) -> Bytes
        ensures { result ≡ bytes.items }
    {
        Bytes { bytes }
    }

    /// Returns the bytes as a slice.
    pub fn as_slice(&self) -> &[u8]
        ensures { result.now ≡ self.now }
    {
        self.bytes.as_slice()
    }

    /// Returns the vector inside. Takes no memory.
    pub fn into_vec(self) -> Vec<u8>
        ensures { result.items ≡ self }
    {
        let Bytes { bytes } = self;
        bytes
    }
}

/// A list of permanent identifiers.
#[derive(Debug, Drop)]
pub struct Ids {
    ids: Vec<Puid>,
}

impl Model for Ids {
    ghost use Rattle.std.specs.Prelude.{List};
    ghost use Rattle.cfs_base.specs.declared.identifier.Puid.{Puid};

    ghost Value = { List Puid };

    ghost view = { λ a. a.ids.items };
}

impl Ids {
    /// Wraps a vector of identifiers. Takes no memory.
    pub fn new(ids: Vec<Puid>) -> Ids
        ensures { result ≡ ids.items }
    {
        Ids { ids }
    }

    /// Returns the identifiers as a slice.
    pub fn as_slice(&self) -> &[Puid]
        ensures { result.now ≡ self.now }
    {
        self.ids.as_slice()
    }

    /// Returns the vector inside. Takes no memory.
    pub fn into_vec(self) -> Vec<Puid>
        ensures { result.items ≡ self }
    {
        let Ids { ids } = self;
        ids
    }
}
