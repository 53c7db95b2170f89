//! The files that a command named, so that none is named twice.
use cfs_host::Identity;
use std::alloc::{AllocError, Global};

/// A file that was opened, and its name in the command.
#[derive(Drop)]
struct Named<'a> {
    identity: Identity,
    path: &'a str,
}

/// The files that were opened so far.
#[derive(Drop)]
pub(crate) struct Known<'a> {
    files: Vec<Named<'a>>,
}

impl<'a> Known<'a> {
    /// Makes a list of no files. Takes no memory.
    pub fn new(alloc: Global) -> Known<'a> {
        Known {
            files: Vec::new(alloc),
        }
    }

    /// Adds a file, or nothing if the file keeps no bytes. Fails for want of memory.
    pub fn add(&mut self, identity: Option<Identity>, path: &'a str) -> Result<(), AllocError> {
        if let Some(identity) = identity {
            self.files.push(Named { identity, path })?;
        }
        Ok(())
    }

    /// Returns the name under which this file was opened before, if it was.
    pub fn name_of(&self, identity: Option<Identity>) -> Option<&'a str> {
        let identity = identity?;
        let named = self.files.iter().find(|named| named.identity == identity)?;
        Some(named.path)
    }
}
