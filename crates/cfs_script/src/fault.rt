//! Why a line is no request.
use cfs_base::NoMemory;
use std::alloc::AllocError;

/// Why a line is no request.
#[derive(Clone, Copy, Debug, PartialEq, Eq)]
pub enum ScriptFault {
    /// The line has none of the forms.
    Syntax,
    /// A name in it is not bound, or is bound to the wrong kind of thing.
    NoName,
    /// There was no memory.
    Memory,
}

impl From<NoMemory> for ScriptFault {
    fn from(_error: NoMemory) -> ScriptFault {
        ScriptFault::Memory
    }
}

impl From<AllocError> for ScriptFault {
    fn from(_error: AllocError) -> ScriptFault {
        ScriptFault::Memory
    }
}
