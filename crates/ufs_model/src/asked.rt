//! What may be asked, what is answered, and what a run records.
use cfs_base::{Bytes, Damage, FileKind, Ids, Mode, Need, Puid, Session, Tuid};

/// What a request goes to: an object by its identifier, or what one of the session's grants shows.
#[derive(Clone, Copy, Debug, PartialEq, Eq)]
pub enum Ref {
    /// The object with this identifier.
    Direct(Puid),
    /// What the grant with this identifier shows: its draft, or else its object.
    Through(Tuid),
}

/// What a session may ask.
///
/// Sizes, offsets and counts are in bytes. Slots are numbered from 0.
#[derive(Debug, Drop)]
pub enum Request {
    /// Makes a file of no bytes, and puts its identifier into the slot.
    CreateFile {
        kind: FileKind,
        fill: u8,
        index: Ref,
        slot: u64,
    },
    /// Makes an index of empty slots, and puts its identifier into the slot.
    CreateIndex {
        slots: u64,
        index: Ref,
        slot: u64,
    },
    /// Puts the identifier into the slot.
    Retain {
        index: Ref,
        slot: u64,
        id: Puid,
    },
    /// Asks for the identifier in the slot.
    Retrieve {
        index: Ref,
        slot: u64,
    },
    /// Empties the slot.
    Delete {
        index: Ref,
        slot: u64,
    },
    /// Asks for the number of slots.
    Slots {
        index: Ref,
    },
    /// Opens an object. A special file or an index that is opened for writing gets a draft.
    OpenFor {
        id: Puid,
        mode: Mode,
    },
    /// Ends a grant. Its draft becomes the object, or is dropped.
    Close {
        grant: Tuid,
        commit: bool,
    },
    /// Asks for bytes within the size.
    Read {
        file: Ref,
        offset: u64,
        count: u64,
    },
    /// Replaces bytes within the size.
    Write {
        file: Ref,
        offset: u64,
        bytes: Bytes,
    },
    /// Asks for the size.
    Size {
        file: Ref,
    },
    /// Sets the size. New bytes are the fill byte.
    Resize {
        file: Ref,
        size: u64,
    },
}

/// What a request expects to find.
#[derive(Clone, Copy, Debug, PartialEq, Eq)]
pub enum Wanted {
    /// An index.
    AnIndex,
    /// A file.
    AFile,
    /// A file or an index.
    Either,
}

/// The answer to a request.
///
/// After a refusal all is as it was, unless the reply reports a stop.
#[derive(Debug, Drop)]
pub enum Reply {
    /// The request was done.
    Done,
    /// The identifier that was asked for, or that of an object that was made.
    Id(Puid),
    /// The identifier of a grant that was made.
    Grant(Tuid),
    /// A size, or a number of slots.
    Number(u64),
    /// Bytes that were asked for.
    Content(Bytes),
    /// There was no memory.
    Memory,
    /// The server stopped at this moment.
    Stopped { moment: u64 },
    /// The request names a grant that this session doesn't have.
    NoGrant,
    /// The request names an identifier that is not in the graph.
    NoObject,
    /// A request on an index names a file.
    NotIndex,
    /// A request on a file names an index.
    NotFile,
    /// The request asks for a change through a grant for reading.
    ReadOnly,
    /// A grant on the object is in the way.
    Locked,
    /// The index has no such slot.
    Slot,
    /// The slot is empty.
    Empty,
    /// A size, a count or a place is out of its range.
    Range,
    /// The session has as many grants as it may have.
    Grants,
    /// Too few blocks are Free.
    Full(Need),
    /// A device call failed. With a doubt the server stopped at that moment, and the request may have been done.
    Disk { doubt: Option<u64> },
    /// A block is damaged, and the server stopped at this moment.
    Damaged { damage: Damage, moment: u64 },
}

/// Why a request line is no request.
#[derive(Clone, Copy, Debug, PartialEq, Eq)]
pub enum Unread {
    /// The line has none of the forms.
    Syntax,
    /// A name in it is not bound, or is bound to the wrong kind of thing.
    NoName,
    /// There was no memory.
    Memory,
}

/// One event of a run.
#[derive(Debug, Drop)]
pub enum Event {
    /// A session's line was no request.
    Unread {
        session: Session,
        why: Unread,
    },
    /// A session asked, and was answered.
    Ask {
        session: Session,
        request: Request,
        reply: Reply,
    },
    /// A session ended. With a moment the server stopped then.
    Leave {
        session: Session,
        stopped: Option<u64>,
    },
    /// A collection began.
    Began,
    /// A collection took these objects out of the graph.
    Vanish {
        ids: Ids,
    },
    /// A collection ended.
    Finished,
    /// The server stopped at this moment, outside any session's turn.
    Halted {
        moment: u64,
    },
}

/// What a name is bound to.
#[derive(Clone, Copy, Debug, PartialEq, Eq)]
pub enum Bound {
    /// An object's identifier.
    Permanent(Puid),
    /// A grant's identifier.
    Temporary(Tuid),
}
