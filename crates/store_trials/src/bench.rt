//! Calls of the store as values, so that tables can have them.
use crate::laid::{Edit, edited};
use crate::volume::Volume;
use cfs_base::{BlockNo, Disk, Failed, FileKind, Kind, Puid, Refused};
use cfs_fakes::Seen;
use special_files::ObjectDraft;
use std::alloc::Global;
use std::test::Fail;

/// A call of the store.
///
/// The bytes that are written are `count` bytes: 512 of `byte`, then 512 of the next greater one, and so on.
#[derive(Clone, Copy, Debug)]
pub enum Act {
    /// Makes an object in a slot of the root index: an index of `slots` slots, or a file with this fill byte.
    Create {
        slot: u64,
        kind: Kind,
        slots: u64,
        fill: u8,
        word: u32,
    },
    /// Makes a slot of the index at a block hold `what`, or nothing.
    Put {
        at: u32,
        slot: u64,
        what: Option<Puid>,
    },
    Retrieve {
        at: u32,
        slot: u64,
    },
    /// Writes into the file at a block.
    Write {
        at: u32,
        kind: FileKind,
        offset: u64,
        count: usize,
        byte: u8,
    },
    /// Sets the size of the file at a block.
    Resize {
        at: u32,
        kind: FileKind,
        size: u64,
    },
    /// Reads two bytes of the file at a block.
    Read {
        at: u32,
        offset: u64,
    },
    /// Begins a draft of the file at a block, with a shadow root.
    Begin(u32),
    /// Begins a draft of the file at a block, without a shadow root.
    BeginDirect(u32),
    /// Writes into the draft.
    Change {
        offset: u64,
        count: usize,
        byte: u8,
    },
    /// Sets the size of the draft.
    SetSize(u64),
    /// Reads `count` bytes of the draft.
    See {
        offset: u64,
        count: usize,
    },
    Commit,
    Abort,
    /// Claims a block, makes one Free, looks for the least Free one.
    Claim,
    Release(u32),
    Find,
}

/// A volume, and the draft of one of its files.
#[derive(Drop)]
pub struct Bench {
    pub volume: Volume,
    draft: Option<ObjectDraft>,
}

/// Returns what is written.
pub fn bytes_from(byte: u8) -> [u8; 4096] {
    let mut bytes = [byte; 4096];
    for (place, byte) in bytes.iter_mut().enumerate() {
        *byte = byte.wrapping_add((place / 512) as u8);
    }
    bytes
}

impl Bench {
    /// Makes a bench on a fresh volume. The calls at these moments fail.
    pub fn fresh(alloc: Global, cylinders: u32, failing: Vec<u64>) -> Result<Bench, Fail> {
        Ok(Bench {
            volume: Volume::fresh(alloc, cylinders, failing)?,
            draft: None,
        })
    }

    /// Makes a bench on a volume with only a special file.
    pub fn laid(alloc: Global, cylinders: u32) -> Result<Bench, Fail> {
        Ok(Bench {
            volume: Volume::laid(alloc, cylinders)?,
            draft: None,
        })
    }

    /// Returns how many device calls there were.
    pub fn calls(&self) -> u64 {
        self.volume.disk.calls()
    }

    /// Returns what the last call did.
    pub fn seen(&self) -> Seen {
        self.volume.disk.seen
    }

    /// Returns how many blocks are Free.
    pub fn free(&self) -> u32 {
        self.volume.space.free()
    }

    /// Puts other bytes into blocks.
    pub fn edit(&mut self, edits: &[Edit]) -> Result<(), Failed> {
        for (at, place, value) in edits {
            let block = edited(&self.volume.get(*at)?, *place, *value);
            self.volume.put(*at, &block)?;
        }
        Ok(())
    }

    /// Makes calls, up to the first that is refused.
    pub fn play(&mut self, alloc: Global, acts: &[Act]) -> Result<(), Refused> {
        for act in acts {
            self.act(alloc, *act)?;
        }
        Ok(())
    }

    /// Makes a call.
    pub fn act(&mut self, alloc: Global, act: Act) -> Result<(), Refused> {
        self.volume.look();
        match act {
            Act::Create {
                slot,
                kind,
                slots,
                fill,
                word,
            } => self.volume.create(alloc, slot, kind, slots, fill, word),
            Act::Put { at, slot, what } => self.volume.change_slot(alloc, BlockNo(at), slot, what),
            Act::Claim => self.volume.claim(),
            Act::Release(at) => Ok(self.volume.release(BlockNo(at))?),
            Act::Find => self.volume.find(),
            act => self.look_up(alloc, act),
        }
    }

    /// Reads a slot or a file, or changes a file.
    fn look_up(&mut self, alloc: Global, act: Act) -> Result<(), Refused> {
        match act {
            Act::Retrieve { at, slot } => {
                self.volume.retrieve(BlockNo(at), slot)?;
            }
            Act::Read { at, offset } => {
                self.volume.read(alloc, BlockNo(at), offset, 2)?;
            }
            act => self.change_file(alloc, act)?,
        }
        Ok(())
    }

    fn change_file(&mut self, alloc: Global, act: Act) -> Result<(), Refused> {
        match act {
            Act::Write {
                at,
                kind,
                offset,
                count,
                byte,
            } => {
                let bytes = bytes_from(byte);
                let bytes = &bytes[..count.min(4096)];
                self.volume
                    .write_file(alloc, BlockNo(at), kind, offset, bytes)
            }
            Act::Resize { at, kind, size } => self
                .volume
                .resize_file(alloc, BlockNo(at), kind, size),
            Act::Begin(at) => self.begin(alloc, at, false),
            Act::BeginDirect(at) => self.begin(alloc, at, true),
            act => self.change_draft(alloc, act),
        }
    }

    fn begin(&mut self, alloc: Global, at: u32, is_direct: bool) -> Result<(), Refused> {
        self.draft = Some(self.volume.begin(alloc, BlockNo(at), is_direct)?);
        Ok(())
    }

    fn change_draft(&mut self, alloc: Global, act: Act) -> Result<(), Refused> {
        let Some(draft) = &mut self.draft else {
            return Err(Refused::Memory);
        };
        match act {
            Act::Change {
                offset,
                count,
                byte,
            } => {
                let bytes = bytes_from(byte);
                self.volume.write(draft, offset, &bytes[..count.min(4096)])
            }
            Act::SetSize(size) => self.volume.resize(draft, size),
            Act::See { offset, count } => self.volume.see(alloc, draft, offset, count),
            act => self.end(matches!(act, Act::Commit)),
        }
    }

    fn end(&mut self, commits: bool) -> Result<(), Refused> {
        match self.draft.take() {
            Some(draft) => self.volume.end(draft, commits),
            None => Err(Refused::Memory),
        }
    }
}
