//! A small volume in memory, with the calls of the store on it.
ghost use Rattle.std.specs.Prelude.{◌≡◌, ◌*◌, ◌<◌, ◌≤◌, true, length, sum, None};
ghost use Rattle.cfs_fakes.specs.Memory.{contents};
ghost use Rattle.special_files.specs.Creates.{MayBeMade};

use crate::laid::{LEAF_ENTRY, NODE_ENTRY, RESERVED, ROOT_ENTRY, block_of, get, put};
use block_tree::read_root;
use cfs_base::{
    Block, BlockNo, Bytes, Disk, Failed, FileKind, Kind, NoMemory, Place, Puid, Refused, Trouble,
};
use cfs_fakes::{MemoryDisk, Seen, Watched};
use cyl_alloc::Space;
use file_ops::{read, resize, write};
use finisher::{finish_all, step};
use index_ops::{create, delete, retain, retrieve};
use special_files::{ObjectDraft, Room, bare_root};
use std::alloc::Global;
use std::test::Fail;
use vol_format::format_volume;

/// The word of the root index.
pub const ROOT_WORD: u32 = 0xade0_b876;

/// The most bytes of an object.
const LIMIT: u64 = 7_864_320;

/// A volume of one or two cylinders, with its Free blocks counted.
#[derive(Drop)]
pub struct Volume {
    pub disk: Watched<MemoryDisk>,
    pub space: Space,
    ghost size: { length (contents disk.lower) ≡ 64 * length space.free },
}

/// The blocks of a special file of 512 bytes, 1 and 2 and then zeros, and of its map.
const LAID: [(u32, &[u64]); 4] = [
    (0, &[RESERVED, RESERVED, ROOT_ENTRY, LEAF_ENTRY, NODE_ENTRY]),
    (2, &[0x0200_0000_0000_0001, 512, 0, 0, 0x4_0000_0000]),
    (3, &[0x0102_0000_0000_0000]),
    (4, &[0x3_0000_0000]),
];

/// Lays these blocks.
fn lay_file(memory: &mut MemoryDisk) -> Result<(), Failed> {
    for (at, numbers) in LAID {
        put(memory, at, &block_of(numbers))?;
    }
    Ok(())
}

impl Volume {
    /// Makes the volume on this disk.
    pub fn on(alloc: Global, memory: MemoryDisk) -> Result<Volume, Fail> {
        let mut disk = Watched::new(memory);
        let cylinders = disk.blocks() / 64;
        if disk.blocks() != 64 * cylinders || cylinders == 0 || cylinders > 2 {
            return Err("a disk of another size")?;
        }
        let space = Space::counted(alloc, &mut disk, cylinders)?;
        Ok(Volume { disk, space })
    }

    /// Makes a fresh volume. The calls at these moments fail.
    pub fn fresh(alloc: Global, cylinders: u32, failing: Vec<u64>) -> Result<Volume, Fail> {
        let mut memory = MemoryDisk::failing(alloc, 64 * cylinders.max(1).min(2), failing)?;
        format_volume(&mut memory, ROOT_WORD)?;
        Volume::on(alloc, memory)
    }

    /// Makes a volume with only a special file, of 512 bytes.
    ///
    /// Its root is block 2, its leaf 3, its node 4.
    pub fn laid(alloc: Global, cylinders: u32) -> Result<Volume, Fail> {
        let blocks = 64 * cylinders.max(1).min(2);
        let mut memory = MemoryDisk::new(alloc, blocks)?;
        put(&mut memory, blocks - 64, &block_of(&[RESERVED]))?;
        lay_file(&mut memory)?;
        Volume::on(alloc, memory)
    }

    /// Reads a block.
    pub fn get(&mut self, at: u32) -> Result<Block, Failed> {
        get(&mut self.disk.lower, at)
    }

    /// Writes a block.
    pub fn put(&mut self, at: u32, block: &Block) -> Result<(), Failed> {
        put(&mut self.disk.lower, at, block)
    }

    /// Counts device calls from here on.
    pub fn look(&mut self) {
        self.disk.seen = Seen::nothing();
    }

    /// Returns whether so many blocks are there and Free that no call asks for more, and no commit is unfinished.
    fn is_ready(&self) -> bool
        ensures { result ≡ true → (8 < length (contents self.now.disk.lower)) × (8 ≤ sum self.now.space.free)
            × (self.now.space.left ≡ None) }
    {
        self.disk.blocks() > 8 && self.space.free() >= 8 && self.space.unfinished() == 0
    }

    /// Finishes what the last change left. That change had tried a write.
    fn finish(&mut self) -> Result<(), Refused> {
        match finish_all(&mut self.disk, &mut self.space) {
            Ok(()) => Ok(()),
            Err(trouble) => Err(Refused::from(trouble.after_try())),
        }
    }

    /// Makes an object, and puts its identifier into a slot of the root index.
    fn make(
        &mut self,
        alloc: Global,
        slot: u64,
        kind: Kind,
        fill: u8,
        size: u64,
        word: u32,
    ) -> Result<(), Refused>
        requires { MayBeMade kind fill size }
    {
        if !self.is_ready() {
            return Err(Refused::Memory);
        }
        let room = Room::new(alloc)?;
        let root = read_root(&mut self.disk, BlockNo(2))?;
        if slot >= root.size / 8 {
            return Err(Refused::Memory);
        }
        let draft = ObjectDraft::direct(room, BlockNo(2), &root);
        let (disk, space) = (&mut self.disk, &mut self.space);
        create(draft, disk, space, slot, &bare_root(kind, fill, size, word))?;
        self.finish()
    }

    /// Makes an object in a slot of the root index: an index of `slots` slots, or a file with this fill byte.
    pub fn create(
        &mut self,
        alloc: Global,
        slot: u64,
        kind: Kind,
        slots: u64,
        fill: u8,
        word: u32,
    ) -> Result<(), Refused> {
        match kind {
            Kind::Normal => self.make(alloc, slot, Kind::Normal, fill, 0, word),
            Kind::Special => self.make(alloc, slot, Kind::Special, fill, 0, word),
            Kind::Index if 0 < slots && slots <= 983_040 => {
                self.make(alloc, slot, Kind::Index, 0, 8 * slots, word)
            }
            Kind::Index => Err(Refused::Memory),
        }
    }

    /// Makes a slot of the index at a block hold `what`, or nothing.
    pub fn change_slot(
        &mut self,
        alloc: Global,
        at: BlockNo,
        slot: u64,
        what: Option<Puid>,
    ) -> Result<(), Refused> {
        if at.0 == 0 || at.0 > 8 || !self.is_ready() {
            return Err(Refused::Memory);
        }
        let room = Room::new(alloc)?;
        let root = read_root(&mut self.disk, at)?;
        if slot >= root.size / 8 {
            return Err(Refused::Memory);
        }
        let draft = ObjectDraft::direct(room, at, &root);
        let (disk, space) = (&mut self.disk, &mut self.space);
        match what {
            Some(id) if id.block != 0 => retain(draft, disk, space, slot, id)?,
            _ => delete(draft, disk, space, slot)?,
        }
        self.finish()
    }

    /// Writes bytes into the file at a block.
    pub fn write_file(
        &mut self,
        alloc: Global,
        at: BlockNo,
        kind: FileKind,
        offset: u64,
        bytes: &[u8],
    ) -> Result<(), Refused> {
        let few = !bytes.is_empty() && bytes.len() <= 4096;
        if at.0 == 0
            || at.0 > 8
            || !few
            || offset > LIMIT - bytes.len() as u64
            || !self.is_ready()
        {
            return Err(Refused::Memory);
        }
        let room = Room::new(alloc)?;
        let root = read_root(&mut self.disk, at)?;
        let (disk, space) = (&mut self.disk, &mut self.space);
        write(Some(room), disk, space, at, kind, &root, offset, bytes, 4)?;
        self.finish()
    }

    /// Sets the size of the file at a block.
    pub fn resize_file(
        &mut self,
        alloc: Global,
        at: BlockNo,
        kind: FileKind,
        size: u64,
    ) -> Result<(), Refused> {
        if at.0 == 0 || at.0 > 8 || size > LIMIT || !self.is_ready() {
            return Err(Refused::Memory);
        }
        let room = Room::new(alloc)?;
        let (disk, space) = (&mut self.disk, &mut self.space);
        resize(Some(room), disk, space, at, kind, size, 4)?;
        self.finish()
    }

    /// Begins a draft of the file at a block, with a shadow root or without one.
    pub fn begin(
        &mut self,
        alloc: Global,
        at: BlockNo,
        is_direct: bool,
    ) -> Result<ObjectDraft, Refused> {
        if at.0 == 0 || at.0 > 8 || !self.is_ready() {
            return Err(Refused::Memory);
        }
        let room = Room::new(alloc)?;
        if is_direct {
            let root = read_root(&mut self.disk, at)?;
            return Ok(ObjectDraft::direct(room, at, &root));
        }
        ObjectDraft::begin(room, &mut self.disk, &mut self.space, at, 4)
    }

    /// Writes bytes into a draft.
    pub fn write(
        &mut self,
        draft: &mut ObjectDraft,
        offset: u64,
        bytes: &[u8],
    ) -> Result<(), Refused> {
        let (count, size) = (bytes.len() as u64, draft.size());
        if draft.at().0 >= self.disk.blocks() || size < count || size - count < offset {
            return Err(Refused::Memory);
        }
        draft.write(&mut self.disk, &mut self.space, offset, bytes, 4)
    }

    /// Sets the size of a draft.
    pub fn resize(&mut self, draft: &mut ObjectDraft, size: u64) -> Result<(), Refused> {
        if draft.at().0 >= self.disk.blocks() || size > LIMIT {
            return Err(Refused::Memory);
        }
        draft.resize(&mut self.disk, &mut self.space, size, 4)
    }

    /// Commits a draft, and finishes what is left of the commit, or aborts it.
    pub fn end(&mut self, draft: ObjectDraft, commits: bool) -> Result<(), Refused> {
        if commits {
            self.commit(draft)?;
            return self.finish();
        }
        if draft.at().0 >= self.disk.blocks() {
            return Err(Refused::Memory);
        }
        draft.abort(&mut self.disk, &mut self.space)?;
        Ok(())
    }

    /// Commits a draft, and leaves the parts past its bit.
    pub fn commit(&mut self, draft: ObjectDraft) -> Result<(), Refused> {
        let is_one = self.space.free() > 0 && self.space.unfinished() == 0;
        if draft.at().0 >= self.disk.blocks() || !is_one {
            return Err(Refused::Memory);
        }
        draft.commit(&mut self.disk, &mut self.space)?;
        Ok(())
    }

    /// Makes one part of the commit that is left, or all at once, and returns whether more are left.
    pub fn go_on(&mut self, all: bool) -> Result<bool, Refused> {
        if all {
            self.finish()?;
        } else {
            step(&mut self.disk, &mut self.space)?;
        }
        Ok(self.space.unfinished() > 0)
    }

    /// Reads `count` bytes of a draft.
    pub fn see(
        &mut self,
        alloc: Global,
        draft: &ObjectDraft,
        offset: u64,
        count: usize,
    ) -> Result<(), Refused> {
        let size = draft.size();
        if draft.at().0 >= self.disk.blocks()
            || size < count as u64
            || size - (count as u64) < offset
        {
            return Err(Refused::Memory);
        }
        let mut bytes = vec![in alloc; 0u8; count].map_err(|_| NoMemory)?;
        draft.read(&mut self.disk, offset, &mut bytes)?;
        Ok(())
    }

    /// Reads bytes of the file at a block.
    pub fn read(
        &mut self,
        alloc: Global,
        at: BlockNo,
        offset: u64,
        count: usize,
    ) -> Result<Bytes, Refused> {
        if at.0 >= self.disk.blocks() || offset > LIMIT || count as u64 > LIMIT - offset {
            return Err(Refused::Memory);
        }
        let root = read_root(&mut self.disk, at)?;
        read(alloc, &mut self.disk, at, &root, offset, count)
    }

    /// Returns what a slot of the index at a block holds.
    pub fn retrieve(&mut self, at: BlockNo, slot: u64) -> Result<Option<Puid>, Trouble> {
        if at.0 >= self.disk.blocks() || slot >= 983_040 {
            return Err(Trouble::Disk { tried: false });
        }
        let root = read_root(&mut self.disk, at)?;
        retrieve(&mut self.disk, at, &root, slot)
    }

    /// Claims a block for leaf 7 of the root index.
    pub fn claim(&mut self) -> Result<(), Refused> {
        self.space.claim(&mut self.disk, Place::Leaf(7), 2)?;
        Ok(())
    }

    /// Makes a block Free.
    pub fn release(&mut self, at: BlockNo) -> Result<(), Trouble> {
        if at.0 >= self.disk.blocks() {
            return Err(Trouble::Disk { tried: false });
        }
        self.space.release(&mut self.disk, at)
    }

    /// Finds the least Free block.
    pub fn find(&mut self) -> Result<(), Refused> {
        self.space.find(&mut self.disk)?;
        Ok(())
    }
}
