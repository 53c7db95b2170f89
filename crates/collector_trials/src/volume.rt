//! A volume of one cylinder on which a collector works. Its calls return `None` for want of memory.
ghost use Rattle.std.specs.Prelude.{◌≡◌, ◌+◌, ◌<◌, ◌≤◌, length, IfOk, IfSome};
ghost use Rattle.cfs_fakes.specs.Memory.{contents};
ghost use Rattle.collector_steps.specs.Collecting.{volume_of};

use crate::blocks::{
    BLOCKS, USED, enter_leaf, free_in, leaf_of, map_of, node_of, root_block, root_of,
};
use crate::graph::{OBJECTS, Object, SLOTS, Set, Slot, World};
use crate::judge::objects_in;
use cfs_base::{Block, BlockNo, Disk, Kind};
use cfs_fakes::MemoryDisk;
use collector_steps::{Collector, Phase};
use cyl_alloc::Space;
use puid_space::Directory;
use std::alloc::Global;

/// Where the pointers begin in a root.
const NODES: usize = 32;

/// What a step of the collector did.
#[derive(Clone, Copy)]
pub enum Made {
    Marked,
    Condemned(Set),
    /// What was condemned is no increasing list of objects.
    Disordered,
    Swept,
    Ended,
}

/// A disk, what is Free on it, the identifiers of its objects, and a collector.
#[derive(Drop)]
pub struct Volume {
    disk: MemoryDisk,
    space: Space,
    directory: Directory,
    collector: Collector,
    ghost blocks: { length (contents disk) ≡ 64 },
    ghost cylinders: { length space.free ≡ 1 },
    ghost room: { directory.room ≤ 64 },
    ghost marks: { volume_of collector ≡ 64 },
}

impl Volume {
    /// Makes a volume on which all is Free, with no object.
    pub fn new(alloc: Global) -> Option<Volume> {
        let mut disk = MemoryDisk::new(alloc, BLOCKS).ok()?;
        let space = Space::counted(alloc, &mut disk, 1).ok()?;
        let mut directory = Directory::new(alloc);
        directory.reserve(BLOCKS).ok()?;
        let collector = Collector::new(alloc, BLOCKS).ok()?;
        Some(Volume {
            disk,
            space,
            directory,
            collector,
        })
    }

    /// Returns the blocks of a world's graph, which are the first of the disk.
    ///
    /// Each object has its root, and of its leaves those that are held.
    pub fn laid(&mut self, alloc: Global, world: &World) -> Option<Vec<Block>> {
        for at in 0..USED {
            self.write(at, &Block::zero())?;
        }
        self.write(0, &map_of(world))?;
        for number in 0..OBJECTS {
            if let Some(kind) = world.kinds[number] {
                let object = Object { number };
                self.write(root_of(object), &root_block(object, kind))?;
            }
        }
        for number in 0..SLOTS {
            if world.held[number] {
                self.put(Slot { number }, world.filled[number])?;
            }
        }
        let mut blocks = Vec::new(alloc);
        for at in 0..USED {
            blocks.push(self.read(at)?).ok()?;
        }
        Some(blocks)
    }

    /// Puts these blocks on the disk again, with the world's objects and no collection.
    pub fn reset(&mut self, alloc: Global, blocks: &[Block], world: &World) -> Option<()> {
        for (at, block) in (0..USED).zip(blocks) {
            self.write(at, block)?;
        }
        self.space = Space::counted(alloc, &mut self.disk, 1).ok()?;
        self.collector = Collector::new(alloc, BLOCKS).ok()?;
        for number in 0..OBJECTS {
            self.name(Object { number }, world.kinds[number])?;
        }
        Some(())
    }

    /// Enters an object with this kind, or removes it.
    fn name(&mut self, object: Object, kind: Option<Kind>) -> Option<()> {
        let id = object.id();
        let _ = self.directory.remove(id);
        let Some(kind) = kind else {
            return Some(());
        };
        if id.block >= self.directory.room() || self.directory.has_root(id.block) {
            return None;
        }
        self.directory.add(id, kind);
        Some(())
    }

    fn read(&mut self, at: u32) -> Option<Block> {
        if at >= self.disk.blocks() {
            return None;
        }
        let mut block = Block::zero();
        self.disk.read(BlockNo(at), &mut block).ok()?;
        Some(block)
    }

    fn write(&mut self, at: u32, block: &Block) -> Option<()> {
        if at >= self.disk.blocks() {
            return None;
        }
        self.disk.write(BlockNo(at), block).ok()
    }

    /// Makes a pointer in a block lead to another.
    fn point(&mut self, at: u32, byte: usize, to: u32) -> Option<()>
        requires { byte + 4 ≤ 512 }
    {
        let mut block = self.read(at)?;
        block.put_u32(byte, to);
        self.write(at, &block)
    }

    /// Fills or empties a slot of an index.
    ///
    /// Its leaf is claimed if it isn't held.
    pub fn put(&mut self, slot: Slot, id: Option<Object>) -> Option<()> {
        let (index, (leaf, block, byte)) = (slot.index(), leaf_of(slot));
        self.hold(slot)?;
        self.point(root_of(index), NODES, node_of(index))?;
        self.point(node_of(index), 4 * leaf as usize, block)?;
        let mut content = self.read(block)?;
        content.put_u64(byte, id.map_or(0, |id| id.id().number()));
        self.write(block, &content)
    }

    /// Takes the leaf that has a slot, and its node.
    fn hold(&mut self, slot: Slot) -> Option<()> {
        let mut map = self.read(0)?;
        let before = free_in(&map);
        enter_leaf(&mut map, slot);
        for _ in free_in(&map)..before {
            self.space.took(BlockNo(0));
        }
        self.write(0, &map)
    }

    /// Adds an object that was put into an index or opened as a rescue, while a collection marks.
    pub fn rescue(&mut self, index: Option<Object>, id: Object) -> Option<()> {
        if self.collector.phase() == Phase::Marking {
            self.collector.reserve().ok()?;
            self.collector
                .rescue(index.map(|index| index.id()), id.id());
        }
        Some(())
    }

    /// Begins a collection with these objects, one of which is the root.
    pub fn begin(&mut self, starts: &Set) -> Option<()> {
        // those that are open, and then the root
        let mut roots = [Object { number: 0 }.id(); OBJECTS];
        let mut count = 0;
        for number in 1..OBJECTS {
            if starts[number] && count < OBJECTS {
                roots[count] = Object { number }.id();
                count += 1;
            }
        }
        if self.collector.phase() != Phase::Idle {
            return None;
        }
        self.collector.begin(&roots, &self.directory).ok()
    }

    /// Makes the next step of the collection.
    pub fn step(&mut self) -> Option<Made> {
        match self.collector.phase() {
            Phase::Idle => None,
            Phase::Marking => self.mark(),
            Phase::Inner { .. } => {
                self.collector
                    .sweep_inner(&mut self.disk, &mut self.space, &self.directory)
                    .ok()?;
                Some(Made::Swept)
            }
            Phase::Roots { .. } => {
                self.collector
                    .sweep_roots(&mut self.disk, &mut self.space, &self.directory)
                    .ok()?;
                Some(Made::Swept)
            }
            Phase::Swept => {
                self.collector.end();
                Some(Made::Ended)
            }
        }
    }

    /// Makes a step that marks: rescues come first, then what is grey.
    fn mark(&mut self) -> Option<Made> {
        if self.collector.phase() != Phase::Marking {
            return None;
        }
        if self.collector.has_rescue() {
            self.collector.take(&self.directory);
            return Some(Made::Marked);
        }
        if self.collector.has_grey() {
            self.collector
                .scan(&mut self.disk, &self.directory, None)
                .ok()?;
            return Some(Made::Marked);
        }
        let taken = self.collector.condemn(&mut self.directory);
        Some(objects_in(taken.as_slice()).map_or(Made::Disordered, Made::Condemned))
    }

    /// Returns whether each block of the world's graph has its entry, and all others are Free and counted.
    pub fn is_right(&mut self, world: &World) -> Option<bool> {
        let map = self.read(0)?;
        Some(map == map_of(world) && self.space.free() == free_in(&map))
    }
}
