//! A disk whose blocks are computed.
ghost use Rattle.std.specs.Prelude.{◌≡◌, ◌*◌, ◌^◌, ◌<◌, ◌≤◌, IfSome};

use cfs_base::{Block, BlockNo, Disk, Failed, Kind, Puid};

/// How many objects an index refers to.
const FAN: u64 = 64;

/// A disk of a sound volume whose objects are a tree.
///
/// Object `k` refers to the objects from `64 k + 1` to `64 k + 64`, as far as they are among the kept. Nothing refers
/// to the others. The disk tells nothing, and keeps nothing of what is written.
#[derive(Drop)]
pub struct Tree {
    cylinders: u32,
    objects: u32,
    kept: u32,
    calls: u64,
    tries: u64,
    ghost size: { cylinders ≤ 65536 },
}

/// What a block is.
#[derive(Clone, Copy)]
enum Content {
    Reserved,
    Root { object: u64 },
    Node { index: u64 },
    Leaf { index: u64 },
    Free,
}

/// What the label begins with: its magic, and the version.
const MAGIC: u32 = 0x4346_5331;

const VERSION: u32 = 1;

/// The first half of a map's entry of a block that no object has, of a root, of node 0 and of leaf 0.
const RESERVED: u32 = 0x0100_0000;

const ROOT: u32 = 0x0101_0000;

const NODE: u32 = 0x0103_0000;

const LEAF: u32 = 0x0104_0000;

/// Returns the block with number `n`, from 0, among those that aren't a cylinder's map.
fn block_of(n: u64) -> u32 {
    let n = n.min(63 * 65_536 - 1);
    (64 * (n / 63) + n % 63 + 1) as u32
}

/// Returns the identifier of an object.
///
/// Block 1 is the label, and the roots of all objects follow.
pub fn id_of(object: u32) -> Puid {
    Puid {
        block: block_of(u64::from(object) + 1),
        word: object,
    }
}

impl Tree {
    /// Makes the disk, or returns `None` if the objects don't fit.
    pub fn new(cylinders: u32, objects: u32, kept: u32) -> Option<Tree>
        requires { cylinders ≤ 65536 }
        ensures { IfSome result (λ disk. disk.cylinders ≡ cylinders) }
    {
        let tree = Tree {
            cylinders,
            objects,
            kept,
            calls: 0,
            tries: 0,
        };
        let blocks = u64::from(objects) + 2 * tree.indices() + 1;
        (kept <= objects && blocks <= 63 * u64::from(cylinders)).then_some(tree)
    }

    /// Returns how many objects are indices that refer to others.
    fn indices(&self) -> u64
        ensures { result < 2 ^ 32 }
    {
        (u64::from(self.kept) + FAN - 2) / FAN
    }

    /// Returns the kind of an object.
    pub fn kind_of(&self, object: u32) -> Kind {
        if u64::from(object) < self.indices() {
            Kind::Index
        } else {
            Kind::Normal
        }
    }

    /// Returns what a block is.
    ///
    /// An index's node and its leaf follow the roots, two blocks for each index.
    fn content(&self, block: u32) -> Content {
        let block = u64::from(block);
        let objects = u64::from(self.objects);
        let n = block / 64 * 63 + block % 64;
        if block % 64 == 0 || n <= 1 {
            return Content::Reserved;
        }
        if n <= objects + 1 {
            return Content::Root { object: n - 2 };
        }
        let past = n - objects - 2;
        let index = past / 2;
        if index >= self.indices() {
            return Content::Free;
        }
        match past % 2 {
            0 => Content::Node { index },
            _ => Content::Leaf { index },
        }
    }

    fn node_of(&self, index: u64) -> u32 {
        block_of(u64::from(self.objects) + 1 + 2 * index.min(1 << 32))
    }

    fn leaf_of(&self, index: u64) -> u32 {
        block_of(u64::from(self.objects) + 2 + 2 * index.min(1 << 32))
    }

    /// Returns what the map says of a block: its place, and the root block of the object that has it.
    fn entry(&self, block: u32) -> (u32, u32) {
        match self.content(block) {
            Content::Reserved => (RESERVED, 0),
            Content::Root { .. } => (ROOT, block),
            Content::Node { index } => (NODE, block_of(index.saturating_add(1))),
            Content::Leaf { index } => (LEAF, block_of(index.saturating_add(1))),
            Content::Free => (0, 0),
        }
    }

    fn map(&self, cylinder: u32) -> Block {
        let mut map = Block::zero();
        for place in 0..64u8 {
            let block = cylinder.saturating_mul(64).saturating_add(u32::from(place));
            let (what, owner) = self.entry(block);
            map.put_u32(8 * place as usize, what);
            map.put_u32(8 * place as usize + 4, owner);
        }
        map
    }

    /// Returns the label. Object 0 is the root.
    fn label(&self) -> Block {
        let mut label = Block::zero();
        label.put_u32(0, MAGIC);
        label.put_u32(4, VERSION);
        label.put_u32(8, self.cylinders);
        label.put_u64(12, id_of(0).number());
        label
    }

    fn root(&self, object: u64) -> Block {
        let mut root = Block::zero();
        root.put_u16(0, 0x0100);
        root.put_u32(4, (object & 0xffff_ffff) as u32);
        if object < self.indices() {
            root.put_u16(0, 0x0300);
            root.put_u64(8, 8 * FAN);
            root.put_u32(32, self.node_of(object));
        }
        root
    }

    fn node(&self, index: u64) -> Block {
        let mut node = Block::zero();
        node.put_u32(0, self.leaf_of(index));
        node
    }

    fn leaf(&self, index: u64) -> Block {
        let mut leaf = Block::zero();
        for slot in 0..64 {
            let object = FAN * index.min(1 << 32) + slot as u64 + 1;
            if object < u64::from(self.kept) {
                leaf.put_u64(8 * slot, id_of((object & 0xffff_ffff) as u32).number());
            }
        }
        leaf
    }
}

impl Disk for Tree {
    ghost use Rattle.std.specs.Prelude.{[], false, ◌*◌};

    ghost blocks = { λ d. 64 * d.cylinders };

    ghost moment = { λ d. d.calls };

    ghost calls = { λ d. d.calls };

    ghost tries = { λ d. d.tries };

    ghost faults = { λ d. 0 };

    ghost only_honest = { λ d n h. h };

    ghost sized = { λ d h. Prim.cc };

    ghost of_blocks = { λ d h. Prim.cc };

    ghost left_sized = { λ d t c left. absurd left };

    fn blocks(&self) -> u32 {
        64 * self.cylinders
    }

    fn moment(&self) -> u64 {
        self.calls
    }

    fn calls(&self) -> u64 {
        self.calls
    }

    fn read(&mut self, at: BlockNo, into: &mut Block) -> Result<(), Failed> {
        self.calls = self.calls.saturating_add(1);
        *into = match self.content(at.0) {
            Content::Reserved if at.0 == 1 => self.label(),
            Content::Reserved => self.map(at.0 / 64),
            Content::Root { object } => self.root(object),
            Content::Node { index } => self.node(index),
            Content::Leaf { index } => self.leaf(index),
            Content::Free => Block::zero(),
        };
        Ok(())
    }

    fn write(&mut self, _at: BlockNo, _from: &Block) -> Result<(), Failed> {
        self.calls = self.calls.saturating_add(1);
        self.tries = self.tries.saturating_add(1);
        Ok(())
    }

    fn barrier(&mut self) -> Result<(), Failed> {
        self.calls = self.calls.saturating_add(1);
        self.tries = self.tries.saturating_add(1);
        Ok(())
    }
}
