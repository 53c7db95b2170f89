//! How a draft begins.
ghost use Rattle.std.specs.Prelude.{◌≡◌, ◌≢◌, ◌<◌, ◌≤◌, ◌*◌, length, None};
ghost use Rattle.block_tree.specs.Pointers.{leaf_limit, node_pointers, size_limit};
ghost use Rattle.special_files.specs.Begins.{BeginCall, BeginsDraft};
ghost use Rattle.special_files.specs.Drafting.{begun_at, none_of, number_if};
ghost use Rattle.special_files.specs.View.{GoesTo, ObjectView};

use crate::blocks::Blocks;
use crate::draft::ObjectDraft;
use crate::flags::Flags;
use block_tree::{LEAF_LIMIT, NODES, Root, read_root};
use cfs_base::{BlockNo, Disk, NoMemory, Place, Refused};
use cyl_alloc::Space;
use std::alloc::Global;
use std::marker::Model;

/// All memory that a draft will ever need, and the space that keeps its commit.
///
/// A draft that begins with a room takes no more memory.
#[derive(Debug, Drop)]
pub struct Room {
    leaves: Flags,
    nodes: Flags,
    taken: Blocks,
    dropped: Blocks,
}

impl Model for Room {
    ghost use Rattle.std.specs.Prelude.{◌≡◌};
    ghost use Rattle.block_tree.specs.Pointers.{leaf_limit, node_pointers};
    ghost use Rattle.special_files.specs.Drafting.{none_of};

    ghost Value = { Unit {0} };

    ghost view = { λ _. tt };

    ghost invariant = { λ a. (a.leaves ≡ none_of leaf_limit) × (a.nodes ≡ none_of node_pointers.count) };
}

impl Room {
    /// Takes the memory.
    pub fn new(alloc: Global) -> Result<Room, NoMemory> {
        let leaves = Flags::none(alloc, LEAF_LIMIT as usize)?;
        let nodes = Flags::none(alloc, NODES)?;
        let taken = Blocks::new(alloc)?;
        let dropped = Blocks::new(alloc)?;
        Ok(Room {
            leaves,
            nodes,
            taken,
            dropped,
        })
    }

    /// Makes the draft that equals the object with this root.
    fn draft(self, at: BlockNo, shadow: Option<BlockNo>, root: Root) -> ObjectDraft
        requires some { at.0 ≢ 0 }
        requires limit { root.size ≤ size_limit }
        ensures { result ≡ begun_at at.0 (number_if shadow) root }
    {
        ObjectDraft {
            at,
            shadow,
            own: root,
            root,
            leaves: self.leaves,
            nodes: self.nodes,
            created: None,
            taken: self.taken,
            dropped: self.dropped,
        }
    }
}

impl ObjectDraft {
    /// Begins a draft with its shadow root, for which the least-numbered Free block is claimed.
    ///
    /// `Full` if fewer blocks are Free than 1 plus the floor. Nothing was written then. `Damaged` names the root
    /// block, with code 3, if it is no root block, or the map in which no Free block was found, with code 2 if it is
    /// no map. Never `Memory`.
    pub fn begin<D: Disk>(
        room: Room,
        disk: &mut D,
        space: &mut Space,
        at: BlockNo,
        floor: u32,
    ) -> Result<ObjectDraft, Refused>
        requires some { at.0 ≢ 0 }
        requires on_disk { at.0 < D.blocks disk.old }
        requires size { D.blocks disk.old ≡ 64 * length space.old.free }
        ensures begins { (v : ObjectView D.Disk disk.old space.old at.0)
            → GoesTo D.Disk v.graph (BeginsDraft v disk.new space.new) disk.old disk.new result }
        ensures call { BeginCall D.Disk at.0 floor disk.old disk.new space.old space.new result }
    {
        space.has_room(1, floor)?;
        let root = read_root(disk, at)?;
        let shadow = space.intend(disk, Place::ShadowRoot, at.0)?;
        Ok(room.draft(at, Some(shadow), root))
    }

    /// Begins a draft without a shadow root, which equals the object with this root at a block.
    ///
    /// `commit` claims the shadow root. It is the object's draft if the block holds that root.
    pub fn direct(room: Room, at: BlockNo, root: &Root) -> ObjectDraft
        requires some { at.0 ≢ 0 }
        requires limit { root.now.size ≤ size_limit }
        ensures { result ≡ begun_at at.0 None root.now }
    {
        room.draft(at, None, *root)
    }
}
