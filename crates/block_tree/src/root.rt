//! A root block.
ghost use Rattle.std.specs.Prelude.{◌≡◌, ℕ, Ok, Err, IfOk, IfErr, MatchResult};
ghost use Rattle.block_tree.specs.Pointers.{pointers_of, node_pointers};
ghost use Rattle.block_tree.specs.Root.{IsRoot, IsRootBlock, IsFirstBadByte, root_spelling};

use crate::head::{first_nonzero, head_block, is_fill, kind_of, size_of};
use crate::node::LEAVES;
use crate::pointers::{put_pointers, read_pointers};
use cfs_base::{Block, Kind};

/// How many node pointers a root has.
pub const NODES: usize = 120;

/// How many levels of nodes are below a root.
pub const NODE_LEVELS: u32 = 1;

/// The greatest size of an object in bytes.
pub const SIZE_LIMIT: u64 = 512 * (NODES * LEAVES) as u64;

/// What a root block says of its object, and the block of each of its nodes, or 0 for a node that is absent.
#[derive(Clone, Copy, Debug, PartialEq, Eq)]
pub struct Root {
    /// The kind of the object.
    pub kind: Kind,
    /// The fill byte of a file, or 0 for an index.
    pub fill: u8,
    /// The random word of the object's identifier.
    pub word: u32,
    /// The size in bytes. A slot of an index has 8 bytes.
    pub size: u64,
    /// The blocks of the nodes.
    pub nodes: [u32; NODES],
}

/// The block is no root block: the least place such that no root block begins with the bytes up to it and with it.
#[derive(Clone, Copy, Debug, PartialEq, Eq)]
pub struct BadRoot {
    /// The least such place.
    pub byte: u16,
}

impl Root {
    /// Returns the root that this block spells.
    pub fn decode(block: &Block) -> Result<Root, BadRoot>
        ensures accepted { IfOk result (IsRootBlock block.now) }
        ensures refused { IfErr result (λ e. IsFirstBadByte block.now e.byte) }
        ensures each_accepted { (root : Root) → IsRootBlock block.now root → result ≡ Ok root }
        ensures each_refused { (byte : ℕ) → IsFirstBadByte block.now byte → result ≡ Err (record { byte = byte }) }
        ensures pointers { IfOk result (λ root. root.nodes ≡ pointers_of node_pointers block.now) }
    {
        read_root(block)
    }

    /// Returns the block that spells this root.
    pub fn encode(&self) -> Block
        ensures spelled { result ≡ root_spelling self.now }
        ensures accepted { IsRoot self.now → IsRootBlock result self.now }
        ensures pointers { self.now.nodes ≡ pointers_of node_pointers result }
    {
        let mut block = head_block(self.kind, self.fill, self.word, self.size);
        put_pointers(&mut block, 8, &self.nodes);
        block
    }
}

/// Returns the root that this block spells, or the first byte at which it is invalid.
fn read_root(block: &Block) -> Result<Root, BadRoot>
    ensures { MatchResult result (IsRootBlock block.now) (λ e. IsFirstBadByte block.now e.byte) }
{
    let bytes = block.bytes();
    let Some(kind) = kind_of(bytes[0]) else {
        return Err(BadRoot { byte: 0 });
    };
    let fill = bytes[1];
    if !is_fill(kind, fill) {
        return Err(BadRoot { byte: 1 });
    }
    if let Some(i) = first_nonzero(&bytes[2..4]) {
        return Err(BadRoot { byte: 2 + i as u16 });
    }
    let word = block.u32_at(4);
    let size = match size_of(kind, block.u64_at(8)) {
        Ok(size) => size,
        Err(i) => return Err(BadRoot { byte: 8 + i }),
    };
    if let Some(i) = first_nonzero(&bytes[16..32]) {
        return Err(BadRoot {
            byte: 16 + i as u16,
        });
    }
    let mut nodes = [0; NODES];
    read_pointers(&bytes[32..], &mut nodes);
    Ok(Root {
        kind,
        fill,
        word,
        size,
        nodes,
    })
}
