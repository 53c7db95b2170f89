//! Roots that are to be copied, kept in five bytes for each root and each of its nodes.
ghost use Rattle.std.specs.Prelude.{◌≡◌, ℕ, ◌+◌, ◌<◌, ◌^◌, List, ◌∷◌, ◌++◌, None, Some, slice_get, IfSome, IsSome};
ghost use Rattle.std.specs.Prelude.{OnOk};
ghost use Rattle.block_tree.specs.Root.{IsGoodRoot};
ghost use Rattle.block_tree.specs.declared.root.Root.{Root};
ghost use Rattle.cfs_base.specs.Disk.{Image};
ghost use Rattle.cfs_recover.specs.Copies as spec;
ghost use Rattle.cfs_recover.specs.Walk.{IsCopy};
ghost use Rattle.cfs_recover.specs.declared.found.Found.{Found};

use crate::head::Head;
use block_tree::{NODES, Root};
use cfs_base::{Kind, NoMemory};

/// A root block, and the root by which its object is read, which is in another block.
#[derive(Clone, Copy, Debug, PartialEq, Eq)]
pub(crate) struct Copied {
    pub block: u32,
    pub root: Root,
}

/// Five bytes of what is kept of a root.
///
/// For each node they are its number and its block. A piece with the number `HEAD` comes before them, and has the
/// fill byte and the last three bytes of the size. The kind and the word are those of the object's identifier.
#[derive(Clone, Copy, Debug)]
pub(crate) struct Piece {
    pub number: u8,
    pub bytes: [u8; 4],
}

/// The number of a piece that begins a root.
const HEAD: u8 = u8::MAX;

/// Returns the piece that begins a root.
fn head_piece(root: &Root) -> Piece
    ensures { result ≡ spec.head_piece root.now }
{
    let size = root.size.to_be_bytes();
    Piece {
        number: HEAD,
        bytes: [root.fill, size[5], size[6], size[7]],
    }
}

/// Keeps a root.
fn keep_root(kept: &mut Vec<Piece>, root: &Root) -> Result<(), NoMemory>
    ensures { OnOk result (kept.new.items ≡ kept.old.items ++ spec.pieces_of root.now) }
{
    kept.push(head_piece(root))?;
    for number in 0..NODES as u8 {
        let block = root.nodes[number as usize];
        if block == 0 {
            continue;
        }
        kept.push(Piece {
            number,
            bytes: block.to_be_bytes(),
        })?;
    }
    Ok(())
}

/// Keeps the root by which an object is read, if it is in another block than the object's root block.
pub(crate) fn note_copy(kept: &mut Vec<Piece>, block: u32, head: &Head) -> Result<(), NoMemory>
    ensures { (image : Image) (found : List Found) (done : ℕ) → spec.HasKept image found done kept.old.items
        → (x : Found) → slice_get found done ≡ Some x → x.block ≡ block → IsCopy image block head.now
        → ((j : ℕ) (y : Found) → slice_get found j ≡ Some y → y.block ≡ block → j ≡ done)
        → OnOk result (spec.HasKept image found (done + 1) kept.new.items) }
{
    if head.from == block {
        return Ok(());
    }
    keep_root(kept, &head.root)?;
    Ok(())
}

/// Returns the block of the node with this number, if the first piece is that node's, and the pieces that follow.
fn next_node(kept: &[Piece], number: u8) -> Option<(u32, &[Piece])>
    ensures some { (block : ℕ) (rest : List spec.Piece) → block < 2 ^ 32
        → kept.now ≡ spec.node_piece number block ∷ rest
        → IsSome result × IfSome result (λ r. (r.0 ≡ block) × (r.1.now ≡ rest)) }
    ensures none { spec.BeginsWithout number kept.now → result ≡ None }
{
    let (first, rest) = kept.split_first()?;
    if first.number != number {
        return None;
    }
    Some((u32::from_be_bytes(first.bytes), rest))
}

/// Returns the root of this kind and word that begins the pieces, and the pieces that follow.
pub(crate) fn first_root(kept: &[Piece], kind: Kind, word: u32) -> Option<(Root, &[Piece])>
    ensures { (root : Root) (rest : List spec.Piece) → IsGoodRoot root → root.kind ≡ kind → root.word ≡ word
        → kept.now ≡ spec.pieces_of root ++ rest → spec.BeginsAnew rest
        → IsSome result × IfSome result (λ r. (r.0 ≡ root) × (r.1.now ≡ rest)) }
{
    let (head, mut rest) = kept.split_first()?;
    let [fill, high, middle, low] = head.bytes;
    let mut nodes = [0; NODES];
    for number in 0..NODES as u8 {
        let Some((block, more)) = next_node(rest, number) else {
            continue;
        };
        nodes[number as usize] = block;
        rest = more;
    }
    let root = Root {
        kind,
        fill,
        word,
        size: u64::from_be_bytes([0, 0, 0, 0, 0, high, middle, low]),
        nodes,
    };
    Some((root, rest))
}
