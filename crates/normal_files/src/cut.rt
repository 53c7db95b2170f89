//! The end of a file that is set to less: the leaf in which it ends, and the way to the last leaf that it may keep.
ghost use Rattle.std.specs.Prelude.{◌≡◌, ◌<◌, ◌≤◌, ℕ, true, false, IsTrue, IfErr, IfOk, OnOk};
ghost use Rattle.block_tree.specs.Along.{IsNearTree};
ghost use Rattle.block_tree.specs.Pointers.{leaf_limit, leaf_pointers, node_pointers, size_limit};
ghost use Rattle.block_tree.specs.Reads.{HasStoppedBy, is_damage};
ghost use Rattle.block_tree.specs.Root.{root_spelling};
ghost use Rattle.block_tree.specs.Tree.{bytes_in};
ghost use Rattle.cfs_base.specs.Calls.{HasTried, MakesAtMost, OnlyReads};
ghost use Rattle.cfs_base.specs.Refusals.{trouble_had_tried};
ghost use Rattle.cfs_base.specs.Run.{IsSettled, Leaves as LeavesOf, Tells, left_now};
ghost use Rattle.cfs_base.specs.declared.refusal.Trouble.TheVariants as troubles;
ghost use Rattle.leaf_changes.specs.Bytes.{cut};
ghost use Rattle.leaf_changes.specs.Tops.{root_top};
ghost use Rattle.normal_files.specs.Cuts as spec;
ghost use Rattle.normal_files.specs.Refusal.{IsTrouble};

use crate::flush::flush;
use crate::in_place::write_block;
use crate::lowest::way_node;
use block_tree::{LEAVES, Node, Root, Way, node_of, read_block};
use cfs_base::{Block, BlockNo, Disk, Trouble};
use leaf_changes::{cut_leaf, leaves_in};

/// Returns the last leaf that a file of this size may keep, or leaf 0 if it may keep none.
fn last_leaf(size: u64) -> u32
    requires { size ≤ size_limit }
    ensures leaf { result ≡ spec.last_leaf size }
    ensures few { result < leaf_limit }
{
    leaves_in(size).saturating_sub(1)
}

/// Returns the node of that leaf.
pub(crate) fn last_node(size: u64) -> u32
    requires { size ≤ size_limit }
    ensures node { result ≡ spec.last_node size }
    ensures few { result < node_pointers.count }
{
    node_of(last_leaf(size))
}

/// Returns the place in that node from which on a file of this size has no leaf.
pub(crate) fn cut_place(size: u64) -> u32
    requires { size ≤ size_limit }
    ensures place { result ≡ spec.cut_place size }
    ensures few { result ≤ leaf_pointers.count }
{
    leaves_in(size) - LEAVES as u32 * last_node(size)
}

/// The end of a file, as it is and as it is to be.
#[derive(Clone, Copy)]
pub(crate) struct End {
    /// The way to the last leaf that it may keep, as it is.
    pub way: Way,
    /// That way, and the root, as they are to be.
    pub next: Way,
    pub root: Root,
    /// The block of the lowest node on the way, or 0 if that node is not kept.
    pub kept: u32,
    /// The block of the leaf that is cut, or 0 if none is, and what it is to hold.
    pub cut: u32,
    pub content: Block,
}

/// Returns the block of a node if it has a leaf before a place, else 0.
fn kept_block(node: &Node, place: u32, block: u32) -> u32
    requires { place ≤ leaf_pointers.count }
    ensures { spec.IsKeptNode node.now.leaves place block result }
{
    for before in 0..place {
        if node.leaves[before as usize] != 0 {
            return block;
        }
    }
    0
}

/// Returns the block of the leaf within which a file of this size ends, given the block of the file's last leaf.
fn cut_block(size: u64, block: u32) -> u32
    ensures block { result ≡ spec.cut_block size block }
    ensures near { (blocks : ℕ) → block < blocks → result < blocks }
{
    if size % 512 == 0 {
        return 0;
    }
    block
}

/// Returns what that leaf is to hold.
fn cut_content<D: Disk>(disk: &mut D, block: u32, size: u64, fill: u8) -> Result<Block, Trouble>
    requires { block < D.blocks disk.old }
    ensures content { Tells D.Disk disk.old
        → IfOk result (λ content. content ≡ cut size fill (bytes_in (D.content disk.old) fill block)) }
    ensures refused { IfErr result (HasStoppedBy D.Disk disk.old disk.new) }
    ensures untried { IfErr result (λ trouble. trouble_had_tried trouble ≡ false) }
    ensures reads { OnlyReads D.Disk 1 disk.old disk.new }
{
    let mut content = read_block(disk, block, fill)?;
    cut_leaf(&mut content, size, fill);
    Ok(content)
}

/// Reads the end of the file with this root, as it is and as it is to be with this size.
///
/// `Damaged` as in `Way::get`.
pub(crate) fn read_end<D: Disk>(
    disk: &mut D,
    at: BlockNo,
    root: &Root,
    size: u64,
) -> Result<End, Trouble>
    requires some { 0 < D.blocks disk.old }
    requires size { size ≤ size_limit }
    ensures read { IfOk result (spec.IsReadEnd (D.blocks disk.old) root.now size) }
    ensures end { Tells D.Disk disk.old → IfOk result (spec.IsEnd (D.content disk.old) root.now size) }
    ensures refused { IfErr result (IsTrouble D.Disk (root_top at.0 root.now) disk.old disk.new) }
    ensures untried { IfErr result (λ trouble. trouble_had_tried trouble ≡ false) }
    ensures sound { Tells D.Disk disk.old
        → IsNearTree (D.blocks disk.old) (D.content disk.old) (root_spelling root.now)
        → IfErr result (λ trouble. is_damage trouble ≡ false) }
    ensures reads { OnlyReads D.Disk 2 disk.old disk.new }
{
    let mut way = Way::new();
    let last = way.get(disk, at, root, last_leaf(size))?;
    let cut = cut_block(size, last);
    let content = cut_content(disk, cut, size, root.fill)?;
    let place = cut_place(size);
    let kept = kept_block(way_node(&way), place, root.nodes[last_node(size) as usize]);
    let mut next = way;
    let mut next_root = *root;
    next_root.size = size;
    next.cut(&mut next_root, place, [kept]);
    Ok(End {
        way,
        next,
        root: next_root,
        kept,
        cut,
        content,
    })
}

/// Writes a block, unless it is 0.
fn put_at<D: Disk>(disk: &mut D, block: u32, content: &Block) -> Result<(), Trouble>
    requires { block < D.blocks disk.old }
    ensures done { OnOk result (D.content disk.new ≡ spec.put_at (D.content disk.old) block content.now) }
    ensures told { OnOk result ((b : ℕ) → IsTrue (D.told disk.old b) → IsTrue (D.told disk.new b)) }
    ensures images { LeavesOf D.Disk disk.old disk.new (spec.MayPutBlock (left_now D.Disk disk.old) block content.now) }
    ensures tried { IfErr result (λ t. t ≡ troubles.Disk true) }
    ensures stopped { IfErr result (HasStoppedBy D.Disk disk.old disk.new) }
    ensures calls { MakesAtMost D.Disk 1 1 disk.old disk.new }
{
    if block == 0 {
        return Ok(());
    }
    write_block(disk, block, content)
}

/// Cuts the leaf in which a file is to end, and writes the last node that it keeps. Both survive a crash then.
pub(crate) fn trim<D: Disk>(disk: &mut D, end: &End) -> Result<(), Trouble>
    requires cut { end.now.cut < D.blocks disk.old }
    requires kept { end.now.kept < D.blocks disk.old }
    ensures done { OnOk result (D.content disk.new ≡ spec.trimmed (D.content disk.old) end.now) }
    ensures settled { Tells D.Disk disk.old → OnOk result (IsSettled D.Disk disk.new) }
    ensures told { OnOk result ((b : ℕ) → IsTrue (D.told disk.old b) → IsTrue (D.told disk.new b)) }
    ensures images { LeavesOf D.Disk disk.old disk.new (spec.MayTrim (left_now D.Disk disk.old) end.now) }
    ensures made { OnOk result (HasTried D.Disk disk.old disk.new) }
    ensures tried { IfErr result (λ t. t ≡ troubles.Disk true) }
    ensures stopped { IfErr result (HasStoppedBy D.Disk disk.old disk.new) }
    ensures calls { MakesAtMost D.Disk 3 3 disk.old disk.new }
{
    put_at(disk, end.cut, &end.content)?;
    put_at(disk, end.kept, &way_node(&end.next).encode())?;
    flush(disk)
}
