//! One step over the held leaves of a tree.
ghost use Rattle.std.specs.Prelude.{◌≡◌, ◌≢◌, ℕ, ◌+◌, ◌*◌, ◌^◌, ◌<◌, ◌≤◌, length, get_or, IfErr, IfOk};
ghost use Rattle.std.specs.Prelude.{IfSome, IsFalse, IsTrue};
ghost use Rattle.cfs_base.specs.Calls.{OnlyReads};
ghost use Rattle.cfs_base.specs.Disk.{Image};
ghost use Rattle.cfs_base.specs.Run.{Tells};
ghost use Rattle.block_tree.specs.Pointers.{leaf_limit, levels_below, node_levels};
ghost use Rattle.block_tree.specs.Pointers.{width as width_of};
ghost use Rattle.block_tree.specs.Reads.{IsFault};
ghost use Rattle.block_tree.specs.Root.{root_spelling};
ghost use Rattle.block_tree.specs.Step.{IsFirstSet, IsLaterBase, IsPastBelow, IsPlaced, IsStepBelow, IsStepped};
ghost use Rattle.block_tree.specs.Step.{IsStepWithin, IsSureStep, NoneHeld, NoneSet, SomeHeld, SomeSet, step_at, upto};
ghost use Rattle.block_tree.specs.Tree.{EachLeaf, HasNoDeadEnd, HasNearPath, IsLeafPointer, leaf_count};
ghost use Rattle.block_tree.specs.Walk.{IsFirstPast};

use crate::fault::TreeFault;
use crate::follow::{Pointer, node_at};
use crate::leaf::LEAF_LIMIT;
use crate::node::LEAVES;
use crate::root::{NODE_LEVELS, NODES, Root};
use crate::walk::HeldLeaf;
use cfs_base::Disk;

/// A held leaf, and where the pointer to it is.
#[derive(Clone, Copy, Debug, PartialEq, Eq)]
pub struct HeldStep {
    /// The leaf.
    pub held: HeldLeaf,
    /// The node that has the pointer to the leaf, or `None` if the root has it.
    pub holder: Option<u32>,
}

/// The result of a step.
#[derive(Clone, Copy, Debug, PartialEq, Eq)]
pub struct LeafStep {
    /// The held leaf, if one was found.
    pub found: Option<HeldStep>,
    /// The leaf from which the next is to be looked for, if there may be one.
    pub next: Option<u32>,
}

impl HeldStep {
    ghost use Rattle.std.specs.Prelude.{◌≡◌};

    /// Returns the pointer to the leaf.
    pub fn pointer(&self) -> Pointer
        ensures { result ≡ record { holder = self.now.holder; block = self.now.held.block } }
    {
        Pointer {
            holder: self.holder,
            block: self.held.block,
        }
    }
}

/// Returns the first place, beginning at `from`, with a pointer that isn't 0.
fn first_set(pointers: &[u32], from: usize) -> Option<usize>
    ensures { IsFirstSet pointers.now from result }
{
    for place in from..pointers.len() {
        if pointers[place] != 0 {
            return Some(place);
        }
    }
    None
}

/// Returns whether a pointer from a place on isn't 0, computed without a branch on the pointers.
fn has_set(pointers: &[u32], from: usize) -> bool
    ensures some { IsTrue result → SomeSet pointers.now from }
    ensures none { IsFalse result → NoneSet pointers.now from }
    ensures fit { (k : ℕ) → get_or pointers.now k 0 < 2 ^ 32 }
{
    let mut any = false;
    for place in from..pointers.len() {
        any = any | (pointers[place] != 0);
    }
    any
}

/// Returns the first leaf below the next set pointer after a place.
fn later(pointers: &[u32], place: usize, width: u32) -> Option<u32>
    requires some { 0 < width }
    requires place { place < length pointers.now }
    requires few { length pointers.now * width ≤ leaf_limit }
    ensures { IsLaterBase pointers.now place width result }
{
    match first_set(pointers, place + 1) {
        Some(next) => Some(next as u32 * width),
        None => None,
    }
}

/// Turns a step among the leaves below one pointer into one among the leaves below all.
///
/// `base` is the first of those leaves.
fn above(base: u32, later: Option<u32>, below: LeafStep) -> LeafStep
    requires found { IfSome below.found (λ step. base + step.held.leaf < leaf_limit) }
    requires next { IfSome below.next (λ next. base + next < leaf_limit) }
    ensures { result ≡ step_at base later below }
{
    let found = match below.found {
        Some(step) => Some(HeldStep {
            held: HeldLeaf {
                leaf: base + step.held.leaf,
                block: step.held.block,
            },
            holder: step.holder,
        }),
        None => None,
    };
    let next = match below.next {
        Some(next) => Some(base + next),
        None => later,
    };
    LeafStep { found, next }
}

/// Looks for the first held leaf at or after the given one, among those below some pointers.
///
/// It also returns where the next is to be looked for. The pointers are `height` levels of nodes above the leaves,
/// and each is above `width` of them.
fn step_below<D: Disk>(
    disk: &mut D,
    pointers: &[u32],
    holder: Option<u32>,
    height: usize,
    width: u32,
    from: u32,
) -> Result<LeafStep, TreeFault>
    requires width { width ≡ width_of (levels_below height) }
    requires few { length pointers.now * width ≤ leaf_limit }
    ensures step { Tells D.Disk disk.old → IfOk result
        (IsStepBelow (D.content disk.old) (D.blocks disk.old) holder pointers.now height (length pointers.now * width)
        from) }
    ensures within { IfOk result (IsStepWithin (length pointers.now * width) from) }
    ensures refused { IfErr result (IsFault D.Disk disk.old disk.new
        (IsPastBelow (D.content disk.old) (D.blocks disk.old) holder pointers.now (levels_below height) from)) }
    ensures reads { OnlyReads D.Disk height disk.old disk.new }
    ensures fit { (k : ℕ) → get_or pointers.now k 0 < 2 ^ 32 }
{
    let Some(place) = first_set(pointers, (from / width) as usize) else {
        return Ok(LeafStep {
            found: None,
            next: None,
        });
    };
    let base = place as u32 * width;
    let later = later(pointers, place, width);
    let block = pointers[place];
    if height == 0 {
        // The pointer leads to the only leaf below it.
        let held = HeldLeaf { leaf: 0, block };
        let step = LeafStep {
            found: Some(HeldStep { held, holder }),
            next: None,
        };
        return Ok(above(base, later, step));
    }
    let node = node_at(disk, Pointer { holder, block })?;
    let below = step_below(
        disk,
        &node.leaves,
        Some(block),
        height - 1,
        width / LEAVES as u32,
        from.max(base) % width,
    )?;
    Ok(above(base, later, below))
}

/// Looks for the first held leaf at or after the given one, and returns where the next is to be looked for.
///
/// That is the next leaf itself if the same node leads to it, else the first leaf of the next block that may hold
/// one. If no leaf is found, none is held before that place. In a tree without a dead end a step that begins at 0, or
/// where the step before it said (`IsPlaced`), finds a leaf if there is one.
///
/// Makes at most one device call for each level of nodes. `BadPointer` if the pointer to a node above a leaf from
/// there on leads past the disk: it names that block, and the node that has the pointer, or `None` if the root has
/// it. `Disk` if a read fails.
pub fn step_held<D: Disk>(disk: &mut D, root: &Root, from: u32) -> Result<LeafStep, TreeFault>
    ensures step { Tells D.Disk disk.old → IfOk result (IsStepped (D.content disk.old) (root_spelling root.now) from) }
    ensures followed { Tells D.Disk disk.old → IfOk result (λ step. EachLeaf from
        (upto (leaf_count (root_spelling root.now)) step.next)
        (HasNearPath (D.content disk.old) (D.blocks disk.old) (root_spelling root.now))) }
    ensures sure { Tells D.Disk disk.old → HasNoDeadEnd (D.content disk.old) (root_spelling root.now)
        → IsPlaced (D.content disk.old) (root_spelling root.now) from → IfOk result IsSureStep }
    ensures sought { Tells D.Disk disk.old → HasNoDeadEnd (D.content disk.old) (root_spelling root.now)
        → IfOk result (λ step. IfSome step.next (λ n. IsPlaced (D.content disk.old) (root_spelling root.now) n
        × SomeHeld (D.content disk.old) (root_spelling root.now) n)) }
    // Even if nodes lead to no leaf, the leaf that is found is the tree's.
    ensures there { Tells D.Disk disk.old → IfOk result (λ step. IfSome step.found (λ s.
        IsLeafPointer (D.content disk.old) (root_spelling root.now) s.held.leaf
        (record { holder = s.holder; block = s.held.block }))) }
    ensures within { IfOk result (IsStepWithin leaf_limit from) }
    ensures refused { IfErr result (IsFault D.Disk disk.old disk.new
        (IsFirstPast (D.content disk.old) (D.blocks disk.old) (root_spelling root.now) from)) }
    ensures reads { OnlyReads D.Disk node_levels disk.old disk.new }
{
    let width = LEAF_LIMIT / NODES as u32;
    step_below(disk, &root.nodes, None, NODE_LEVELS as usize, width, from)
}

/// Returns whether the tree of a root holds a leaf. Makes no device call.
pub fn holds_any(root: &Root) -> bool
    ensures some { (image : Image) → HasNoDeadEnd image (root_spelling root.now) → IsTrue result
        → SomeHeld image (root_spelling root.now) 0 }
    ensures none { (image : Image) → IsFalse result
        → NoneHeld image (root_spelling root.now) 0 (leaf_count (root_spelling root.now)) }
{
    has_set(&root.nodes, 0)
}
