//! One leaf of a grey index, read and shaded.
ghost use Rattle.std.specs.Prelude.{◌≡◌, ℕ, ◌+◌, ◌<◌, ◌≤◌, List, [], length, OnOk, OnErr, IfOk, IfErr, IfSome, Some};
ghost use Rattle.std.specs.Prelude.{None, Bool, Option, ◌*◌, false, if◌then◌else◌};
ghost use Rattle.block_tree.specs.Pointers.{leaf_limit};
ghost use Rattle.block_tree.specs.declared.root.Root as roots;
ghost use Rattle.block_tree.specs.Step.{IsHeldAmong};
ghost use Rattle.block_tree.specs.Tree.{HasNoDeadEnd, IsLeafPointer};
ghost use Rattle.cfs_base.specs.Calls.{OnlyReads};
ghost use Rattle.cfs_base.specs.Disk.{block_at};
ghost use Rattle.cfs_base.specs.Outside.{count_after};
ghost use Rattle.cfs_base.specs.Refusals.{trouble_had_tried};
ghost use Rattle.cfs_base.specs.Run.{Tells};
ghost use Rattle.cfs_base.specs.declared.identifier.Puid.{Puid};
ghost use Rattle.cfs_base.specs.declared.kind.Kind.{Kind};
ghost use Rattle.collector_marks.specs.Kept.{blocks_marked, colours_of};
ghost use Rattle.collector_steps.specs.Collecting.{Collects, IsAsBefore, Serves, colours_in, volume_of};
ghost use Rattle.collector_steps.specs.Left.{steps_left};
ghost use Rattle.block_tree.specs.Root.{root_spelling};
ghost use Rattle.collector_steps.specs.Scan.{HoldsAny, IsDamaged, IsDraftRoot, IsFoundIn, IsLeafStep, IsScanTrouble};
ghost use Rattle.collector_steps.specs.Scan.{IsTreeTrouble, after_drafted, after_own, following, ids_read};
ghost use Rattle.marking.specs.Colours.{first_grey};
ghost use Rattle.marking.specs.Leaves.{own_part};
ghost use Rattle.marking.specs.Steps.{read, scanned, step_of};
ghost use Rattle.std.specs.Option.{option_copied};
ghost use Rattle.marking.specs.declared.memory.Grey as grey;
ghost use Rattle.ufs_model.specs.Graph.{object_at};
ghost use Rattle.ufs_model.specs.State.{State};
ghost use Rattle.ufs_model.specs.declared.object.Index as index;
ghost use Rattle.ufs_model.specs.declared.object.Object.TheVariants as objects;
ghost use Rattle.vol_owners.specs.Account.{Drafts};

use crate::collector::Collector;
use crate::leaf::shade_leaf;
use crate::phase::Phase;
use block_tree::{LEAF_LIMIT, LeafStep, Root, follow_pointer, holds_any, read_root, step_held};
use cfs_base::{Block, BlockNo, Disk, Trouble};
use collector_marks::{Grey, Marks};
use puid_space::Directory;

/// Places from this one on are leaves of an index itself, and those below it are leaves of its draft.
pub(crate) const OWN_PART: u32 = LEAF_LIMIT;

/// What a step finds: what it read, if it found a leaf, and the place where the reading goes on, if it does.
#[derive(Clone, Copy, Debug)]
struct Found {
    step: LeafStep,
    next: Option<u32>,
}

/// Returns the next leaf of a tree after the one that was found, if another is held.
fn following(step: LeafStep) -> Option<u32>
    requires { IfSome step.found (λ s. s.held.leaf < leaf_limit) }
    ensures { result ≡ following step }
{
    let found = step.found?;
    match step.next {
        Some(_) => Some(found.held.leaf + 1),
        None => None,
    }
}

/// Returns where the reading goes on after a step of the index's own tree.
fn after_own(step: LeafStep) -> Option<u32>
    requires { IfSome step.found (λ s. s.held.leaf < leaf_limit) }
    ensures { result ≡ after_own step }
{
    match following(step) {
        Some(leaf) => Some(OWN_PART + leaf),
        None => None,
    }
}

/// Returns where the reading goes on after a draft's last leaf: at the index's own first leaf, if it holds one.
fn after_last(any: bool) -> Option<u32>
    ensures { result ≡ (if any then Some own_part else None) }
{
    if any { Some(OWN_PART) } else { None }
}

/// Finds the first held leaf not below the cursor, if there is one, and whether another follows.
///
/// The tree is the one with this root, which is that of the index at a block or of its draft. Makes at most 2 device
/// calls.
fn find_leaf<D: Disk>(
    disk: &mut D,
    block: u32,
    root: &Root,
    cursor: u32,
) -> Result<LeafStep, Trouble>
    ensures step { Tells D.Disk disk.old → HasNoDeadEnd (D.content disk.old) (root_spelling root.now)
        → IfOk result (IsLeafStep (D.content disk.old) (root_spelling root.now) cursor) }
    ensures there { Tells D.Disk disk.old → IfOk result (λ step. IfSome step.found (λ s.
        IsLeafPointer (D.content disk.old) (root_spelling root.now) s.held.leaf
        (record { holder = s.holder; block = s.held.block }))) }
    ensures within { IfOk result (λ step. IfSome step.found (IsHeldAmong leaf_limit cursor)) }
    ensures refused { IfErr result (IsTreeTrouble D.Disk disk.old disk.new (root_spelling root.now) block) }
    ensures untried { IfErr result (λ trouble. trouble_had_tried trouble ≡ false) }
    ensures reads { OnlyReads D.Disk 2 disk.old disk.new }
{
    let first = match step_held(disk, root, cursor) {
        Ok(step) => step,
        Err(fault) => return Err(fault.in_tree(BlockNo(block))),
    };
    if first.found.is_some() {
        return Ok(first);
    }
    // No leaf is held before the next.
    let Some(next) = first.next else {
        return Ok(first);
    };
    match step_held(disk, root, next) {
        Ok(step) => Ok(step),
        Err(fault) => Err(fault.in_tree(BlockNo(block))),
    }
}

/// Finds that leaf, and reads its content. Makes at most 3 device calls.
fn next_leaf<D: Disk>(
    disk: &mut D,
    block: u32,
    root: &Root,
    cursor: u32,
    into: &mut Block,
) -> Result<LeafStep, Trouble>
    ensures step { Tells D.Disk disk.old → HasNoDeadEnd (D.content disk.old) (root_spelling root.now)
        → IfOk result (IsLeafStep (D.content disk.old) (root_spelling root.now) cursor) }
    ensures content { Tells D.Disk disk.old → IfOk result (λ step. IfSome step.found (λ s.
        into.new ≡ block_at (D.content disk.old) s.held.block)) }
    ensures inside { IfOk result (λ step. IfSome step.found (λ s.
        (cursor ≤ s.held.leaf) × (s.held.leaf < leaf_limit))) }
    ensures refused { IfErr result (IsTreeTrouble D.Disk disk.old disk.new (root_spelling root.now) block) }
    ensures untried { IfErr result (λ trouble. trouble_had_tried trouble ≡ false) }
    ensures reads { OnlyReads D.Disk 3 disk.old disk.new }
{
    let step = find_leaf(disk, block, root, cursor)?;
    let Some(found) = step.found else {
        return Ok(step);
    };
    match follow_pointer(disk, found.pointer(), into) {
        Ok(()) => Ok(step),
        Err(fault) => Err(fault.in_tree(BlockNo(block))),
    }
}

/// Makes a step in the tree of the index with this root block, from a leaf on. Makes at most 4 device calls.
fn read_own<D: Disk>(
    disk: &mut D,
    block: u32,
    from: u32,
    into: &mut Block,
) -> Result<Found, Trouble>
    requires { block < D.blocks disk.old }
    ensures found { Tells D.Disk disk.old → HasNoDeadEnd (D.content disk.old) (block_at (D.content disk.old) block)
        → IfOk result (IsFoundIn (D.content disk.old) (block_at (D.content disk.old) block) from into.new after_own) }
    ensures on { IfOk result (λ found. IfSome found.next (λ next. (own_part + from < next) × (next ≤ 2 * own_part))) }
    ensures refused { (draft : Option roots.Root) → IfErr result (IsScanTrouble D.Disk disk.old disk.new draft block) }
    ensures untried { IfErr result (λ trouble. trouble_had_tried trouble ≡ false) }
    ensures reads { OnlyReads D.Disk 4 disk.old disk.new }
{
    let root = read_root(disk, BlockNo(block))?;
    let step = next_leaf(disk, block, &root, from, into)?;
    Ok(Found {
        step,
        next: after_own(step),
    })
}

/// Makes a step in the draft of that index, which has this root. Makes at most 4 device calls.
fn read_draft<D: Disk>(
    disk: &mut D,
    block: u32,
    draft: &Root,
    from: u32,
    into: &mut Block,
) -> Result<Found, Trouble>
    requires on_disk { block < D.blocks disk.old }
    requires from { from < own_part }
    ensures found { Tells D.Disk disk.old → HasNoDeadEnd (D.content disk.old) (root_spelling draft.now)
        → HasNoDeadEnd (D.content disk.old) (block_at (D.content disk.old) block)
        → IfOk result (λ found. (any : Bool) × HoldsAny (D.content disk.old) (block_at (D.content disk.old) block) any
        × IsFoundIn (D.content disk.old) (root_spelling draft.now) from into.new (after_drafted any) found) }
    ensures on { IfOk result (λ found. IfSome found.next (λ next. (from < next) × (next ≤ own_part))) }
    ensures refused { IfErr result (IsScanTrouble D.Disk disk.old disk.new (Some draft.now) block) }
    ensures untried { IfErr result (λ trouble. trouble_had_tried trouble ≡ false) }
    ensures reads { OnlyReads D.Disk 4 disk.old disk.new }
{
    let step = next_leaf(disk, block, draft, from, into)?;
    if let Some(next) = following(step) {
        return Ok(Found {
            step,
            next: Some(next),
        });
    }
    let own = read_root(disk, BlockNo(block))?;
    Ok(Found {
        step,
        next: after_last(holds_any(&own)),
    })
}

/// Makes a step of this grey index, in its draft or in its own tree.
///
/// `draft` is the draft's root. Makes at most 4 device calls.
fn read_place<D: Disk>(
    disk: &mut D,
    first: Grey,
    draft: Option<&Root>,
    into: &mut Block,
) -> Result<Found, Trouble>
    requires { first.id.block < D.blocks disk.old }
    ensures found { (directory : List (Puid × Kind)) (s : State) (ds : Drafts) (i : index.Index)
        (d : Option index.Index) → Serves D.Disk disk.old directory s ds
        → object_at s.graph first.id ≡ Some (objects.Index i)
        → IsDraftRoot (D.content disk.old) s first.id (option_copied draft.entry) d
        → IfOk result (λ found. (ids_read found.step into.new, found.next) ≡ step_of d i first.cursor) }
    ensures on { IfOk result (λ found. IfSome found.next (λ next. (first.cursor < next) × (next ≤ 2 * own_part))) }
    ensures refused { IfErr result (IsScanTrouble D.Disk disk.old disk.new (option_copied draft.entry) first.id.block) }
    ensures sound { (directory : List (Puid × Kind)) (s : State) (ds : Drafts) (i : index.Index)
        (d : Option index.Index) → Serves D.Disk disk.old directory s ds
        → object_at s.graph first.id ≡ Some (objects.Index i)
        → IsDraftRoot (D.content disk.old) s first.id (option_copied draft.entry) d
        → IfErr result (λ error. ¬ IsDamaged error) }
    ensures untried { IfErr result (λ trouble. trouble_had_tried trouble ≡ false) }
    ensures reads { OnlyReads D.Disk 4 disk.old disk.new }
{
    let Some(draft) = draft else {
        return read_own(
            disk,
            first.id.block,
            first.cursor.saturating_sub(OWN_PART),
            into,
        );
    };
    if first.cursor >= OWN_PART {
        return read_own(disk, first.id.block, first.cursor - OWN_PART, into);
    }
    read_draft(disk, first.id.block, draft, first.cursor, into)
}

/// Moves on to the next place, or ends the first grey index if there is none. Takes no memory.
///
/// Each object in the leaf that was read is shaded.
fn read_on(marks: &mut Marks, directory: &Directory, found: Found, content: &Block)
    requires blocks { directory.now.room ≤ blocks_marked marks.old }
    ensures read { colours_of marks.new ≡ read directory.now.named (ids_read found.step content.now, found.next)
        (colours_of marks.old) }
    ensures blocks { blocks_marked marks.new ≡ blocks_marked marks.old }
{
    match found.next {
        Some(place) => marks.advance(place),
        None => marks.finish_grey(),
    }
    if found.step.found.is_some() {
        shade_leaf(marks, directory, content);
    }
}

impl Collector {
    /// Reads the next held leaf of the first grey index, and shades each object in it.
    ///
    /// The leaves of its draft, whose root this is, come first, and then those of the index itself. If neither holds
    /// a further leaf, the index is grey no more. Makes at most 4 device calls, none of which writes. Takes no
    /// memory.
    pub fn scan<D: Disk>(
        &mut self,
        disk: &mut D,
        directory: &Directory,
        draft: Option<&Root>,
    ) -> Result<(), Trouble>
        requires phase { self.old.phase ≡ Phase.Marking }
        requires grey { ¬ (self.old.marks.grey ≡ []) }
        requires blocks { directory.now.room ≤ volume_of self.old }
        requires size { D.blocks disk.old ≡ volume_of self.old }
        ensures scanned { (s : State) (ds : Drafts) (e : grey.Grey) (i : index.Index) (d : Option index.Index)
            → Serves D.Disk disk.old directory.now.named s ds → first_grey (colours_in self.old) ≡ Some e
            → object_at s.graph e.id ≡ Some (objects.Index i)
            → IsDraftRoot (D.content disk.old) s e.id (option_copied draft.entry) d
            → OnOk result (colours_in self.new ≡ scanned directory.now.named d i e.cursor (colours_in self.old)) }
        ensures keeps { (s : State) (ds : Drafts) (e : grey.Grey) (d : Option index.Index)
            → Serves D.Disk disk.old directory.now.named s ds → first_grey (colours_in self.old) ≡ Some e
            → IsDraftRoot (D.content disk.old) s e.id (option_copied draft.entry) d
            → Collects (D.content disk.old) s self.old → OnOk result (Collects (D.content disk.new) s self.new) }
        ensures waiting { self.new.rescues ≡ self.old.rescues }
        ensures phase { self.new.phase ≡ self.old.phase }
        ensures steps { OnOk result (self.new.steps ≡ count_after self.old.steps) }
        ensures added { self.new.added ≡ self.old.added }
        ensures volume { volume_of self.new ≡ volume_of self.old }
        ensures less { OnOk result (steps_left self.new < steps_left self.old) }
        ensures same { OnErr result (IsAsBefore self.old self.new) }
        ensures refused { (e : grey.Grey) → first_grey (colours_in self.old) ≡ Some e
            → IfErr result (IsScanTrouble D.Disk disk.old disk.new (option_copied draft.entry) e.id.block) }
        ensures sound { (s : State) (ds : Drafts) (e : grey.Grey) (d : Option index.Index)
            → Serves D.Disk disk.old directory.now.named s ds → first_grey (colours_in self.old) ≡ Some e
            → IsDraftRoot (D.content disk.old) s e.id (option_copied draft.entry) d
            → Collects (D.content disk.old) s self.old → IfErr result (λ error. ¬ IsDamaged error) }
        ensures untried { IfErr result (λ error. trouble_had_tried error ≡ false) }
        ensures reads { OnlyReads D.Disk 4 disk.old disk.new }
    {
        puid_space::laws::kinds_follow_the_graph();
        puid_space::laws::directories_are_listings(directory);
        let Some(grey) = self.marks.next_grey() else {
            return Ok(());
        };
        let mut content = Block::zero();
        let found = read_place(disk, grey, draft, &mut content)?;
        self.steps = self.steps.saturating_add(1);
        read_on(&mut self.marks, directory, found, &content);
        Ok(())
    }
}
