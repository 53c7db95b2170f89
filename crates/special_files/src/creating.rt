//! An object made beside a draft of an index.
ghost use Rattle.std.specs.Prelude.{◌≡◌, ◌≢◌, ◌⊎◌, ℕ, ◌+◌, ◌*◌, ◌<◌, ◌≤◌, false, length, sum, None, Some, IfErr, IfOk};
ghost use Rattle.std.specs.Prelude.{OnOk};
ghost use Rattle.block_tree.specs.Root.{root_spelling};
ghost use Rattle.cfs_base.specs.Calls.{HasTried, OnlyReads};
ghost use Rattle.cfs_base.specs.Run.{Tells};
ghost use Rattle.cfs_base.specs.declared.kind.Place.TheVariants as places;
ghost use Rattle.cyl_alloc.specs.Space.{AreCounts, IsLeastFree, intended};
ghost use Rattle.cyl_map.specs.Volume.{with_entry};
ghost use Rattle.intentions.specs.Store.{StoreHas};
ghost use Rattle.leaf_changes.specs.Bytes.{IsSlot};
ghost use Rattle.leaf_changes.specs.Tops.{still_top};
ghost use Rattle.special_files.specs.Calls.{WritesDraftBlock};
ghost use Rattle.special_files.specs.Committing.{puid_at};
ghost use Rattle.special_files.specs.Creates as spec;
ghost use Rattle.special_files.specs.Ends.{EndsCall};
ghost use Rattle.special_files.specs.Refusal.{IsDraftRefusal, has_met_damage, is_full_refusal};
ghost use Rattle.special_files.specs.View.{DraftView, GoesTo};
ghost use Rattle.ufs_model.specs.Graph.{Graph};
ghost use Rattle.vol_image.specs.Reading.{bare_object};
ghost use Rattle.vol_owners.specs.Account.{Drafts};

use crate::draft::ObjectDraft;
use crate::fill::Swap;
use crate::leaf::write_own;
use block_tree::{NODES, Root};
use cfs_base::{BlockNo, Damage, Disk, Kind, Place, Puid, Refused, code};
use cyl_alloc::Space;
use intentions::intend_claim;

/// Returns the root of a new object, which holds nothing.
pub fn bare_root(kind: Kind, fill: u8, size: u64, word: u32) -> Root
    requires { spec.MayBeMade kind fill size }
    ensures root { spec.IsBare result }
    ensures object { bare_object result ≡ spec.made_of kind fill size }
    ensures word { result.word ≡ word }
{
    Root {
        kind,
        fill,
        word,
        size,
        nodes: [0; NODES],
    }
}

/// Finds the least-numbered Free block.
///
/// `Damaged` names block 0, with code 2, if that is the block: it holds the first map.
pub fn least<D: Disk>(disk: &mut D, space: &Space) -> Result<BlockNo, Refused>
    requires size { D.blocks disk.old ≡ 64 * length space.now.free }
    requires room { 1 ≤ sum space.now.free }
    ensures found { Tells D.Disk disk.old → AreCounts (D.content disk.old) space.now
        → IfOk result (λ block. IsLeastFree (D.content disk.old) block.0) }
    ensures some { IfOk result (λ block. (block.0 ≢ 0) × (block.0 < D.blocks disk.old)) }
    ensures refused { (at : ℕ) → IfErr result (λ e.
        (IsDraftRefusal D.Disk (still_top at) 0 disk.old disk.new space.now e × (is_full_refusal e ≡ false))
        ⊎ spec.IsOpenMap D.Disk disk.old space.now e) }
    ensures sound { (graph : Graph) (ds : Drafts) → StoreHas D.Disk graph ds disk.old space.now
        → IfErr result (λ e. has_met_damage e ≡ false) }
    ensures reads { OnlyReads D.Disk 1 disk.old disk.new }
{
    let block = space.find(disk)?;
    if block.0 == 0 {
        return Err(Refused::Damaged(Damage {
            block: 0,
            code: code::NO_ENTRY,
        }));
    }
    Ok(block)
}

/// Claims a Free block as the root of a new object, which owns itself.
fn claim_root<D: Disk>(disk: &mut D, space: &mut Space, block: BlockNo) -> Result<(), Refused>
    requires some { block.0 ≢ 0 }
    requires on_disk { block.0 < D.blocks disk.old }
    requires size { D.blocks disk.old ≡ 64 * length space.old.free }
    ensures claims { (graph : Graph) (ds : Drafts) → StoreHas D.Disk graph ds disk.old space.old
        → IsLeastFree (D.content disk.old) block.0 → spec.RootEnds D.Disk graph disk.old disk.new space.new
        (with_entry (D.content disk.old) block.0 (intended places.Root block.0)) result }
    ensures tried { OnOk result (HasTried D.Disk disk.old disk.new) }
    ensures spare { IfErr result (λ e. is_full_refusal e ≡ false) }
    ensures ends { (at : ℕ) → EndsCall D.Disk (still_top at) 0 2 1 1 disk.old disk.new space.old space.new result }
{
    intend_claim(disk, block, Place::Root, block.0)?;
    space.took(block);
    Ok(())
}

/// Writes the root of a new object.
pub fn write_root<D: Disk>(disk: &mut D, block: BlockNo, root: &Root) -> Result<(), Refused>
    requires { block.0 < D.blocks disk.old }
    ensures writes { WritesDraftBlock D.Disk block.0 (root_spelling root.now) disk.old disk.new result }
    ensures spelled { spec.Spells root.now }
{
    write_own(disk, block, &root.encode())
}

/// Claims the root of a new object, and writes it.
fn make_root<D: Disk>(
    disk: &mut D,
    space: &mut Space,
    block: BlockNo,
    root: &Root,
) -> Result<(), Refused>
    requires some { block.0 ≢ 0 }
    requires on_disk { block.0 < D.blocks disk.old }
    requires size { D.blocks disk.old ≡ 64 * length space.old.free }
    ensures made { (graph : Graph) (ds : Drafts) → StoreHas D.Disk graph ds disk.old space.old
        → IsLeastFree (D.content disk.old) block.0 → spec.RootEnds D.Disk graph disk.old disk.new space.new
        (spec.with_root (D.content disk.old) block.0 root.now) result }
    ensures spelled { OnOk result (spec.Spells root.now) }
    ensures tried { OnOk result (HasTried D.Disk disk.old disk.new) }
    ensures spare { IfErr result (λ e. is_full_refusal e ≡ false) }
    ensures ends { (at : ℕ) → EndsCall D.Disk (still_top at) 0 3 2 1 disk.old disk.new space.old space.new result }
{
    claim_root(disk, space, block)?;
    write_root(disk, block, root)
}

/// Returns the identifier of an object with this root block.
fn puid_of(block: BlockNo, word: u32) -> Puid
    requires { block.0 ≢ 0 }
    ensures value { result ≡ puid_at block.0 word }
    ensures slot { IsSlot (Some result) }
{
    Puid {
        block: block.0,
        word,
    }
}

impl ObjectDraft {
    /// Makes an object with this root at a block, and puts its identifier into a slot of the draft.
    ///
    /// Returns what was put, as `fill` does. The block is the least-numbered Free one. The draft is an index's and
    /// makes no object yet. The root is claimed and written, and then the slot is filled. `commit` makes the root
    /// Allocated, and `abort` makes it Free. It keeps no floor.
    ///
    /// If it is refused, the draft is to be dropped. `Damaged` as in `fill`. Never `Memory`.
    pub fn create<D: Disk>(
        &mut self,
        disk: &mut D,
        space: &mut Space,
        slot: u64,
        block: BlockNo,
        root: &Root,
    ) -> Result<Swap, Refused>
        requires on_disk { self.old.at < D.blocks disk.old }
        requires size { D.blocks disk.old ≡ 64 * length space.old.free }
        requires within { 8 * slot + 8 ≤ self.old.root.size }
        requires some { block.0 ≢ 0 }
        requires there { block.0 < D.blocks disk.old }
        ensures goes { (v : DraftView D.Disk disk.old space.old self.old) → self.old.created ≡ None
            → IsLeastFree (D.content disk.old) block.0 → spec.IsBare root.now → GoesTo D.Disk v.graph
            (spec.CreatesIfIndex v slot block.0 root.now disk.new space.new self.new) disk.old disk.new result }
        ensures call { spec.MakesBesideCall D.Disk slot block.0 disk.old disk.new space.old space.new self.old self.new
            result }
    {
        make_root(disk, space, block, root)?;
        self.adopt(block);
        let made = puid_of(block, root.word);
        let filled = self.fill(disk, space, slot, Some(made));
        let Some(swap) = filled.map_err(Refused::after_try)? else {
            unreachable!()
        };
        Ok(swap)
    }
}
