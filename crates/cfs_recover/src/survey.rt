//! A volume surveyed before anything is written.
ghost use Rattle.std.specs.Prelude.{◌≡◌, ◌≢◌, ◌+◌, ◌*◌, ◌≤◌, ◌<◌, ℕ, Bool, None, length, count_by, IfErr, IfOk};
ghost use Rattle.std.specs.Prelude.{◌/◌, MatchResult, OnOk};
ghost use Rattle.cfs_base.specs.Calls.{OnlyReads};
ghost use Rattle.cfs_base.specs.Codes as codes;
ghost use Rattle.cfs_base.specs.Disk.{Image};
ghost use Rattle.ufs_model.specs.Graph.{Graph};
ghost use Rattle.vol_image.specs.Fault.{HasLabel};
ghost use Rattle.vol_image.specs.Sound.{IsSoundAs};
ghost use Rattle.vol_label.specs.Label.{IsLabel};
ghost use Rattle.vol_label.specs.declared.label.Label.{Label};
ghost use Rattle.cfs_recover.specs.Entries.{damage};
ghost use Rattle.cfs_recover.specs.Found.{IsFaultOf, IsNotedIn, IsWalk};
ghost use Rattle.cfs_recover.specs.Grounds.{AreGrounds, IsOpenFault};
ghost use Rattle.cfs_recover.specs.Reads.{HasRead, reads_of_volume};
ghost use Rattle.cfs_recover.specs.Refusals.{IsCaused, NamesDamage};
ghost use Rattle.cfs_recover.specs.Stored.{AreMapsOf, Stores};
ghost use Rattle.cfs_recover.specs.Survey.{FitsSurvey, IsOfSize, IsSurvey, IsWalked, IsWholeWalk};
ghost use Rattle.cfs_recover.specs.Walk.{reads_by_block, reads_of_object};

use crate::copies::Piece;
use crate::fault::RecoverFault;
use crate::found::Walk;
use crate::maps::{read_label, read_maps, standing_in};
use crate::standing::Standing;
use crate::walk::walk_all;
use cfs_base::{Damage, Disk, Puid, code};
use cyl_map::Map;
use std::alloc::Global;
use vol_label::Label;

/// What the label and the maps of a volume say.
#[derive(Debug, Drop)]
pub(crate) struct Grounds {
    pub label: Label,
    pub maps: Vec<Map>,
}

/// What a walk over the objects of a volume gives.
///
/// It has what the objects hold, the shadow roots that stand for objects, and what is kept of the roots that are to
/// be copied.
#[derive(Debug, Drop)]
pub(crate) struct Walked {
    pub walk: Walk,
    pub standing: Standing,
    pub kept: Vec<Piece>,
}

/// What is known of a sound volume.
#[derive(Debug, Drop)]
pub(crate) struct Survey {
    pub grounds: Grounds,
    pub walked: Walked,
}

/// Reads and checks the label and the maps, with one read each.
fn read_grounds<D: Disk>(alloc: Global, disk: &mut D) -> Result<Grounds, RecoverFault>
    ensures told { (image : Image) → Stores D.Disk disk.old image → MatchResult result
        (λ grounds. AreGrounds image grounds.label × AreMapsOf image grounds.maps.items) (IsOpenFault image) }
    ensures size { IfOk result (λ grounds. D.blocks disk.old ≡ 64 * length grounds.maps.items) }
    ensures few { IfOk result (λ grounds. IsLabel grounds.label) }
    ensures count { IfOk result (λ grounds. length grounds.maps.items ≡ grounds.label.cylinders) }
    ensures cause { IfErr result (IsCaused D.Disk disk.old disk.new) }
    ensures reads { OnlyReads D.Disk (1 + D.blocks disk.old) disk.old disk.new }
    ensures by_map { OnlyReads D.Disk (1 + D.blocks disk.old / 64) disk.old disk.new }
{
    let label = read_label(disk)?;
    let maps = read_maps(alloc, disk, label.cylinders)?;
    Ok(Grounds { label, maps })
}

/// Begins a walk at the root index, which block 1 names.
fn begin_walk(alloc: Global, blocks: u32, root: Puid) -> Result<Walk, RecoverFault>
    ensures told { (image : Image) (label : Label) → length image ≡ blocks → HasLabel image label → label.root ≡ root
        → MatchResult result (λ walk. IsWalk image walk 0) (NamesDamage (IsFaultOf image)) }
    ensures noted { IfOk result (λ walk. IsNotedIn walk root) }
    ensures room { IfOk result (λ walk. walk.directory.room ≡ blocks) }
    ensures no_call { IfErr result (λ e. e ≢ RecoverFault.Disk) }
{
    let mut walk = Walk::new(alloc, blocks)?;
    walk.note(root, 1)?;
    Ok(walk)
}

/// Walks all objects of a volume with this label and these maps.
fn walk_volume<D: Disk>(
    alloc: Global,
    disk: &mut D,
    grounds: &Grounds,
) -> Result<Walked, RecoverFault>
    requires size { D.blocks disk.old ≡ 64 * length grounds.now.maps.items }
    requires few { IsLabel grounds.now.label }
    requires count { length grounds.now.maps.items ≡ grounds.now.label.cylinders }
    ensures told { (image : Image) → Stores D.Disk disk.old image → AreGrounds image grounds.now.label
        → AreMapsOf image grounds.now.maps.items
        → MatchResult result (IsWalked image grounds.now.label) (NamesDamage (IsFaultOf image)) }
    ensures size { IfOk result (IsOfSize (D.blocks disk.old)) }
    ensures cause { IfErr result (IsCaused D.Disk disk.old disk.new) }
    ensures reads { OnlyReads D.Disk (reads_of_object * D.blocks disk.old) disk.old disk.new }
    ensures by_object { (image : Image) → Stores D.Disk disk.old image → AreGrounds image grounds.now.label
        → AreMapsOf image grounds.now.maps.items → IfOk result (λ w.
        HasRead D.Disk image w.walk.found.items (length w.walk.found.items) disk.old disk.new) }
{
    let standing = standing_in(alloc, &grounds.maps)?;
    let mut walk = begin_walk(alloc, disk.blocks(), grounds.label.root)?;
    let mut kept = Vec::with_capacity(alloc, (disk.blocks() / 2) as usize)?;
    walk_all(disk, &grounds.maps, &standing, &mut walk, &mut kept)?;
    Ok(Walked {
        walk,
        standing,
        kept,
    })
}

/// Checks that no two identifiers were found with one root block.
///
/// Refused with code 6 of the block that names the second.
fn check_clash(walk: &Walk) -> Result<(), Damage>
    ensures { (image : Image) → IsWalk image walk.now (length walk.now.found.items)
        → MatchResult result (λ _. walk.now.clash ≡ None) (IsFaultOf image) }
{
    match walk.clash {
        None => Ok(()),
        Some(by) => Err(Damage {
            block: by,
            code: code::NAMES_NOTHING,
        }),
    }
}

/// Checks that 4 blocks are left beside the maps, the label and what is held. Refused with code 11 of block 0.
fn check_room(walk: &Walk, cylinders: u32) -> Result<(), Damage>
    ensures { MatchResult result (λ _. count_by (λ h. h) walk.now.held.items + 5 ≤ 63 * cylinders)
        (λ d. (d ≡ damage 0 codes.too_full) × ¬ (count_by (λ h. h) walk.now.held.items + 5 ≤ 63 * cylinders)) }
{
    let held = walk.held.iter().filter(|held| **held).count();
    if held as u64 + 5 > 63 * cylinders as u64 {
        return Err(Damage {
            block: 0,
            code: code::TOO_FULL,
        });
    }
    Ok(())
}

/// Checks that a volume whose objects were all walked is sound.
fn check_walked(walk: &Walk, label: Label) -> Result<(), Damage>
    ensures { (image : Image) → AreGrounds image label → IsWalk image walk.now (length walk.now.found.items)
        → IsNotedIn walk.now label.root → MatchResult result (λ _. IsWholeWalk image walk.now) (IsFaultOf image) }
{
    check_clash(walk)?;
    check_room(walk, label.cylinders)
}

/// Surveys a volume, by reads alone.
///
/// `Ok` if it is sound. Else the refusal names what is wrong.
pub(crate) fn survey_volume<D: Disk>(alloc: Global, disk: &mut D) -> Result<Survey, RecoverFault>
    ensures told { (image : Image) → Stores D.Disk disk.old image
        → MatchResult result (IsSurvey image) (IsOpenFault image) }
    ensures fits { IfOk result (FitsSurvey (D.blocks disk.old)) }
    ensures cause { IfErr result (IsCaused D.Disk disk.old disk.new) }
    ensures reads { OnlyReads D.Disk (1 + reads_by_block * D.blocks disk.old) disk.old disk.new }
    ensures by_object { (image : Image) (g : Graph) → Stores D.Disk disk.old image → IsSoundAs image g
        → OnOk result (OnlyReads D.Disk (reads_of_volume (D.blocks disk.old) g) disk.old disk.new) }
{
    let grounds = read_grounds(alloc, disk)?;
    let walked = walk_volume(alloc, disk, &grounds)?;
    check_walked(&walked.walk, grounds.label)?;
    Ok(Survey { grounds, walked })
}
