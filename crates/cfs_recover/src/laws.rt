//! What is proved of what recovery writes, as contracts of functions that do nothing.
ghost use Rattle.std.specs.Prelude.{◌≡◌, ◌⊎◌, ℕ, Bool, ◌*◌, ◌<◌, List, length, set, Some};
ghost use Rattle.cfs_base.specs.Disk.{Image, block_at};
ghost use Rattle.cfs_base.specs.declared.identifier.Puid.{Puid};
ghost use Rattle.cyl_map.specs.Volume.{entry_in};
ghost use Rattle.cyl_map.specs.declared.entry.MapEntry.{MapEntry};
ghost use Rattle.ufs_model.specs.Graph.{Graph, object_at};
ghost use Rattle.ufs_model.specs.declared.object.Object.{Object};
ghost use Rattle.vol_image.specs.Fault.{Fault};
ghost use Rattle.vol_image.specs.Part.{is_fixed};
ghost use Rattle.vol_image.specs.Sight.{source};
ghost use Rattle.vol_image.specs.Sound.{Holds, IsSoundAs};
ghost use Rattle.vol_owners.specs.Account.{Accounts, IsSwept, no_drafts};
ghost use Rattle.cfs_recover.specs.Found.{IsFaultOf};
ghost use Rattle.cfs_recover.specs.Grounds.{HasNoLabel, HasVersion, IsLabelled, IsOpenFault};
ghost use Rattle.cfs_recover.specs.Refusals.{NamesDamage, TellsNothing};
ghost use Rattle.cfs_recover.specs.declared.fault.RecoverFault.{RecoverFault};
ghost use Rattle.cfs_recover.specs.declared.fault.RecoverFault.TheVariants as faults;
ghost use Rattle.cfs_recover.specs.Tidy.{AreCopied, AreMarked, CopiesRoots, IsTidied, IsTidy, IsTidyMap, Tidies};
ghost use Rattle.cfs_recover.specs.Tidy.{tidied};

/// Roots may be copied in any order: whichever are, the image reads the same.
pub fn copies_keep_the_reading()
    ensures sound { (a b : Image) (g : Graph) → IsSoundAs a g → CopiesRoots a g b → IsSoundAs b g }
    ensures begin { (a : Image) (g : Graph) → CopiesRoots a g a }
    ensures write { (a c : Image) (g : Graph) (id : Puid) (o : Object) → CopiesRoots a g c → object_at g id ≡ Some o
        → id.block < length c → CopiesRoots a g (set c id.block (block_at a (source a id.block))) }
{}

/// Once each root has the content by which its object is read, the maps may be tidied in any order.
pub fn tidying_keeps_the_reading()
    ensures sound { (a b : Image) (g : Graph) → IsSoundAs a g → AreCopied a g → Tidies a g b → IsSoundAs b g }
    ensures begin { (a : Image) (g : Graph) → Holds a g → Tidies a g a }
    ensures write { (a c : Image) (g : Graph) (j : ℕ) (block : List ℕ) → Tidies a g c → 64 * j < length c
        → IsTidyMap a g j block → Tidies a g (set c (64 * j) block) }
    // What is held becomes Allocated, and all else except the maps and the label Free.
    ensures entries { (a : Image) (g : Graph) (held : ℕ → Bool) → Holds a g → AreCopied a g → AreMarked a g held
        → (n : ℕ) (e : MapEntry) → entry_in a n ≡ Some e → IsTidy a g n (tidied (is_fixed n) (held n) e) }
{}

/// A tidied volume has only its objects, each with exactly its blocks.
pub fn tidied_volumes_have_their_objects_alone()
    ensures accounts { (a b : Image) (g : Graph) (held : ℕ → Bool) → Holds a g → AreCopied a g → Tidies a g b
        → IsTidied a g held b → Accounts b g no_drafts }
    ensures swept { (a b : Image) (g : Graph) (held : ℕ → Bool) → Holds a g → AreCopied a g → Tidies a g b
        → IsTidied a g held b → IsSwept b g }
{}

/// The order of the faults of a volume that isn't opened.
///
/// There is no label, else it has another version, else it is damaged. This is a law: the call does nothing.
pub fn faults_come_in_order()
    ensures no_label { (image : Image) (e : RecoverFault) → HasNoLabel image → IsOpenFault image e
        → (e ≡ faults.NotVolume) ⊎ TellsNothing e }
    ensures version { (image : Image) (found : ℕ) (e : RecoverFault) → HasVersion image found → IsOpenFault image e
        → (e ≡ faults.Version found) ⊎ TellsNothing e }
    ensures label { (image : Image) (e : RecoverFault) → IsLabelled image → IsOpenFault image e
        → NamesDamage (IsFaultOf image) e }
{}

/// A sound image has none of the faults.
pub fn sound_without_fault()
    ensures { (image : Image) (g : Graph) (code block : ℕ) → IsSoundAs image g → ¬ Fault image code block }
{}
