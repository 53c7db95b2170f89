//! What is proved of what mending makes, as contracts of functions that do nothing.
ghost use Rattle.std.specs.Prelude.{◌≡◌};
ghost use Rattle.cfs_base.specs.Disk.{Image};
ghost use Rattle.cfs_base.specs.declared.refusal.Damage as damages;
ghost use Rattle.ufs_model.specs.Graph.{Graph};
ghost use Rattle.vol_image.specs.Fault.{IsShownGraph};
ghost use Rattle.vol_image.specs.Faults.{IsListed};
ghost use Rattle.vol_image.specs.Sound.{IsSoundAs};
ghost use Rattle.cfs_recover.specs.Recovered.{IsClean};
ghost use Rattle.cfs_check.specs.Checked.{CantHeal};
ghost use Rattle.cfs_check.specs.Mended.{MendsTo};
ghost use Rattle.cfs_check.specs.Sized.{AreSized};

/// A mended volume reads as what was shown: each object that was reached, as it was followed, and no other.
pub fn mended_as_shown()
    ensures { (a b : Image) (g : Graph) → MendsTo a g b → IsShownGraph a g }
{}

/// If a volume is mended again it comes out the same, byte for byte, and it isn't refused.
pub fn mended_again()
    ensures same { (a b c : Image) (g h : Graph) → MendsTo a g b → MendsTo a h c → (g ≡ h) × (b ≡ c) }
    ensures not_refused { (a b : Image) (g : Graph) (d : damages.Damage) → MendsTo a g b → IsListed a d
        → ¬ CantHeal a d }
{}

/// A sound volume that has only its objects is mended to itself.
pub fn mends_itself()
    ensures { (b : Image) (g : Graph) → AreSized b → IsSoundAs b g → IsClean b g → MendsTo b g b }
{}
