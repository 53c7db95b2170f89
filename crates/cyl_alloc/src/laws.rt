//! What is proved of counts, as contracts of functions that do nothing.
ghost use Rattle.std.specs.Prelude.{◌≡◌, ℕ, ◌+◌, true, false, length, sum, Some};
ghost use Rattle.cfs_base.specs.Disk.{Image};
ghost use Rattle.cyl_map.specs.Entry.{IsEntry};
ghost use Rattle.cyl_map.specs.Map.{is_free};
ghost use Rattle.cyl_map.specs.Volume.{entry_in, free_from, with_entry};
ghost use Rattle.cyl_map.specs.declared.entry.MapEntry.{MapEntry};
ghost use Rattle.cyl_alloc.specs.Space.{AreCounts, Kept, after_giving, after_taking};

/// The counts of an image follow each change of one entry, and an image has no other counts.
pub fn counts_follow()
    // If a Free block is taken, its cylinder has one less, and so has the volume.
    ensures taken { (image : Image) (kept : Kept) (n : ℕ) (old e : MapEntry) → AreCounts image kept
        → entry_in image n ≡ Some old
        → IsEntry e → is_free old ≡ true → is_free e ≡ false
        → AreCounts (with_entry image n e) (after_taking kept n)
        × (sum (after_taking kept n).free + 1 ≡ sum kept.free) }
    // A block that was taken is Free again.
    ensures given { (image : Image) (kept : Kept) (n : ℕ) (old e : MapEntry) → AreCounts image kept
        → entry_in image n ≡ Some old
        → IsEntry e → is_free old ≡ false → is_free e ≡ true
        → AreCounts (with_entry image n e) (after_giving kept n 1)
        × (sum (after_giving kept n 1).free ≡ sum kept.free + 1) }
    // A block that was taken stays so, or a Free block stays Free.
    ensures same { (image : Image) (kept : Kept) (n : ℕ) (old e : MapEntry) → AreCounts image kept
        → entry_in image n ≡ Some old
        → IsEntry e → is_free e ≡ is_free old → AreCounts (with_entry image n e) kept }
    ensures one { (image : Image) (kept other : Kept) → AreCounts image kept → AreCounts image other
        → kept.free ≡ other.free }
    ensures sum { (image : Image) (kept : Kept) → AreCounts image kept
        → sum kept.free ≡ free_from image 0 (length image) }
{}
