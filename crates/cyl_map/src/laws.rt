//! What is proved of the definitions, as contracts of functions that do nothing.
ghost use Rattle.std.specs.Prelude.{◌≡◌, Some};
ghost use Rattle.cyl_map.specs.Reading.{entry_of};
ghost use Rattle.cyl_map.specs.Version1.{IsNarrowEntry, narrow_spelling};
ghost use Rattle.cyl_map.specs.declared.entry.MapEntry.{MapEntry};

/// The bytes of each entry of version 1 are those of the same entry in the present version.
pub fn narrow_entries_are_read()
    ensures { (entry : MapEntry) → IsNarrowEntry entry → entry_of (narrow_spelling entry) ≡ Some entry }
{}
