//! The map of a cylinder.
ghost use Rattle.std.specs.Prelude.{◌≡◌, ◌↔◌, ◌<◌, ℕ, List, Some, IfOk, IfErr, OnOk, IfSome, IsTrue, IsNone, length};
ghost use Rattle.std.specs.Prelude.{position, slice_get, slice_set};
ghost use Rattle.std.specs.Int.{to_be_bytes, w64};
ghost use Rattle.cyl_map.specs.Entry.{IsEntry, spelling};
ghost use Rattle.cyl_map.specs.Map as spec;
ghost use Rattle.cyl_map.specs.Reading.{said_by};
ghost use Rattle.cyl_map.specs.Volume.{with_bytes};

use crate::entry::MapEntry;
use cfs_base::Block;
use std::marker::Model;

/// What the 64 blocks of a cylinder are, as its map block spells it.
///
/// Clauses see the list of the entries.
#[derive(Clone, Copy, Debug, PartialEq, Eq)]
pub struct Map {
    bytes: [u8; 512],
}

/// A block spells no map.
#[derive(Clone, Copy, Debug, PartialEq, Eq)]
pub struct BadMap {
    /// The number of the first bad entry.
    pub entry: u8,
    /// The place in that entry that `MapEntry::decode` names.
    pub byte: u8,
}

impl Model for Map {
    ghost use Rattle.std.specs.Prelude.{List};
    ghost use Rattle.cyl_map.specs.declared.entry.MapEntry.{MapEntry};
    ghost use Rattle.cyl_map.specs.Map.{SpellsMap, entries_of, map_spelling};

    ghost Value = { List MapEntry };

    ghost view = { λ a. entries_of a.bytes };

    ghost invariant = { λ a. SpellsMap a.bytes };

    ghost inverse = { λ d. record { bytes = map_spelling d } };

    ghost use Rattle.std.proofs.Common.{ap, sym};

    ghost inverse_ok = { λ a h. ap (λ b. record { bytes = b }) (sym h.spelled) };
}

/// Returns the eight bytes of each entry.
fn eights(block: &[u8; 512]) -> &[[u8; 8]]
    ensures each { result.now ≡ spec.eights block.now }
    ensures count { length result.now ≡ 64 }
{
    block.as_chunks::<8>().0
}

/// Returns the number that is spelled so.
fn number_of(bytes: &[u8; 8]) -> u64
    ensures { to_be_bytes w64 result ≡ bytes.now }
{
    u64::from_be_bytes(*bytes)
}

/// Puts eight bytes in the place of an entry.
#[tactic(auto, unfolding(crate::specs::Volume::with_bytes))]
fn put_at(block: &mut [u8; 512], entry: usize, bytes: &[u8; 8])
    requires { entry < 64 }
    ensures { block.new ≡ with_bytes block.old entry bytes.now }
{
    block[8 * entry..8 * entry + 8].copy_from_slice(bytes);
}

/// Returns whether each eight bytes spell an entry, computed without a branch on them.
fn is_spelled(block: &[u8; 512]) -> bool
    ensures { IsTrue result ↔ spec.AreEntries block.now }
{
    let mut good = true;
    for bytes in eights(block) {
        good = good & MapEntry::is_spelled(bytes);
    }
    good
}

/// Returns the first entry that is invalid, and its least bad place.
fn first_bad(block: &[u8; 512]) -> BadMap
    requires { ¬ spec.AreEntries block.now }
    ensures { spec.IsFirstBadEntry block.now result.entry result.byte }
{
    for (entry, bytes) in eights(block).iter().enumerate() {
        if let Err(bad) = MapEntry::decode(bytes) {
            return BadMap {
                entry: entry as u8,
                byte: bad.byte,
            };
        }
    }
    unreachable!()
}

/// Returns the place of the first of some entries that says that its block is Free.
fn first_free(entries: &[[u8; 8]]) -> Option<usize>
    ensures { result ≡ position (λ bytes. spec.is_free (said_by bytes)) entries.now }
{
    entries.iter().position(|bytes| MapEntry::says_free(bytes))
}

impl Map {
    /// Returns the map that this block spells.
    pub fn decode(block: &Block) -> Result<Map, BadMap>
        // What is read is a map, and the block spells it.
        ensures read { IfOk result (λ map. spec.IsMap map × (block.now ≡ spec.map_spelling map)) }
        // A block that spells a map is read as that map.
        ensures only { (map : List MapEntry) → spec.IsMap map → block.now ≡ spec.map_spelling map → result ≡ Ok map }
        ensures refused { (entry byte : ℕ) →
            (result ≡ Err (record { entry = entry; byte = byte })) ↔ spec.IsFirstBadEntry block.now entry byte }

        // Each entry is what reading gives at its place.
        ensures entries { IfOk result (λ map. (k : ℕ) → k < 64 → spec.entry_at block.now k ≡ slice_get map k) }
    {
        let bytes = block.bytes();
        if !is_spelled(bytes) {
            return Err(first_bad(bytes));
        }
        Ok(Map { bytes: *bytes })
    }

    /// Checks that a block spells a map. Nothing is copied.
    ///
    /// It is refused as by `decode`.
    pub fn check(block: &Block) -> Result<(), BadMap>
        ensures map { OnOk result (spec.SpellsMap block.now) }
        ensures refused { IfErr result (λ bad. spec.IsFirstBadEntry block.now bad.entry bad.byte) }
    {
        let bytes = block.bytes();
        if !is_spelled(bytes) {
            return Err(first_bad(bytes));
        }
        Ok(())
    }

    /// Returns an entry of the map that a block spells.
    pub fn entry_in(block: &Block, entry: u8) -> MapEntry
        requires below { entry < 64 }
        ensures { result ≡ said_by (spec.bytes_at block.now entry) }
    {
        let entries = eights(block.bytes());
        MapEntry::said_by(&entries[entry as usize])
    }

    /// Returns the entry that its eight bytes in a block spell, or `None` if they spell none.
    pub fn read_in(block: &Block, entry: u8) -> Option<MapEntry>
        requires { entry < 64 }
        ensures { result ≡ spec.entry_at block.now entry }
    {
        let entries = eights(block.bytes());
        MapEntry::decode(&entries[entry as usize]).ok()
    }

    /// Puts an entry into the block in the place of another.
    pub fn put_in(block: &mut Block, entry: u8, value: MapEntry)
        requires below { entry < 64 }
        requires entry { IsEntry value }
        ensures { block.new ≡ with_bytes block.old entry (spelling value) }
    {
        block.put_u64(8 * entry as usize, number_of(&value.encode()));
    }

    /// Returns the one spelling of the map.
    pub fn encode(&self) -> Block
        ensures spelled { result ≡ spec.map_spelling self.now }
        ensures entries { (k : ℕ) → k < 64 → spec.entry_at result k ≡ slice_get self.now k }
    {
        Block::of(self.bytes)
    }

    /// Returns an entry.
    pub fn get(&self, entry: u8) -> MapEntry
        requires { entry < 64 }
        ensures got { slice_get self.now entry ≡ Some result }
        ensures map { spec.IsMap self.now }
    {
        let entries = eights(&self.bytes);
        MapEntry::said_by(&entries[entry as usize])
    }

    /// Puts an entry in the place of another, and changes no other.
    pub fn set(&mut self, entry: u8, value: MapEntry)
        requires below { entry < 64 }
        requires entry { IsEntry value }
        ensures set { self.new ≡ slice_set self.old entry value }
        ensures map { spec.IsMap self.new }
    {
        put_at(&mut self.bytes, entry as usize, &value.encode());
    }

    /// Returns how many blocks are Free.
    pub fn free_count(&self) -> u32
        ensures count { result ≡ spec.free_entries self.now }
        ensures map { spec.IsMap self.now }
    {
        let free = eights(&self.bytes)
            .iter()
            .filter(|bytes| MapEntry::says_free(bytes));
        free.count() as u32
    }

    /// Returns the first block that is Free.
    pub fn first_free(&self) -> Option<u8>
        ensures first { result ≡ position spec.is_free self.now }
        ensures none { IsNone result ↔ (spec.free_entries self.now ≡ 0) }
        ensures within { IfSome result (λ entry. entry < 64) }
    {
        let place = first_free(eights(&self.bytes))?;
        Some(place as u8)
    }
}
