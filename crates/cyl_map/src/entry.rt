//! An entry of a map, and its eight bytes.
ghost use Rattle.std.specs.Prelude.{◌≡◌, ◌↔◌, ℕ, IfOk, IsSome, IsTrue, MatchResult};
ghost use Rattle.cyl_map.specs.Entry.{IsEntry, spelling};
ghost use Rattle.cyl_map.specs.Map.{is_free};
ghost use Rattle.cyl_map.specs.Reading.{IsFirstBad, entry_of, said_by};

use crate::row::{TABLE, place_byte, place_number, place_of};
use crate::state::BlockState;
use cfs_base::Place;

/// What a map says of one block.
#[derive(Clone, Copy, Debug, PartialEq, Eq)]
pub struct MapEntry {
    /// The state of the block.
    pub state: BlockState,
    /// The commit bit of a root.
    pub committed: bool,
    /// What the block is to its owner. `None` if it has no owner.
    pub place: Option<Place>,
    /// The root block of the object that owns the block, or 0.
    pub owner: u32,
}

/// Eight bytes spell no entry.
#[derive(Clone, Copy, Debug, PartialEq, Eq)]
pub struct BadEntry {
    /// The least place such that no entry begins with the bytes up to it and with it.
    pub byte: u8,
}

impl MapEntry {
    /// Returns whether these bytes spell an entry, computed without a branch on them.
    pub(crate) fn is_spelled(bytes: &[u8; 8]) -> bool
        ensures { IsTrue result ↔ IsSome (entry_of bytes.now) }
    {
        let mut any = false;
        for row in &TABLE {
            any = any | row.spells(bytes);
        }
        any
    }

    /// Returns what the bytes of an entry say.
    pub(crate) fn said_by(bytes: &[u8; 8]) -> MapEntry
        ensures { result ≡ said_by bytes.now }
    {
        MapEntry {
            state: match bytes[0] % 0x80 {
                0 => BlockState::Free,
                1 => BlockState::Allocated,
                2 => BlockState::IntendAllocate,
                _ => BlockState::IntendDeallocate,
            },
            committed: bytes[0] >= 0x80,
            place: place_of(bytes[1], u16::from_be_bytes([bytes[2], bytes[3]])),
            owner: u32::from_be_bytes([bytes[4], bytes[5], bytes[6], bytes[7]]),
        }
    }

    /// Returns whether the bytes of an entry say that the block is Free.
    pub(crate) fn says_free(bytes: &[u8; 8]) -> bool
        ensures { result ≡ is_free (said_by bytes.now) }
    {
        bytes[0] % 0x80 == 0
    }

    /// Returns the entry that these bytes spell.
    pub fn decode(bytes: &[u8; 8]) -> Result<MapEntry, BadEntry>
        // What is read is an entry of the table, and the bytes spell it.
        ensures read { IfOk result (λ entry. IsEntry entry × (bytes.now ≡ spelling entry)) }
        // Bytes that spell an entry are read as that entry.
        ensures only { (entry : MapEntry) → IsEntry entry → bytes.now ≡ spelling entry → result ≡ Ok entry }
        ensures refused { (place : ℕ) → (result ≡ Err (record { byte = place })) ↔ IsFirstBad bytes.now place }

        // The value is what reading gives.
        ensures value { MatchResult result
            (λ entry. entry_of bytes.now ≡ Some entry) (λ bad. entry_of bytes.now ≡ None) }
    {
        let mut bad = BadEntry { byte: 0 };
        for row in &TABLE {
            match row.read(bytes) {
                Ok(entry) => return Ok(entry),
                Err(other) => {
                    if bad.byte < other.byte {
                        bad = other;
                    }
                }
            }
        }
        Err(bad)
    }

    /// Returns the one spelling of the entry.
    #[tactic(auto, unfolding(crate::specs::Entry::spelling))]
    pub fn encode(&self) -> [u8; 8]
        requires { IsEntry self.now }
        ensures spelled { result ≡ spelling self.now }
        // No other entry has this spelling.
        ensures alone { (other : MapEntry) → IsEntry other → spelling other ≡ spelling self.now → other ≡ self.now }
    {
        let first = self.state.code() + if self.committed { 0x80 } else { 0 };
        let [high, low] = ((place_number(self.place) % 0x1_0000) as u16).to_be_bytes();
        let [a, b, c, d] = self.owner.to_be_bytes();
        [first, place_byte(self.place), high, low, a, b, c, d]
    }
}
