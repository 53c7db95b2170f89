//! The table of entries: a row for each kind of place.
ghost use Rattle.std.specs.Prelude.{◌≡◌, ◌≢◌, ◌↔◌, ◌+◌, ◌*◌, ◌^◌, ◌<◌, ◌≤◌, ℕ, Bool, true, slice_index, IsTrue, IfOk};
ghost use Rattle.std.specs.Prelude.{IfErr, IfSome, IfNone};
ghost use Rattle.cyl_map.specs.Entry as spec;
ghost use Rattle.cyl_map.specs.Reading.{place_of as said_place};
ghost use Rattle.cyl_map.specs.Row.{IsFirstBadOf, IsFirstOfOwner, IsSpelledBy};

use crate::entry::{BadEntry, MapEntry};
use crate::state::BlockState;
use cfs_base::Place;

/// A row: the states `from` to `to` go with the places of one kind that are numbered up to `last`.
pub(crate) struct Row {
    pub from: BlockState,
    pub to: BlockState,
    pub last: Option<Place>,
    /// Whether the block has an owner.
    pub owned: bool,
    /// Whether the commit bit may be set.
    pub may_commit: bool,
}

const NO_OWNER: u32 = 0;

/// All entries that there are, by kind of place.
pub(crate) static TABLE: [Row; 6] = [
    Row {
        from: BlockState::Free,
        to: BlockState::Allocated,
        last: None,
        owned: false,
        may_commit: false,
    },
    Row {
        from: BlockState::Allocated,
        to: BlockState::IntendAllocate,
        last: Some(Place::Root),
        owned: true,
        may_commit: true,
    },
    Row {
        from: BlockState::Allocated,
        to: BlockState::IntendAllocate,
        last: Some(Place::ShadowRoot),
        owned: true,
        may_commit: false,
    },
    Row {
        from: BlockState::Allocated,
        to: BlockState::IntendDeallocate,
        last: Some(Place::Node(8_191)),
        owned: true,
        may_commit: false,
    },
    Row {
        from: BlockState::Allocated,
        to: BlockState::IntendDeallocate,
        last: Some(Place::Leaf(1_048_575)),
        owned: true,
        may_commit: false,
    },
    Row {
        from: BlockState::Allocated,
        to: BlockState::IntendDeallocate,
        last: Some(Place::Span(63)),
        owned: true,
        may_commit: false,
    },
];

/// Returns the number of a kind of place, as the low half of an entry's second byte has it.
pub(crate) fn place_code(place: Option<Place>) -> u8
    ensures { result ≡ spec.place_code place }
{
    match place {
        None => 0,
        Some(Place::Root) => 1,
        Some(Place::ShadowRoot) => 2,
        Some(Place::Node(_)) => 3,
        Some(Place::Leaf(_)) => 4,
        Some(Place::Span(_)) => 5,
    }
}

/// Returns the number of a place among those of its kind.
pub(crate) fn place_number(place: Option<Place>) -> u32
    ensures { result ≡ spec.place_number place }
{
    match place {
        Some(Place::Node(number)) | Some(Place::Span(number)) => number as u32,
        Some(Place::Leaf(number)) => number,
        _ => 0,
    }
}

/// Returns the second byte of an entry with this place.
pub(crate) fn place_byte(place: Option<Place>) -> u8
    requires { spec.place_number place < 2 ^ 20 }
    ensures { result ≡ spec.place_byte place }
{
    place_code(place) + 16 * (place_number(place) / 0x1_0000) as u8
}

/// Returns the place that the second byte and the two after it say, if they are an entry's.
pub(crate) fn place_of(byte: u8, low: u16) -> Option<Place>
    ensures { result ≡ said_place byte low }
{
    match byte % 16 {
        1 => Some(Place::Root),
        2 => Some(Place::ShadowRoot),
        3 => Some(Place::Node(low)),
        4 => Some(Place::Leaf((byte / 16) as u32 * 0x1_0000 + low as u32)),
        5 => Some(Place::Span(low)),
        _ => None,
    }
}

/// Returns the place of the same kind with this number.
fn numbered(place: Option<Place>, number: u32) -> Option<Place>
    requires { number ≤ spec.place_number place }
    ensures kind { spec.place_code result ≡ spec.place_code place }
    ensures number { spec.place_number result ≡ number }
{
    match place {
        Some(Place::Node(_)) => Some(Place::Node(number as u16)),
        Some(Place::Leaf(_)) => Some(Place::Leaf(number)),
        Some(Place::Span(_)) => Some(Place::Span(number as u16)),
        other => other,
    }
}

/// Returns the place of the first byte of the owner that isn't 0.
fn first_of_owner(bytes: &[u8; 8]) -> Option<u8>
    ensures found { IfSome result (IsFirstOfOwner bytes.now) }
    ensures none { IfNone result ((k : ℕ) → 4 ≤ k → k < 8 → slice_index bytes.now k ≡ 0) }
{
    for byte in 4..8u8 {
        if bytes[byte as usize] != 0 {
            return Some(byte);
        }
    }
    None
}

/// Returns the number in the first four bytes, little-endian.
///
/// This function and the next one stand alone so that four bytes are read at once.
fn little_endian(bytes: &[u8; 8]) -> u32
    ensures { result ≡ slice_index bytes.now 0 + slice_index bytes.now 1 * 2 ^ 8 + slice_index bytes.now 2 * 2 ^ 16
        + slice_index bytes.now 3 * 2 ^ 24 }
{
    u32::from_le_bytes([bytes[0], bytes[1], bytes[2], bytes[3]])
}

/// Returns the number in the first four bytes, big-endian.
fn big_endian(bytes: &[u8; 8]) -> u32
    ensures { result ≡ slice_index bytes.now 0 * 2 ^ 24 + slice_index bytes.now 1 * 2 ^ 16
        + slice_index bytes.now 2 * 2 ^ 8
        + slice_index bytes.now 3 }
{
    u32::from_be_bytes([bytes[0], bytes[1], bytes[2], bytes[3]])
}

impl Row {
    /// Returns the state and the commit bit that the first byte says, if the row allows them.
    fn state_in(&self, first: u8) -> Option<(BlockState, bool)>
        ensures found { IfSome result (λ found.
            (spec.lets_state self.now found.0 found.1 ≡ true) × (spec.first_byte found.0 found.1 ≡ first)) }
        ensures none { IfNone result ((state : BlockState) (committed : Bool) →
            spec.lets_state self.now state committed ≡ true → spec.first_byte state committed ≢ first) }
    {
        let committed = first >= 0x80;
        let state = BlockState::of(first % 0x80)?;
        let code = state.code();
        if code < self.from.code() || self.to.code() < code || (committed && !self.may_commit) {
            return None;
        }
        Some((state, committed))
    }

    /// Returns whether the bytes spell an entry of this row, computed without a branch on them.
    pub fn spells(&self, bytes: &[u8; 8]) -> bool
        requires fits { spec.place_number self.now.last < 2 ^ 20 }
        ensures { IsTrue result ↔ IsSpelledBy self.now bytes.now }
    {
        let told = little_endian(bytes) % 0x1000; // first byte and kind
        let numbers = big_endian(bytes);
        let number = numbers / 0x10_0000 % 0x10 * 0x1_0000 + numbers % 0x1_0000;
        let owner = u32::from_be_bytes([bytes[4], bytes[5], bytes[6], bytes[7]]);
        let least = place_code(self.last) as u32 * 0x100;
        let head = if self.may_commit {
            told / 0x100 * 0x100 + told % 0x80
        } else {
            told
        };
        (least + self.from.code() as u32 <= head)
            & (head <= least + self.to.code() as u32)
            & (number <= place_number(self.last))
            & ((owner != NO_OWNER) == self.owned)
    }

    /// Returns the entry of this row that the bytes spell.
    ///
    /// The error names the least place such that no entry of the row begins with the bytes up to it and with it.
    pub fn read(&self, bytes: &[u8; 8]) -> Result<MapEntry, BadEntry>
        requires range { spec.state_code self.now.from ≤ spec.state_code self.now.to }
        requires fits { spec.place_number self.now.last < 2 ^ 20 }
        ensures read { IfOk result (λ entry. (spec.is_of self.now entry ≡ true) × (bytes.now ≡ spec.spelling entry)) }
        ensures refused { IfErr result (λ bad. IsFirstBadOf self.now bytes.now bad.byte) }
    {
        let Some((state, committed)) = self.state_in(bytes[0]) else {
            return Err(BadEntry { byte: 0 });
        };
        let last = place_number(self.last);
        let high = (bytes[1] / 16) as u32;
        if bytes[1] % 16 != place_code(self.last) || last / 0x1_0000 < high {
            return Err(BadEntry { byte: 1 });
        }
        if last / 0x100 < high * 0x100 + bytes[2] as u32 {
            return Err(BadEntry { byte: 2 });
        }
        let number = high * 0x1_0000 + bytes[2] as u32 * 0x100 + bytes[3] as u32;
        if last < number {
            return Err(BadEntry { byte: 3 });
        }
        let owner = u32::from_be_bytes([bytes[4], bytes[5], bytes[6], bytes[7]]);
        if self.owned {
            if owner == NO_OWNER {
                return Err(BadEntry { byte: 7 });
            }
        } else if let Some(byte) = first_of_owner(bytes) {
            return Err(BadEntry { byte });
        }
        let place = numbered(self.last, number);
        Ok(MapEntry {
            state,
            committed,
            place,
            owner,
        })
    }
}
