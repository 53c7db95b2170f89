//! The changes of an entry.
ghost use Rattle.std.specs.Prelude.{◌≡◌};
ghost use Rattle.cyl_map.specs.Entry.{IsEntry};
ghost use Rattle.intentions.specs.Entries as spec;

use cfs_base::Place;
use cyl_alloc::maps::FREE;
use cyl_map::{BlockState, MapEntry};

/// A change of an entry. An entry that it doesn't fit stays as it is.
#[derive(Clone, Copy, Debug, PartialEq, Eq)]
pub enum EntryChange {
    /// A Free block is claimed for an owner's place.
    Claim { place: Place, owner: u32 },
    /// A node or leaf is to be given up.
    Release,
    /// The commit bit of a root is set.
    SetBit,
    /// The commit bit is cleared.
    ClearBit,
    /// An intention is carried out: the block becomes Allocated, or Free.
    Finish,
    /// An intention is taken back: the block becomes Free, or Allocated.
    Undo,
}

/// Returns the same entry in another state.
fn restated(entry: MapEntry, state: BlockState) -> MapEntry
    ensures { result ≡ spec.restated state entry }
{
    MapEntry { state, ..entry }
}

fn released(entry: MapEntry) -> MapEntry
    requires { IsEntry entry }
    ensures value { result ≡ spec.released entry }
    ensures entry { IsEntry result }
{
    match entry.place {
        Some(Place::Node(_)) | Some(Place::Leaf(_)) | Some(Place::Span(_)) => match entry.state {
            BlockState::Allocated | BlockState::IntendAllocate => {
                restated(entry, BlockState::IntendDeallocate)
            }
            BlockState::Free | BlockState::IntendDeallocate => entry,
        },
        Some(Place::Root) | Some(Place::ShadowRoot) | None => entry,
    }
}

fn with_bit(entry: MapEntry) -> MapEntry
    requires { IsEntry entry }
    ensures value { result ≡ spec.with_bit entry }
    ensures entry { IsEntry result }
{
    match entry.place {
        Some(Place::Root) => MapEntry {
            committed: true,
            ..entry
        },
        Some(_) | None => entry,
    }
}

fn without_bit(entry: MapEntry) -> MapEntry
    requires { IsEntry entry }
    ensures value { result ≡ spec.without_bit entry }
    ensures entry { IsEntry result }
{
    MapEntry {
        committed: false,
        ..entry
    }
}

fn finished(entry: MapEntry) -> MapEntry
    requires { IsEntry entry }
    ensures value { result ≡ spec.finished entry }
    ensures entry { IsEntry result }
{
    match entry.state {
        BlockState::Free | BlockState::Allocated => entry,
        BlockState::IntendAllocate => restated(entry, BlockState::Allocated),
        BlockState::IntendDeallocate => FREE,
    }
}

fn undone(entry: MapEntry) -> MapEntry
    requires { IsEntry entry }
    ensures value { result ≡ spec.undone entry }
    ensures entry { IsEntry result }
{
    match entry.state {
        BlockState::Free | BlockState::Allocated => entry,
        BlockState::IntendAllocate => FREE,
        BlockState::IntendDeallocate => restated(entry, BlockState::Allocated),
    }
}

impl EntryChange {
    /// Returns the entry after the change.
    pub fn of(self, entry: MapEntry) -> MapEntry
        requires entry { IsEntry entry }
        requires fits { spec.FitsEntry self }
        ensures value { result ≡ spec.changed_entry self entry }
        ensures entry { IsEntry result }
    {
        match self {
            EntryChange::Claim { place, owner } => MapEntry {
                state: BlockState::IntendAllocate,
                committed: false,
                place: Some(place),
                owner,
            },
            EntryChange::Release => released(entry),
            EntryChange::SetBit => with_bit(entry),
            EntryChange::ClearBit => without_bit(entry),
            EntryChange::Finish => finished(entry),
            EntryChange::Undo => undone(entry),
        }
    }
}
