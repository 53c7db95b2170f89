//! Spellings worked by hand: numbers in a block, entries of a map, labels, and the words of a seed.
ghost use Rattle.std.specs.Prelude.{◌≤◌};

use cfs_base::{Block, Place, Puid};
use cyl_map::{BadEntry, BlockState, MapEntry};
use puid_space::{Draw, Drawn, root_word};
use std::process::Abort;
use ufs_model::word_of;
use vol_label::{Label, LabelFault};

/// The first words of the stream of seed 0, of which the root index has the first.
const WORDS: [u32; 5] = [
    0xade0_b876,
    0x903d_f1a0,
    0xe56a_5d40,
    0x28bd_8653,
    0xb819_d2bd,
];

#[test]
fn words_are_those_of_the_stated_stream(rt: HostRuntime) {
    let mut draw = Draw::new(0);
    assert_eq!(rt; root_word(0), WORDS[0]);
    for drawn in 0..4 {
        assert_eq!(rt; draw.drawn(), drawn);
        let k = drawn + 1;
        let word = WORDS[k as usize];
        assert_eq!(rt; draw.next(), Drawn { draw: k, word });
        assert_eq!(rt; word_of(0, k), word);
    }
}

#[test]
fn numbers_are_big_endian(rt: HostRuntime) {
    let mut block = Block::zero();
    block.put_u16(0, 0x0102);
    block.put_u32(2, 0x0304_0506);
    block.put_u64(504, 0x0708_090a_0b0c_0d0e);
    let bytes = block.bytes();
    assert!(rt;
        bytes.starts_with(&[1, 2, 3, 4, 5, 6, 0])
            && bytes.ends_with(&[0, 7, 8, 9, 10, 11, 12, 13, 14])
    );
    let read = (block.u16_at(4), block.u32_at(0), block.u64_at(504));
    assert_eq!(rt; read, (0x0506, 0x0102_0304, 0x0708_090a_0b0c_0d0e));
}

/// Checks that eight bytes are read as this entry, and spelled so again, or refused at this place.
fn expect_entry(rt: &impl Abort, bytes: u64, wanted: Result<MapEntry, BadEntry>) {
    let read = MapEntry::decode(&bytes.to_be_bytes());
    assert_eq!(rt; read, wanted, "{bytes:#018x}");
    if let Ok(entry) = read {
        assert_eq!(rt; u64::from_be_bytes(entry.encode()), bytes);
    }
}

#[test]
fn entries_of_a_small_volume_are_read_and_spelled(rt: HostRuntime) {
    use BlockState::{Allocated, IntendAllocate};
    for (bytes, state, committed, place, owner) in [
        (0x0101_0000_0000_0002, Allocated, false, Place::Root, 2),
        (0x8101_0000_0000_0002, Allocated, true, Place::Root, 2),
        (0x0101_0000_0000_0003, Allocated, false, Place::Root, 3),
        (0x0104_0000_0000_0002, Allocated, false, Place::Leaf(0), 2),
        (0x0103_0000_0000_0002, Allocated, false, Place::Node(0), 2),
        (
            0x0202_0000_0000_0002,
            IntendAllocate,
            false,
            Place::ShadowRoot,
            2,
        ),
        (0x0103_0078_0000_0005, Allocated, false, Place::Node(120), 5),
        (
            0x0104_ffff_0000_0002,
            Allocated,
            false,
            Place::Leaf(65_535),
            2,
        ),
        (
            0x0114_0000_0000_0002,
            Allocated,
            false,
            Place::Leaf(65_536),
            2,
        ),
        (
            0x01f4_ffff_0000_0002,
            Allocated,
            false,
            Place::Leaf(1_048_575),
            2,
        ),
        (0x0105_003f_0000_0002, Allocated, false, Place::Span(63), 2),
    ] {
        let entry = MapEntry {
            state,
            committed,
            place: Some(place),
            owner,
        };
        expect_entry(&rt, bytes, Ok(entry));
    }
    for (bytes, byte) in [
        (0x0100_0000_0000_0001, 7),
        (0x0301_0000_0000_0005, 1),
        (0x8103_0000_0000_0005, 1),
        (0x0103_2000_0000_0005, 2),
        (0x0113_0000_0000_0005, 1),
        (0x0105_0040_0000_0002, 3),
        (0x0105_0100_0000_0002, 2),
        (0x0101_0000_0000_0000, 7),
        (0x0400_0000_0000_0000, 0),
    ] {
        expect_entry(&rt, bytes, Err(BadEntry { byte }));
    }
}

/// Returns the label of a volume of `cylinders` cylinders, whose words are drawn from seed 0.
fn label_of(cylinders: u32) -> Label {
    let word = WORDS[0];
    Label {
        cylinders,
        root: Puid { block: 2, word },
        version: 2,
    }
}

/// Returns the label of a volume of one cylinder, byte by byte.
fn small_label() -> Block {
    let mut block = Block::zero();
    block.put_u64(0, 0x4346_5331_0000_0002);
    block.put_u64(8, 0x0000_0001_0000_0002);
    block.put_u32(16, 0xade0_b876);
    block
}

/// Returns that label, with this number at a place in it.
fn changed_label(at: usize, number: u32) -> Block
    requires { at ≤ 508 }
{
    let mut block = small_label();
    block.put_u32(at, number);
    block
}

#[test]
fn the_label_of_a_small_volume_is_read_and_refused_where_it_is_changed(rt: HostRuntime) {
    let first = Label {
        version: 1,
        ..label_of(1)
    };
    for (at, number, label) in [
        (0, 0x4346_5331, label_of(1)),
        (4, 1, first),
        (8, 65_536, label_of(65_536)),
    ] {
        let block = changed_label(at, number);
        assert_eq!(rt; Label::decode(&block), Ok(label), "{number} at {at}");
        assert_eq!(rt; label.encode(), block);
    }
    for (at, number, fault) in [
        (0, 0x4346_5332, LabelFault::NotVolume),
        (4, 0, LabelFault::Version { found: 0 }),
        (4, 3, LabelFault::Version { found: 3 }),
        (4, 0x0100_0000, LabelFault::Version { found: 0x0100_0000 }),
        (8, 0, LabelFault::NotVolume),
        (8, 65_537, LabelFault::NotVolume),
        (12, 3, LabelFault::NotVolume),
        (508, 1, LabelFault::NotVolume),
    ] {
        let read = Label::decode(&changed_label(at, number));
        assert_eq!(rt; read, Err(fault), "{number} at {at}");
    }
}
