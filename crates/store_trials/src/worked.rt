//! Blocks and bytes that are worked by hand.
use crate::laid::{RESERVED, ROOT_ENTRY, block_of, get, node_with, root_with};
use crate::volume::ROOT_WORD;
use block_tree::{BadRoot, Root, TreeFault, leaf_at};
use cfs_base::{Block, Disk, Kind, Puid};
use cfs_fakes::MemoryDisk;
use leaf_changes::{cut_leaf, patch_leaf, put_slot, read_part};
use std::process::Abort;
use std::test::Fail;
use vol_format::format_volume;

/// Checks that a block has these numbers of 4 bytes, each at its byte, and is zero elsewhere.
fn expect_numbers(rt: &impl Abort, block: &Block, numbers: &[(usize, u32)]) {
    let mut wanted = Block::zero();
    for (at, number) in numbers {
        if *at <= 508 {
            wanted.put_u32(*at, *number);
        }
    }
    assert!(rt; *block == wanted, "the block that begins with {numbers:?}");
}

#[test]
fn roots_and_nodes_have_these_bytes(rt: HostRuntime) {
    let index = root_with(Kind::Index, 0, 0x903d_f1a0, 32, &[]);
    expect_numbers(
        &rt,
        &index,
        &[(0, 0x0300_0000), (4, 0x903d_f1a0), (12, 0x20)],
    );
    let file = root_with(Kind::Special, 0x2e, 7, 7_864_320, &[(119, 0x0102_0304)]);
    let largest = [
        (0, 0x022e_0000),
        (4, 7),
        (12, 0x0078_0000),
        (508, 0x0102_0304),
    ];
    expect_numbers(&rt, &file, &largest);
    let node = node_with(&[(0, 4), (127, 0xffff_ffff)]);
    expect_numbers(&rt, &node, &[(0, 4), (508, 0xffff_ffff)]);
}

/// Numbers of 2 bytes that are put into the root index's block, each at its byte, and the byte from which on it is
/// bad.
const BAD_ROOTS: [(&[(usize, u16)], u16); 14] = [
    (&[(0, 0x0000)], 0),
    (&[(0, 0x0400)], 0),
    (&[(0, 0x0301)], 1),
    (&[(2, 0x0101)], 2),
    (&[(2, 0x0001)], 3),
    (&[(8, 0x0100)], 8),
    (&[(12, 0x0078)], 14),
    (&[(12, 0x0079)], 13),
    (&[(12, 0x0179)], 12),
    (&[(14, 0x0204)], 15),
    (&[(14, 0x0000)], 15),
    (&[(16, 0x0001)], 17),
    (&[(30, 0x0001)], 31),
    // A normal file of one byte more than the most.
    (&[(0, 0x0100), (12, 0x0078), (14, 0x0001)], 15),
];

#[test]
fn the_first_bad_byte_of_a_root_is_named(rt: HostRuntime) {
    for (changes, byte) in BAD_ROOTS {
        let mut block = root_with(Kind::Index, 0, ROOT_WORD, 512, &[(0, 5)]);
        for (at, number) in changes {
            if *at <= 510 {
                block.put_u16(*at, *number);
            }
        }
        assert_eq!(rt; Root::decode(&block), Err(BadRoot { byte }));
    }
}

/// Bytes 1, 2, 3, 4 are put at byte 510 of an object: what its leaves 0, 1 and 2, full of 7, then have at which
/// place.
const PATCHED: [(u32, usize, [u8; 3]); 3] = [
    (0, 509, [7, 1, 2]),
    (1, 0, [3, 4, 7]),
    (2, 0, [7, 7, 7]),
];

#[test]
fn bytes_at_the_end_of_one_leaf_go_on_in_the_next(rt: HostRuntime) {
    let mut read = [0; 4];
    for (leaf, place, wanted) in PATCHED {
        let mut block = Block::of([7; 512]);
        patch_leaf(&mut block, leaf, 510, &[1, 2, 3, 4]);
        for (byte, number) in wanted.iter().enumerate() {
            assert_eq!(rt; block.bytes()[place + byte], *number, "leaf {leaf}");
        }
        read_part(&block, leaf, 510, &mut read);
    }
    assert_eq!(rt; read, [1, 2, 3, 4]);
}

#[test]
fn a_cut_leaf_and_a_slot_have_these_bytes(rt: HostRuntime) {
    // A file of 600 bytes has 88 in its last leaf.
    let mut last = Block::of([1; 512]);
    cut_leaf(&mut last, 600, 5);
    assert_eq!(rt;
        (last.bytes()[87], last.bytes()[88], last.bytes()[511]),
        (1, 5, 5)
    );
    let mut slots = Block::zero();
    put_slot(
        &mut slots,
        1,
        Some(Puid {
            block: 3,
            word: 0x903d_f1a0,
        }),
    );
    expect_numbers(&rt, &slots, &[(8, 3), (12, 0x903d_f1a0)]);
}

#[test]
fn a_pointer_past_the_end_and_a_failed_read_are_told_apart(rt: HostRuntime) -> Result<(), Fail> {
    let alloc = rt.alloc();
    let mut disk = MemoryDisk::failing(alloc, 6, vec![in alloc; 0; 1]?)?;
    let mut nodes = [0; 120];
    nodes[0] = 5;
    nodes[1] = 6;
    let root = Root {
        kind: Kind::Index,
        fill: 0,
        word: 1,
        size: 512,
        nodes,
    };
    let past = TreeFault::BadPointer {
        block: 6,
        holder: None,
    };
    for (leaf, wanted) in [(0, Err(TreeFault::Disk)), (255, Err(past)), (0, Ok(0))] {
        assert_eq!(rt; leaf_at(&mut disk, &root, leaf), wanted);
    }
    Ok(())
}

#[test]
fn a_pointer_past_the_end_is_told_in_words(rt: HostRuntime) -> Result<(), Fail> {
    let past = TreeFault::BadPointer {
        block: 6,
        holder: None,
    };
    let text = format!(in rt.alloc(); "{past}")?;
    assert_eq!(rt;
        text.as_str(),
        "a pointer leads to block 6, which the disk doesn't have"
    );
    Ok(())
}

/// Returns what a block of the fresh volume of two cylinders holds, whose words are of seed 0.
fn expected(at: u32) -> Block {
    match at {
        0 => block_of(&[RESERVED, RESERVED, ROOT_ENTRY]),
        1 => block_of(&[
            0x4346_5331_0000_0002,
            0x0000_0002_0000_0002,
            0xade0_b876_0000_0000,
        ]),
        2 => block_of(&[0x0300_0000_ade0_b876, 512]),
        64 => block_of(&[RESERVED]),
        _ => Block::zero(),
    }
}

fn expect_fresh(rt: &impl Abort, disk: &mut MemoryDisk) -> Result<(), Fail> {
    // Zeros, both maps, block 2 and the label, and three barriers.
    assert_eq!(rt; disk.calls(), 8);
    for at in 0..128u32 {
        assert!(rt; get(disk, at)? == expected(at), "block {at}");
    }
    Ok(())
}

#[test]
fn a_fresh_volume_has_these_blocks(rt: HostRuntime) -> Result<(), Fail> {
    let mut disk = MemoryDisk::new(rt.alloc(), 128)?;
    format_volume(&mut disk, ROOT_WORD)?;
    expect_fresh(&rt, &mut disk)
}
