//! The blocks that are taken and given back, byte by byte.
use crate::bench::{Act, Bench};
use crate::laid::{LEAF_ENTRY, NODE_ENTRY, RESERVED, ROOT_ENTRY, block_of};
use cfs_base::{Block, Kind};
use std::alloc::Global;
use std::process::Abort;
use std::test::Fail;

/// Blocks, each with the numbers of 8 bytes with which it begins.
///
/// All else in them, and all other blocks, are zero.
type Blocks = &'static [(u32, &'static [u64])];

/// A call, how many blocks are Free then, and what all blocks hold.
type Row = (Act, u32, Blocks);

fn block_in(blocks: Blocks, at: u32) -> Block {
    for (block, numbers) in blocks {
        if *block == at {
            return block_of(numbers);
        }
    }
    Block::zero()
}

/// Makes the call of a row on a volume of one cylinder, and checks that it comes to what the row says.
fn expect_row(rt: &impl Abort, alloc: Global, bench: &mut Bench, row: &Row) -> Result<(), Fail> {
    bench.act(alloc, row.0)?;
    assert_eq!(rt; bench.free(), row.1);
    for at in 0..64u32 {
        let is_right = bench.volume.get(at)? == block_in(row.2, at);
        assert!(rt; is_right, "{:?}, block {at}", row.0);
    }
    Ok(())
}

fn expect_rows(
    rt: &impl Abort,
    alloc: Global,
    bench: &mut Bench,
    rows: &[Row],
) -> Result<(), Fail> {
    for row in rows {
        expect_row(rt, alloc, bench, row)?;
    }
    Ok(())
}

const LABEL: &[u64] = &[
    0x4346_5331_0000_0002,
    0x0000_0001_0000_0002,
    0xade0_b876_0000_0000,
];

/// The entries of the roots of both indices that are made.
const FIRST: u64 = 0x0101_0000_0000_0003;

const SECOND: u64 = 0x0101_0000_0000_0006;

/// Two indices of four slots are made in a fresh volume.
///
/// Each takes the least Free block for its root. The root index takes others for leaf, node and shadow root. The
/// shadow root, and the old leaf and node, are Free then. What was written in them is left.
const CREATES: [Row; 2] = [
    (
        Act::Create {
            slot: 0,
            kind: Kind::Index,
            slots: 4,
            fill: 0,
            word: 0x903d_f1a0,
        },
        58,
        &[
            (
                0,
                &[
                    RESERVED, RESERVED, ROOT_ENTRY, FIRST, LEAF_ENTRY, NODE_ENTRY,
                ],
            ),
            (1, LABEL),
            (2, &[0x0300_0000_ade0_b876, 512, 0, 0, 0x5_0000_0000]),
            (3, &[0x0300_0000_903d_f1a0, 32]),
            (4, &[0x3_903d_f1a0]),
            (5, &[0x4_0000_0000]),
            (6, &[0x0300_0000_ade0_b876, 512, 0, 0, 0x5_0000_0000]),
        ],
    ),
    (
        Act::Create {
            slot: 1,
            kind: Kind::Index,
            slots: 4,
            fill: 0,
            word: 0xe56a_5d40,
        },
        57,
        &[
            (
                0,
                &[
                    RESERVED, RESERVED, ROOT_ENTRY, FIRST, 0, 0, SECOND, LEAF_ENTRY, NODE_ENTRY,
                ],
            ),
            (1, LABEL),
            (2, &[0x0300_0000_ade0_b876, 512, 0, 0, 0x8_0000_0000]),
            (3, &[0x0300_0000_903d_f1a0, 32]),
            (4, &[0x3_903d_f1a0]),
            (5, &[0x4_0000_0000]),
            (6, &[0x0300_0000_e56a_5d40, 32]),
            (7, &[0x3_903d_f1a0, 0x6_e56a_5d40]),
            (8, &[0x7_0000_0000]),
            (9, &[0x0300_0000_ade0_b876, 512, 0, 0, 0x8_0000_0000]),
        ],
    ),
];

#[test]
fn two_creates_take_the_least_blocks_and_give_them_back(rt: HostRuntime) -> Result<(), Fail> {
    let alloc = rt.alloc();
    let mut bench = Bench::fresh(alloc, 1, Vec::new(alloc))?;
    expect_rows(&rt, alloc, &mut bench, &CREATES)
}

/// The map of the volume with only a special file, its root, with this node, and its leaf and node as they were laid.
const LAID: &[u64] = &[RESERVED, RESERVED, ROOT_ENTRY, LEAF_ENTRY, NODE_ENTRY];

const OLD_ROOT: &[u64] = &[0x0200_0000_0000_0001, 512, 0, 0, 0x4_0000_0000];

const NEW_ROOT: &[u64] = &[0x0200_0000_0000_0001, 512, 0, 0, 0x7_0000_0000];

const OLD_LEAF: &[u64] = &[0x0102_0000_0000_0000];

const NEW_LEAF: &[u64] = &[0x5a02_0000_0000_0000];

const OLD_NODE: &[u64] = &[0x3_0000_0000];

const NEW_NODE: &[u64] = &[0x6_0000_0000];

/// What is meant for a draft of the file: its shadow root, node 0 and leaf 0.
const MEANT: [u64; 3] = [
    0x0202_0000_0000_0002,
    0x0203_0000_0000_0002,
    0x0204_0000_0000_0002,
];

/// A draft takes block 5 for its shadow root, and a write of one byte takes 6 for the leaf and 7 for its node.
const DRAFT: [Row; 2] = [
    (
        Act::Begin(2),
        58,
        &[
            (
                0,
                &[
                    RESERVED, RESERVED, ROOT_ENTRY, LEAF_ENTRY, NODE_ENTRY, MEANT[0],
                ],
            ),
            (2, OLD_ROOT),
            (3, OLD_LEAF),
            (4, OLD_NODE),
        ],
    ),
    (
        Act::Change {
            offset: 0,
            count: 1,
            byte: 0x5a,
        },
        56,
        &[
            (
                0,
                &[
                    RESERVED, RESERVED, ROOT_ENTRY, LEAF_ENTRY, NODE_ENTRY, MEANT[0], MEANT[2],
                    MEANT[1],
                ],
            ),
            (2, OLD_ROOT),
            (3, OLD_LEAF),
            (4, OLD_NODE),
            (6, NEW_LEAF),
            (7, NEW_NODE),
        ],
    ),
];

/// The draft's end gives back the blocks of the old tree, or those of the draft. What was written in them is left.
const ENDS: [Row; 2] = [
    (
        Act::Commit,
        59,
        &[
            (
                0,
                &[
                    RESERVED, RESERVED, ROOT_ENTRY, 0, 0, 0, LEAF_ENTRY, NODE_ENTRY,
                ],
            ),
            (2, NEW_ROOT),
            (3, OLD_LEAF),
            (4, OLD_NODE),
            (5, NEW_ROOT),
            (6, NEW_LEAF),
            (7, NEW_NODE),
        ],
    ),
    (
        Act::Abort,
        59,
        &[
            (0, LAID),
            (2, OLD_ROOT),
            (3, OLD_LEAF),
            (4, OLD_NODE),
            (6, NEW_LEAF),
            (7, NEW_NODE),
        ],
    ),
];

fn expect_draft(rt: &impl Abort, alloc: Global, bench: &mut Bench, end: &Row) -> Result<(), Fail> {
    assert_eq!(rt; bench.free(), 59);
    expect_rows(rt, alloc, bench, &DRAFT)?;
    expect_row(rt, alloc, bench, end)
}

#[test]
fn a_draft_takes_a_shadow_root_a_leaf_and_its_node(rt: HostRuntime) -> Result<(), Fail> {
    let alloc = rt.alloc();
    for end in &ENDS {
        let mut bench = Bench::laid(alloc, 1)?;
        expect_draft(&rt, alloc, &mut bench, end)?;
    }
    Ok(())
}
