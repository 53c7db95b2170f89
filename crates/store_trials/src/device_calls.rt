//! How often calls of the store read and write.
use crate::bench::{Act, Bench};
use crate::volume::ROOT_WORD;
use cfs_base::{FileKind, Kind, Puid};
use std::alloc::Global;
use std::process::Abort;
use std::test::Fail;

/// A call, and how many reads, writes and barriers it makes, of maps and of other blocks.
type Row = (Act, [u32; 2], [u32; 2], u32);

fn expect_row(rt: &impl Abort, alloc: Global, bench: &mut Bench, row: &Row) -> Result<(), Fail> {
    bench.act(alloc, row.0)?;
    let seen = bench.seen();
    let is_right = seen.reads == row.1 && seen.writes == row.2 && seen.barriers == row.3;
    assert!(rt; is_right, "{:?}: {seen:?}", row.0);
    Ok(())
}

fn expect_rows(
    rt: &impl Abort,
    alloc: Global,
    bench: &mut Bench,
    rows: &[Row],
) -> Result<(), Fail> {
    for row in rows {
        expect_row(rt, alloc, bench, row)?;
    }
    Ok(())
}

/// A write of a special file that holds the leaf.
const BYTE: Act = Act::Write {
    at: 2,
    kind: FileKind::Special,
    offset: 0,
    count: 1,
    byte: 0x5a,
};

const LEAF: Act = Act::Write {
    at: 2,
    kind: FileKind::Special,
    offset: 0,
    count: 512,
    byte: 0x5a,
};

/// Writes of a special file.
///
/// Of maps: three claims, two marks at once, the bit set, five entries finished at once, the bit cleared. Other
/// blocks that are written: a leaf, a node, two roots. Other blocks that are read: the root, by the call that asks
/// the size and by the draft, the leaf of which a part stays, the node, when it is changed and when it is compared
/// with the draft's, which is read too, and the shadow root.
const SPECIAL: [Row; 2] = [(BYTE, [7, 7], [7, 4], 5), (LEAF, [7, 6], [7, 4], 5)];

#[test]
fn a_special_write_of_one_held_leaf_is_11_writes_and_5_barriers(
    rt: HostRuntime,
) -> Result<(), Fail> {
    let alloc = rt.alloc();
    for row in &SPECIAL {
        let mut bench = Bench::laid(alloc, 1)?;
        expect_row(&rt, alloc, &mut bench, row)?;
    }
    Ok(())
}

/// Four kilobytes of a draft, in leaves 126 to 133 of two nodes.
const EIGHT: Act = Act::Change {
    offset: 64_512,
    count: 4096,
    byte: 0x5a,
};

fn expect_eight(rt: &impl Abort, alloc: Global, bench: &mut Bench, begin: Act) -> Result<(), Fail> {
    bench.play(alloc, &[begin, Act::SetSize(70_000), EIGHT])?;
    // Both nodes are read.
    expect_row(rt, alloc, bench, &(EIGHT, [0, 2], [0, 8], 0))
}

#[test]
fn four_kilobytes_in_fresh_leaves_are_eight_writes(rt: HostRuntime) -> Result<(), Fail> {
    let alloc = rt.alloc();
    for begin in [Act::Begin(2), Act::BeginDirect(2)] {
        let mut bench = Bench::laid(alloc, 2)?;
        expect_eight(&rt, alloc, &mut bench, begin)?;
    }
    Ok(())
}

/// A draft of several leaves, of which some are cut off again.
const DRAFT: [Act; 7] = [
    Act::SetSize(70_000),
    Act::Change {
        offset: 64_000,
        count: 4096,
        byte: 1,
    },
    Act::See {
        offset: 63_400,
        count: 5000,
    },
    Act::Change {
        offset: 65_000,
        count: 3000,
        byte: 2,
    },
    Act::SetSize(66_700),
    Act::See {
        offset: 63_400,
        count: 3300,
    },
    Act::SetSize(69_000),
];

/// Begins and ends a draft by these calls, and checks that no call reads a block twice except maps.
fn expect_once(
    rt: &impl Abort,
    alloc: Global,
    bench: &mut Bench,
    ends: [Act; 2],
) -> Result<(), Fail> {
    bench.act(alloc, ends[0])?;
    for act in DRAFT.iter().chain(&ends[1..]) {
        bench.act(alloc, *act)?;
        assert!(rt; !bench.seen().is_twice, "{act:?}");
    }
    Ok(())
}

const ENDS: [[Act; 2]; 4] = [
    [Act::Begin(2), Act::Commit],
    [Act::Begin(2), Act::Abort],
    [Act::BeginDirect(2), Act::Commit],
    [Act::BeginDirect(2), Act::Abort],
];

#[test]
fn no_call_of_a_draft_reads_a_block_twice_but_maps(rt: HostRuntime) -> Result<(), Fail> {
    let alloc = rt.alloc();
    for ends in ENDS {
        let mut bench = Bench::laid(alloc, 2)?;
        expect_once(&rt, alloc, &mut bench, ends)?;
    }
    Ok(())
}

/// The greatest index, whose root is block 3.
const INDEX: Act = Act::Create {
    slot: 0,
    kind: Kind::Index,
    slots: 983_040,
    fill: 0,
    word: 7,
};

/// Slots of the greatest index that are filled or emptied, one after another, and what is read and written.
///
/// The root is read, the leaf of the slot and its node if they are held, and the shadow root. These and the root are
/// written. The map is written for three claims, for the bit set and cleared, once for all entries that are finished,
/// and once for the marks of those of the two that were held.
const SLOTS: [(u64, Option<Puid>, [u32; 2], [u32; 2]); 5] = [
    (0, TOP, [6, 2], [6, 4]),
    (4095, TOP, [7, 3], [7, 4]),
    (8192, TOP, [6, 2], [6, 4]),
    (983_039, TOP, [6, 2], [6, 4]),
    (0, None, [7, 4], [7, 4]),
];

const TOP: Option<Puid> = Some(Puid {
    block: 2,
    word: ROOT_WORD,
});

/// Slots in a leaf that is held, and in one that isn't.
const FOUND: [Row; 2] = [
    (Act::Retrieve { at: 3, slot: 0 }, [0, 3], [0, 0], 0),
    (Act::Retrieve { at: 3, slot: 64 }, [0, 2], [0, 0], 0),
];

fn expect_slots(rt: &impl Abort, alloc: Global, bench: &mut Bench) -> Result<(), Fail> {
    bench.act(alloc, INDEX)?;
    for (slot, what, reads, writes) in SLOTS {
        let act = Act::Put { at: 3, slot, what };
        expect_row(rt, alloc, bench, &(act, reads, writes, 5))?;
        assert!(rt; !bench.seen().is_twice, "slot {slot}");
    }
    expect_rows(rt, alloc, bench, &FOUND)
}

#[test]
fn of_an_index_one_leaf_and_its_node_alone_are_read_and_written(
    rt: HostRuntime,
) -> Result<(), Fail> {
    let alloc = rt.alloc();
    let mut bench = Bench::fresh(alloc, 2, Vec::new(alloc))?;
    expect_slots(&rt, alloc, &mut bench)
}

/// Changes of a normal file of two leaves, both held, whose root is block 3.
const HELD: [Act; 3] = [
    Act::Create {
        slot: 0,
        kind: Kind::Normal,
        slots: 0,
        fill: 7,
        word: 9,
    },
    Act::Resize {
        at: 3,
        kind: FileKind::Normal,
        size: 1024,
    },
    WHOLE,
];

const WHOLE: Act = Act::Write {
    at: 3,
    kind: FileKind::Normal,
    offset: 0,
    count: 1024,
    byte: 1,
};

const PARTS: Act = Act::Write {
    at: 3,
    kind: FileKind::Normal,
    offset: 500,
    count: 20,
    byte: 2,
};

const CUT: Act = Act::Resize {
    at: 3,
    kind: FileKind::Normal,
    size: 768,
};

/// Changes of a normal file.
///
/// The root and the node are read, and a leaf that stays in part. A change ends with a barrier. One more is made
/// before the root of a file that is cut, when its last leaf and node are written.
const NORMAL: [Row; 5] = [
    (WHOLE, [0, 2], [0, 2], 1),
    (PARTS, [0, 4], [0, 2], 1),
    (Act::Read { at: 3, offset: 511 }, [0, 4], [0, 0], 0),
    (CUT, [0, 3], [0, 3], 2),
    (CUT, [0, 1], [0, 1], 1),
];

fn expect_held(rt: &impl Abort, alloc: Global, bench: &mut Bench) -> Result<(), Fail> {
    bench.play(alloc, &HELD)?;
    expect_rows(rt, alloc, bench, &NORMAL)
}

#[test]
fn where_all_leaves_are_held_no_map_is_touched(rt: HostRuntime) -> Result<(), Fail> {
    let alloc = rt.alloc();
    let mut bench = Bench::fresh(alloc, 1, Vec::new(alloc))?;
    expect_held(&rt, alloc, &mut bench)
}
