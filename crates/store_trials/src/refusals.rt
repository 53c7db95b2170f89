//! Calls of the disk that fail, and blocks that are damaged.
use crate::bench::{Act, Bench};
use crate::laid::{Edit, RESERVED, block_of, edit};
use cfs_base::{Damage, Disk, FileKind, Kind, Puid, Refused};
use cfs_fakes::MemoryDisk;
use cyl_alloc::Space;
use std::alloc::Global;
use std::process::Abort;
use std::test::Fail;

/// A special file in slot 0 and a normal one in slot 1. Their roots are blocks 3 and 6.
const SPECIAL: Act = Act::Create {
    slot: 0,
    kind: Kind::Special,
    slots: 0,
    fill: 7,
    word: 9,
};

const NORMAL: Act = Act::Create {
    slot: 1,
    kind: Kind::Normal,
    slots: 0,
    fill: 7,
    word: 8,
};

/// Both get 1,024 bytes, of which the last 24 of the first leaf and the first 6 of the second are written.
const FILES: [Act; 6] = [
    SPECIAL,
    NORMAL,
    SIZE_SPECIAL,
    SIZE_NORMAL,
    WRITE_SPECIAL,
    WRITE_NORMAL,
];

const SIZE_SPECIAL: Act = Act::Resize {
    at: 3,
    kind: FileKind::Special,
    size: 1024,
};

const SIZE_NORMAL: Act = Act::Resize {
    at: 6,
    kind: FileKind::Normal,
    size: 1024,
};

const WRITE_SPECIAL: Act = Act::Write {
    at: 3,
    kind: FileKind::Special,
    offset: 488,
    count: 30,
    byte: 1,
};

const WRITE_NORMAL: Act = Act::Write {
    at: 6,
    kind: FileKind::Normal,
    offset: 488,
    count: 30,
    byte: 1,
};

const CUT_SPECIAL: Act = Act::Resize {
    at: 3,
    kind: FileKind::Special,
    size: 600,
};

const CUT_NORMAL: Act = Act::Resize {
    at: 6,
    kind: FileKind::Normal,
    size: 600,
};

const CHANGE: Act = Act::Change {
    offset: 488,
    count: 30,
    byte: 2,
};

const SEE: Act = Act::See {
    offset: 488,
    count: 30,
};

const EMPTY: Act = Act::Put {
    at: 2,
    slot: 0,
    what: None,
};

const FILL: Act = Act::Put {
    at: 2,
    slot: 2,
    what: Some(Puid { block: 3, word: 9 }),
};

/// Calls of every layer, and the calls before each.
const CALLS: [(&[Act], Act); 24] = [
    (&[], Act::Claim),
    (&[], Act::Find),
    (&[], Act::Release(20)),
    (&[], SPECIAL),
    (&[], NORMAL),
    (&FILES, FILL),
    (&FILES, EMPTY),
    (&FILES, Act::Retrieve { at: 2, slot: 1 }),
    (&FILES, Act::Read { at: 3, offset: 511 }),
    (&FILES, Act::Read { at: 6, offset: 511 }),
    (&[SPECIAL, SIZE_SPECIAL], WRITE_SPECIAL),
    (&FILES, WRITE_SPECIAL),
    (&FILES, WRITE_NORMAL),
    (&FILES, CUT_SPECIAL),
    (&FILES, CUT_NORMAL),
    (&FILES, Act::Begin(3)),
    (&FILES, Act::BeginDirect(3)),
    (&DRAFT, CHANGE),
    (&DRAFT, SEE),
    (&DRAFT, Act::SetSize(600)),
    (&DRAFT, Act::SetSize(5000)),
    (&CHANGED, Act::Commit),
    (&CHANGED, Act::Abort),
    (&CHANGED_DIRECT, Act::Commit),
];

const DRAFT: [Act; 4] = [SPECIAL, SIZE_SPECIAL, WRITE_SPECIAL, Act::Begin(3)];

const CHANGED: [Act; 5] = [SPECIAL, SIZE_SPECIAL, WRITE_SPECIAL, Act::Begin(3), CHANGE];

const CHANGED_DIRECT: [Act; 5] = [
    SPECIAL,
    SIZE_SPECIAL,
    WRITE_SPECIAL,
    Act::BeginDirect(3),
    CHANGE,
];

/// Returns the first of the device calls that a call makes, the first write or barrier among them, and the first call
/// after them.
fn span_on(alloc: Global, bench: &mut Bench, before: &[Act], act: Act) -> Result<[u64; 3], Fail> {
    bench.play(alloc, before)?;
    let from = bench.calls();
    bench.act(alloc, act)?;
    let first = from.saturating_add(bench.seen().untried as u64);
    Ok([from, first, bench.calls()])
}

fn span_of(alloc: Global, before: &[Act], act: Act) -> Result<[u64; 3], Fail> {
    let mut bench = Bench::fresh(alloc, 1, Vec::new(alloc))?;
    span_on(alloc, &mut bench, before, act)
}

/// Returns why a call after these is refused.
fn refusal_on(
    alloc: Global,
    bench: &mut Bench,
    before: &[Act],
    act: Act,
) -> Result<Option<Refused>, Fail> {
    bench.play(alloc, before)?;
    Ok(bench.act(alloc, act).err())
}

/// Returns the same if the disk's call with this number fails.
fn refusal_by(alloc: Global, before: &[Act], act: Act, call: u64) -> Result<Option<Refused>, Fail> {
    let mut bench = Bench::fresh(alloc, 1, vec![in alloc; call; 1]?)?;
    refusal_on(alloc, &mut bench, before, act)
}

/// Checks that a call is refused for each of its device calls that fails.
///
/// A write or a barrier was tried from the first of them on.
fn expect_told(
    rt: &impl Abort,
    alloc: Global,
    before: &[Act],
    act: Act,
    span: [u64; 3],
) -> Result<(), Fail> {
    let [from, first, end] = span;
    for call in from..end {
        let tried = call >= first;
        let refused = refusal_by(alloc, before, act, call)?;
        assert!(rt;
            refused == Some(Refused::Disk { tried }),
            "{act:?}, call {call}: {refused:?}"
        );
    }
    Ok(())
}

#[test]
fn a_device_call_that_fails_is_told(rt: HostRuntime) -> Result<(), Fail> {
    let alloc = rt.alloc();
    for (before, act) in CALLS {
        let span = span_of(alloc, before, act)?;
        expect_told(&rt, alloc, before, act, span)?;
    }
    Ok(())
}

/// What is put into blocks, a call that then is refused, and the block and code that it names.
///
/// The second create puts leaf and node of the root index into blocks 7 and 8, and gives back 4 and 5, which the
/// special file takes. So the normal file has its leaves and node in blocks 10 to 12, and the node is 11.
const DAMAGES: [(&[Edit], Act, u32, u8); 9] = [
    // The last entry of a map is invalid.
    (&[(0, 504, 0xff00_0000)], Act::Find, 0, 2),
    (&[(0, 504, 0xff00_0000)], Act::Claim, 0, 2),
    (&[(0, 504, 0xff00_0000)], Act::Release(20), 0, 2),
    // Pointers past the disk, and an invalid root.
    (&[(2, 32, 64)], Act::Retrieve { at: 2, slot: 0 }, 2, 4),
    (&[(8, 0, 200)], Act::Retrieve { at: 2, slot: 0 }, 8, 4),
    (&[(2, 0, 0)], Act::Retrieve { at: 2, slot: 0 }, 2, 3),
    (&[(6, 32, 64)], Act::Read { at: 6, offset: 0 }, 6, 4),
    (&[(11, 4, 64)], Act::Read { at: 6, offset: 511 }, 11, 4),
    (&[(6, 0, 0xffff_ffff)], Act::Read { at: 6, offset: 0 }, 6, 3),
];

/// Returns why the call is refused once this was put into blocks.
fn refusal_on_edited(
    alloc: Global,
    bench: &mut Bench,
    edits: &[Edit],
    act: Act,
) -> Result<Option<Refused>, Fail> {
    bench.play(alloc, &FILES)?;
    bench.edit(edits)?;
    Ok(bench.act(alloc, act).err())
}

fn refusal_of(alloc: Global, edits: &[Edit], act: Act) -> Result<Option<Refused>, Fail> {
    let mut bench = Bench::fresh(alloc, 1, Vec::new(alloc))?;
    refusal_on_edited(alloc, &mut bench, edits, act)
}

#[test]
fn a_damaged_block_is_named(rt: HostRuntime) -> Result<(), Fail> {
    for (edits, act, block, code) in DAMAGES {
        let refused = refusal_of(rt.alloc(), edits, act)?;
        assert_eq!(rt; refused, Some(Refused::Damaged(Damage { block, code })));
    }
    Ok(())
}

/// Returns why the Free blocks of three cylinders are not counted.
fn uncounted(alloc: Global, disk: &mut MemoryDisk) -> Option<Refused> {
    if disk.blocks() != 192 {
        return None;
    }
    Space::counted(alloc, disk, 3).err()
}

fn expect_uncounted(rt: &impl Abort, alloc: Global, disk: &mut MemoryDisk) -> Result<(), Fail> {
    edit(disk, &[(64, 504, 0xff00_0000)])?;
    let damage = Damage { block: 64, code: 2 };
    // The second count's first read is the disk's call 4.
    for refused in [Refused::Damaged(damage), Refused::Disk { tried: false }] {
        assert_eq!(rt; uncounted(alloc, disk), Some(refused));
    }
    Ok(())
}

#[test]
fn maps_are_counted_up_to_the_first_damaged_one(rt: HostRuntime) -> Result<(), Fail> {
    let alloc = rt.alloc();
    let mut disk = MemoryDisk::failing(alloc, 192, vec![in alloc; 4; 1]?)?;
    expect_uncounted(&rt, alloc, &mut disk)
}

fn expect_other_count(rt: &impl Abort, alloc: Global, bench: &mut Bench) -> Result<(), Fail> {
    bench.volume.put(0, &block_of(&[RESERVED; 64]))?;
    let damage = Damage { block: 0, code: 12 };
    assert_eq!(rt; bench.act(alloc, Act::Claim), Err(Refused::Damaged(damage)));
    Ok(())
}

#[test]
fn a_map_without_the_free_block_that_was_counted_is_named(rt: HostRuntime) -> Result<(), Fail> {
    let alloc = rt.alloc();
    let mut bench = Bench::laid(alloc, 2)?;
    expect_other_count(&rt, alloc, &mut bench)
}
