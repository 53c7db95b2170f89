//! A normal file whose leaves lie over a cylinder border.
use crate::bench::{Act, Bench, bytes_from};
use cfs_base::{Block, BlockNo, FileKind, Kind};
use std::alloc::Global;
use std::process::Abort;
use std::test::Fail;

/// The root block of a file that is made in slot 0 of a fresh volume.
const FILE: u32 = 3;

const MADE: Act = Act::Create {
    slot: 0,
    kind: Kind::Normal,
    slots: 0,
    fill: 7,
    word: 9,
};

const SIZED: Act = Act::Resize {
    at: FILE,
    kind: FileKind::Normal,
    size: 32_768,
};

/// Checks that the file has these bytes at an offset, and that `free` blocks are Free.
fn expect_bytes(
    rt: &impl Abort,
    alloc: Global,
    bench: &mut Bench,
    offset: u64,
    bytes: &[u8],
    free: u32,
) -> Result<(), Fail> {
    let read = bench
        .volume
        .read(alloc, BlockNo(FILE), offset, bytes.len())?;
    assert!(rt;
        read.as_slice() == bytes && bench.free() == free,
        "offset {offset}"
    );
    Ok(())
}

/// Where the first, the second and the last of leaves 56 to 63 are, what they are full of, and their entries.
const BORDER: [(u32, u8, u64); 3] = [
    (63, 0x30, 0x0104_0038_0000_0003),
    (65, 0x31, 0x0104_0039_0000_0003),
    (71, 0x37, 0x0104_003f_0000_0003),
];

/// Fills a normal file of 64 leaves.
///
/// 56 of them and their node leave only block 63 in the first cylinder. Its other blocks are the map, the label,
/// three of the root index and the file's root.
fn fill(alloc: Global, bench: &mut Bench) -> Result<(), Fail> {
    bench.play(alloc, &[MADE, SIZED])?;
    for part in 0..8u64 {
        let act = Act::Write {
            at: FILE,
            kind: FileKind::Normal,
            offset: 4096 * part,
            count: 4096,
            byte: 0x30,
        };
        bench.act(alloc, act)?;
    }
    Ok(())
}

fn expect_border(rt: &impl Abort, alloc: Global, bench: &mut Bench) -> Result<(), Fail> {
    fill(alloc, bench)?;
    for (block, byte, entry) in BORDER {
        let map = bench.volume.get(block - block % 64)?;
        let leaf = bench.volume.get(block)?;
        assert_eq!(rt; map.u64_at(8 * (block % 64) as usize), entry);
        assert!(rt; leaf == Block::of([byte; 512]), "block {block}");
    }
    expect_bytes(rt, alloc, bench, 28_672, &bytes_from(0x30), 56)
}

#[test]
fn a_normal_write_claims_over_a_cylinder_border(rt: HostRuntime) -> Result<(), Fail> {
    let alloc = rt.alloc();
    let mut bench = Bench::fresh(alloc, 2, Vec::new(alloc))?;
    expect_border(&rt, alloc, &mut bench)
}
