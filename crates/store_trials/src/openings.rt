//! A small volume that is opened, and each damage of it.
use crate::laid::{
    Edit, LEAF_ENTRY, NODE_ENTRY, RESERVED, ROOT_ENTRY, block_of, edit, get, node_with, put,
    root_with,
};
use block_tree::Node;
use cfs_base::{Block, Damage, Disk, Kind, Puid};
use cfs_fakes::{MemoryDisk, Watched};
use cfs_recover::{RecoverFault, Recovered, check_volume, recover};
use std::alloc::Global;
use std::process::Abort;
use std::test::Fail;

/// A file in slot 0 of the root index.
///
/// Each of the two has its root, a node and its leaves, from block 2 and from block 5 on.
const FILE: Puid = Puid { block: 5, word: 7 };

/// The map's first entries.
const ENTRIES: [u64; 7] = [
    RESERVED,
    RESERVED,
    ROOT_ENTRY,
    NODE_ENTRY,
    LEAF_ENTRY,
    0x0101_0000_0000_0005,
    0x0103_0000_0000_0005,
];

/// Returns the map, if the file has this number of leaves.
fn map_with(leaves: u8) -> Block {
    let mut map = block_of(&ENTRIES);
    for number in 0..leaves.min(57) {
        let entry = 0x0104_0000_0000_0005 + 0x1_0000_0000 * number as u64;
        map.put_u64(8 * (7 + number as usize), entry);
    }
    map
}

/// Returns a node that leads to this number of leaves, which begin at block 7.
fn file_node(leaves: u8) -> Block {
    let mut node = Node { leaves: [0; 128] };
    for number in 0..leaves.min(57) {
        node.leaves[number as usize] = 7 + number as u32;
    }
    node.encode()
}

/// Lays a volume of one cylinder on this disk, whose blocks are zero.
///
/// The file has this number of leaves, and one byte less than they may have.
pub fn lay(disk: &mut MemoryDisk, leaves: u8) -> Result<(), Fail> {
    let size = (512 * leaves as u64).saturating_sub(1);
    put(disk, 0, &map_with(leaves))?;
    put(
        disk,
        1,
        &block_of(&[
            0x4346_5331_0000_0001,
            0x0000_0001_0000_0002,
            0xade0_b876_0000_0000,
        ]),
    )?;
    put(
        disk,
        2,
        &root_with(Kind::Index, 0, 0xade0_b876, 512, &[(0, 3)]),
    )?;
    put(disk, 3, &node_with(&[(0, 4)]))?;
    put(disk, 4, &block_of(&[FILE.number()]))?;
    put(
        disk,
        5,
        &root_with(Kind::Special, 0, FILE.word, size, &[(0, 6)]),
    )?;
    put(disk, 6, &file_node(leaves))?;
    Ok(())
}

/// Checks that the volume on a disk of zeros, with these edits, comes to this fault when it is checked and when it is
/// opened.
fn expect_fault(
    rt: &impl Abort,
    alloc: Global,
    disk: &mut MemoryDisk,
    leaves: u8,
    edits: [&[Edit]; 2],
    fault: Option<RecoverFault>,
) -> Result<(), Fail> {
    lay(disk, leaves)?;
    edit(disk, edits[0])?;
    edit(disk, edits[1])?;
    let checked = check_volume(alloc, disk).err();
    let opened = recover(alloc, disk).err();
    assert!(rt;
        checked == fault && opened == fault,
        "{fault:?}: {checked:?}, {opened:?}"
    );
    Ok(())
}

/// What is put into the volume of two leaves, and the block and code that are then found.
const DAMAGES: [(&[Edit], u32, u8); 18] = [
    // The label's cylinders; an invalid entry; the entry of a root of another block.
    (&[(1, 8, 2)], 1, 1),
    (&[(0, 8 * 20, 0x0500_0000)], 0, 2),
    (&[(0, 8 * 5 + 4, 9)], 0, 2),
    // An invalid root, and pointers past the disk.
    (&[(5, 0, 0x0900_0000)], 5, 3),
    (&[(2, 0, 0x0900_0000)], 2, 3),
    (&[(5, 32, 64)], 5, 4),
    (&[(6, 0, 0x0100_0007)], 6, 4),
    // A leaf of another owner, one that is at another place, and a label and a map that aren't reserved.
    (&[(0, 8 * 7 + 4, 2)], 7, 5),
    (&[(0, 8 * 7, 0x0104_0001)], 7, 5),
    (&[(0, 8, 0)], 1, 5),
    (&[(0, 0, 0)], 0, 5),
    // A slot with another word, one that names block 0, the label's word, and the root index's kind.
    (&[(4, 4, 8)], 4, 6),
    (&[(4, 0, 0)], 4, 6),
    (&[(1, 16, 0xade0_b877)], 1, 6),
    (&[(2, 0, 0x0200_0000)], 2, 6),
    // A leaf at the size, a byte past the size, and a node that leads nowhere.
    (&[(5, 12, 512)], 8, 8),
    (&[(8, 508, 1)], 8, 9),
    (&[(3, 0, 0)], 3, 10),
];

/// Edits by which block 20 is a shadow root that stands for the file, without a byte, and the file's bit is set.
const SHADOW: [Edit; 5] = [
    (20, 0, 0x0200_0000),
    (20, 4, 7),
    (0, 8 * 20, 0x0202_0000),
    (0, 8 * 20 + 4, 5),
    (0, 8 * 5, 0x8101_0000),
];

#[test]
fn each_damage_is_found_by_block_and_code(rt: HostRuntime) -> Result<(), Fail> {
    let alloc = rt.alloc();
    for (edits, block, code) in DAMAGES {
        let mut disk = MemoryDisk::new(alloc, 64)?;
        let fault = RecoverFault::Damaged(Damage { block, code });
        expect_fault(&rt, alloc, &mut disk, 2, [edits, &[]], Some(fault))?;
    }
    Ok(())
}

/// How many leaves the file has, what is put into the volume, and what comes of opening it.
const OPENINGS: [(u8, &[Edit], Option<RecoverFault>); 6] = [
    (2, &[], None),
    // 58 blocks are taken beside the map and the label, or 59.
    (53, &[], None),
    (
        54,
        &[],
        Some(RecoverFault::Damaged(Damage { block: 0, code: 11 })),
    ),
    // Both versions are read. That there is no volume comes before the version.
    (2, &[(1, 4, 2)], None),
    (2, &[(1, 4, 3)], Some(RecoverFault::Version { found: 3 })),
    (
        2,
        &[(1, 0, 0x0046_5331), (1, 4, 3)],
        Some(RecoverFault::NotVolume),
    ),
];

/// The same if the file is read by its shadow root.
const SHADOWED: [(&[Edit], Option<RecoverFault>); 3] = [
    // What the root leads to no longer matters.
    (&[(6, 0, 0x0100_0007)], None),
    // The shadow root has another word, or two of them stand for the file.
    (
        &[(20, 4, 8)],
        Some(RecoverFault::Damaged(Damage { block: 20, code: 3 })),
    ),
    (
        &[(0, 8 * 21, 0x0202_0000), (0, 8 * 21 + 4, 5)],
        Some(RecoverFault::Damaged(Damage { block: 5, code: 7 })),
    ),
];

#[test]
fn a_volume_is_let_through_where_it_has_no_fault(rt: HostRuntime) -> Result<(), Fail> {
    let alloc = rt.alloc();
    for (leaves, edits, fault) in OPENINGS {
        let mut disk = MemoryDisk::new(alloc, 64)?;
        expect_fault(&rt, alloc, &mut disk, leaves, [edits, &[]], fault)?;
    }
    for (edits, fault) in SHADOWED {
        let mut disk = MemoryDisk::new(alloc, 64)?;
        expect_fault(&rt, alloc, &mut disk, 2, [&SHADOW, edits], fault)?;
    }
    Ok(())
}

#[test]
fn a_disk_of_two_blocks_is_no_volume(rt: HostRuntime) -> Result<(), Fail> {
    let alloc = rt.alloc();
    let opened = recover(alloc, &mut MemoryDisk::new(alloc, 2)?);
    assert_eq!(rt; opened.err(), Some(RecoverFault::NotVolume));
    Ok(())
}

/// Lays the volume whose file is read by its shadow root.
fn lay_committed(disk: &mut MemoryDisk) -> Result<(), Fail> {
    lay(disk, 2)?;
    Ok(edit(disk, &SHADOW)?)
}

/// Checks that both objects are named, and that 58 blocks are Free.
fn expect_directory(rt: &impl Abort, recovered: &Recovered) {
    assert_eq!(rt;
        (recovered.space.free(), recovered.directory.len()),
        (58, 2)
    );
    assert_eq!(rt; recovered.directory.kind(FILE), Some(Kind::Special));
}

fn expect_recovered(rt: &impl Abort, alloc: Global, disk: &mut MemoryDisk) -> Result<(), Fail> {
    lay_committed(disk)?;
    // Block 21 was meant for a draft.
    edit(disk, &[(0, 8 * 21, 0x0204_0009), (0, 8 * 21 + 4, 5)])?;
    expect_directory(rt, &recover(alloc, disk)?);
    assert_eq!(rt;
        get(disk, 5)?,
        root_with(Kind::Special, 0, FILE.word, 0, &[])
    );
    assert_eq!(rt; get(disk, 0)?, block_of(&ENTRIES[..6]));
    Ok(())
}

#[test]
fn a_committed_root_is_copied_and_what_nobody_has_is_free(rt: HostRuntime) -> Result<(), Fail> {
    let alloc = rt.alloc();
    let mut disk = MemoryDisk::new(alloc, 64)?;
    expect_recovered(&rt, alloc, &mut disk)
}

fn expect_tidy(rt: &impl Abort, alloc: Global, disk: &mut Watched<MemoryDisk>) -> Result<(), Fail> {
    lay(&mut disk.lower, 2)?;
    recover(alloc, disk)?;
    // What is read is the map, and of the other blocks the label, both roots, both nodes, and a leaf of each.
    assert!(rt; disk.seen.reads == [1, 7] && disk.seen.barriers == 3);
    assert!(rt; disk.seen.writes == [0, 0]);
    Ok(())
}

#[test]
fn a_tidy_volume_gets_barriers_and_no_write(rt: HostRuntime) -> Result<(), Fail> {
    let alloc = rt.alloc();
    let disk = MemoryDisk::new(alloc, 64)?;
    expect_tidy(&rt, alloc, &mut Watched::new(disk))
}

/// Returns the first of the device calls of the volume's opening, and the first after them.
fn calls_of(alloc: Global, disk: &mut MemoryDisk) -> Result<(u64, u64), Fail> {
    lay_committed(disk)?;
    let from = disk.calls();
    recover(alloc, disk)?;
    Ok((from, disk.calls()))
}

/// Returns what comes of opening the volume on this disk.
fn fault_on(alloc: Global, disk: &mut MemoryDisk) -> Result<Option<RecoverFault>, Fail> {
    lay_committed(disk)?;
    Ok(recover(alloc, disk).err())
}

fn fault_by(alloc: Global, call: u64) -> Result<Option<RecoverFault>, Fail> {
    let mut disk = MemoryDisk::failing(alloc, 64, vec![in alloc; call; 1]?)?;
    fault_on(alloc, &mut disk)
}

#[test]
fn a_device_call_that_fails_in_an_opening_is_told(rt: HostRuntime) -> Result<(), Fail> {
    let alloc = rt.alloc();
    let (from, end) = calls_of(alloc, &mut MemoryDisk::new(alloc, 64)?)?;
    for call in from..end {
        let fault = fault_by(alloc, call)?;
        assert_eq!(rt; fault, Some(RecoverFault::Disk), "call {call}");
    }
    Ok(())
}
