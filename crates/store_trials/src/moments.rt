//! What a crash leaves at each moment of a commit and of its parts.
use crate::openings::lay;
use crate::volume::Volume;
use cfs_base::{BlockNo, Disk};
use cfs_fakes::{MemoryDisk, Pick};
use cfs_recover::recover;
use file_ops::{read, read_root};
use std::alloc::Global;
use std::process::Abort;
use std::test::Fail;

/// The special file, and its first byte in a draft. It is 0 before.
const FILE: BlockNo = BlockNo(5);

const NEW: u8 = 0x5a;

/// Which of the writes that wait for a barrier a crash leaves.
#[derive(Clone, Copy, Debug, PartialEq, Eq)]
enum Kept {
    /// None of any block.
    None,
    /// The last of each block.
    Last,
    /// The last of each block except maps.
    LastButMaps,
    /// The last of the maps alone.
    LastOfMaps,
}

const KEPT: [Kept; 4] = [Kept::None, Kept::Last, Kept::LastButMaps, Kept::LastOfMaps];

/// Returns whether the last write of a block is left.
fn is_left(kept: Kept, block: u32) -> bool {
    match kept {
        Kept::None => false,
        Kept::Last => true,
        Kept::LastButMaps => block % 64 != 0,
        Kept::LastOfMaps => block % 64 == 0,
    }
}

/// Returns the first byte of the file on the disk that a crash at this moment leaves, once it is opened.
fn byte_at(alloc: Global, disk: &MemoryDisk, at: u64, kept: Kept) -> Result<Option<u8>, Fail> {
    if !disk.is_recording() || at > disk.moment() {
        return Err("a moment that isn't recorded")?;
    }
    let mut picks = Vec::new(alloc);
    for block in 0..disk.blocks() {
        if is_left(kept, block) {
            let choice = disk.choices(at, block);
            picks.push(Pick { block, choice })?;
        }
    }
    let mut image = disk.image(alloc, at, picks.as_slice())?;
    recover(alloc, &mut image)?;
    if FILE.0 >= image.blocks() {
        return Err("a disk of another size")?;
    }
    let root = read_root(&mut image, FILE)?;
    let bytes = read(alloc, &mut image, FILE, &root, 0, 1)?;
    Ok(bytes.as_slice().first().copied())
}

/// Makes a volume whose file has a draft with another first byte, before its commit.
fn volume(alloc: Global) -> Result<Volume, Fail> {
    let mut memory = MemoryDisk::recording(alloc, 64, Vec::new(alloc))?;
    lay(&mut memory, 1)?;
    memory.barrier()?;
    Volume::on(alloc, memory)
}

/// Commits a draft with another first byte, and makes the parts past its bit, one by one or all at once.
///
/// Returns the moments before the commit, when it returned, and at the end.
fn committed(alloc: Global, volume: &mut Volume, all: bool) -> Result<[u64; 3], Fail> {
    let mut draft = volume.begin(alloc, FILE, false)?;
    volume.write(&mut draft, 0, &[NEW])?;
    let from = volume.disk.moment();
    volume.commit(draft)?;
    let durable = volume.disk.moment();
    for _ in 0..8 {
        if !volume.go_on(all)? {
            return Ok([from, durable, volume.disk.moment()]);
        }
    }
    Err("parts without end")?
}

/// Checks the images at a moment of a commit.
///
/// The bit is written by the last call but one of the commit, and the last is its barrier. Each image before that
/// write is old, after it those with the map are new, and from the barrier on all are.
fn expect_moment(
    rt: &impl Abort,
    alloc: Global,
    disk: &MemoryDisk,
    at: u64,
    durable: u64,
) -> Result<(), Fail> {
    for kept in KEPT {
        let has_map = kept == Kept::Last || kept == Kept::LastOfMaps;
        let is_new = at >= durable || at.saturating_add(1) == durable && has_map;
        let byte = byte_at(alloc, disk, at, kept)?;
        let wanted = Some(if is_new { NEW } else { 0 });
        assert!(rt;
            byte == wanted,
            "moment {at} of {durable}, {kept:?}: {byte:?}"
        );
    }
    Ok(())
}

fn expect_moments(
    rt: &impl Abort,
    alloc: Global,
    volume: &mut Volume,
    all: bool,
) -> Result<(), Fail> {
    let [from, durable, end] = committed(alloc, volume, all)?;
    for at in from..=end {
        expect_moment(rt, alloc, &volume.disk.lower, at, durable)?;
    }
    // The file has as many blocks as before, and no other is taken.
    assert_eq!(rt; volume.space.free(), 56);
    Ok(())
}

#[test]
fn each_image_of_a_commit_is_old_before_its_bit_is_durable_and_new_after(
    rt: HostRuntime,
) -> Result<(), Fail> {
    let alloc = rt.alloc();
    for all in [true, false] {
        let mut volume = volume(alloc)?;
        expect_moments(&rt, alloc, &mut volume, all)?;
    }
    Ok(())
}
