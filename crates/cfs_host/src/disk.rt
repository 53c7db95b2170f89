//! Volumes in files.
ghost use Rattle.std.specs.Prelude.{◌≡◌, ◌≤◌, false, IfOk, IsErr};
ghost use Rattle.cfs_base.specs.Disk.{CountsRead, CountsTry};

use crate::faults::failed;
use crate::identity::Identity;
use cfs_base::{Block, BlockNo, Disk, Failed};
use pair_disk::TornDisk;
use std::fs::{self, File, TryLockError};
use std::io::{self, ErrorKind, Seek, SeekFrom};
use std::os::unix::fs::{FileExt, FileTypeExt};
use std::rt::Files;

/// The bytes of a block.
const BLOCK: u64 = 512;

/// How many blocks at the beginning of a device must be zero for a volume to be made on it.
const BLANK: u64 = 64;

/// A volume in a file of the system: block `n` is the 512 bytes from `512 * n` on.
///
/// Each read and write is one call of the system at its place. Nothing is kept back, and a barrier is a data sync. A
/// call that a signal interrupts is tried again. The disk tells nothing of its content, and a call of the system that
/// fails is a fault. It is a disk of whole blocks, and one whose blocks may tear.
#[derive(Drop)]
pub struct FileDisk {
    file: File,
    blocks: u32,
    /// Whether this run made the file.
    made: bool,
    /// The clock, and the number of calls.
    calls: u64,
    tries: u64,
    faults: u64,
}

impl FileDisk {
    /// Opens the volume in the file or on the block device of this name for reading and writing.
    ///
    /// It is locked until the disk is dropped. Fails with `WouldBlock` if another has it locked, with `InvalidInput`
    /// if it is neither a file nor a block device, and with `InvalidData` if its length is no multiple of 512 or it
    /// has more blocks than there are block numbers.
    pub fn existing<R: Files<File = File>>(rt: &R, path: &str) -> io::Result<FileDisk> {
        let file = fs::OpenOptions::new()
            .read(true)
            .write(true)
            .open(rt, path)?;
        lock(&file)?;
        FileDisk::sized(file)
    }

    /// Opens the volume in the file or on the block device of this name for reading only.
    ///
    /// Until the disk is dropped it is locked against all but other readers. A write fails. It is refused as by
    /// `existing`, and also if another has it locked for writing.
    pub fn read_only<R: Files<File = File>>(rt: &R, path: &str) -> io::Result<FileDisk> {
        expect_volume(rt, path)?;
        let file = fs::open(rt, path)?;
        told_lock(file.try_lock_shared())?;
        FileDisk::sized(file)
    }

    /// Makes the disk of a file, or of a block device, that was opened.
    fn sized(mut file: File) -> io::Result<FileDisk> {
        let length = length_of(&mut file)?;
        if length % BLOCK != 0 {
            return Err(io::Error::new(
                ErrorKind::InvalidData,
                "its length is no multiple of 512 bytes",
            ));
        }
        let Ok(blocks) = u32::try_from(length / BLOCK) else {
            return Err(io::Error::new(
                ErrorKind::InvalidData,
                "it has more blocks than a volume may have",
            ));
        };
        Ok(FileDisk::of(file, blocks))
    }

    /// Makes a file of `blocks` zero blocks, or takes a block device of just so many whose first 64 are zero.
    ///
    /// It is locked until the disk is dropped. Fails with `AlreadyExists` if something else has this name or the
    /// device holds something. On return the file's length and its name in its folder survive a crash. A file that
    /// can't be made so is removed again.
    pub fn fresh<R: Files<File = File>>(rt: &R, path: &str, blocks: u32) -> io::Result<FileDisk>
        ensures { IfOk result (λ disk. disk.blocks ≡ blocks) }
    {
        if is_block_device(rt, path) {
            return FileDisk::on_device(rt, path, blocks);
        }
        let file = fs::OpenOptions::new()
            .read(true)
            .write(true)
            .create_new(true)
            .open(rt, path)?;
        if let Err(error) = lengthen(rt, &file, path, blocks) {
            let _ = fs::remove_file(rt, path);
            return Err(error);
        }
        Ok(FileDisk {
            made: true,
            ..FileDisk::of(file, blocks)
        })
    }

    /// Takes a block device for a new volume.
    fn on_device<R: Files<File = File>>(rt: &R, path: &str, blocks: u32) -> io::Result<FileDisk>
        ensures { IfOk result (λ disk. disk.blocks ≡ blocks) }
    {
        let disk = FileDisk::existing(rt, path)?;
        if disk.blocks != blocks {
            return Err(io::Error::new(ErrorKind::InvalidInput, "the device has another size"));
        }
        if !is_blank(&disk.file)? {
            return Err(io::Error::new(ErrorKind::AlreadyExists, "the device holds something"));
        }
        Ok(disk)
    }

    fn of(file: File, blocks: u32) -> FileDisk
        ensures { result.blocks ≡ blocks }
    {
        FileDisk {
            file,
            blocks,
            made: false,
            calls: 0,
            tries: 0,
            faults: 0,
        }
    }

    /// Returns whether this run made the file.
    pub fn is_made(&self) -> bool {
        self.made
    }

    /// Returns which file or block device it is.
    pub fn identity(&self) -> io::Result<Option<Identity>> {
        Identity::of(&self.file)
    }
}

/// Locks a file against all others, as long as it is open.
fn lock(file: &File) -> io::Result<()> {
    told_lock(file.try_lock())
}

/// Reports how a lock went, as other calls of the system are reported.
fn told_lock(locked: Result<(), TryLockError>) -> io::Result<()> {
    locked.map_err(|error| match error {
        TryLockError::WouldBlock => io::Error::new(ErrorKind::WouldBlock, "it is in use"),
        TryLockError::Error(error) => error,
    })
}

/// Fails unless this names a file or a block device, since to open anything else for reading may wait.
fn expect_volume<R: Files>(rt: &R, path: &str) -> io::Result<()> {
    let kind = fs::metadata(rt, path)?.file_type();
    if kind.is_file() || kind.is_block_device() {
        return Ok(());
    }
    Err(no_volume())
}

/// The error of what was opened and can be no volume.
fn no_volume() -> io::Error {
    io::Error::new(
        ErrorKind::InvalidInput,
        "it is neither a file nor a block device",
    )
}

/// Returns the number of bytes of a file or of a block device.
fn length_of(file: &mut File) -> io::Result<u64> {
    let found = file.metadata()?;
    if found.is_file() {
        return Ok(found.len());
    }
    if found.file_type().is_block_device() {
        return file.seek(SeekFrom::End(0));
    }
    Err(no_volume())
}

/// Returns whether a block device has this name.
fn is_block_device<R: Files>(rt: &R, path: &str) -> bool {
    match fs::metadata(rt, path) {
        Ok(found) => found.file_type().is_block_device(),
        Err(_) => false,
    }
}

/// Returns whether each of its first 64 blocks is zero.
fn is_blank(file: &File) -> io::Result<bool> {
    let mut bytes = [0; BLOCK as usize];
    for at in 0..BLANK {
        file.read_exact_at(&mut bytes, BLOCK * at)?;
        if bytes.iter().any(|&byte| byte != 0) {
            return Ok(false);
        }
    }
    Ok(true)
}

/// Locks a file that was made, and gives it `blocks` zero blocks.
///
/// On return its length and its name survive a crash.
fn lengthen<R: Files<File = File>>(rt: &R, file: &File, path: &str, blocks: u32) -> io::Result<()> {
    lock(file)?;
    file.set_len(BLOCK * blocks as u64)?;
    file.sync_all()?;
    fs::open(rt, folder_of(path))?.sync_all()
}

/// Returns the folder in which a file of this name is.
fn folder_of(path: &str) -> &str {
    match path.rfind('/') {
        Some(0) => "/",
        Some(at) => &path[..at],
        None => ".",
    }
}

/// What the calls of either kind of disk do.
impl FileDisk {
    fn read_block(&mut self, at: BlockNo, into: &mut Block) -> Result<(), Failed>
        ensures counts { CountsRead (λ d. d.calls) (λ d. d.calls) (λ d. d.tries) (λ d. d.faults) self.old self.new
            (IsErr result) }
        ensures later { self.old.calls ≤ self.new.calls }
        ensures size { self.new.blocks ≡ self.old.blocks }
    {
        self.calls = self.calls.saturating_add(1);
        let mut bytes = [0; BLOCK as usize];
        match self.file.read_exact_at(&mut bytes, BLOCK * at.0 as u64) {
            Ok(()) => {
                *into = Block::of(bytes);
                Ok(())
            }
            Err(_) => Err(failed(&mut self.faults)),
        }
    }

    fn write_block(&mut self, at: BlockNo, from: &Block) -> Result<(), Failed>
        ensures counts { CountsTry (λ d. d.calls) (λ d. d.calls) (λ d. d.tries) (λ d. d.faults) (λ d. false)
            self.old self.new (IsErr result) }
        ensures later { self.old.calls ≤ self.new.calls }
        ensures size { self.new.blocks ≡ self.old.blocks }
    {
        self.calls = self.calls.saturating_add(1);
        self.tries = self.tries.saturating_add(1);
        match self.file.write_all_at(from.bytes(), BLOCK * at.0 as u64) {
            Ok(()) => Ok(()),
            Err(_) => Err(failed(&mut self.faults)),
        }
    }

    fn sync(&mut self) -> Result<(), Failed>
        ensures counts { CountsTry (λ d. d.calls) (λ d. d.calls) (λ d. d.tries) (λ d. d.faults) (λ d. false)
            self.old self.new (IsErr result) }
        ensures later { self.old.calls ≤ self.new.calls }
        ensures size { self.new.blocks ≡ self.old.blocks }
    {
        self.calls = self.calls.saturating_add(1);
        self.tries = self.tries.saturating_add(1);
        match self.file.sync_data() {
            Ok(()) => Ok(()),
            Err(_) => Err(failed(&mut self.faults)),
        }
    }
}

impl Disk for FileDisk {
    ghost use Rattle.std.specs.Prelude.{[], false};

    ghost blocks = { λ d. d.blocks };

    ghost moment = { λ d. d.calls };

    ghost calls = { λ d. d.calls };

    ghost tries = { λ d. d.tries };

    ghost faults = { λ d. d.faults };

    ghost only_honest = { λ d n h. h };

    ghost sized = { λ d h. Prim.cc };

    ghost of_blocks = { λ d h. Prim.cc };

    ghost left_sized = { λ d t c left. absurd left };

    fn blocks(&self) -> u32 {
        self.blocks
    }

    fn moment(&self) -> u64 {
        self.calls
    }

    fn calls(&self) -> u64 {
        self.calls
    }

    fn read(&mut self, at: BlockNo, into: &mut Block) -> Result<(), Failed> {
        self.read_block(at, into)
    }

    fn write(&mut self, at: BlockNo, from: &Block) -> Result<(), Failed> {
        self.write_block(at, from)
    }

    fn barrier(&mut self) -> Result<(), Failed> {
        self.sync()
    }
}

impl TornDisk for FileDisk {
    ghost use Rattle.std.specs.Prelude.{[], false};

    ghost blocks = { λ d. d.blocks };

    ghost moment = { λ d. d.calls };

    ghost calls = { λ d. d.calls };

    ghost tries = { λ d. d.tries };

    ghost faults = { λ d. d.faults };

    ghost only_honest = { λ d n h. h };

    ghost sized = { λ d h. Prim.cc };

    ghost of_blocks = { λ d h. Prim.cc };

    ghost left_sized = { λ d t c left. absurd left };

    ghost may_stay = { λ d t tells less. Prim.cc };

    ghost clocked = { λ d tells. Prim.cc };

    fn blocks(&self) -> u32 {
        self.blocks
    }

    fn moment(&self) -> u64 {
        self.calls
    }

    fn calls(&self) -> u64 {
        self.calls
    }

    fn read(&mut self, at: BlockNo, into: &mut Block) -> Result<(), Failed> {
        self.read_block(at, into)
    }

    fn write(&mut self, at: BlockNo, from: &Block) -> Result<(), Failed> {
        self.write_block(at, from)
    }

    fn barrier(&mut self) -> Result<(), Failed> {
        self.sync()
    }
}
