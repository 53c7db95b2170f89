//! The files that a command names, opened.
ghost use Rattle.std.specs.Prelude.{◌≡◌, ◌*◌, ◌≤◌, length, option_map, IfOk, IfSome};
ghost use Rattle.cfs.specs.Opened.{volume_blocks};
ghost use Rattle.cfs_serve.specs.Commands.{asked_of};
ghost use Rattle.cfs_serve.specs.Words.{most_made};
ghost use Rattle.cfs_serve.specs.Whole.{FitsVolume, HasCylinders, HasDisk, HasPlaces};

use crate::known::Known;
use cfs_base::Disk;
use cfs_host::{FileDisk, FileSink, FileSource, Identity, ReplyFile, Stream};
use cfs_serve::{Command, Files, Path, Volume};
use std::alloc::Global;
use std::fs::File;
use std::io::{self, Stdin, Stdout};

/// A file that is read, or standard input.
pub(crate) type AnySource = FileSource<Stream<File, Stdin>>;

/// A reply file, or standard output.
pub(crate) type AnySink = FileSink<Stream<ReplyFile, Stdout>>;

/// The files of a run, opened.
#[derive(Drop)]
pub(crate) struct Opened {
    /// The file of the volume, if the command names one.
    pub disk: Option<FileDisk>,
    /// Whether that file is one of pairs of blocks.
    pub pair: bool,
    /// The request files of the sessions, or the trail of an audit.
    pub sources: Vec<AnySource>,
    /// The reply files of the sessions.
    pub sinks: Vec<AnySink>,
    /// The name of the volume's file, if this run made it.
    pub made: Option<Path>,
}

/// Reports want of memory, and returns the status.
pub(crate) fn tell_starved(rt: &HostRuntime) -> u8 {
    let _ = println!(rt; "status 7");
    7
}

/// Reports that this file cannot be opened or made, and why on standard error. Returns the status.
fn tell_path(rt: &HostRuntime, path: &Path, why: &io::Error) -> u8 {
    let _ = println!(rt; "cfs: cannot open {}", path.as_str());
    let _ = eprintln!(rt; "cfs: {}: {why}", path.as_str());
    10
}

/// Reports that this reply file is the same file as `other`, which the command names too. Returns the status.
fn tell_twin(rt: &HostRuntime, path: &Path, other: &str) -> u8 {
    let _ = println!(rt; "cfs: cannot open {}", path.as_str());
    let _ = eprintln!(rt; "cfs: {}: it is the same file as {other}", path.as_str());
    10
}

/// Adds a file to those that were opened.
///
/// If that can't be done, this reports why, and the error is the status.
fn add<'a>(
    rt: &HostRuntime,
    known: &mut Known<'a>,
    path: &'a Path,
    identity: io::Result<Option<Identity>>,
) -> Result<(), u8> {
    let identity = identity.map_err(|why| tell_path(rt, path, &why))?;
    known
        .add(identity, path.as_str())
        .map_err(|_| tell_starved(rt))
}

/// Adds a reply file to those that were opened, of which it must be none.
///
/// If that can't be done, or it is one of them, this reports why, and the error is the status.
fn add_new<'a>(
    rt: &HostRuntime,
    known: &mut Known<'a>,
    path: &'a Path,
    identity: io::Result<Option<Identity>>,
) -> Result<(), u8> {
    let identity = identity.map_err(|why| tell_path(rt, path, &why))?;
    match known.name_of(identity) {
        Some(other) => Err(tell_twin(rt, path, other)),
        None => add(rt, known, path, Ok(identity)),
    }
}

/// Returns how many blocks the file of a volume of `cylinders` cylinders has.
fn file_blocks(pair: bool, cylinders: u32) -> u32
    requires { cylinders ≤ most_made pair }
    ensures { volume_blocks pair result ≡ 64 * cylinders }
{
    if pair {
        3 * 64 * cylinders
    } else {
        64 * cylinders
    }
}

/// Opens the file of an existing volume, only to read it if `reads` is set.
fn open_existing(rt: &HostRuntime, path: &Path, reads: bool) -> io::Result<FileDisk> {
    if reads {
        FileDisk::read_only(rt, path.as_str())
    } else {
        FileDisk::existing(rt, path.as_str())
    }
}

/// Opens or makes the file of the volume, if one is named.
///
/// An existing file is opened only to read it if `reads` is set. If a file can't be opened or made, this reports why,
/// and the error is the status.
fn open_volume(
    rt: &HostRuntime,
    volume: &Option<Volume>,
    pair: bool,
    reads: bool,
) -> Result<Option<FileDisk>, u8>
    requires { IfSome volume.now (HasCylinders pair) }
    ensures { IfOk result (λ d. FitsVolume volume.now
        (option_map (λ f. volume_blocks pair (⟦<FileDisk as Disk>⟧.blocks f)) d)) }
{
    match volume {
        None => Ok(None),
        Some(Volume::Existing { path }) => {
            let disk = open_existing(rt, path, reads).map_err(|why| tell_path(rt, path, &why))?;
            Ok(Some(disk))
        }
        Some(Volume::Fresh { path, cylinders }) => {
            let disk = FileDisk::fresh(rt, path.as_str(), file_blocks(pair, *cylinders)).map_err(
                |why| tell_path(rt, path, &why),
            )?;
            Ok(Some(disk))
        }
    }
}

/// Adds the file of the volume to those that were opened.
fn add_volume<'a>(
    rt: &HostRuntime,
    known: &mut Known<'a>,
    volume: &'a Option<Volume>,
    disk: &Option<FileDisk>,
) -> Result<(), u8> {
    match (volume, disk) {
        (Some(Volume::Existing { path } | Volume::Fresh { path, .. }), Some(disk)) => {
            add(rt, known, path, disk.identity())
        }
        _ => Ok(()),
    }
}

/// Opens the request files, in order.
///
/// If one can't be opened, this reports why, and the error is the status.
fn open_sources<'a>(
    rt: &HostRuntime,
    alloc: Global,
    known: &mut Known<'a>,
    paths: &'a [Path],
) -> Result<Vec<AnySource>, u8>
    ensures { IfOk result (λ s. length s.items ≡ length paths.now) }
{
    let mut sources = Vec::new(alloc);
    'paths: for path in paths {
        let source = FileSource::named(rt, path.as_str(), rt.stdin()).map_err(|why| tell_path(
            rt, path, &why,
        ))?;
        add(rt, known, path, source.identity())?;
        sources.push(source).map_err(|_| tell_starved(rt))?;
    }
    Ok(sources)
}

/// Opens or makes the reply files, in order. None is emptied.
///
/// If one can't be opened or made, or was opened before, this reports why, and the error is the status.
fn open_sinks<'a>(
    rt: &HostRuntime,
    alloc: Global,
    known: &mut Known<'a>,
    paths: &'a [Path],
) -> Result<Vec<AnySink>, u8>
    ensures { IfOk result (λ s. length s.items ≡ length paths.now) }
{
    let mut sinks = Vec::new(alloc);
    'paths: for path in paths {
        let sink = FileSink::named(rt, path.as_str(), rt.stdout()).map_err(|why| tell_path(
            rt, path, &why,
        ))?;
        add_new(rt, known, path, sink.identity())?;
        sinks.push(sink).map_err(|_| tell_starved(rt))?;
    }
    Ok(sinks)
}

/// Returns the name of the volume's file, if this run made it.
fn made_file(volume: Option<Volume>, disk: &Option<FileDisk>) -> Option<Path> {
    match (volume, disk) {
        (Some(Volume::Fresh { path, .. }), Some(disk)) if disk.is_made() => Some(path),
        _ => None,
    }
}

/// Opens these files. An existing volume is opened only to read it if `reads` is set.
///
/// If one can't be opened or made, this reports why, and the error is the status.
fn open_files(rt: &HostRuntime, alloc: Global, files: &Files, reads: bool) -> Result<Opened, u8>
    requires { IfSome files.now.volume (HasCylinders files.now.pair) }
    ensures disk { IfOk result (λ o. FitsVolume files.now.volume
        (option_map (λ f. volume_blocks o.pair (⟦<FileDisk as Disk>⟧.blocks f)) o.disk)) }
    ensures sources { IfOk result (λ o. length o.sources.items ≡ length files.now.sources) }
    ensures sinks { IfOk result (λ o. length o.sinks.items ≡ length files.now.sinks) }
{
    let mut known = Known::new(alloc);
    let disk = open_volume(rt, &files.volume, files.pair, reads)?;
    add_volume(rt, &mut known, &files.volume, &disk)?;
    let sources = open_sources(rt, alloc, &mut known, files.sources.as_slice())?;
    let sinks = open_sinks(rt, alloc, &mut known, files.sinks.as_slice())?;
    Ok(Opened {
        disk,
        pair: files.pair,
        sources,
        sinks,
        made: None,
    })
}

/// Opens the files that a command names, or none if there is no command.
///
/// If one can't be opened or made, this reports why, and the error is the status.
pub(crate) fn open(
    rt: &HostRuntime,
    alloc: Global,
    command: Option<Command<'_>>,
) -> Result<Opened, u8>
    ensures disk { IfOk result (λ o. HasDisk (asked_of command.entry)
        (option_map (λ f. volume_blocks o.pair (⟦<FileDisk as Disk>⟧.blocks f)) o.disk)) }
    ensures places { IfOk result (λ o. HasPlaces (asked_of command.entry) (length o.sources.items)
        (length o.sinks.items)) }
{
    let Some(command) = command else {
        return Ok(Opened {
            disk: None,
            pair: false,
            sources: Vec::new(alloc),
            sinks: Vec::new(alloc),
            made: None,
        });
    };
    let Ok(files) = command.files(alloc) else {
        return Err(tell_starved(rt));
    };
    let reads = matches!(command, Command::Check(_));
    let opened = open_files(rt, alloc, &files, reads)?;
    let made = made_file(files.volume, &opened.disk);
    Ok(Opened { made, ..opened })
}
