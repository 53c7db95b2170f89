//! The commands of a transcript.
use crate::crashes::crashed;
use crate::fault::Fault;
use crate::volume::Volume;
use cfs_check::Checked;
use std::alloc::Global;
use std::thread::Threads;

fn split(line: &str) -> (&str, &str) {
    match line.split_once(' ') {
        Some((word, rest)) => (word, rest),
        None => (line, ""),
    }
}

fn number(word: &str) -> Result<u32, Fault> {
    match word.parse::<u32>() {
        Ok(number) => Ok(number),
        Err(_) => Err(Fault::Words),
    }
}

fn bytes(alloc: Global, digits: &str) -> Result<Vec<u8>, Fault> {
    match hex::decode(alloc, digits) {
        Ok(bytes) => Ok(bytes),
        Err(_) => Err(Fault::Words),
    }
}

fn at(volume: &mut Volume, alloc: Global, line: &str) -> Result<(), Fault> {
    let (block, rest) = split(line);
    let (place, digits) = split(rest);
    volume.put(number(block)?, number(place)?, &bytes(alloc, digits)?)
}

fn entry(volume: &mut Volume, alloc: Global, line: &str) -> Result<(), Fault> {
    let (block, digits) = split(line);
    let block = number(block)?;
    volume.put(64 * (block / 64), 8 * (block % 64), &bytes(alloc, digits)?)
}

fn copy(volume: &mut Volume, line: &str) -> Result<(), Fault> {
    let (from, to) = split(line);
    volume.copy(number(from)?, number(to)?)
}

/// Returns what was found, with a line for each fault.
fn told(alloc: Global, checked: &Checked) -> Result<String, Fault> {
    match checked {
        Checked::NotVolume => Ok(format!(in alloc; "not a volume\n")?),
        Checked::Version { found } => Ok(format!(in alloc; "version {found}\n")?),
        Checked::Sound { objects, left } => Ok(format!(in alloc; "sound {objects} {left}\n")?),
        Checked::Faults(faults) => {
            let mut text = String::new(alloc);
            for fault in faults.as_slice() {
                let line = format!(in alloc; "fault {} {}\n", fault.block, fault.code)?;
                text.push_str(line.as_str())?;
            }
            Ok(text)
        }
    }
}

/// Returns how many images a crash may leave of a mend. Each of them is mended to the same.
fn images<R: Threads + Sync>(rt: &R, alloc: Global, volume: &Volume) -> Result<String, Fault> {
    let images = crashed(rt, alloc, volume)?;
    Ok(format!(in alloc; "{images} images\n")?)
}

/// Does what a command says, and returns the lines that answer it.
pub fn answer<R: Threads + Sync>(
    rt: &R,
    alloc: Global,
    volume: &mut Volume,
    line: &str,
) -> Result<String, Fault> {
    let (word, rest) = split(line);
    match word {
        "disk" => volume.disk(alloc, number(rest)?)?,
        "at" => at(volume, alloc, rest)?,
        "entry" => entry(volume, alloc, rest)?,
        "copy" => copy(volume, rest)?,
        "keep" => volume.keep(alloc)?,
        "again" => volume.again(alloc)?,
        "check" => return told(alloc, &volume.check(rt, alloc)?),
        "mend" => volume.mend(rt, alloc)?,
        "images" => return images(rt, alloc, volume),
        _ => return Err(Fault::Words),
    }
    Ok(String::new(alloc))
}
