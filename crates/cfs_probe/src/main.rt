//! A shell for trials of a core on a volume in memory: beside the slow server, with calls that fail, and in all that
//! a crash may leave.
//!
//! It writes a transcript anew, and one that comes out as it went in is a test that was passed. `.ci/trials` tries
//! those in `trials/`.
//!
//! A line that begins with `> ` is a command, and what follows it is its answer. Comments, which begin with `#`, and
//! blank lines stay. All other lines are answers of before, and are dropped. The commands are:
//!
//! - `fail M`: the call at this moment fails on the disks of volumes that are made from now on.
//! - `format CYLINDERS SEED`: makes a volume, opens it, and sets the slow server beside it.
//! - `ask S LINE`: session S says the line. Answers the reply, and ` BESIDE ` the slow server's if that is another. A
//!   word `HH*N` in the line stands for N times these digits.
//! - `both S LINE`: the same, but only `same` for a reply that both give.
//! - `many FROM TO S LINE`: the same for each number in the place of a word `#`: `same`, or the first answer that is
//!   not.
//! - `leave S`: the session leaves.
//! - `call N`: calls for N more collections.
//! - `tidy`, `settle`: makes one part of what is left of a commit, as `Step`, or `Idle` if nothing is; makes all of
//!   it.
//! - `collect N`: makes N steps of the collector, and answers the Free blocks after each. Before each step all is
//!   settled.
//! - `step`: makes one step, of which only a refusal is reported.
//! - `status`, `free`, `moment`: what the core reports of itself; its Free blocks once all is settled; the clock of
//!   the disk.
//! - `reading`, `compare`: what is reached from the root, by requests alone; whether the slow server has the same.
//! - `unmount`: the core gives its disk up, for the commands on a disk.
//! - `block N`, `poke N AT HEX`: the bytes of a block of the disk; puts bytes into it.
//! - `reopen SEED`: opens the volume again. The slow server does not follow.
//! - `mark`: crashes are tried from here on. Else they are tried from the opening of a new volume on.
//! - `crashes`: for each event since then, how the images of a crash at each moment of it read on the disk, with a
//!   word where that changes: all as `before` the event or as `after` it, each as `either`, or one as `neither`.
//!   Events of which all images read as before are left out.
//! - `recrashes`: the same, and each image that a crash leaves of an opening of an image reads as that one does.
//! - `picks`: as `crashes`, of three images of each moment: without the writes that wait for a barrier, with the last
//!   of each block, and with the last of each block with an even number.
//! - `readings`: what all these images read as, each once.
//! - `failures`: does all again for each call of the disk since the opening, which fails. It is `right` if each time
//!   the event was refused, changed nothing, and was done when asked again, or the core stopped with the event done
//!   or not, on the disk and in the three images of a crash then.
#![tactic(auto)]

mod command;
mod crashes;
mod desk;
mod failures;
mod fault;
mod images;
mod listing;
mod printed;
mod probe;
mod service;
mod twin;

use command::answer;
use probe::Probe;
use std::io;

/// Writes a line of a transcript anew.
fn tell(rt: &HostRuntime, probe: &mut Probe, line: &str) -> io::Result<()> {
    if let Some(command) = line.strip_prefix("> ") {
        println!(rt; "{line}")?;
        return match answer(probe, rt.alloc(), command) {
            Ok(text) => println!(rt; "{text}"),
            Err(fault) => println!(rt; "{fault}"),
        };
    }
    if line.is_empty() || line.starts_with('#') {
        println!(rt; "{line}")?;
    }
    Ok(())
}

fn main(rt: HostRuntime) -> io::Result<()> {
    let mut probe = Probe::new(rt.alloc());
    for line in rt.lines(rt.alloc()) {
        tell(&rt, &mut probe, line?.as_str())?;
    }
    Ok(())
}
