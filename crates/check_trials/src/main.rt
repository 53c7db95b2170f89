//! Damaged volumes that are checked and mended: a transcript of commands, one for each line, each with its answer.
//!
//! The gate gives it `stdin`, from which it must make `stdout`. Comments, which begin with `#`, and blank lines stay.
//! The commands are:
//!
//! - `disk BLOCKS`: makes a disk of BLOCKS zero blocks.
//! - `at BLOCK PLACE HEX`: puts these bytes into a block, beginning at a place.
//! - `entry BLOCK HEX`: puts these eight bytes as the entry of a block.
//! - `copy FROM TO`: copies a block to another.
//! - `keep`, `again`: remembers the blocks, and puts the remembered ones back.
//! - `check`: each fault of the volume, or that it is sound, with the numbers of its objects and of the blocks that
//!   are left.
//! - `mend`: mends the volume, or says why it isn't mended.
//! - `images`: how many images a crash may leave since the first barrier of a mend. Each is mended again, to the same
//!   bytes. The volume stays as it is.
#![tactic(auto)]

mod command;
mod crashes;
mod fault;
mod volume;

use command::answer;
use std::io;
use volume::Volume;

fn main(rt: HostRuntime) -> io::Result<()> {
    let mut volume = Volume::new(rt.alloc());
    for line in rt.lines(rt.alloc()) {
        let line = line?;
        println!(&rt; "{}", line.as_str())?;
        if line.as_str().is_empty() || line.as_str().starts_with('#') {
            continue;
        }
        match answer(&rt, rt.alloc(), &mut volume, line.as_str()) {
            Ok(text) => print!(&rt; "{}", text.as_str())?,
            Err(fault) => println!(&rt; "{fault}")?,
        }
    }
    Ok(())
}
