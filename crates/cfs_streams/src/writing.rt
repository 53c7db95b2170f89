//! A sink written whole.
ghost use Rattle.cfs_streams.specs.Writing.{WritesWhole};

use cfs_base::{Failed, Sink};

/// Offers all of the bytes, piece by piece, until the sink has taken them or fails. Takes no memory.
pub fn write_whole<K: Sink>(sink: &mut K, bytes: &[u8]) -> Result<(), Failed>
    ensures { WritesWhole (K.intake sink.old) (K.intake sink.new) bytes.now result }
{
    let mut written = 0;
    while written < bytes.len() {
        let count = sink.write(&bytes[written..])?;
        written += count;
    }
    Ok(())
}
