//! Where request lines come from, and where replies go.
ghost use Rattle.cfs_base.specs.Outside.{Supply, Intake, Reads, Writes};

use crate::Failed;

/// A source of bytes.
pub trait Source {
    ghost use Rattle.cfs_base.specs.Outside.{Supply};

    /// The bytes that are left, if the source tells them, and how many calls failed.
    ghost supply: { Self → Supply };

    /// Reads into the buffer, and returns how many bytes it got.
    ///
    /// 0 for a buffer with room means that the source has ended.
    fn read(&mut self, into: &mut [u8]) -> Result<usize, Failed>
        ensures { Reads (supply self.old) (supply self.new) into.old into.new result };
}

/// A sink of bytes.
pub trait Sink {
    ghost use Rattle.cfs_base.specs.Outside.{Intake};

    /// The bytes that were taken, if the sink tells them, and how many calls failed.
    ghost intake: { Self → Intake };

    /// Offers bytes, and returns how many of them were taken, counted from the first.
    ///
    /// At least one byte is taken if any is offered.
    fn write(&mut self, from: &[u8]) -> Result<usize, Failed>
        ensures { Writes (intake self.old) (intake self.new) from.now result };
}
