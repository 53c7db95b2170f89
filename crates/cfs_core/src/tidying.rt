//! One part of a commit that is unfinished, made between two calls.
ghost use Rattle.std.specs.Prelude.{◌≡◌, ◌<◌};
ghost use Rattle.cfs_core.specs.Tidy as spec;
ghost use Rattle.cyl_alloc.specs.Left.{parts_left};

use crate::kernel::Core;
use cfs_base::{Damage, Disk, Trouble};

/// What a turn did.
#[derive(Clone, Copy, Debug, PartialEq, Eq)]
pub enum Tidy {
    /// Nothing: no commit is unfinished.
    Idle,
    /// One part was made.
    Step,
}

/// Why a part wasn't made.
#[derive(Clone, Copy, Debug, PartialEq, Eq)]
pub enum TidyFault {
    /// A device call failed. Without a doubt all is as it was. With one the core stopped, and that is the moment.
    Disk { doubt: Option<u64> },
    /// A map block that was read is no map. The core stopped at this moment.
    Damaged { damage: Damage, moment: u64 },
    /// The core had stopped at this moment.
    Stopped { moment: u64 },
}

impl<D: Disk> Core<D> {
    /// Returns how many parts are left of the commit that is unfinished.
    pub fn parts_left(&self) -> u64
        ensures is { result ≡ parts_left self.now.space.left }
        ensures small { result < 4611686018427387904 }
    {
        self.space.parts_left()
    }

    /// Makes one part of the commit that is unfinished, by at most 4 device calls. Takes no memory.
    pub fn tidy(&mut self) -> Result<Tidy, TidyFault>
        ensures { spec.TidiesVolume D.Disk self.old self.new result }
    {
        if let Some(stop) = self.stop {
            return Err(TidyFault::Stopped {
                moment: stop.moment,
            });
        }
        if self.space.unfinished() == 0 {
            return Ok(Tidy::Idle);
        }
        match finisher::step(&mut self.disk, &mut self.space) {
            Ok(_) => Ok(Tidy::Step),
            Err(trouble) => Err(self.halt(trouble)),
        }
    }

    /// Returns why a part wasn't made.
    ///
    /// The core stops if a write had been tried, and at a damage.
    fn halt(&mut self, trouble: Trouble) -> TidyFault
        ensures told { result ≡ spec.tidy_fault_by trouble (D.moment self.old.disk) }
        ensures stop { self.new
            ≡ record self.old {
              stop = spec.halt_by (spec.tidy_fault_by trouble (D.moment self.old.disk))
                  self.old.stop;
            } }
    {
        match trouble {
            Trouble::Disk { tried } => TidyFault::Disk {
                doubt: self.stop_in_doubt(tried),
            },
            Trouble::Damaged(damage) => TidyFault::Damaged {
                damage,
                moment: self.stop_at(damage),
            },
        }
    }
}
