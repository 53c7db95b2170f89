//! How a core stops.
ghost use Rattle.std.specs.Prelude.{◌≡◌, Some};
ghost use Rattle.cfs_core.specs.Asked.{doubt_of, stopped_by};
ghost use Rattle.ufs_model.specs.declared.asked.Reply.TheVariants as replies;

use crate::kernel::{Core, Stop};
use cfs_base::{Damage, Disk};

impl<D: Disk> Core<D> {
    /// Handles a call of the disk that failed.
    ///
    /// The core stops if a write had been tried, and then the moment before the disk's is returned.
    pub(crate) fn stop_in_doubt(&mut self, tried: bool) -> Option<u64>
        ensures told { result ≡ doubt_of tried (D.moment self.old.disk) }
        ensures stop { self.new ≡ record self.old { stop = stopped_by (replies.Disk result) self.old.stop } }
    {
        if !tried {
            return None;
        }
        let moment = self.disk.moment().saturating_sub(1);
        self.stop = Some(Stop {
            moment,
            damage: None,
        });
        Some(moment)
    }

    /// Handles a block that is damaged: the core stops, and the disk's moment is returned.
    pub(crate) fn stop_at(&mut self, damage: Damage) -> u64
        ensures told { result ≡ D.moment self.old.disk }
        ensures stop { self.new ≡ record self.old { stop = Some (record { moment = result; damage = Some damage }) } }
    {
        let moment = self.disk.moment();
        self.stop = Some(Stop {
            moment,
            damage: Some(damage),
        });
        moment
    }
}
