//! How a service ended.
ghost use Rattle.std.specs.Prelude.{◌≡◌};
ghost use Rattle.cfs_serve.specs.Ending as spec;

use crate::report::{Cause, VolumeFault};
use cfs_core::{CollectFault, Status, Stop};

/// How a service ended.
#[derive(Clone, Copy, Debug, PartialEq, Eq)]
pub struct Ending {
    /// Why the core stopped, or `None` if it runs.
    pub stop: Option<Stop>,
    /// The refusal that ended the collector before as many collections were finished as were called for.
    pub refused: Option<CollectFault>,
    /// The core's status once each session had left and the collector was done, or `None` if nothing was served.
    pub last: Option<Status>,
}

impl Ending {
    /// Returns the ending of a run that served nothing.
    pub(crate) fn none() -> Ending
        ensures { result ≡ spec.not_begun }
    {
        Ending {
            stop: None,
            refused: None,
            last: None,
        }
    }

    /// Returns whether a failed call of the disk ended the core or the collector.
    fn has_fallen(self) -> bool
        ensures { result ≡ spec.has_fallen self }
    {
        match (self.refused, self.stop) {
            (Some(CollectFault::Disk { .. }), _) => true,
            (_, Some(stop)) => stop.damage.is_none(),
            (_, None) => false,
        }
    }

    /// Returns whether the collector was refused for want of memory, or because the core had stopped.
    fn is_short(self) -> bool
        ensures { result ≡ spec.is_short self }
    {
        matches!(
            self.refused,
            Some(CollectFault::Memory | CollectFault::Stopped { .. })
        )
    }

    /// Returns what spoiled the service: the worst, if more than one thing did.
    ///
    /// `failed` is set if a reply reported a failed call of the disk, `broken` if a sink broke, and `starved` if an
    /// answer reported want of memory.
    pub(crate) fn cause(self, failed: bool, broken: bool, starved: bool) -> Cause
        ensures { result ≡ spec.cause_by self failed broken starved }
    {
        if failed || self.has_fallen() {
            return Cause::Disk(self.stop.map(|stop| stop.moment));
        }
        if let Some(damage) = self.stop.and_then(|stop| stop.damage) {
            return Cause::Volume(VolumeFault::Damaged(damage));
        }
        if broken {
            Cause::Sink
        } else if starved || self.is_short() {
            Cause::Memory
        } else {
            Cause::Nothing
        }
    }
}
