//! What the collector has left to do.
ghost use Rattle.std.specs.Prelude.{◌≡◌, ◌<◌, ◌≤◌, ◌+◌, ◌*◌, if◌then◌else◌, true, None, Some};
ghost use Rattle.cfs_core.specs.declared.collecting.CollectFault as faulted;
ghost use Rattle.cfs_serve.specs.Logs.{is_progress_made, is_recorded, is_step, refusal_in};

use crate::logged::CollectorTurn;
use cfs_core::CollectFault;

/// The steps that the collector has left, and what ended it.
#[derive(Clone, Copy, Debug, PartialEq, Eq)]
pub struct Rest {
    /// How many steps the collector may still make.
    pub turns: u64,
    /// How many of its events there is room for.
    pub events: u64,
    /// The refusal at which it was done.
    pub refused: Option<CollectFault>,
}

impl Rest {
    /// Returns what is left as `collections` collections are called for.
    ///
    /// There is room for three events for each, and for one at which the server stops. If none is called for, there is
    /// no step, and room for that one event.
    pub(crate) fn new(collections: u32, turns: u64) -> Rest
        requires most { collections ≤ 1000 }
        ensures none { collections ≡ 0 → result ≡ record { turns = 0; events = 1; refused = None } }
        ensures some { 0 < collections
            → result ≡ record { turns = turns; events = 3 * collections + 1; refused = None } }
    {
        if collections == 0 {
            return Rest::over();
        }
        Rest::on(turns, 3 * u64::from(collections) + 1)
    }

    /// Returns the rest in which `turns` steps are left, and room for `events` events.
    fn on(turns: u64, events: u64) -> Rest
        ensures { result ≡ record { turns = turns; events = events; refused = None } }
    {
        Rest {
            turns,
            events,
            refused: None,
        }
    }

    /// Returns the rest in which no step is left. The server may still stop, as a commit is carried out.
    fn over() -> Rest
        ensures { result ≡ record { turns = 0; events = 1; refused = None } }
    {
        Rest {
            turns: 0,
            events: 1,
            refused: None,
        }
    }

    /// Returns the rest of a collector that was refused, and is done.
    fn refused_by(fault: CollectFault) -> Rest
        ensures { result ≡ record { turns = 0; events = 0; refused = Some fault } }
    {
        Rest {
            turns: 0,
            events: 0,
            refused: Some(fault),
        }
    }

    /// Returns what is left after a turn.
    ///
    /// No step is left once nothing is left to do, and at a refusal all is over.
    pub(crate) fn after(self, progress: CollectorTurn) -> Rest
        requires runs { self.refused ≡ None }
        requires some { is_step progress ≡ true → 0 < self.turns }
        requires more { is_progress_made progress ≡ true → 1 < self.turns }
        requires room { is_progress_made progress ≡ true → (if is_recorded progress then 1 else 0) < self.events }
        requires paired { 0 < self.events }
        ensures tidied { progress ≡ CollectorTurn.Tidied → result ≡ self }
        ensures fewer { is_step progress ≡ true → result.turns < self.turns }
        ensures over { (fault : faulted.CollectFault) → progress ≡ CollectorTurn.Refused fault → result.turns ≡ 0 }
        ensures room { result.events + (if is_recorded progress then 1 else 0) ≤ self.events }
        ensures idle { is_step progress ≡ true → result.turns ≡ 0 → progress ≡ CollectorTurn.Idle }
        ensures on { 0 < result.turns → result.refused ≡ None }
        ensures refused { result.refused ≡ refusal_in progress }
        ensures paired { result.refused ≡ None → 0 < result.events }
        ensures less { result.turns ≤ self.turns }
        // A step that was made costs one turn, and one that is an event the room for it.
        ensures made { is_progress_made progress ≡ true → (result.turns + 1 ≡ self.turns)
            × (result.events + (if is_recorded progress then 1 else 0) ≡ self.events) }
        ensures stays { is_step progress ≡ true → 0 < result.turns → is_progress_made progress ≡ true }
    {
        match progress {
            CollectorTurn::Tidied => self,
            CollectorTurn::Quiet => Rest::on(self.turns - 1, self.events),
            CollectorTurn::Recorded | CollectorTurn::Finished => Rest::on(
                self.turns - 1,
                self.events - 1,
            ),
            CollectorTurn::Refused(fault) => Rest::refused_by(fault),
            CollectorTurn::Idle => Rest::over(),
        }
    }
}
