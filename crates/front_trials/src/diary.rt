//! Two workers who write down whose turn it was.
ghost use Rattle.std.specs.Prelude.{◌≡◌, length};
ghost use Rattle.cfs_base.specs.Log.{AddsAtMostOne};

use crate::watch::Watch;
use cfs_base::{Logged, Machine};
use cfs_fakes::Turns;

/// The turns that each of two workers has left, and whose turns were made.
#[derive(Drop)]
pub struct Diary {
    pub turns: Turns,
    pub entries: Vec<u32>,
    /// What worker 0 waits for in its turns.
    pub watch: Option<Watch>,
    /// Whether it came, as far as worker 0 waited for it.
    pub seen: bool,
}

impl Diary {
    fn wait(&mut self)
        ensures turns { self.new.turns ≡ self.old.turns }
        ensures log { self.new.entries ≡ self.old.entries }
    {
        if let Some(watch) = &self.watch {
            self.seen = watch.wait();
        }
    }

    /// Makes a turn of a worker, who is written down if there is memory.
    fn make(&mut self, worker: u32)
        ensures turns { self.new.turns ≡ self.old.turns }
        ensures log { AddsAtMostOne self.old.entries.items self.new.entries.items }
    {
        if worker == 0 {
            self.wait();
        }
        let _noted = self.entries.push(worker).is_ok();
    }
}

impl Machine for Diary {
    ghost use Rattle.std.specs.Prelude.{◌==◌};
    ghost use Rattle.cfs_base.specs.Log.{AddsAtMostOne};
    ghost use Rattle.cfs_fakes.specs.Turns.{left_of, none_is_done, none_is_left};

    ghost worker_count = { λ m. 2 };

    ghost left = { λ m w. left_of m.turns w };

    ghost done = { λ m w. left_of m.turns w == 0 };

    ghost turned = { λ old worker new. AddsAtMostOne old.entries.items new.entries.items };

    ghost outside = { λ m w beyond. none_is_done m.turns w beyond };

    ghost at_rest = { λ m w beyond. none_is_left m.turns w beyond };

    fn workers(&self) -> u32 {
        2
    }

    fn is_done(&self, worker: u32) -> bool {
        self.turns.left(worker) == 0
    }

    fn turns_left(&self, worker: u32) -> u64 {
        self.turns.left(worker)
    }

    fn turn(&mut self, worker: u32) -> bool {
        if self.turns.take(worker) {
            self.make(worker);
        }
        self.turns.left(worker) == 0
    }
}

impl Logged for Diary {
    type Entry = u32;

    ghost log = { λ m. m.entries.items };

    ghost adds = { λ m w n turned. turned };

    fn events(&self) -> u64 {
        self.entries.len() as u64
    }
}
