//! The turns that two workers have left.
ghost use Rattle.std.specs.Prelude.{◌≡◌, ◌<◌, ℕ, true, false};
ghost use Rattle.cfs_fakes.specs.Turns.{left_of};

/// How many turns workers 0 and 1 have left. There are no other workers.
#[derive(Clone, Copy, Debug)]
pub struct Turns {
    /// The turns of worker 0.
    pub first: u64,
    /// The turns of worker 1.
    pub second: u64,
}

impl Turns {
    /// Returns how many turns a worker has left.
    pub fn left(&self, worker: u32) -> u64
        ensures { result ≡ left_of self.now worker }
    {
        match worker {
            0 => self.first,
            1 => self.second,
            _ => 0,
        }
    }

    /// Takes a turn of a worker, and returns whether it had one left.
    pub fn take(&mut self, worker: u32) -> bool
        ensures taken { result ≡ true → left_of self.new worker < left_of self.old worker }
        ensures none { result ≡ false → left_of self.old worker ≡ 0 }
        ensures stays { result ≡ false → self.new ≡ self.old }
        ensures others { (w : ℕ) → w < worker → left_of self.new w ≡ left_of self.old w }
    {
        match worker {
            0 if self.first > 0 => {
                self.first -= 1;
                true
            }
            1 if self.second > 0 => {
                self.second -= 1;
                true
            }
            _ => false,
        }
    }
}
