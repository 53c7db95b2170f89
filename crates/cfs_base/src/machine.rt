//! Work that is made in turns.
ghost use Rattle.std.specs.Prelude.{◌≡◌, ℕ, ◌<◌, ◌≤◌, Bool, true, false, List, length};

/// Work that workers make in turns. Workers are numbered from 0.
pub trait Machine {
    /// The number of workers.
    ghost worker_count: { Self → ℕ };

    /// Whether a worker is done.
    ghost done: { Self → ℕ → Bool };

    /// How many turns a worker has left at most.
    ghost left: { Self → ℕ → ℕ };

    /// What each turn of a worker that isn't done keeps to, from the machine before it to the machine after it.
    ghost turned: { Self → ℕ → Self → Type 0 };

    /// Returns the number of workers.
    fn workers(&self) -> u32
        ensures { result ≡ worker_count self.now };

    /// Returns whether a worker is done.
    fn is_done(&self, worker: u32) -> bool
        ensures { result ≡ done self.now worker };

    /// Returns how many turns a worker has left at most.
    fn turns_left(&self, worker: u32) -> u64
        ensures { result ≡ left self.now worker };

    /// Makes one turn of a worker, and returns whether that worker is done afterwards.
    ///
    /// A turn of a worker that is done changes nothing.
    fn turn(&mut self, worker: u32) -> bool
        ensures answer { result ≡ done self.new worker }
        ensures nearer { done self.old worker ≡ false → left self.new worker < left self.old worker }
        ensures turned { done self.old worker ≡ false → turned self.old worker self.new }
        ensures still { done self.old worker ≡ true → self.new ≡ self.old }
        // A turn leaves it alone whether an earlier worker is done. It may leave work to later ones.
        ensures others { (w : ℕ) → w < worker → done self.new w ≡ done self.old w }
        ensures workers { worker_count self.new ≡ worker_count self.old };

    /// A number past the last worker is that of a worker that is done.
    ghost outside: { (m : Self) (w : ℕ) → worker_count m ≤ w → done m w ≡ true };

    ghost at_rest: { (m : Self) (w : ℕ) → worker_count m ≤ w → left m w ≡ 0 };
}

/// A machine that keeps a log of its turns.
pub trait Logged: Machine {
    ghost use Rattle.cfs_base.specs.Log.{AddsAtMostOne};

    /// An entry of the log.
    type Entry;

    /// What was logged, the oldest entry first.
    ghost log: { Self → List Self.Entry };

    /// Returns the number of entries in the log.
    fn events(&self) -> u64
        ensures { result ≡ length (log self.now) };

    /// A turn adds at most one entry, at the end.
    ghost adds: { (m : Self) (w : ℕ) (n : Self) → Self.turned m w n → AddsAtMostOne (log m) (log n) };
}
