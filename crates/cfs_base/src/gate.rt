//! What each worker reports before a turn.

/// A gate that workers pass before each turn.
pub trait Gate {
    /// Called before each turn of a worker, whose turns are counted from 0.
    ///
    /// The service makes nothing of it.
    fn pass(&self, worker: u32, turn: u64);

    /// Called with the number of events that the worker knows of.
    ///
    /// The service makes nothing of it.
    fn told(&self, worker: u32, known: u64);
}
