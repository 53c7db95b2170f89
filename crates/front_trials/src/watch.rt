//! A flag that one thread sets while another is in its turn.
use cfs_base::Gate;
use std::alloc::{AllocError, Global};
use std::sync::Arc;
use std::sync::atomic::{AtomicU64, Ordering};
use std::thread;

/// How often a flag is looked for at most.
const LOOKS: u64 = 100_000_000;

/// Two flags, which all copies share: the turn of worker 0 has begun, and worker 1 got the length of the log.
#[derive(Drop)]
pub struct Watch {
    begun: Arc<AtomicU64, Global>,
    told: Arc<AtomicU64, Global>,
}

/// Looks for a flag, and returns whether it was seen.
fn is_seen(flag: &AtomicU64) -> bool {
    for _ in 0..LOOKS {
        if flag.load(Ordering::SeqCst) > 0 {
            return true;
        }
        thread::yield_now();
    }
    false
}

impl Watch {
    /// Makes a watch with no flag set.
    pub fn new(alloc: Global) -> Result<Watch, AllocError> {
        Ok(Watch {
            begun: Arc::new(alloc, AtomicU64::new(0))?,
            told: Arc::new(alloc, AtomicU64::new(0))?,
        })
    }

    /// Returns a copy that shares the flags.
    pub fn copy(&self) -> Result<Watch, AllocError> {
        Ok(Watch {
            begun: Arc::try_clone(&self.begun)?,
            told: Arc::try_clone(&self.told)?,
        })
    }

    /// Sets the flag that the turn has begun, and waits until the other worker has its answer. Returns whether it
    /// came.
    pub fn wait(&self) -> bool {
        self.begun.store(1, Ordering::SeqCst);
        is_seen(&self.told)
    }
}

impl Gate for Watch {
    fn pass(&self, worker: u32, _turn: u64) {
        if worker == 1 {
            let _seen = is_seen(&self.begun);
        }
    }

    fn told(&self, worker: u32, _known: u64) {
        if worker == 1 {
            self.told.store(1, Ordering::SeqCst);
        }
    }
}
