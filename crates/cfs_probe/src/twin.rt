//! The slow server beside a core.
use crate::desk::{Desk, MOST_SESSIONS};
use crate::fault::Fault;
use crate::listing::listing;
use crate::printed::Said;
use crate::service::Event;
use cfs_base::Puid;
use std::alloc::Global;
use ufs_model::Plain;

/// What happened to a core, what it answered, and the moment after that.
#[derive(Drop)]
pub struct Past {
    pub event: Event,
    pub text: String,
    pub end: u64,
    /// Whether the event was passed to the slow server.
    pub is_told: bool,
}

/// The slow server. It keeps each object for ever.
#[derive(Drop)]
pub struct Twin {
    desk: Desk<Plain>,
    /// Whether a collection took something that this server still has.
    is_outlived: bool,
}

/// Returns whether only a server on a disk answers so.
fn is_of_the_disk(text: &str) -> bool {
    let is_refused = text.starts_with("no disk") || text.starts_with("no damaged");
    is_refused
        || text.starts_with("no full")
        || text.starts_with("no stopped")
        || text == "no memory"
}

impl Twin {
    /// Makes the slow server beside a fresh volume.
    pub fn new(alloc: Global, root: Puid, seed: u64) -> Result<Twin, Fault> {
        if root.block == 0 {
            return Err(Fault::Place);
        }
        let plain = Plain::new(alloc, root, seed)?;
        Ok(Twin {
            desk: Desk::new(alloc, plain, root),
            is_outlived: false,
        })
    }

    /// Lets the same event happen to it, and returns what it answers, if a session asked.
    fn hear(&mut self, alloc: Global, event: &Event) -> Result<Option<Said>, Fault> {
        match event {
            Event::Ask { who, line } => return Ok(Some(self.desk.say(alloc, *who, line.as_str())?)),
            Event::Leave { who } => self.desk.server.leave(*who),
            Event::Call { .. } | Event::Tidy | Event::Step => {}
        }
        Ok(None)
    }

    /// Returns whether it gets an event that a core answered so.
    ///
    /// It knows nothing of the disk, and nothing of what a collection took.
    fn is_told(&mut self, text: &str) -> bool {
        if text.starts_with("Condemned") {
            self.is_outlived = true;
        }
        !is_of_the_disk(text) && !(self.is_outlived && text == "no object")
    }

    /// Passes an event to it, if it gets that.
    ///
    /// Returns what the core answered, with the answer of this server if that is another, and whether it got the
    /// event.
    pub fn beside(
        &mut self,
        alloc: Global,
        event: &Event,
        said: &Said,
    ) -> Result<(String, bool), Fault> {
        let mut text = said.text.clone()?;
        let is_told = self.is_told(said.text.as_str());
        if is_told {
            if let Some(other) = self.hear(alloc, event)? {
                if !said.is_like(&other) {
                    write!(text, " BESIDE {}", other.text.as_str())?;
                }
            }
        }
        Ok((text, is_told))
    }

    /// Returns the identifier of the root index.
    pub fn root(&self) -> Puid {
        self.desk.root
    }

    /// Returns what is reached from its root.
    pub fn reading(&mut self, alloc: Global) -> Result<String, Fault> {
        listing(&mut self.desk.server, alloc, self.desk.root)
    }

    /// Returns what it has once all sessions have left.
    fn rest(&mut self, alloc: Global) -> Result<String, Fault> {
        for who in 0..MOST_SESSIONS {
            self.desk.server.leave(who);
        }
        self.reading(alloc)
    }

    /// Lets the first `count` events happen to it.
    fn hear_first(&mut self, alloc: Global, past: &[Past], count: usize) -> Result<(), Fault> {
        for happened in past.iter().take(count) {
            if happened.is_told {
                self.hear(alloc, &happened.event)?;
            }
        }
        Ok(())
    }
}

/// Returns what a crash leaves after `count` events.
fn state_after(
    alloc: Global,
    root: Puid,
    seed: u64,
    past: &[Past],
    count: usize,
) -> Result<String, Fault> {
    let mut twin = Twin::new(alloc, root, seed)?;
    twin.hear_first(alloc, past, count)?;
    twin.rest(alloc)
}

/// Returns what a crash leaves after none of the events, after the first, and so on to the last.
pub fn states(alloc: Global, root: Puid, seed: u64, past: &[Past]) -> Result<Vec<String>, Fault> {
    let mut states = Vec::new(alloc);
    for count in 0..=past.len() {
        states.push(state_after(alloc, root, seed, past, count)?)?;
    }
    Ok(states)
}
