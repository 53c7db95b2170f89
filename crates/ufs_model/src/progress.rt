//! What is remembered of a collection while a run is followed.
ghost use Rattle.std.specs.Prelude.{◌≡◌, OnOk};
ghost use Rattle.ufs_model.specs.Followed.{HasRoom, collection_of, seen_by, with_seen};
ghost use Rattle.ufs_model.specs.Next.{is_idle, is_sweeping};
ghost use Rattle.ufs_model.specs.Vanish.{is_marking};

use crate::asked::{Reply, Request};
use cfs_base::{NoMemory, Puid};

/// One thing that a collection that marks remembers.
#[derive(Clone, Copy, Debug)]
pub enum Seen {
    /// This index refers to this object.
    Edge(Puid, Puid),
    /// This object is the root, or is open.
    Start(Puid),
}

/// How far a collection has come.
///
/// While it marks it remembers what it has seen, the oldest first.
#[derive(Debug, Drop)]
pub enum Progress {
    /// No collection runs.
    Idle,
    /// A collection marks, and remembers these.
    Marking(Vec<Seen>),
    /// A collection sweeps.
    Sweeping,
}

impl Progress {
    /// Returns whether there is no collection.
    pub fn is_idle(&self) -> bool
        ensures { result ≡ is_idle (collection_of self.now) }
    {
        match self {
            Progress::Idle => true,
            Progress::Marking(_) => false,
            Progress::Sweeping => false,
        }
    }

    /// Returns whether a collection marks.
    pub fn is_marking(&self) -> bool
        ensures { result ≡ is_marking (collection_of self.now) }
    {
        match self {
            Progress::Marking(_) => true,
            Progress::Idle => false,
            Progress::Sweeping => false,
        }
    }

    /// Returns whether a collection sweeps.
    pub fn is_sweeping(&self) -> bool
        ensures { result ≡ is_sweeping (collection_of self.now) }
    {
        match self {
            Progress::Sweeping => true,
            Progress::Idle => false,
            Progress::Marking(_) => false,
        }
    }

    /// Reserves memory for one more thing to remember. On an error nothing is changed.
    pub fn reserve(&mut self) -> Result<(), NoMemory>
        ensures same { collection_of self.new ≡ collection_of self.old }
        ensures room { OnOk result (HasRoom self.new) }
    {
        if let Progress::Marking(seen) = self {
            seen.reserve(1)?;
        }
        Ok(())
    }

    /// Remembers one more thing, if a collection marks. Takes no memory.
    pub fn note(&mut self, seen: Option<Seen>)
        requires { HasRoom self.old }
        ensures { collection_of self.new ≡ with_seen seen (collection_of self.old) }
    {
        let Some(seen) = seen else {
            return;
        };
        if let Progress::Marking(all) = self {
            let _noted = all.push(seen).is_ok();
        }
    }
}

/// Returns what is to be remembered of a request that went to this identifier and was answered by this reply.
pub fn seen_by(to: Option<Puid>, request: &Request, reply: &Reply) -> Option<Seen>
    ensures { result ≡ seen_by to request.now reply.now }
{
    match (request, reply) {
        (Request::CreateFile { .. } | Request::CreateIndex { .. }, Reply::Id(id)) => {
            Some(Seen::Edge(to?, *id))
        }
        (Request::Retain { id, .. }, _) => Some(Seen::Edge(to?, *id)),
        (Request::OpenFor { id, .. }, _) => Some(Seen::Start(*id)),
        _ => None,
    }
}
