//! A core, and what it reports of itself.
ghost use Rattle.std.specs.Prelude.{◌≡◌, ◌≢◌, ◌+◌, ◌*◌, ◌<◌, ◌≤◌, length, false};
ghost use Rattle.std.specs.Prelude.{IsSome, if◌then◌else◌, is_some, option_map, option_and_then, sum};
ghost use Rattle.cfs_core.specs.Room.{IsRoom, lost_blocks, to_be_freed};
ghost use Rattle.cfs_core.specs.Kernel.{collection_runs};
ghost use Rattle.cfs_core.specs.StandsFor.{ServesIs, StandsFor, drafts_of_handles, end_in, free_of, free_to_come};
ghost use Rattle.cfs_core.specs.StandsFor.{is_collecting, sweeps_now};
ghost use Rattle.puid_space.specs.Directory.{directory_kind};
ghost use Rattle.ufs_model.specs.Limits.{reserve};
ghost use Rattle.ufs_model.specs.State.{State};
ghost use Rattle.vol_owners.specs.Room.{blocks_taken};

use crate::collecting::Collections;
use crate::handles::Handles;
use cfs_base::{Damage, Disk, Kind, Puid, Session};
use cyl_alloc::Space;
use puid_space::{Directory, Draw};
use std::alloc::Global;
use std::marker::Model;
use ufs_model::{Asker, Reply, Request};

/// When and why a core stopped.
#[derive(Clone, Copy, Debug, PartialEq, Eq)]
pub struct Stop {
    /// The moment of the disk at which the core stopped.
    pub moment: u64,
    /// The damage, if that was the cause. Else a call of the disk failed.
    pub damage: Option<Damage>,
}

/// A session left, and the core stopped at this moment of the disk.
///
/// A call of the disk failed, or a block was damaged.
#[derive(Clone, Copy, Debug, PartialEq, Eq)]
pub struct Halt {
    /// The moment of the disk at which the core stopped.
    pub moment: u64,
}

/// What a core reports of itself.
#[derive(Clone, Copy, Debug, PartialEq, Eq)]
pub struct Status {
    /// How many objects there are.
    pub objects: u32,
    /// How many grants all sessions have.
    pub grants: u32,
    /// How many blocks are Free.
    pub free: u32,
    /// Whether a collection runs.
    pub running: bool,
    /// How many collections were called for.
    pub called: u32,
    /// How many collections are finished.
    pub finished: u32,
    /// The moment of the disk at which the core stopped, if it did.
    pub stopped: Option<u64>,
    /// The damage at which it stopped, if that was the cause.
    pub damage: Option<Damage>,
    /// The number of unfinished commits: 1 or 0.
    pub unfinished: u32,
}

/// The file server on one disk.
#[derive(Drop)]
pub struct Core<D: Disk> {
    pub(crate) disk: D,
    pub(crate) root: Puid,
    pub(crate) directory: Directory,
    pub(crate) space: Space,
    pub(crate) words: Draw,
    pub(crate) handles: Handles,
    pub(crate) collections: Collections,
    pub(crate) stop: Option<Stop>,
}

impl<D: Disk> Model for Core<D> {
    ghost use Rattle.cfs_core.specs.Kernel.{IsSizedKernel, Kernel};

    ghost Value = { Kernel D };

    ghost view = { λ c. record {
      disk = c.disk;
      root = c.root;
      directory = c.directory;
      space = c.space;
      words = c.words;
      handles = c.handles.handles;
      collections = c.collections;
      stop = c.stop;
    } };

    ghost invariant = { λ c. IsSizedKernel D.blocks c.disk c.directory c.space c.handles.handles c.words.drawn
        c.collections };
}

impl<D: Disk> Core<D> {
    /// Returns what the core reports of itself.
    ///
    /// `free` is the number of Free blocks by the maps.
    pub fn status(&self) -> Status
        ensures objects { result.objects ≡ length self.now.directory.named }
        ensures counted { (s : State) → ServesIs D.Disk self.now s
            → result.free ≡ free_of (D.content self.now.disk) }
        ensures free { result.free ≡ sum self.now.space.free }
        // No block is lost in the image that is to come.
        ensures room { (s : State) → ServesIs D.Disk self.now s → sweeps_now s.collection ≡ false
            → free_to_come D.Disk self.now + blocks_taken s.graph (drafts_of_handles self.now.handles s.grants) + 1
            ≡ 63 * length self.now.space.free }
        // At least four blocks are Free, counting those that are still to be freed.
        ensures together { (s : State) → ServesIs D.Disk self.now s
            → result.free + to_be_freed (D.content self.now.disk) (end_in D.Disk self.now)
            ≡ free_to_come D.Disk self.now }
        ensures four { (s : State) → ServesIs D.Disk self.now s → reserve ≤ free_to_come D.Disk self.now }
        ensures unfinished { result.unfinished ≡ if is_some self.now.space.left then 1 else 0 }
        ensures stopped { result.stopped ≡ option_map (λ stop. stop.moment) self.now.stop }
        ensures damage { result.damage ≡ option_and_then (λ stop. stop.damage) self.now.stop }
        ensures grants { result.grants ≡ length self.now.handles }
        ensures running { result.running ≡ collection_runs self.now.collections.collector }
        ensures collects { (s : State) → ServesIs D.Disk self.now s → result.running ≡ is_collecting s.collection }
        ensures called { result.called ≡ self.now.collections.called }
        ensures finished { result.finished ≡ self.now.collections.finished }
        // No more are finished than were called for.
        ensures few { result.finished ≤ result.called }
    {
        Status {
            objects: self.directory.len(),
            grants: self.handles.len(),
            free: self.space.free(),
            running: self.collections.is_running(),
            called: self.collections.called,
            finished: self.collections.finished,
            stopped: self.stop.map(|stop| stop.moment),
            damage: self.stop.and_then(|stop| stop.damage),
            unfinished: self.space.unfinished(),
        }
    }

    /// The number of Free blocks of the image that is to come is the room, unless a sweep goes on.
    ///
    /// Then it is the room less the blocks of objects that are gone. This is a law: the call does nothing.
    pub fn has_room(&self)
        ensures size { D.blocks self.now.disk ≡ 64 * length self.now.space.free }
        ensures room { (s : State) → ServesIs D.Disk self.now s → sweeps_now s.collection ≡ false
            → IsRoom (length self.now.space.free) s (free_to_come D.Disk self.now) }
        ensures lost { (s : State) → ServesIs D.Disk self.now s
            → IsRoom (length self.now.space.free) s
            (free_to_come D.Disk self.now + lost_blocks (end_in D.Disk self.now) s.graph) }
    {
        let _disk = &self.disk;
    }

    /// Returns the disk's clock.
    pub fn moment(&self) -> u64
        ensures { result ≡ D.moment self.now.disk }
    {
        self.disk.moment()
    }

    /// Returns how many words were drawn.
    pub fn drawn(&self) -> u32
        ensures { result ≡ self.now.words.drawn }
    {
        self.words.drawn()
    }

    /// Returns the identifier of the root index.
    pub fn root(&self) -> Puid
        ensures { result ≡ self.now.root }
    {
        self.root
    }

    /// Returns the disk.
    pub fn into_disk(self) -> D
        ensures { result ≡ self.disk }
    {
        self.disk
    }

    /// Returns the kind of an object.
    ///
    /// Its root block is one of the disk's, and not block 0.
    pub(crate) fn kind(&self, id: Puid) -> Option<Kind>
        ensures kind { result ≡ directory_kind self.now.directory.named id }
        ensures on_disk { IsSome result → id.block < D.blocks self.now.disk }
        ensures some { IsSome result → id.block ≢ 0 }
    {
        puid_space::laws::directories_are_listings(&self.directory);
        self.directory.kind(id)
    }
}

impl<D: Disk> Asker for Core<D> {
    ghost use Rattle.std.specs.Prelude.{is_some, length, option_and_then};
    ghost use Rattle.cfs_core.specs.Asked.{Asks};
    ghost use Rattle.cfs_core.specs.StandsFor.{StandsFor, core_formed, front_of};
    ghost use Rattle.ufs_model.specs.Need.{one_if};

    ghost stands = { λ k s. StandsFor D.Disk k s };

    ghost seed = { λ k. k.words.seed };

    ghost words = { λ k. k.words.drawn };

    ghost top = { λ k. k.root };

    ghost failed = { λ k. D.faults k.disk };

    ghost damaged = { λ k. one_if (is_some (option_and_then (λ stop. stop.damage) k.stop)) };

    ghost cylinders = { λ k. length k.space.free };

    ghost asked = { λ k who request reply new. Asks D.Disk k new who request reply };

    ghost counted = { λ k s stands. (front_of D.Disk k s stands).drawn };

    ghost formed = { λ k s stands runs. core_formed D.Disk k s stands runs };

    fn ask(&mut self, alloc: Global, who: Session, request: &Request) -> Reply {
        self.has_room();
        let reply = Core::ask(self, alloc, who, request);
        self.has_room();
        reply
    }

    fn drawn(&self) -> u32 {
        Core::drawn(self)
    }

    fn root(&self) -> Puid {
        Core::root(self)
    }

    fn kind(&self, id: Puid) -> Option<Kind> {
        Core::kind(self, id)
    }
}
