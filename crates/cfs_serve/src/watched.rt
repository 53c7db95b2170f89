//! A core of which it is known, on any disk, that a failed call is behind its stop, unless a block was damaged.
ghost use Rattle.std.specs.Prelude.{◌≡◌, None};
ghost use Rattle.cfs_serve.specs.Watched.{IsWatched};

use cfs_base::{Disk, Kind, Puid, Session};
use cfs_core::Core;
use std::alloc::Global;
use std::marker::{Brand, Model, PhantomData};
use ufs_model::{Asker, Reply, Request};

/// How often the disk of a core had failed when the core was handed in. It is part of the core's type.
pub trait Since {
    ghost use Rattle.std.specs.Prelude.{ℕ};

    ghost faults: { ℕ };
}

/// The number that the caller picks.
impl Since for Brand {
    ghost faults = { 0 };
}

/// A core that answers requests.
#[derive(Drop)]
pub(crate) struct Watched<D: Disk, J: Since> {
    core: Core<D>,
    since: PhantomData<J>,
}

impl<D: Disk, J: Since> Model for Watched<D, J> {
    ghost use Rattle.cfs_core.specs.Kernel.{Kernel};
    ghost use Rattle.cfs_serve.specs.Watched.{IsWatched};

    ghost Value = { Kernel D };

    ghost view = { λ w. w.core };

    ghost invariant = { λ w. IsWatched D.Disk J.faults w.core };
}

impl<D: Disk, J: Since> Watched<D, J> {
    /// Watches a core from now on.
    pub fn new(core: Core<D>) -> Watched<D, J>
        requires faults { J.faults ≡ D.faults core.disk }
        requires runs { core.stop ≡ None }
        ensures { result ≡ core }
    {
        Watched {
            core,
            since: PhantomData,
        }
    }

    /// Returns the core.
    pub fn into_core(self) -> Core<D>
        ensures core { result ≡ self }
        ensures watched { IsWatched D.Disk J.faults self }
    {
        self.core
    }
}

impl<D: Disk, J: Since> Asker for Watched<D, J> {
    ghost use Rattle.std.specs.Prelude.{is_some, length, option_and_then};
    ghost use Rattle.cfs_core.specs.Asked.{Asks};
    ghost use Rattle.cfs_core.specs.StandsFor.{StandsFor, core_formed, front_of};
    ghost use Rattle.ufs_model.specs.Need.{one_if};

    ghost stands = { λ k s. StandsFor D.Disk k s };

    ghost seed = { λ k. k.words.seed };

    ghost words = { λ k. k.words.drawn };

    ghost top = { λ k. k.root };

    ghost failed = { λ k. D.faults k.disk };

    ghost damaged = { λ k. one_if (is_some (option_and_then (λ stop. stop.damage) k.stop)) };

    ghost cylinders = { λ k. length k.space.free };

    ghost asked = { λ k who request reply new. Asks D.Disk k new who request reply };

    ghost counted = { λ k s stands. (front_of D.Disk k s stands).drawn };

    ghost formed = { λ k s stands runs. core_formed D.Disk k s stands runs };

    fn ask(&mut self, alloc: Global, who: Session, request: &Request) -> Reply {
        Asker::ask(&mut self.core, alloc, who, request)
    }

    fn drawn(&self) -> u32 {
        Asker::drawn(&self.core)
    }

    fn root(&self) -> Puid {
        Asker::root(&self.core)
    }

    fn kind(&self, id: Puid) -> Option<Kind> {
        Asker::kind(&self.core, id)
    }
}
