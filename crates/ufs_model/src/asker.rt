//! What answers requests as the definitions say: a server in memory, or one that has its objects on a disk.
ghost use Rattle.std.specs.Prelude.{◌≡◌, ◌+◌, ◌<◌, ◌≤◌, ℕ, true};
ghost use Rattle.cfs_base.specs.declared.identifier.Puid.{Puid};
ghost use Rattle.ufs_model.specs.Asks.{IsAsked, IsExactIn, TellsTrouble};
ghost use Rattle.ufs_model.specs.Kinds.{kind_at};
ghost use Rattle.ufs_model.specs.Outcome.{draws};
ghost use Rattle.ufs_model.specs.State.{State, is_running};
ghost use Rattle.ufs_model.specs.WellFormed.{IsState};
ghost use Rattle.ufs_model.specs.declared.asked.Reply.{Reply};
ghost use Rattle.ufs_model.specs.declared.asked.Request.{Request};

use crate::asked::{Reply, Request};
use crate::plain::Plain;
use cfs_base::{Kind, Puid, Session};
use std::alloc::Global;
use std::marker::Model;

/// A server that answers requests. It stands for states of the definitions, and each answer is one event of them.
pub trait Asker {
    /// Whether it stands for this state.
    ghost stands: { Self → State → Type 0 };

    /// The seed of its random words.
    ghost seed: { Self → ℕ };

    /// How many words were drawn, whichever state it stands for.
    ghost words: { Self → ℕ };

    /// The root index.
    ghost top: { Self → Puid };

    /// How many calls of its disk failed.
    ghost failed: { Self → ℕ };

    /// How many damaged blocks it found. It stops at the first.
    ghost damaged: { Self → ℕ };

    /// The number of cylinders by which its room is counted.
    ghost cylinders: { Self → ℕ };

    /// It was asked this request of a session, answered with this reply, and became this one. Only `ask` makes it so.
    ghost asked: { Self → ℕ → Request → Reply → Self → Type 0 };

    ghost counted: { (a : Self) (s : State) → stands a s → s.drawn ≡ words a };

    ghost formed: { (a : Self) (s : State) → stands a s → is_running s ≡ true → IsState s × (s.graph.root ≡ top a) };

    /// Answers a request of a session.
    fn ask(&mut self, alloc: Global, who: Session, request: &Request) -> Reply
        requires words { words self.old < 4294967295 }
        ensures asked { asked self.old who request.now result self.new }
        ensures event { (s : State) → stands self.old s
            → IsAsked (stands self.new) (seed self.old) s who request.now result }
        ensures exact { (s : State) → stands self.old s → IsExactIn (cylinders self.old) s request.now result }
        ensures told { TellsTrouble (failed self.old) (failed self.new) (damaged self.old) (damaged self.new) result }
        ensures later { (failed self.old ≤ failed self.new) × (damaged self.old ≤ damaged self.new) }
        ensures same { (seed self.new ≡ seed self.old) × (cylinders self.new ≡ cylinders self.old) }
        ensures kept { words self.old ≤ words self.new }
        ensures drawn { words self.new ≤ words self.old + draws request.now };

    /// Returns how many words were drawn.
    fn drawn(&self) -> u32
        ensures { result ≡ words self.now };

    /// Returns the identifier of the root index.
    fn root(&self) -> Puid
        ensures { result ≡ top self.now };

    /// Returns the kind of an object of its state, or `None` if the graph has no such identifier.
    fn kind(&self, id: Puid) -> Option<Kind>
        ensures { (s : State) → stands self.now s → result ≡ kind_at s.graph id };
}

impl Asker for Plain {
    ghost use Rattle.std.specs.Prelude.{◌≡◌, Some};
    ghost use Rattle.ufs_model.specs.Next.{next};
    ghost use Rattle.ufs_model.specs.Plain.{plain_counted, plain_formed};
    ghost use Rattle.ufs_model.specs.WellFormed.{IsState};
    ghost use Rattle.ufs_model.specs.declared.asked.Event.TheVariants as events;

    ghost stands = { λ p s. (s ≡ p.state) × IsState s };

    ghost seed = { λ p. p.seed };

    ghost words = { λ p. p.state.drawn };

    ghost top = { λ p. p.state.graph.root };

    ghost failed = { λ p. 0 };

    ghost damaged = { λ p. 0 };

    ghost cylinders = { λ p. 0 };

    ghost asked = { λ p who request reply q. next p.seed p.state (events.Ask who request reply) ≡ Some q.state };

    ghost counted = { plain_counted };

    ghost formed = { plain_formed };

    fn ask(&mut self, alloc: Global, who: Session, request: &Request) -> Reply {
        crate::laws::requests_store_bytes(request);
        crate::laws::next_keeps_graphs();
        Plain::ask(self, alloc, who, request)
    }

    fn drawn(&self) -> u32 {
        Plain::drawn(self)
    }

    fn root(&self) -> Puid {
        Plain::root(self)
    }

    fn kind(&self, id: Puid) -> Option<Kind> {
        Plain::kind(self, id)
    }
}
