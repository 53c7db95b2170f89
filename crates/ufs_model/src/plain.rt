//! The slow server over a map of objects.
ghost use Rattle.std.specs.Prelude.{◌≡◌, ◌≢◌, ◌+◌, ◌<◌, ◌≤◌, IfOk, IfSome, OnErr, Some, None, length, true, IsTrue};
ghost use Rattle.ufs_model.specs.declared.asked.Reply.TheVariants as replies;
ghost use Rattle.ufs_model.specs.declared.asked.Event.TheVariants as events;
ghost use Rattle.ufs_model.specs.Plain.{IsAnswer, IsPlainReply};
ghost use Rattle.ufs_model.specs.Graph.{IsLeastFreeRoot, fresh_graph};
ghost use Rattle.ufs_model.specs.Kinds.{kind_at};
ghost use Rattle.ufs_model.specs.Outcome.{creates, draws};
ghost use Rattle.ufs_model.specs.State.{opening, is_running};
ghost use Rattle.ufs_model.specs.Next.{next};

use crate::asked::{Reply, Request};
use crate::blocks::least_free_root;
use crate::object::Object;
use crate::server::Server;
use cfs_base::{Kind, NoMemory, Puid, Session};
use std::alloc::Global;
use std::marker::Model;

/// The slow server: a map of objects and a list of grants, from which each answer is computed anew.
#[derive(Drop)]
pub struct Plain {
    server: Server,
    /// Every number from 3 up to but not including this one is an object's root block.
    free_from: u32,
}

impl Model for Plain {
    ghost use Rattle.ufs_model.specs.Plain.{Server};

    ghost Value = { Server };

    ghost use Rattle.std.specs.Prelude.{◌≡◌, ◌≤◌, ◌<◌, ℕ, true};
    ghost use Rattle.ufs_model.specs.Graph.{has_block};
    ghost use Rattle.ufs_model.specs.WellFormed.{IsState};

    ghost view = { λ p. p.server };

    ghost invariant = { λ p. IsState p.server.state × (3 ≤ p.free_from)
        × ((c : ℕ) → 3 ≤ c → c < p.free_from → has_block p.server.state.graph.objects c ≡ true) };
}

impl Plain {
    /// Makes a server of an empty root index.
    pub fn new(alloc: Global, root: Puid, seed: u64) -> Result<Plain, NoMemory>
        requires { 0 < root.block }
        ensures { IfOk result (λ p. p ≡ record { seed = seed; state = opening (fresh_graph root) }) }
    {
        Ok(Plain {
            server: Server::new(alloc, root, seed)?,
            free_from: 3,
        })
    }

    /// Returns how many words were drawn.
    pub fn drawn(&self) -> u32
        ensures { result ≡ self.now.state.drawn }
    {
        self.server.words.drawn()
    }

    /// Returns the number of objects.
    pub fn count(&self) -> usize
        ensures { result ≡ length self.now.state.graph.objects }
    {
        self.server.objects.len()
    }

    /// Returns the identifier of the root index.
    pub fn root(&self) -> Puid
        ensures { result ≡ self.now.state.graph.root }
    {
        self.server.root
    }

    /// Returns the kind of an object, or `None` if no object has this identifier.
    pub fn kind(&self, id: Puid) -> Option<Kind>
        ensures { result ≡ kind_at self.now.state.graph id }
    {
        self.server.objects.get(&id).map(Object::kind)
    }

    /// Returns the answer of the definitions, or `Memory`, which changes nothing.
    ///
    /// The server never stops, and is never full.
    pub fn ask(&mut self, alloc: Global, who: Session, request: &Request) -> Reply
        requires { self.old.state.drawn < 4294967295 }
        ensures step { next self.old.seed self.old.state (events.Ask who request.now result) ≡ Some self.new.state }
        ensures plain { IsPlainReply result }
        ensures answer { result ≢ replies.Memory → IsAnswer self.old.seed self.old.state who request.now result
            self.new.state }
        ensures seed { self.new.seed ≡ self.old.seed }
        ensures drawn { self.new.state.drawn ≤ self.old.state.drawn + 1 }
        ensures kept { self.old.state.drawn ≤ self.new.state.drawn }
        ensures draws { self.new.state.drawn ≤ self.old.state.drawn + draws request.now }
    {
        self.answer(alloc, who, request).unwrap_or(Reply::Memory)
    }

    /// Ends the session: its grants and their drafts are gone. Takes no memory.
    pub fn leave(&mut self, who: Session)
        ensures step { next self.old.seed self.old.state (events.Leave who None) ≡ Some self.new.state }
        ensures seed { self.new.seed ≡ self.old.seed }
    {
        self.server.leave(who);
    }

    fn answer(&mut self, alloc: Global, who: Session, request: &Request) -> Result<Reply, NoMemory>
        requires { self.old.state.drawn < 4294967295 }
        ensures answer { IfOk result (λ reply. IsAnswer self.old.seed self.old.state who request.now reply
            self.new.state) }
        ensures memory { OnErr result (self.new ≡ self.old) }
        ensures plain { IfOk result IsPlainReply }
        ensures running { IsTrue (is_running self.old.state) }
        ensures seed { self.new.seed ≡ self.old.seed }
        ensures drawn { self.new.state.drawn ≤ self.old.state.drawn + 1 }
        ensures kept { self.old.state.drawn ≤ self.new.state.drawn }
        ensures draws { self.new.state.drawn ≤ self.old.state.drawn + draws request.now }
    {
        self.server.is_quiet();
        if let Some(refused) = self.server.refusal(who, request) {
            return Ok(refused);
        }
        crate::laws::requests_store_bytes(request);
        let block = self.block_for(request).ok_or(NoMemory)?;
        let reply = self.server.outcome(alloc, who, request, block)?;
        if request.creates() {
            self.free_from = block + 1;
        }
        Ok(reply)
    }

    /// Returns the least free root block for a request that makes an object, and any number for other requests.
    fn block_for(&self, request: &Request) -> Option<u32>
        ensures least { IfSome result (λ b. creates request.now ≡ true
            → IsLeastFreeRoot self.now.state.graph.objects b) }
        ensures fits { IfSome result (λ b. b < 4294967295) }
    {
        if request.creates() {
            least_free_root(&self.server.objects, self.free_from)
        } else {
            Some(0)
        }
    }
}
