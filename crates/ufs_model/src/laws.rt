//! What is proved of the definitions, as contracts of functions that do nothing.
ghost use Rattle.std.specs.Prelude.{◌≡◌, ◌≢◌, ◌↔◌, ◌+◌, ℕ, List, length, nat_lt, true, false, Some, None, Option, All};
ghost use Rattle.std.specs.List.{list_all};
ghost use Rattle.cfs_base.specs.declared.identifier.Puid.{Puid};
ghost use Rattle.ufs_model.specs.Came.{Came};
ghost use Rattle.ufs_model.specs.Graph.{Graph, IsClosedGraph, IsGraph, fresh_graph, is_free_root, is_there, object_at};
ghost use Rattle.ufs_model.specs.Identifier.{is_among};
ghost use Rattle.ufs_model.specs.Limits.{fan_out, leaf_size, leaf_slots, most_at_once, most_bytes, most_grants};
ghost use Rattle.ufs_model.specs.Limits.{most_leaves, most_line, most_name, most_slots, reserve, root_slots};
ghost use Rattle.ufs_model.specs.Next.{next};
ghost use Rattle.ufs_model.specs.Object.{IsObject};
ghost use Rattle.ufs_model.specs.Outcome.{creates, outcome_of};
ghost use Rattle.ufs_model.specs.Reach.{IsKept, IsReached, kept, reached};
ghost use Rattle.ufs_model.specs.Refusal.{refusal_of};
ghost use Rattle.ufs_model.specs.Run.{replay_from};
ghost use Rattle.ufs_model.specs.State.{State, is_running, opening};
ghost use Rattle.ufs_model.specs.Vanish.{IsCutOff, MayVanish, may_vanish};
ghost use Rattle.ufs_model.specs.WellFormed.{IsSpeakable, IsState, stores_bytes};
ghost use Rattle.ufs_model.specs.declared.asked.Event.{Event};
ghost use Rattle.ufs_model.specs.declared.asked.Event.TheVariants as events;
ghost use Rattle.ufs_model.specs.declared.asked.Reply.{Reply};
ghost use Rattle.ufs_model.specs.declared.asked.Request.{Request};
ghost use Rattle.ufs_model.specs.declared.object.Object.{Object};

use crate::asked::Request;
use crate::limits::{
    FAN_OUT, LEAF_BYTES, LEAF_SLOTS, MOST_AT_ONCE, MOST_BYTES, MOST_GRANTS, MOST_LEAVES, MOST_LINE,
    MOST_NAME, MOST_SLOTS, RESERVE, ROOT_SLOTS,
};

/// The constants are the numbers of the definitions.
pub fn limits_are_stated()
    ensures leaf_bytes { LEAF_BYTES ≡ leaf_size }
    ensures leaf_slots { LEAF_SLOTS ≡ leaf_slots }
    ensures fan_out { FAN_OUT ≡ fan_out }
    ensures most_leaves { MOST_LEAVES ≡ most_leaves }
    ensures most_bytes { MOST_BYTES ≡ most_bytes }
    ensures most_slots { MOST_SLOTS ≡ most_slots }
    ensures root_slots { ROOT_SLOTS ≡ root_slots }
    ensures most_at_once { MOST_AT_ONCE ≡ most_at_once }
    ensures most_grants { MOST_GRANTS ≡ most_grants }
    ensures reserve { RESERVE ≡ reserve }
    ensures most_line { MOST_LINE ≡ most_line }
    ensures most_name { MOST_NAME ≡ most_name }
{}

/// In a well-formed graph the root leads to objects that exist, each object is well-formed, and no two have one root
/// block.
pub fn graphs_are_closed()
    ensures closed { (g : Graph) → IsGraph g → IsClosedGraph g }
    ensures blocks { (g : Graph) (a b : Puid) → IsGraph g → is_there g a ≡ true → is_there g b ≡ true
        → a.block ≡ b.block → a ≡ b }
    ensures not_zero { (g : Graph) (a : Puid) → IsGraph g → is_there g a ≡ true → a.block ≢ 0 }
    ensures objects { (g : Graph) (a : Puid) (o : Object) → IsGraph g → object_at g a ≡ Some o → IsObject o }
{}

/// Events keep a state well-formed, one event or a run of them.
pub fn next_keeps_graphs()
    ensures fresh { (root : Puid) → root.block ≢ 0 → IsGraph (fresh_graph root) }
    ensures begin { (g : Graph) → IsGraph g → IsState (opening g) }
    ensures next { (seed : ℕ) (s t : State) (event : Event) → IsState s → IsSpeakable event
        → next seed s event ≡ Some t → IsState t }
    ensures run { (seed : ℕ) (s t : State) (trail : List Event) → IsState s → All IsSpeakable trail
        → replay_from seed s trail ≡ Some t → IsState t }
{}

/// What the code can ask to store is bytes, as `next_keeps_graphs` requires.
pub fn requests_store_bytes(request: &Request)
    ensures { stores_bytes request.now ≡ true }
{
    match request {
        Request::CreateFile { fill, .. } => {
            let _fill = *fill;
        }
        Request::Write { bytes, .. } => {
            are_bytes(bytes.as_slice());
        }
        _ => {}
    }
}

/// A request that is not refused may be answered by its outcome, whichever free root block a new object takes.
pub fn outcomes_are_legal()
    ensures { (seed : ℕ) (s : State) (who : ℕ) (request : Request) (b : ℕ) → is_running s ≡ true
        → refusal_of s who request ≡ None
        → (creates request ≡ true → is_free_root s.graph b ≡ true)
        → next seed s (events.Ask who request (outcome_of seed s who request b).0)
        ≡ Some (outcome_of seed s who request b).1 }
{}

/// An answer is the outcome of the request, its refusal, a want of blocks, or trouble.
pub fn answers_are()
    ensures { (seed : ℕ) (s t : State) (who : ℕ) (request : Request) (reply : Reply)
        → next seed s (events.Ask who request reply) ≡ Some t → Came seed s who request reply t }
{}

/// What is reached in as many steps as there are pairs is all that is reached.
pub fn reached_sets()
    ensures pairs { (pairs : List (Puid × Puid)) (starts : List Puid) (x : Puid)
        → (is_among x (reached (length pairs) pairs starts) ≡ true) ↔ IsReached pairs starts x }
    ensures kept { (s : State) (x : Puid) → IsState s → ((is_among x (kept s) ≡ true) ↔ IsKept s x) }
{}

/// A collection takes what was cut off throughout, and nothing that is kept.
pub fn may_vanish_is()
    ensures exact { (s : State) (ids : List Puid) → IsState s → ((may_vanish s ids ≡ true) ↔ MayVanish s ids) }
    ensures gone { (seed : ℕ) (s t : State) (ids : List Puid) (x : Puid) → IsState s
        → next seed s (events.Vanish ids) ≡ Some t
        → IsCutOff s x → is_there t.graph x ≡ false }
    ensures kept { (seed : ℕ) (s t : State) (ids : List Puid) (x : Puid) → IsState s
        → next seed s (events.Vanish ids) ≡ Some t
        → IsKept s x → object_at t.graph x ≡ object_at s.graph x }
{}

/// A byte is below 256.
pub fn are_bytes(bytes: &[u8])
    ensures { list_all (λ byte. nat_lt byte 256) bytes.now ≡ true }
{}
