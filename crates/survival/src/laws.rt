//! What is proved of the definitions, as contracts of functions that do nothing.
ghost use Rattle.std.specs.Prelude.{◌≡◌, ◌⊎◌, ℕ, true, List, [], ◌∷◌, ◌++◌, Some, None};
ghost use Rattle.cfs_base.specs.Disk.{Image};
ghost use Rattle.cfs_base.specs.Run.{Leaves, left_now};
ghost use Rattle.survival.specs.Call.{CallKeeps, CallSurvives, Survived};
ghost use Rattle.survival.specs.Held.{FitsDisk, LeavesSome};
ghost use Rattle.survival.specs.Trail.{RunSurvives};
ghost use Rattle.ufs_model.specs.Graph.{Graph};
ghost use Rattle.ufs_model.specs.Next.{next};
ghost use Rattle.ufs_model.specs.Outcome.{outcome_of};
ghost use Rattle.ufs_model.specs.Refusal.{refusal_of};
ghost use Rattle.ufs_model.specs.Run.{replay};
ghost use Rattle.ufs_model.specs.State.{State, is_running};
ghost use Rattle.ufs_model.specs.declared.asked.Event.{Event};
ghost use Rattle.ufs_model.specs.declared.asked.Event.TheVariants as events;
ghost use Rattle.ufs_model.specs.declared.asked.Reply.TheVariants as replies;
ghost use Rattle.ufs_model.specs.declared.asked.Request.{Request};
ghost use Rattle.vol_image.specs.Sound.{Holds, IsSoundAs, rooted_part};
ghost use Rattle.vol_image.specs.Survives.{MayName};

use cfs_base::Disk;

/// What a crash leaves of a call is what it leaves of the run with that call.
pub fn runs_survive<D: Disk>()
    // A run begins when all that was left since reads as the opened graph.
    ensures begin { (seed : ℕ) (g : Graph) (d : D)
        → ((c : Image) → D.left_since d (D.moment d) c → IsSoundAs c (rooted_part g))
        → RunSurvives D.Disk seed g [] (D.moment d ∷ []) d }
    ensures event { (seed : ℕ) (g : Graph) (trail : List Event) (marks : List ℕ) (s : State) (old new : D)
        → replay seed g trail ≡ Some s → RunSurvives D.Disk seed g trail marks old
        → (e : Event) → Survived D.Disk seed s e old new
        → RunSurvives D.Disk seed g (trail ++ e ∷ []) (marks ++ D.moment new ∷ []) new }
    ensures none { (seed : ℕ) (g : Graph) (trail : List Event) (marks : List ℕ) (s : State) (old new : D)
        → replay seed g trail ≡ Some s → RunSurvives D.Disk seed g trail marks old
        → CallKeeps D.Disk s old new → RunSurvives D.Disk seed g trail marks new }
{}

/// What a crash leaves of a call, if each image holds objects that fit the disk.
pub fn calls_survive<D: Disk>()
    ensures call { (seed : ℕ) (s : State) (e : Event) (old new : D) → LeavesSome D.Disk seed s e old new
        → CallSurvives D.Disk seed s e old new }
    // each image has the objects of before the call, or those of after it
    ensures done { (seed : ℕ) (s t : State) (e : Event) (old new : D) → next seed s e ≡ Some t
        → FitsDisk (D.blocks new) s.graph → FitsDisk (D.blocks new) t.graph
        → Leaves D.Disk old new (λ c. Holds c s.graph ⊎ Holds c t.graph)
        → ((c : Image) → left_now D.Disk new c → Holds c t.graph) → CallSurvives D.Disk seed s e old new }
    // the same of a call that failed after its first write
    ensures doubt { (seed who b moment : ℕ) (s : State) (request : Request) (old new : D) → is_running s ≡ true
        → refusal_of s who request ≡ None → MayName s request b
        → FitsDisk (D.blocks new) s.graph → FitsDisk (D.blocks new) (outcome_of seed s who request b).1.graph
        → Leaves D.Disk old new (λ c. Holds c s.graph ⊎ Holds c (outcome_of seed s who request b).1.graph)
        → ((c : Image) → left_now D.Disk old c → Holds c s.graph)
        → CallSurvives D.Disk seed s (events.Ask who request (replies.Disk (Some moment))) old new }
    // each image has the same objects as before
    ensures loose { (seed : ℕ) (s t : State) (e : Event) (old new : D) → next seed s e ≡ Some t → t.graph ≡ s.graph
        → FitsDisk (D.blocks new) s.graph → Leaves D.Disk old new (λ c. Holds c s.graph)
        → ((c : Image) → left_now D.Disk old c → Holds c s.graph) → CallSurvives D.Disk seed s e old new }
    ensures none { (s : State) (old new : D) → FitsDisk (D.blocks new) s.graph
        → Leaves D.Disk old new (λ c. Holds c s.graph)
        → CallKeeps D.Disk s old new }
{}
