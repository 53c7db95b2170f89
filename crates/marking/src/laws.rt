//! What is proved of marking, as contracts of functions that do nothing.
ghost use Rattle.std.specs.Prelude.{◌≡◌, ℕ, ◌+◌, ◌*◌, ◌-◌, ◌^◌, ◌<◌, ◌≤◌, List, [], ◌∷◌, ◌++◌, Some, Option};
ghost use Rattle.std.specs.List.{sum_by};
ghost use Rattle.cfs_base.specs.Outside.{count_after};
ghost use Rattle.cfs_base.specs.declared.identifier.Puid.{Puid};
ghost use Rattle.cfs_base.specs.declared.kind.Kind.{Kind};
ghost use Rattle.ufs_model.specs.declared.asked.Event.TheVariants as events;
ghost use Rattle.ufs_model.specs.declared.asked.Reply as asked;
ghost use Rattle.ufs_model.specs.declared.asked.Request as asking;
ghost use Rattle.ufs_model.specs.declared.object.Index as index;
ghost use Rattle.ufs_model.specs.declared.object.Object.TheVariants as objects;
ghost use Rattle.ufs_model.specs.Graph.{ids_of, object_at};
ghost use Rattle.ufs_model.specs.Identifier.{is_among};
ghost use Rattle.ufs_model.specs.Next.{next};
ghost use Rattle.ufs_model.specs.Object.{blocks_of};
ghost use Rattle.ufs_model.specs.Reach.{starts_now};
ghost use Rattle.ufs_model.specs.WellFormed.{IsState};
ghost use Rattle.ufs_model.specs.Vanish.{MayVanish};
ghost use Rattle.ufs_model.specs.State.{State, draft_at};
ghost use Rattle.marking.specs.declared.memory.Grey as grey;
ghost use Rattle.marking.specs.declared.memory.Rescue as rescue;
ghost use Rattle.marking.specs.Colours.{Colours, draft_over, all_shaded, first_grey, none_marked};
ghost use Rattle.marking.specs.Marking.{IsMarking};
ghost use Rattle.marking.specs.Meanwhile.{Changes, rescues_of};
ghost use Rattle.marking.specs.Pace.{IsPaced, added_with, unread};
ghost use Rattle.marking.specs.Steps.{IsDirectoryOf, IsDraftIndex, rescued, scanned, unmarked};

/// A collection begins, and each of its steps keeps what holds of a collection that marks.
pub fn steps_keep_marking()
    ensures begin { (seed : ℕ) (s t : State) (directory : List (Puid × Kind)) (roots : List Puid)
        → next seed s events.Began ≡ Some t → IsState s
        → IsDirectoryOf directory s.graph → ((x : Puid) → is_among x roots ≡ is_among x (starts_now s))
        → IsMarking t (all_shaded directory roots none_marked) [] }
    ensures take { (s : State) (directory : List (Puid × Kind)) (r : rescue.Rescue) (rest : List rescue.Rescue)
        (c : Colours) → IsState s
        → IsDirectoryOf directory s.graph → IsMarking s c (r ∷ rest) → IsMarking s (rescued directory r c) rest }
    ensures scan { (s : State) (directory : List (Puid × Kind)) (waiting : List rescue.Rescue) (c : Colours)
        (e : grey.Grey) (i : index.Index) (draft : Option index.Index)
        → IsState s → IsDirectoryOf directory s.graph → first_grey c ≡ Some e
        → object_at s.graph e.id ≡ Some (objects.Index i)
        → IsDraftIndex (draft_at s.grants e.id) draft
        → IsMarking s c waiting → IsMarking s (scanned directory draft i e.cursor c) waiting }
{}

/// Whatever is asked and answered meanwhile keeps what holds of a collection that marks.
///
/// Each object that is put into an index or opened must be a rescue from then on. So do a session's end, and any
/// change of which this is true.
pub fn requests_keep_marking()
    ensures ask { (seed : ℕ) (s t : State) (who : ℕ) (request : asking.Request) (reply : asked.Reply) (c : Colours)
        (waiting : List rescue.Rescue)
        → next seed s (events.Ask who request reply) ≡ Some t → IsState s → IsMarking s c waiting
        → IsMarking t c (waiting ++ rescues_of s who request reply) }
    ensures leave { (seed : ℕ) (s t : State) (who : ℕ) (stop : Option ℕ) (c : Colours) (waiting : List rescue.Rescue)
        → next seed s (events.Leave who stop) ≡ Some t → IsState s → IsMarking s c waiting → IsMarking t c waiting }
    ensures any { (s t : State) (more waiting : List rescue.Rescue) (c : Colours) → Changes s t more
        → IsMarking s c waiting
        → IsMarking t c (waiting ++ more) }
    // If an index has no draft any more, its reading may go on at its own first leaf.
    ensures ended { (s : State) (c : Colours) (i : Puid) (waiting : List rescue.Rescue) → draft_at s.grants i ≡ None
        → IsMarking s c waiting → IsMarking s (draft_over i c) waiting }
{}

/// If nothing is grey and no rescue waits, exactly the objects that aren't marked may vanish.
pub fn unmarked_may_vanish()
    ensures { (s : State) (c : Colours) → IsState s → c.grey ≡ [] → IsMarking s c []
        → MayVanish s (unmarked c (ids_of s.graph)) }
{}

/// How many steps a collection takes until nothing is left to read.
///
/// They are at most one, plus two for each rescue and two for each block of the volume. As it begins, the leaves of
/// the objects and drafts are no more than the blocks.
pub fn steps_are_bounded()
    ensures begin { (s : State) (c : Colours) (volume : ℕ) → unread s none_marked ≤ volume
        → IsPaced s c [] volume 1 0 }
    ensures take { (s : State) (directory : List (Puid × Kind)) (r : rescue.Rescue) (rest : List rescue.Rescue)
        (c : Colours) (volume steps added : ℕ) → IsPaced s c (r ∷ rest) volume steps added
        → IsPaced s (rescued directory r c) rest volume (count_after steps) added }
    ensures scan { (s : State) (directory : List (Puid × Kind)) (waiting : List rescue.Rescue) (c : Colours)
        (e : grey.Grey) (i : index.Index) (draft : Option index.Index)
        (volume steps added : ℕ) → first_grey c ≡ Some e → object_at s.graph e.id ≡ Some (objects.Index i)
        → IsDraftIndex (draft_at s.grants e.id) draft → IsMarking s c waiting
        → IsPaced s c waiting volume steps added
        → IsPaced s (scanned directory draft i e.cursor c) waiting volume (count_after steps) added }
    // A request adds no step beside those of its rescue. Neither does any change that keeps what was read and leaves
    // no more of drafts.
    ensures any { (s t : State) (more waiting : List rescue.Rescue) (c : Colours) (volume steps added : ℕ)
        → Changes s t more
        → IsPaced s c waiting volume steps added → IsPaced t c (waiting ++ more) volume steps (added_with more added) }
    ensures ask { (seed : ℕ) (s t : State) (who : ℕ) (request : asking.Request) (reply : asked.Reply) (c : Colours)
        (waiting : List rescue.Rescue)
        (volume steps added : ℕ) → next seed s (events.Ask who request reply) ≡ Some t → IsState s
        → IsMarking s c waiting → IsPaced s c waiting volume steps added
        → IsPaced t c (waiting ++ rescues_of s who request reply) volume steps
        (added_with (rescues_of s who request reply) added) }
    ensures leave { (seed : ℕ) (s t : State) (who : ℕ) (stop : Option ℕ) (c : Colours) (waiting : List rescue.Rescue)
        (volume steps added : ℕ) → next seed s (events.Leave who stop) ≡ Some t → IsState s
        → IsPaced s c waiting volume steps added → IsPaced t c waiting volume steps added }
    ensures ended { (s : State) (c : Colours) (i : Puid) (waiting : List rescue.Rescue) (volume steps added : ℕ)
        → IsPaced s c waiting volume steps added → IsPaced s (draft_over i c) waiting volume steps added }
    ensures end { (s : State) (c : Colours) (volume steps added : ℕ) → IsPaced s c [] volume steps added
        → added < 2 ^ 64 - 1 → sum_by (λ e. blocks_of e.1) s.graph.objects ≤ volume
        → steps ≤ 1 + 2 * added + 2 * volume }
{}
