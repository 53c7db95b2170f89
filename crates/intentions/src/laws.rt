//! What is proved of courses and intentions, as contracts of functions that do nothing.
ghost use Rattle.std.specs.Prelude.{◌≡◌, ◌≢◌, ℕ, false, true, Some};
ghost use Rattle.cfs_base.specs.Disk.{Image, block_at};
ghost use Rattle.cfs_base.specs.Run.{IsSettled};
ghost use Rattle.cfs_base.specs.declared.identifier.Puid.{Puid};
ghost use Rattle.cfs_base.specs.declared.kind.Place.{Place};
ghost use Rattle.cfs_base.specs.declared.kind.Place.TheVariants.{Root};
ghost use Rattle.cyl_alloc.specs.Space.{intended};
ghost use Rattle.cyl_map.specs.Entry.{IsEntry};
ghost use Rattle.cyl_map.specs.Volume.{entry_in};
ghost use Rattle.cyl_map.specs.declared.entry.MapEntry.{MapEntry};
ghost use Rattle.cyl_map.specs.declared.state.BlockState.TheVariants.{IntendDeallocate};
ghost use Rattle.intentions.specs.Commit.{Commits, Copies, IsToFinish, OrFinished};
ghost use Rattle.intentions.specs.Course.{Course, Frame, IsCopied, IsCourse, IsOn, Keeps, MayPut, Settling, graph_of};
ghost use Rattle.intentions.specs.Entries.{finished, released, undone, without_bit};
ghost use Rattle.ufs_model.specs.Graph.{Graph, object_at, with_object};
ghost use Rattle.ufs_model.specs.declared.object.Object.{Object};
ghost use Rattle.vol_image.specs.Commit.{Settles};
ghost use Rattle.vol_image.specs.Frame.{IsLoose, StandsForNone};
ghost use Rattle.vol_image.specs.Part.{OwnsItself, is_fixed, stands_for};
ghost use Rattle.vol_image.specs.Run.{Carries};
ghost use Rattle.vol_image.specs.Sound.{Holds};

use cfs_base::Disk;

/// A disk that carries objects keeps to their frame, and the other way round.
///
/// A disk on which no write waits for a barrier keeps to each course that its content is on, and carries the objects
/// of each course to which it has kept.
pub fn a_disk_keeps_to_courses<D: Disk>(disk: &D)
    ensures frame { (graph : Graph) → Carries D.Disk graph disk.now
        → Keeps D.Disk (Frame (D.content disk.now) graph) disk.now }
    ensures carries { (a : Image) (graph : Graph) → Holds a graph → Keeps D.Disk (Frame a graph) disk.now
        → Carries D.Disk graph disk.now }
    ensures settled { (course : Course) → IsSettled D.Disk disk.now → IsOn course (D.content disk.now)
        → Keeps D.Disk course disk.now }
    ensures ends { (course : Course) → IsCourse course → Keeps D.Disk course disk.now → IsSettled D.Disk disk.now
        → Carries D.Disk (graph_of course) disk.now }
{}

/// Each image that is on a course holds its objects.
pub fn courses_hold()
    ensures { (course : Course) (c : Image) → IsCourse course → IsOn course c → Holds c (graph_of course) }
{}

/// A block that the objects hold may be given up within their frame. One that they don't hold may be claimed, and
/// taken back.
pub fn intentions_keep_the_frame()
    ensures release { (a : Image) (graph : Graph) (n : ℕ) (e : MapEntry) → is_fixed n ≡ false → IsEntry e
        → OwnsItself n e
        → MayPut (Frame a graph) n e (released e) }
    ensures claim { (a : Image) (graph : Graph) (n : ℕ) (e : MapEntry) (place : Place) (owner : ℕ) → IsLoose a graph n
        → StandsForNone a graph e → IsEntry (intended place owner) → OwnsItself n (intended place owner)
        → StandsForNone a graph (intended place owner) → MayPut (Frame a graph) n e (intended place owner) }
    ensures undo { (a : Image) (graph : Graph) (n : ℕ) (e : MapEntry) → IsLoose a graph n → StandsForNone a graph e
        → IsEntry e → e.place ≢ Some Root → MayPut (Frame a graph) n e (undone e) }
{}

/// Once the root is copied the object settles: its nodes and leaves are finished, the shadow root is given back, and
/// the bit is cleared.
pub fn objects_settle()
    ensures begin { (a c : Image) (graph : Graph) (id : Puid) (o : Object) (s : ℕ) → Copies a c graph id o s
        → Settles c graph id s c }
    // What was to be finished of a draft still is, once its bit is set and its root copied.
    ensures stays { (a c k : Image) (graph : Graph) (id : Puid) (was o : Object) (s n : ℕ) → Holds a graph
        → object_at graph id ≡ Some was → Commits a c graph id o s → Copies c k (with_object graph id o) id o s
        → IsToFinish a id.block (block_at a s) n → IsToFinish k id.block (block_at k id.block) n }
    ensures finish { (c : Image) (graph : Graph) (id : Puid) (o : Object) (s n : ℕ) (old : MapEntry)
        → IsCopied c graph id o s
        → (to : IsToFinish c id.block (block_at c id.block) n) → OrFinished to.taken.is old
        → MayPut (Settling c graph id o s) n old (finished old) }
    // The same of the root of an object that is made with this commit.
    ensures finish_made { (c : Image) (graph : Graph) (id : Puid) (o : Object) (s n : ℕ) (old : MapEntry)
        → IsCopied c graph id o s → IsEntry old → old.place ≡ Some Root → old.owner ≡ n → old.state ≢ IntendDeallocate
        → is_fixed n ≡ false → n ≢ id.block → MayPut (Settling c graph id o s) n old (finished old) }
    ensures undo { (c : Image) (graph : Graph) (id : Puid) (o : Object) (s : ℕ) (old : MapEntry)
        → IsCopied c graph id o s
        → stands_for id.block (entry_in c s) ≡ true → entry_in c s ≡ Some old
        → MayPut (Settling c graph id o s) s old (undone old) }
    ensures clear { (c b : Image) (graph : Graph) (id : Puid) (o : Object) (s : ℕ) (old : MapEntry)
        → IsCopied c graph id o s
        → Settles c graph id s b → entry_in b id.block ≡ Some old
        → MayPut (Settling c graph id o s) id.block old (without_bit old) }
{}
