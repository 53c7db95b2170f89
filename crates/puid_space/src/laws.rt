//! How the kinds of a graph's objects change with the graph, as contracts of functions that do nothing.
ghost use Rattle.std.specs.Prelude.{◌≡◌, ℕ, Bool, not, List, filter, option_map, IsTrue, Some};
ghost use Rattle.std.specs.BTreeMap.{insert_entry};
ghost use Rattle.std.specs.Map.{keys_of};
ghost use Rattle.cfs_base.specs.declared.identifier.Puid.{Puid};
ghost use Rattle.cfs_base.specs.declared.kind.Kind.{Kind};
ghost use Rattle.ufs_model.specs.declared.object.Object.{Object};
ghost use Rattle.ufs_model.specs.Identifier.{puid_cmp, is_among, rises};
ghost use Rattle.ufs_model.specs.Graph.{Graph, ids_of, object_at, with_object, without, has_block};
ghost use Rattle.puid_space.specs.Kinds.{object_kind, kinds_of};
ghost use Rattle.puid_space.specs.Directory.{directory_kind, has_root_in, is_listing, kept_by, taken_by};

use crate::directory::Directory;

/// The kinds of a graph's objects: what is found in them, and how they change with the graph.
pub fn kinds_follow_the_graph()
    ensures ids { (g : Graph) → keys_of (kinds_of g) ≡ ids_of g }
    ensures kind { (g : Graph) (id : Puid) → directory_kind (kinds_of g) id ≡ option_map object_kind (object_at g id) }
    ensures root { (g : Graph) (block : ℕ) → has_root_in (kinds_of g) block ≡ has_block g.objects block }
    ensures added { (g : Graph) (id : Puid) (o : Object)
        → kinds_of (with_object g id o) ≡ insert_entry puid_cmp (kinds_of g) id (object_kind o) }
    // An object may be replaced by one of the same kind.
    ensures replaced { (g : Graph) (id : Puid) (o : Object) → IsTrue (rises (ids_of g))
        → directory_kind (kinds_of g) id ≡ Some (object_kind o)
        → kinds_of (with_object g id o) ≡ kinds_of g }
    ensures gone { (g : Graph) (ids : List Puid)
        → kinds_of (without g ids) ≡ filter (λ e. not (is_among e.0 ids)) (kinds_of g) }
{}

/// What is left if those whose root block fails a test are removed.
pub fn taken_are_left_out()
    ensures { (test : ℕ → Bool) (named : List (Puid × Kind))
        → filter (λ e. not (is_among e.0 (taken_by test named))) named ≡ kept_by test named }
{}

/// A directory lists its identifiers in their order, each with a root block for which there is room.
pub fn directories_are_listings(directory: &Directory)
    ensures { IsTrue (is_listing directory.now) }
{
    directory.room();
}
