//! What is proved of images, as contracts of functions that do nothing.
ghost use Rattle.std.specs.Prelude.{◌≡◌, ◌≢◌, ℕ, ◌<◌, ◌%◌, ◌*◌, List, [], ◌∷◌, length, set, true, false, Some};
ghost use Rattle.cfs_base.specs.Disk.{Image, block_at};
ghost use Rattle.cfs_base.specs.declared.identifier.Puid.{Puid};
ghost use Rattle.cfs_base.specs.declared.kind.FileKind.TheVariants as file_kinds;
ghost use Rattle.cfs_base.specs.declared.kind.Kind.TheVariants as kinds;
ghost use Rattle.block_tree.specs.Tree.{levels_of};
ghost use Rattle.block_tree.specs.declared.root.Root as roots;
ghost use Rattle.cyl_map.specs.Entry.{IsEntry};
ghost use Rattle.cyl_map.specs.Volume.{map_of, entry_in, with_entry};
ghost use Rattle.cyl_map.specs.declared.entry.MapEntry.{MapEntry};
ghost use Rattle.cyl_map.specs.declared.state.BlockState.{BlockState};
ghost use Rattle.cyl_map.specs.declared.state.BlockState.TheVariants.{Allocated, Free};
ghost use Rattle.ufs_model.specs.Graph.{Graph, object_at, with_object, without};
ghost use Rattle.ufs_model.specs.Object.{blocks_of, held_levels, new_file, new_index};
ghost use Rattle.ufs_model.specs.declared.object.Object.{Object};
ghost use Rattle.ufs_model.specs.declared.object.Object.TheVariants as objects;
ghost use Rattle.vol_image.specs.Commit.{IsDraft, IsReadBy, MaySettle, Settles, with_commit_bit, root_from_source};
ghost use Rattle.vol_image.specs.Count.{blocks_held, levels_held};
ghost use Rattle.vol_image.specs.Frame.{ChangesMaps, Frames, IsAtRest, IsBlockOf, IsHeldBy, IsLoose, StandsForNone};
ghost use Rattle.vol_image.specs.Part.{IsTaken, OwnsItself, is_fixed, stands_for};
ghost use Rattle.vol_image.specs.Reading.{IsTree, bare_object};
ghost use Rattle.vol_image.specs.Seen.{Held, tree_in};
ghost use Rattle.vol_image.specs.Sight.{sight, source};
ghost use Rattle.vol_image.specs.Sound.{Holds, IsBareRoot, IsClosedGraph, IsSoundAs, LeavesFour, ReadsAs, rooted_part};

/// Writing one entry changes that entry and no other, and no block except its map.
pub fn entry_written()
    ensures here { (image : Image) (n : ℕ) (e old : MapEntry) → entry_in image n ≡ Some old → IsEntry e
        → entry_in (with_entry image n e) n ≡ Some e }
    ensures others { (image : Image) (n m : ℕ) (e old : MapEntry) → entry_in image n ≡ Some old → m ≢ n
        → entry_in (with_entry image n e) m ≡ entry_in image m }
    ensures blocks { (image : Image) (n m : ℕ) (e : MapEntry) → m ≢ map_of n
        → block_at (with_entry image n e) m ≡ block_at image m }
    ensures content { (image : Image) (n m : ℕ) (block : List ℕ) → n % 64 ≢ 0
        → entry_in (set image n block) m ≡ entry_in image m }
{}

/// The law of frames: an image within the frame of a sound one is sound, and reads as the same graph.
pub fn law_of_frames()
    ensures sound { (a b : Image) (g : Graph) → IsSoundAs a g → Frames a g b → IsSoundAs b g }
    // The same of all objects that an image holds, reached from the root or not.
    ensures holds { (a b : Image) (g : Graph) → Holds a g → Frames a g b → Holds b g }
{}

/// Frames compose and can be reversed, and a block that is written within a frame may be written into each image of
/// it.
pub fn frames_compose()
    ensures begin { (a : Image) (g : Graph) → Holds a g → Frames a g a }
    ensures then { (a b c : Image) (g : Graph) → Frames a g b → Frames b g c → Frames a g c }
    ensures fewer { (a b : Image) (g h : Graph) → Frames a g b
        → ((x : Puid) (o : Object) → object_at h x ≡ Some o → object_at g x ≡ Some o) → Frames a h b }
    ensures back { (a b : Image) (g : Graph) → Holds a g → Frames a g b → Frames b g a }
    ensures write { (a : Image) (g : Graph) (c content : Image) (n : ℕ) (block : List ℕ) → n < length content
        → Frames a g c
        → Frames a g (set content n block) → Frames a g (set c n block) }
{}

/// A block that no object holds may be claimed, written, given back, or made to wait for any of these.
pub fn loose_blocks_change()
    ensures free { (a : Image) (g : Graph) (n : ℕ) (e : MapEntry) → Holds a g → entry_in a n ≡ Some e → e.state ≡ Free
        → IsLoose a g n }
    ensures content { (a : Image) (g : Graph) (c : Image) (n : ℕ) (block : List ℕ) → Frames a g c → IsLoose a g n
        → Frames a g (set c n block) }
    ensures entry { (a : Image) (g : Graph) (c : Image) (n : ℕ) (e old : MapEntry) → Holds a g → Frames a g c
        → IsLoose a g n
        → entry_in c n ≡ Some old → IsEntry e → OwnsItself n e → StandsForNone a g e → StandsForNone a g old
        → Frames a g (with_entry c n e) }
    ensures none { (a : Image) (g : Graph) (e : MapEntry) → e.state ≡ Free → StandsForNone a g e }
    // The state of any block that isn't Free, held or not, may become any other than Free.
    ensures state { (a : Image) (g : Graph) (c : Image) (n : ℕ) (old : MapEntry) (s : BlockState) → Holds a g
        → Frames a g c
        → is_fixed n ≡ false → entry_in c n ≡ Some old → old.state ≢ Free → s ≢ Free
        → IsEntry (record old { state = s })
        → StandsForNone a g (record old { state = s }) → StandsForNone a g old
        → Frames a g (with_entry c n (record old { state = s })) }
{}

/// Many entries of maps may change at once, each as it may alone.
pub fn maps_change()
    ensures { (a : Image) (g : Graph) (c b : Image) → Holds a g → Frames a g c → ChangesMaps a g c b → Frames a g b }
{}

/// A block whose owner is an object at rest, and that isn't Allocated, as what a draft claimed, is none of the
/// object's.
pub fn claims_are_loose()
    ensures loose { (a : Image) (g : Graph) (r n : ℕ) → Holds a g → IsAtRest a r → (taken : IsTaken a n r)
        → taken.is.state ≢ Allocated → IsLoose a g n }
    // A loose block is loose in each image of the frame, and an object stays at rest if the entries of its blocks
    // stay.
    ensures stays { (a b : Image) (g : Graph) (n : ℕ) → Frames a g b → IsLoose a g n → IsLoose b g n }
    ensures rest { (a b : Image) (g : Graph) (id : Puid) (o : Object) → object_at g id ≡ Some o → Frames a g b
        → IsAtRest a id.block → ((n : ℕ) → IsBlockOf a id.block n → entry_in b n ≡ entry_in a n) → IsAtRest b id.block }
{}

/// One object may change while all others stay: its blocks are loose for the others, and an image within their frame
/// has it as it is seen there.
pub fn one_object_changes()
    ensures loose { (a : Image) (g : Graph) (id : Puid) (was : Object) (n : ℕ) → Holds a g → object_at g id ≡ Some was
        → IsTaken a n id.block → IsLoose a (without g (id ∷ [])) n }
    ensures put { (a b : Image) (g : Graph) (id : Puid) (o : Object) → Holds a g → Frames a (without g (id ∷ [])) b
        → ReadsAs (length a) id (sight b id.block) o → Holds b (with_object g id o) }
{}

/// An object may be new: its root is written into a block that no object holds, and all others stay.
pub fn objects_are_made()
    ensures reads { (a : Image) (id : Puid) (root : roots.Root) → IsBareRoot a id root
        → ReadsAs (length a) id (sight a id.block) (bare_object root) }
    ensures holds { (a b : Image) (g : Graph) (id : Puid) (o : Object) → Holds a g → Frames a g b
        → ReadsAs (length b) id (sight b id.block) o → Holds b (with_object g id o) }
    // An image that holds objects also holds any part of them.
    ensures fewer { (a : Image) (g h : Graph) → Holds a g → h.root ≡ g.root
        → ((x : Puid) (o : Object) → object_at h x ≡ Some o → object_at g x ≡ Some o) → Holds a h }
    ensures index { (root : roots.Root) (slots : ℕ) → root.kind ≡ kinds.Index → root.fill ≡ 0 → root.size ≡ 8 * slots
        → bare_object root ≡ objects.Index (new_index slots) }
    ensures normal { (root : roots.Root) → root.kind ≡ kinds.Normal → root.size ≡ 0
        → bare_object root ≡ objects.File (new_file file_kinds.Normal root.fill) }
    ensures special { (root : roots.Root) → root.kind ≡ kinds.Special → root.size ≡ 0
        → bare_object root ≡ objects.File (new_file file_kinds.Special root.fill) }
{}

/// Once the commit bit is set the object is its draft, and it still is once the draft's root is copied.
pub fn commit_sets_the_bit()
    ensures bit { (a : Image) (g : Graph) (id : Puid) (was o : Object) (e : MapEntry) (s : ℕ) → Holds a g
        → object_at g id ≡ Some was
        → entry_in a id.block ≡ Some e → IsEntry (with_commit_bit e) → IsDraft a id.block s o
        → Holds (with_entry a id.block (with_commit_bit e)) (with_object g id o) }
    ensures read_by { (a : Image) (g : Graph) (id : Puid) (was o : Object) (e : MapEntry) (s : ℕ) → Holds a g
        → object_at g id ≡ Some was → entry_in a id.block ≡ Some e → IsEntry (with_commit_bit e)
        → IsDraft a id.block s o
        → IsReadBy a (with_entry a id.block (with_commit_bit e)) id.block s }
    ensures copy { (c : Image) (g : Graph) (id : Puid) (o : Object) → Holds c g → object_at g id ≡ Some o
        → Holds (set c id.block (root_from_source c id.block)) (with_object g id o) }
{}

/// After the copy the states of the object's blocks, the shadow root's entry and the bit may change in any order.
pub fn settling_keeps()
    ensures holds { (c : Image) (g : Graph) (id : Puid) (o : Object) (s : ℕ) (b : Image) → Holds c g
        → object_at g id ≡ Some o
        → block_at c (source c id.block) ≡ block_at c id.block → Settles c g id s b → Holds b (with_object g id o) }
    ensures begin { (c : Image) (g : Graph) (id : Puid) (o : Object) (s : ℕ) → Holds c g → object_at g id ≡ Some o
        → block_at c s ≡ block_at c id.block → ((n : ℕ) → stands_for id.block (entry_in c n) ≡ true → n ≡ s)
        → Settles c g id s c }
    ensures entry { (c : Image) (g : Graph) (id : Puid) (o : Object) (s : ℕ) (b : Image) (n : ℕ) (old e : MapEntry)
        → Holds c g → object_at g id ≡ Some o
        → block_at c (source c id.block) ≡ block_at c id.block → is_fixed s ≡ false → Settles c g id s b
        → entry_in b n ≡ Some old
        → MaySettle c g id s n old e → Settles c g id s (with_entry b n e) }
    ensures write { (c : Image) (g : Graph) (id : Puid) (s : ℕ) (b content : Image) (n : ℕ) (block : List ℕ)
        → n < length content
        → Settles c g id s b → Settles c g id s (set content n block) → Settles c g id s (set b n block) }
{}

/// An image reads as at most one graph.
pub fn one_reading()
    ensures { (a : Image) (g h : Graph) → IsSoundAs a g → IsSoundAs a h → g ≡ h }
{}

/// An image that holds a graph, with objects that are cut off, reads as what is reached from its root.
pub fn rooted_part_is_read()
    ensures { (image : Image) (g : Graph) → Holds image g → IsClosedGraph g → LeavesFour (length image) (rooted_part g)
        → IsSoundAs image (rooted_part g) }
{}

/// The blocks of an object by the model are those that its tree holds, level by level, and each is at one path.
pub fn blocks_are_those_held()
    ensures levels { (image : Image) (size owner : ℕ) (content : List ℕ) (root : roots.Root) (o : Object)
        → IsTree size owner (tree_in image content) root o
        → levels_held (tree_in image content) (length (levels_of content)) ≡ held_levels o }
    ensures blocks { (image : Image) (size owner : ℕ) (content : List ℕ) (root : roots.Root) (o : Object)
        → IsTree size owner (tree_in image content) root o
        → blocks_held (tree_in image content) ≡ blocks_of o }
    ensures one_path { (image : Image) (size owner : ℕ) (content : List ℕ) (root : roots.Root) (o : Object)
        → IsTree size owner (tree_in image content) root o
        → (p q : List ℕ) (g h : Held) → (tree_in image content).below p ≡ Some g
        → (tree_in image content).below q ≡ Some h → g.block ≡ h.block → p ≡ q }
{}
