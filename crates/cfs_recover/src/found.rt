//! What a walk over the objects of a volume has found.
ghost use Rattle.cfs_recover.specs.Sized.{IsSized};

use crate::fault::RecoverFault;
use crate::slot::check_slot;
use cfs_base::{Block, Kind, NoMemory, Puid};
use leaf_changes::slot_at;
use puid_space::Directory;
use std::alloc::Global;

/// A root block that was found. The identifier that names it is in block `by`.
#[derive(Clone, Copy, Debug, PartialEq, Eq)]
pub(crate) struct Found {
    pub block: u32,
    pub by: u32,
}

/// What a walk over the objects of a volume has found.
#[derive(Debug, Drop)]
pub(crate) struct Walk {
    /// The identifiers that were found, at most one for each root block.
    ///
    /// An object is listed as an index until it is read.
    pub directory: Directory,
    /// Their root blocks, in the order in which they were found.
    pub found: Vec<Found>,
    /// Whether an object that was read holds the block, for each block.
    pub held: Vec<bool>,
    /// The block that names an identifier that has the root block, but not the word, of one that was found.
    pub clash: Option<u32>,
    ghost sized: { IsSized directory found.items held.items },
}

impl Walk {
    ghost use Rattle.std.specs.Prelude.{◌≡◌, ◌≢◌, ℕ, ◌+◌, ◌<◌, [], true, false, None, IfErr, IfOk, MatchResult, OnOk};
    ghost use Rattle.std.specs.Prelude.{replicate};
    ghost use Rattle.cfs_base.specs.Disk.{Image};
    ghost use Rattle.cfs_base.specs.declared.identifier.Puid.{Puid};
    ghost use Rattle.ufs_model.specs.declared.object.Object.{Object};
    ghost use Rattle.puid_space.specs.Kinds.{object_kind};
    ghost use Rattle.cfs_recover.specs.Found as spec;
    ghost use Rattle.cfs_recover.specs.Refusals.{NamesDamage};

    /// Makes a walk that has found nothing. Takes the memory for a volume of `blocks` blocks.
    pub fn new(alloc: Global, blocks: u32) -> Result<Walk, NoMemory>
        ensures room { IfOk result (λ walk. walk.directory.room ≡ blocks) }
        ensures directory { IfOk result (λ walk. walk.directory.named ≡ []) }
        ensures found { IfOk result (λ walk. walk.found.items ≡ []) }
        ensures held { IfOk result (λ walk. walk.held.items ≡ replicate blocks false) }
        ensures clash { IfOk result (λ walk. walk.clash ≡ None) }
    {
        let mut directory = Directory::new(alloc);
        directory.reserve(blocks)?;
        let found = Vec::with_capacity(alloc, blocks as usize)?;
        let held = vec![in alloc; false; blocks as usize]?;
        Ok(Walk {
            directory,
            found,
            held,
            clash: None,
        })
    }

    /// Returns whether an identifier is listed. It is then the only one with its root block.
    pub fn lists(&self, id: Puid) -> bool
        ensures lists { result ≡ spec.lists self.now id }
        ensures alone { result ≡ true → (other : Puid) → spec.lists self.now other ≡ true → other.block ≡ id.block
            → other ≡ id }
    {
        id.block < self.directory.room() && self.directory.kind(id).is_some()
    }

    /// Notes an identifier that block `by` names.
    ///
    /// Refused with code 6 of that block, if the identifier has no valid block.
    pub fn note(&mut self, id: Puid, by: u32) -> Result<(), RecoverFault>
        ensures told { (image : Image) (done : ℕ) → spec.IsWalk image self.old done → spec.IsNamed image id by
            → MatchResult result (λ _. spec.IsWalk image self.new done) (NamesDamage (spec.IsFaultOf image)) }
        ensures noted { OnOk result (spec.IsNotedIn self.new id) }
        ensures grows { OnOk result (spec.Grows self.old self.new) }
        ensures no_call { IfErr result (λ e. e ≢ RecoverFault.Disk) }
    {
        check_slot(self.directory.room(), id, by)?;
        if self.directory.kind(id).is_some() {
            return Ok(());
        }
        if self.directory.has_root(id.block) {
            self.clash = Some(by);
            return Ok(());
        }
        self.found.push(Found {
            block: id.block,
            by,
        })?;
        self.directory.add(id, Kind::Index);
        Ok(())
    }

    /// Notes the identifiers in a leaf of an index of this size. The leaf is in block `by`.
    pub fn note_slots(
        &mut self,
        content: &Block,
        size: u64,
        leaf: u32,
        by: u32,
    ) -> Result<(), RecoverFault>
        ensures told { (image : Image) (done : ℕ) → spec.IsWalk image self.old done
            → spec.AreNamed image content.now size leaf by
            → MatchResult result (λ _. spec.IsWalk image self.new done) (NamesDamage (spec.IsFaultOf image)) }
        ensures noted { OnOk result (spec.AreNoted self.new content.now size leaf) }
        ensures grows { OnOk result (spec.Grows self.old self.new) }
        ensures no_call { IfErr result (λ e. e ≢ RecoverFault.Disk) }
    {
        for slot in 0..64usize {
            if 512 * leaf as u64 + 8 * slot as u64 >= size {
                break;
            }
            if let Some(id) = slot_at(content, slot) {
                self.note(id, by)?;
            }
        }
        Ok(())
    }

    /// Notes that an object holds a block.
    pub fn hold(&mut self, block: u32)
        requires { block < self.old.directory.room }
        ensures told { (image : Image) (done : ℕ) → spec.IsWalk image self.old done → spec.IsKeptBlock image block
            → spec.IsWalk image self.new done }
        ensures held { spec.holds self.new block ≡ true }
        ensures grows { spec.Grows self.old self.new }
    {
        self.held[block as usize] = true;
    }

    /// Notes the kind of an object that was read.
    pub fn learn(&mut self, id: Puid, kind: Kind)
        requires { spec.lists self.old id ≡ true }
        ensures told { (image : Image) (done : ℕ) (o : Object) → spec.IsWalk image self.old done
            → spec.IsNextItem self.old.found.items done id.block → object_kind o ≡ kind
            → spec.IsWalkedObject image self.old id o
            → spec.IsWalk image self.new (done + 1) }
        ensures grows { spec.Grows self.old self.new }
    {
        let room = self.directory.room();
        prove!(id.block < room);
        self.directory.remove(id);
        self.directory.add(id, kind);
    }
}
