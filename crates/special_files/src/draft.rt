//! The draft of an object.
ghost use Rattle.std.specs.Prelude.{◌≡◌, ◌+◌, ◌<◌, ℕ, true, false, length, is_some};
ghost use Rattle.std.specs.List.{sum_by};
ghost use Rattle.block_tree.specs.Pointers.{leaf_limit, node_pointers};
ghost use Rattle.cfs_base.specs.declared.identifier.Puid.{Puid};
ghost use Rattle.special_files.specs.Drafting.{IsOpen, shadow_count, shadow_need, is_fresh_leaf, is_fresh_node};
ghost use Rattle.special_files.specs.Refusal.{refusal_after};
ghost use Rattle.ufs_model.specs.declared.object.Draft as drafts;
ghost use Rattle.vol_owners.specs.Account.{Drafts};

use crate::blocks::Blocks;
use crate::flags::Flags;
use block_tree::Root;
use cfs_base::{BlockNo, Refused};
use std::marker::Model;

/// A changed object beside the object as it is.
///
/// It has a shadow root, and its own blocks for those leaves and nodes that were written since it began. All others
/// are the object's own.
#[derive(Debug, Drop)]
pub struct ObjectDraft {
    pub(crate) at: BlockNo,
    /// The shadow root. A draft that is its own commit has none until then.
    pub(crate) shadow: Option<BlockNo>,
    /// The root of the object, which stays as it is.
    pub(crate) own: Root,
    /// The root that the object is to get.
    pub(crate) root: Root,
    /// Which leaves and which nodes are the draft's own.
    pub(crate) leaves: Flags,
    pub(crate) nodes: Flags,
    /// The root of an object that is made with the commit.
    pub(crate) created: Option<BlockNo>,
    /// Room for what a commit takes and drops. Both lists are empty between two calls.
    pub(crate) taken: Blocks,
    pub(crate) dropped: Blocks,
}

impl Model for ObjectDraft {
    ghost use Rattle.std.specs.Prelude.{◌≡◌, ◌≢◌, ◌≤◌, length};
    ghost use Rattle.block_tree.specs.Pointers.{leaf_limit, node_pointers, size_limit};
    ghost use Rattle.special_files.specs.Drafting.{Drafting, number_if};

    ghost Value = { Drafting };

    ghost view = { λ a. record {
      at = a.at.0;
      shadow = number_if a.shadow;
      own = a.own;
      root = a.root;
      leaves = a.leaves;
      nodes = a.nodes;
      created = number_if a.created;
    } };

    ghost invariant = { λ a. (a.at.0 ≢ 0) × (length a.leaves ≡ leaf_limit) × (length a.nodes ≡ node_pointers.count)
        × (a.root.size ≤ size_limit) };
}

impl ObjectDraft {
    /// Returns the object's size in bytes, as the draft has it.
    pub fn size(&self) -> u64
        ensures { result ≡ self.now.root.size }
    {
        self.root.size
    }

    /// Returns the root block of the object.
    pub fn at(&self) -> BlockNo
        ensures { result.0 ≡ self.now.at }
    {
        self.at
    }

    /// Returns the root that the object is to get.
    pub fn root(&self) -> &Root
        ensures { result.now ≡ self.now.root }
    {
        &self.root
    }

    /// Returns how many blocks are the draft's own: fresh leaves and nodes, and the shadow root once it is taken.
    pub fn fresh_count(&self) -> u32
        ensures { (ds : Drafts) (id : Puid) (d : drafts.Draft) → IsOpen ds id self.now d
            → result ≡ sum_by length d.fresh + shadow_count self.now }
    {
        self.leaves.count() + self.nodes.count() + self.shadow_count()
    }

    /// Returns whether a leaf is the draft's own.
    pub(crate) fn has_fresh_leaf(&self, leaf: u32) -> bool
        requires { leaf < leaf_limit }
        ensures { result ≡ is_fresh_leaf self.now leaf }
    {
        self.leaves.has(leaf)
    }

    /// Returns whether a node is the draft's own.
    pub(crate) fn has_fresh_node(&self, node: u32) -> bool
        requires { node < node_pointers.count }
        ensures { result ≡ is_fresh_node self.now node }
    {
        self.nodes.has(node)
    }

    /// Returns whether any node is the draft's own. The node of each leaf that it wrote is.
    pub fn has_fresh_nodes(&self) -> bool
        ensures some { result ≡ true → (n : ℕ) × (is_fresh_node self.now n ≡ true) }
        ensures none { result ≡ false → (n : ℕ) → is_fresh_node self.now n ≡ false }
    {
        self.nodes.count() > 0
    }

    fn shadow_count(&self) -> u32
        ensures { result ≡ shadow_count self.now }
    {
        self.shadow.is_some() as u32
    }

    /// Returns how many more blocks a commit takes: one for a shadow root, if there is none yet.
    pub(crate) fn shadow_need(&self) -> u32
        ensures { result ≡ shadow_need self.now }
    {
        self.shadow.is_none() as u32
    }
}

/// Returns the same refusal, as of a call that may have tried a write before.
pub(crate) fn after(tried: bool, error: Refused) -> Refused
    ensures { result ≡ refusal_after tried error }
{
    if tried { error.after_try() } else { error }
}
