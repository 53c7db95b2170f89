//! How many blocks a write takes.
ghost use Rattle.std.specs.Prelude.{◌≡◌, ◌+◌, ◌<◌, ◌≤◌, ◌-◌};
ghost use Rattle.block_tree.specs.Pointers.{leaf_limit, node_pointers};
ghost use Rattle.normal_files.specs.Parts as spec;
ghost use Rattle.block_tree.specs.Along.{way_leaves};

use crate::part::Part;
use block_tree::Root;

impl Part {
    /// Returns how many of the leaves are not held.
    pub fn lacking(&self) -> u32
        requires { self.now.leaves.from ≤ self.now.leaves.to }
        ensures count { result ≡ spec.lacking_to (way_leaves self.now.way) self.now.leaves.from self.now.leaves.to }
        ensures most { result ≤ self.now.leaves.to - self.now.leaves.from }
    {
        let mut count = 0;
        for leaf in self.leaves.from..self.leaves.to {
            if self.block(leaf) == 0 {
                count += 1;
            }
        }
        count
    }

    /// Returns how many blocks they take: one for each leaf that is not held, and one for the node if it isn't.
    pub fn need(&self, root: &Root) -> u32
        requires number { self.now.number < node_pointers.count }
        requires some { self.now.leaves.from ≤ self.now.leaves.to }
        requires to { self.now.leaves.to ≤ leaf_limit }
        ensures count { result ≡ spec.part_need root.now self.now }
        ensures most { result ≤ self.now.leaves.to - self.now.leaves.from + 1 }
    {
        let lacking = self.lacking();
        if self.leaves.from < self.leaves.to && root.nodes[self.number as usize] == 0 {
            return lacking + 1;
        }
        lacking
    }
}
