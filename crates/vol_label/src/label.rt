//! The label, and its block.
ghost use Rattle.std.specs.Prelude.{◌≡◌, ◌↔◌, ◌<◌, ◌≤◌, ℕ, Ok, Err, IfOk, IsTrue};
ghost use Rattle.vol_label.specs.Label as spec;

use cfs_base::{Block, Puid};
use thiserror::Error;

/// What the label of a volume says.
#[derive(Clone, Copy, Debug, PartialEq, Eq)]
pub struct Label {
    /// The number of cylinders, of 64 blocks each.
    pub cylinders: u32,
    /// The root index, whose root block is block 2.
    pub root: Puid,
    /// 1, or 2 if objects may be wide.
    pub version: u32,
}

/// Why a block is no label that is read here.
#[derive(Clone, Copy, Debug, PartialEq, Eq, Error)]
pub enum LabelFault {
    /// The block is no label.
    #[error("not a volume")]
    NotVolume,
    /// A label of a version other than 1 and 2.
    #[error("a volume of version {found}")]
    Version { found: u32 },
}

/// The bytes with which each volume begins.
const MAGIC: [u8; 4] = *b"CFS1";
/// The version of a volume that is made now.
pub const NEWEST: u32 = 2;
/// The most cylinders that a volume may have. It has at least one.
const MOST_CYLINDERS: u32 = 65_536;
/// The root block of the root index.
const ROOT_BLOCK: u32 = 2;

impl Label {
    /// Returns the label that this block spells.
    pub fn decode(block: &Block) -> Result<Label, LabelFault>
        // What is read is a label, and the block spells it.
        ensures read { IfOk result (λ label. spec.IsLabel label × (block.now ≡ spec.spelling label)) }
        // A block that spells a label is read as that label.
        ensures only { (label : Label) → spec.IsLabel label → block.now ≡ spec.spelling label → result ≡ Ok label }
        ensures version { (found : ℕ) →
            (result ≡ Err (LabelFault.Version found)) ↔ spec.IsOtherVersion block.now found }
        ensures not_volume { (result ≡ Err LabelFault.NotVolume) ↔ spec.IsNoVolume block.now }
    {
        if !block.bytes().starts_with(&MAGIC) {
            return Err(LabelFault::NotVolume);
        }
        let found = block.u32_at(4);
        if !is_version(found) {
            return Err(LabelFault::Version { found });
        }
        let label = Label {
            cylinders: block.u32_at(8),
            root: Puid {
                block: block.u32_at(12),
                word: block.u32_at(16),
            },
            version: found,
        };
        if !label.is_one() {
            return Err(LabelFault::NotVolume);
        }
        if label.encode() != *block {
            return Err(LabelFault::NotVolume);
        }
        Ok(label)
    }

    /// Returns the one spelling of the label.
    pub fn encode(&self) -> Block
        requires { spec.IsLabel self.now }
        ensures { result ≡ spec.spelling self.now }
    {
        let mut block = Block::zero();
        block.put_u32(0, u32::from_be_bytes(MAGIC));
        block.put_u32(4, self.version);
        block.put_u32(8, self.cylinders);
        block.put_u32(12, self.root.block);
        block.put_u32(16, self.root.word);
        block
    }

    /// Returns whether a volume may have this label.
    fn is_one(self) -> bool
        ensures { IsTrue result ↔ spec.IsLabel self }
    {
        is_version(self.version)
            && 1 <= self.cylinders
            && self.cylinders <= MOST_CYLINDERS
            && self.root.block == ROOT_BLOCK
    }
}

/// Returns whether a volume of this version can be read.
fn is_version(version: u32) -> bool
    ensures { result ≡ spec.is_version version }
{
    version == 1 || version == NEWEST
}
