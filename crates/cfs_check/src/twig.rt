//! The blocks of an object's tree, as its pointers lead to them.
ghost use Rattle.std.specs.Prelude.{◌≡◌, ◌+◌, ◌*◌, ◌<◌, ◌≤◌, ◌++◌, length, OnOk};
ghost use Rattle.block_tree.specs.Pointers.{leaf_limit, levels_below, node_levels, node_pointers, pointers_of, width};
ghost use Rattle.block_tree.specs.Root.{IsRootBlock};
ghost use Rattle.cfs_base.specs.Disk.{block_at};
ghost use Rattle.cfs_check.specs.Twigs as spec;

use crate::image::Image;
use block_tree::{NODE_LEVELS, Node, Root};
use cfs_base::{Kind, NoMemory};
use cfs_recover::{Branch, Spot, Twig as Pointed, spot_of};

/// What a root says of its object's bytes.
#[derive(Clone, Copy, Debug, PartialEq, Eq)]
pub(crate) struct Extent {
    pub kind: Kind,
    pub fill: u8,
    pub size: u64,
}

/// An object whose blocks are listed: its root block, and what its root says.
#[derive(Clone, Copy, Debug, PartialEq, Eq)]
pub(crate) struct Stem {
    pub owner: u32,
    pub extent: Extent,
}

/// A block to which a pointer of an object leads.
///
/// It has the owner and place that the block should have, and what the object's root says.
#[derive(Clone, Copy, Debug, PartialEq, Eq)]
pub(crate) struct Twig {
    pub spot: Spot,
    pub extent: Extent,
}

/// Lists the block to which a pointer leads, and all below it.
#[cycle(listing)]
fn list_twig(image: &Image, stem: Stem, at: Pointed, twigs: &mut Vec<Twig>) -> Result<(), NoMemory>
    requires some { 0 < at.block }
    requires fits { (at.number + 1) * width (levels_below at.height) ≤ leaf_limit }
    ensures { OnOk result (twigs.new.items ≡ twigs.old.items
        ++ spec.one_row image.now stem (levels_below at.height) at.holder at.number at.block) }
{
    twigs.push(Twig {
        spot: spot_of(stem.owner, at),
        extent: stem.extent,
    })?;
    if at.height == 0 {
        return Ok(());
    }
    if at.block >= image.blocks() {
        return Ok(());
    }
    let node = Node::decode(image.block(at.block));
    let below = Branch {
        block: at.block,
        number: at.number,
        height: at.height - 1,
    };
    list_below(image, stem, below, &node.leaves, twigs)?;
    Ok(())
}

/// Lists all blocks to which pointers lead, and all below them.
#[cycle(listing)]
fn list_below(
    image: &Image,
    stem: Stem,
    at: Branch,
    pointers: &[u32],
    twigs: &mut Vec<Twig>,
) -> Result<(), NoMemory>
    requires few { (at.number + 1) * length pointers.now ≤ leaf_limit }
    requires fits { (at.number + 1) * (length pointers.now * width (levels_below at.height)) ≤ leaf_limit }
    ensures { OnOk result (twigs.new.items ≡ twigs.old.items ++ spec.rows image.now stem (levels_below at.height)
        at.block (at.number * length pointers.now) pointers.now) }
{
    for place in 0..pointers.len() {
        let block = pointers[place];
        if block == 0 {
            continue;
        }
        let twig = Pointed {
            holder: at.block,
            block,
            number: at.number * pointers.len() as u32 + place as u32,
            height: at.height,
        };
        list_twig(image, stem, twig, twigs)?;
    }
    Ok(())
}

/// Lists all blocks below the root, in block `from`, by which the object with root block `owner` is read.
pub(crate) fn list_tree(
    image: &Image,
    owner: u32,
    from: u32,
    root: &Root,
    twigs: &mut Vec<Twig>,
) -> Result<(), NoMemory>
    ensures { IsRootBlock (block_at image.now from) root.now → OnOk result (twigs.new.items ≡ twigs.old.items
        ++ spec.rows image.now (record { owner = owner; extent = spec.extent_of root.now }) (levels_below node_levels)
        from 0 (pointers_of node_pointers (block_at image.now from))) }
{
    let extent = Extent {
        kind: root.kind,
        fill: root.fill,
        size: root.size,
    };
    let top = Branch {
        block: from,
        number: 0,
        height: NODE_LEVELS,
    };
    list_below(image, Stem { owner, extent }, top, &root.nodes, twigs)?;
    Ok(())
}
