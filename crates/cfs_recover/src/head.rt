//! The root by which an object is read.
ghost use Rattle.std.specs.Prelude.{◌≡◌, ◌*◌, ◌<◌, ◌≤◌, length, IfOk, IfErr, MatchResult};
ghost use Rattle.cfs_base.specs.Calls.{OnlyReads};
ghost use Rattle.cfs_base.specs.Codes as codes;
ghost use Rattle.cfs_base.specs.Disk.{Image, block_at};
ghost use Rattle.block_tree.specs.Pointers.{node_pointers, pointers_of};
ghost use Rattle.block_tree.specs.Root.{IsRootBlock};
ghost use Rattle.vol_image.specs.Sight.{shadows, source};
ghost use Rattle.cfs_recover.specs.Checks.{HasNoRoot, HasNoneLike, HasRootSlots, HeadFault, IsHead, IsLike};
ghost use Rattle.cfs_recover.specs.Entries.{AreStanding, damage};
ghost use Rattle.cfs_recover.specs.Refusals.{IsCaused, NamesDamage};
ghost use Rattle.cfs_recover.specs.Stored.{AreMapsOf, Stores};

use crate::entry::{entry_at, is_committed};
use crate::fault::RecoverFault;
use crate::standing::{Shadow, Standing};
use block_tree::Root;
use cfs_base::{Block, BlockNo, Damage, Disk, Kind, code};
use cyl_map::Map;

/// The block from which an object is read, and its root.
#[derive(Clone, Copy, Debug, PartialEq, Eq)]
pub struct Head {
    pub from: u32,
    pub root: Root,
}

/// Returns the root that this block spells. Refused with code 3.
pub fn check_root(block: u32, content: &Block) -> Result<Root, Damage>
    ensures { MatchResult result (IsRootBlock content.now)
        (λ d. (d ≡ damage block codes.no_root) × HasNoRoot content.now) }
{
    match Root::decode(content) {
        Ok(root) => Ok(root),
        Err(_) => Err(Damage {
            block,
            code: code::NO_ROOT,
        }),
    }
}

/// Returns the root that this block spells, of the same kind and word as the object's own. Refused with code 3.
pub fn check_shadow(own: &Root, block: u32, content: &Block) -> Result<Root, Damage>
    ensures { MatchResult result (IsLike own.now content.now)
        (λ d. (d ≡ damage block codes.no_root) × HasNoneLike own.now content.now) }
{
    let root = check_root(block, content)?;
    if root.kind != own.kind || root.word != own.word {
        return Err(Damage {
            block,
            code: code::NO_ROOT,
        });
    }
    Ok(root)
}

/// Checks that the root index, which is read by this root, is an index of 64 slots. Refused with code 6 of block 2.
pub fn check_root_index(root: &Root) -> Result<(), Damage>
    ensures { MatchResult result (λ _. HasRootSlots root.now)
        (λ d. (d ≡ damage 2 codes.names_nothing) × ¬ HasRootSlots root.now) }
{
    if root.kind != Kind::Index || root.size != 512 {
        return Err(Damage {
            block: 2,
            code: code::NAMES_NOTHING,
        });
    }
    Ok(())
}

/// Reads a block.
pub(crate) fn read_block<D: Disk>(disk: &mut D, at: u32) -> Result<Block, RecoverFault>
    requires { at < D.blocks disk.old }
    ensures told { (image : Image) → Stores D.Disk disk.old image → IfOk result (λ block. block ≡ block_at image at) }
    ensures cause { IfErr result (IsCaused D.Disk disk.old disk.new) }
    ensures damage { IfErr result (NamesDamage (λ d. ⊥)) }
    ensures reads { OnlyReads D.Disk 1 disk.old disk.new }
{
    let mut block = Block::zero();
    match disk.read(BlockNo(at), &mut block) {
        Ok(()) => Ok(block),
        Err(_) => Err(RecoverFault::Disk),
    }
}

/// Returns the block by which an object is read that has at most one shadow root.
pub(crate) fn source_of(maps: &[Map], standing: &Standing, block: u32) -> u32
    requires below { block < length standing.now }
    requires maps { length standing.now ≡ 64 * length maps.now }
    ensures { (image : Image) → AreMapsOf image maps.now → AreStanding image (length image) standing.now
        → length (shadows image block) ≤ 1 → result ≡ source image block }
{
    if !is_committed(entry_at(maps, block)) {
        return block;
    }
    match standing.of(block) {
        Shadow::None => block,
        Shadow::Several => block,
        Shadow::One(shadow) => shadow,
    }
}

/// Reads the root by which an object is read.
///
/// It is its own, or that of the one shadow root that stands for it if its commit bit is set. Makes at most one read.
/// Refused with code 7 of its block, and with code 3 of the shadow root.
pub fn read_head<D: Disk>(
    disk: &mut D,
    maps: &[Map],
    standing: &Standing,
    block: u32,
    own: &Root,
) -> Result<Head, RecoverFault>
    requires on_disk { block < D.blocks disk.old }
    requires maps { D.blocks disk.old ≡ 64 * length maps.now }
    requires standing { D.blocks disk.old ≡ length standing.now }
    ensures told { (image : Image) → Stores D.Disk disk.old image → AreMapsOf image maps.now
        → AreStanding image (length image) standing.now → IsRootBlock (block_at image block) own.now
        → MatchResult result (IsHead image block own.now) (NamesDamage (HeadFault image block own.now)) }
    ensures cause { IfErr result (IsCaused D.Disk disk.old disk.new) }
    ensures reads { OnlyReads D.Disk 1 disk.old disk.new }
{
    let itself = Head {
        from: block,
        root: *own,
    };
    if !is_committed(entry_at(maps, block)) {
        return Ok(itself);
    }
    match standing.of(block) {
        Shadow::None => Ok(itself),
        Shadow::Several => Err(RecoverFault::Damaged(Damage {
            block,
            code: code::TWO_SHADOWS,
        })),
        Shadow::One(shadow) => {
            let content = read_block(disk, shadow)?;
            let root = check_shadow(own, shadow, &content)?;
            Ok(Head { from: shadow, root })
        }
    }
}
