//! The parts of a root block before its pointers.
ghost use Rattle.std.specs.Prelude.{◌≡◌, ◌≢◌, ◌↔◌, ℕ, IsTrue, ◌+◌, ◌-◌, ◌/◌, ◌<◌, ◌≤◌, ◌^◌, [], ◌∷◌, ◌++◌, length};
ghost use Rattle.std.specs.Prelude.{take, replicate, slice_index, IfSome, IfNone, MatchResult};
ghost use Rattle.std.specs.Int.{to_be_bytes, w32, w64};
ghost use Rattle.cfs_base.specs.declared.kind.Kind.{Kind};
ghost use Rattle.block_tree.specs.Prefix.{IsFirstMisspelt};
ghost use Rattle.block_tree.specs.Root.{kind_code as code_of, IsFill, IsSize};

use crate::root::{BadRoot, SIZE_LIMIT};
use cfs_base::{Block, Kind};

fn kind_code(kind: Kind) -> u8
    ensures { result ≡ code_of kind }
{
    match kind {
        Kind::Normal => 1,
        Kind::Special => 2,
        Kind::Index => 3,
    }
}

/// Returns the kind with this code, if there is one.
pub fn kind_of(code: u8) -> Option<Kind>
    ensures known { IfSome result (λ kind. code_of kind ≡ code) }
    ensures unknown { IfNone result ((kind : Kind) → code_of kind ≢ code) }
{
    match code {
        1 => Some(Kind::Normal),
        2 => Some(Kind::Special),
        3 => Some(Kind::Index),
        _ => None,
    }
}

/// Returns the first place with a byte that isn't 0.
pub fn first_nonzero(bytes: &[u8]) -> Option<usize>
    ensures found { IfSome result (λ i. (i < length bytes.now) × (take i bytes.now ≡ replicate i 0)
        × (slice_index bytes.now i ≢ 0)) }
    ensures none { IfNone result (bytes.now ≡ replicate (length bytes.now) 0) }
{
    for (i, byte) in bytes.iter().enumerate() {
        if *byte != 0 {
            return Some(i);
        }
    }
    None
}

/// Returns whether an object of this kind may have this fill byte.
pub fn is_fill(kind: Kind, fill: u8) -> bool
    ensures { IsTrue result ↔ IsFill kind fill }
{
    match kind {
        Kind::Normal | Kind::Special => true,
        Kind::Index => fill == 0,
    }
}

fn is_size(kind: Kind, size: u64) -> bool
    ensures { IsTrue result ↔ IsSize kind size }
{
    let in_slots = match kind {
        Kind::Normal | Kind::Special => true,
        Kind::Index => size >= 8 && size % 8 == 0,
    };
    size <= SIZE_LIMIT && in_slots
}

/// Returns how many bytes of a size above the limit follow the first byte that shows that it is above.
fn bytes_after(size: u64, limit: u64) -> u16
    requires { limit < size }
    ensures within { result ≤ 7 }
    ensures above { limit / 256 ^ result < size / 256 ^ result }
    ensures not_yet { size / 256 ^ (result + 1) ≤ limit / 256 ^ (result + 1) }
{
    let mut front = size;
    let mut most = limit;
    let mut after = 0;
    while front / 256 > most / 256 {
        front /= 256;
        most /= 256;
        after += 1;
    }
    after
}

/// Returns the size, or the place of the first byte with which no size of this kind begins.
pub fn size_of(kind: Kind, size: u64) -> Result<u64, u16>
    ensures { MatchResult result (λ given. (given ≡ size) × IsSize kind given)
        (λ byte. (byte < 8) × IsFirstMisspelt (IsSize kind) (to_be_bytes w64) (to_be_bytes w64 size) byte) }
{
    if size > SIZE_LIMIT {
        return Err(7 - bytes_after(size, SIZE_LIMIT));
    }
    if !is_size(kind, size) {
        return Err(7);
    }
    Ok(size)
}

/// Returns the block with these parts, and no pointers.
pub fn head_block(kind: Kind, fill: u8, word: u32, size: u64) -> Block
    ensures spelled { result ≡ (code_of kind ∷ fill ∷ 0 ∷ 0 ∷ []) ++ to_be_bytes w32 word ++ to_be_bytes w64 size
        ++ replicate 496 0 }
    ensures widths { (fill < 2 ^ 8) × (word < 2 ^ 32) }
{
    let mut bytes = [0; 512];
    bytes[0] = kind_code(kind);
    bytes[1] = fill;
    let mut block = Block::of(bytes);
    block.put_u32(4, word);
    block.put_u64(8, size);
    block
}
