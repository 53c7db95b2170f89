//! A source read whole.
ghost use Rattle.std.specs.Prelude.{◌≡◌, ◌≢◌, ◌+◌, ◌<◌, ◌≤◌, ◌++◌, ℕ, List, length, take, vec_len, Some};
ghost use Rattle.std.specs.Prelude.{IfOk, OnErr, IsErr, IsErrOf};
ghost use Rattle.cfs_base.specs.Outside.{Rose};
ghost use Rattle.cfs_streams.specs.Reading.{Gave, GaveUpTo, IsAtEnd};

use crate::ReadFault;
use cfs_base::Source;
use std::alloc::Global;

/// The most bytes that one read asks for.
const BUFFER: usize = 4096;

/// Reads the source to its end, and takes at most one byte past the limit of it.
pub fn read_whole<S: Source>(
    alloc: Global,
    source: &mut S,
    limit: usize,
) -> Result<Vec<u8>, ReadFault>
    // A source that tells its bytes gives all of them, or there are too many.
    ensures whole { (left : List ℕ) → (S.supply source.old).left ≡ Some left
        → IfOk result (λ v. v.items ≡ left) }
    ensures fits { IfOk result (λ v. vec_len v ≤ limit) }
    ensures long { IsErrOf result ReadFault.Long
        → (left : List ℕ) → (S.supply source.old).left ≡ Some left → limit < length left }
    ensures not_long { (left : List ℕ) → (S.supply source.old).left ≡ Some left
        → limit < length left → IsErr result }

    ensures failed { IsErrOf result ReadFault.Failed
        → Rose (S.supply source.old).faults (S.supply source.new).faults }
    ensures kept { (S.supply source.old).faults ≤ (S.supply source.new).faults }
    ensures taken { GaveUpTo (limit + 1) (S.supply source.old) (S.supply source.new) }
{
    let mut bytes = Vec::new(alloc);
    let mut buffer = [0; BUFFER];
    while bytes.len() <= limit {
        let room = (limit - bytes.len()).min(BUFFER - 1) + 1;
        let count = read_more(source, &mut bytes, &mut buffer[..room])?;
        if count == 0 {
            return Ok(bytes);
        }
    }
    Err(ReadFault::Long)
}

/// Reads once into the buffer, and appends what came to the bytes.
fn read_more<S: Source>(
    source: &mut S,
    bytes: &mut Vec<u8>,
    buffer: &mut [u8],
) -> Result<usize, ReadFault>
    requires { 0 < length buffer.old }
    ensures gave { IfOk result (λ n.
        Gave (S.supply source.old) (S.supply source.new) (take n buffer.new)) }
    ensures more { IfOk result (λ n. bytes.new.items ≡ bytes.old.items ++ take n buffer.new) }
    ensures within { IfOk result (λ n. n ≤ length buffer.new) }
    ensures ended { IfOk result (λ n. n ≡ 0 → IsAtEnd (S.supply source.old)) }

    ensures not_long { result ≢ Err ReadFault.Long }
    ensures failed { IsErrOf result ReadFault.Failed
        → Rose (S.supply source.old).faults (S.supply source.new).faults }
    ensures taken { OnErr result
        (GaveUpTo (length buffer.old) (S.supply source.old) (S.supply source.new)) }
{
    let count = source.read(buffer)?;
    bytes.extend_from_slice(&buffer[..count])?;
    Ok(count)
}
