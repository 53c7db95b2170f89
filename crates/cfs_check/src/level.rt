//! Blocks of objects' trees, looked at side by side.
ghost use Rattle.std.specs.Prelude.{◌≡◌, IfOk, length};
ghost use Rattle.std.specs.List.{AllZip};
ghost use Rattle.cfs_check.specs.Findings.{IsLookAt};

use crate::findings::{Findings, look_at};
use crate::image::Image;
use crate::roots::Roots;
use crate::twig::Twig;
use cfs_base::Kind;
use rayon::prelude::*;
use std::alloc::{AllocError, Global};
use std::thread::Threads;

/// How many blocks of indices are worth more than one thread.
const MANY: usize = 4_096;

/// Returns how many blocks make the share of a thread.
///
/// It is all of these if few are an index's, since other blocks have no slots.
fn share_of(twigs: &[Twig]) -> usize {
    let of_indices = twigs.iter().filter(|twig| twig.extent.kind == Kind::Index);
    if of_indices.count() < MANY {
        twigs.len()
    } else {
        MANY / 4
    }
}

/// Returns what is found of each of these blocks, in their order.
///
/// If many are of indices, it uses as many threads as there are processors.
pub(crate) fn look_at_all<R: Threads + Sync>(
    rt: &R,
    alloc: Global,
    image: &Image,
    roots: &Roots,
    twigs: &[Twig],
) -> Result<Vec<Findings>, AllocError>
    requires { roots.now.room ≡ length image.now }
    ensures { IfOk result (λ found. AllZip (λ t f. IsLookAt image.now roots.now.blocks t f) twigs.now found.items) }
{
    twigs
        .par_iter()
        .with_min_len(share_of(twigs))
        .map(
            |twig: &Twig| -> Findings
                requires { roots.now.room ≡ length image.now }
                ensures { IsLookAt image.entry.now roots.entry.now.blocks twig.now result }
            { look_at(image, roots, twig) },
        )
        .collect(rt, alloc)
}
