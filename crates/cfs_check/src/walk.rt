//! The walk over all rooted objects of an image, level by level.
ghost use Rattle.std.specs.Prelude.{◌≡◌, ◌<◌, ◌≤◌, [], ℕ, Bool, List, length, OnOk, IfOk};
ghost use Rattle.cfs_check.specs.Findings.{HoldersAreOn};
ghost use Rattle.cfs_check.specs.Items.{Item, Knows};
ghost use Rattle.cfs_check.specs.Opened.{IsStandingOf, IsWalkTo, OpensBatch};
ghost use Rattle.cfs_check.specs.Sized.{AreSized};

use crate::image::Image;
use crate::level::look_at_all;
use crate::note::note_all;
use crate::object::open_root;
use crate::survey::Survey;
use crate::twig::Twig;
use block_tree::{LEAVES, NODES};
use cfs_base::NoMemory;
use cfs_recover::Standing;
use std::alloc::Global;
use std::thread::Threads;

/// How many blocks of trees are kept in memory at most.
const MOST_TWIGS: usize = 65_536;

/// One more object is opened if fewer blocks than this are listed: then there is room for the blocks of its tree.
const FEW_TWIGS: usize = MOST_TWIGS - NODES * (LEAVES + 1);

/// Opens objects of the list from a place on, as long as few blocks are listed. Returns the place after the last.
fn open_batch(
    image: &Image,
    standing: &Standing,
    survey: &mut Survey,
    twigs: &mut Vec<Twig>,
    done: u32,
) -> Result<u32, NoMemory>
    requires table { IsStandingOf image.now standing.now }
    requires room { survey.old.roots.room ≡ length image.now }
    requires done { done < length survey.old.roots.blocks }
    requires none { twigs.old.items ≡ [] }
    ensures opens { (before : List Bool) (items : List Item) → Knows image.now before items survey.old
        → IfOk result (λ next. OpensBatch image.now before items survey.old.roots.blocks done next survey.new
        twigs.new.items) }
    ensures holders { OnOk result (HoldersAreOn image.now twigs.new.items) }
    ensures next { IfOk result (λ next. (done < next) × (next ≤ length survey.old.roots.blocks)) }
    ensures roots { survey.new.roots ≡ survey.old.roots }
{
    let count = survey.roots.count();
    for next in done..count {
        if twigs.len() >= FEW_TWIGS {
            return Ok(next);
        }
        let block = survey.roots.at(next);
        open_root(image, standing, survey, twigs, block)?;
    }
    Ok(count)
}

/// Looks at objects of the list from a place on, with the blocks of their trees, and notes what they name.
///
/// It takes all objects that were found, or some of them if they have many blocks. Returns the place after the last.
fn take_level<R: Threads + Sync>(
    rt: &R,
    alloc: Global,
    image: &Image,
    standing: &Standing,
    survey: &mut Survey,
    twigs: &mut Vec<Twig>,
    done: u32,
) -> Result<u32, NoMemory>
    requires whole { AreSized image.now }
    requires table { IsStandingOf image.now standing.now }
    requires room { survey.old.roots.room ≡ length image.now }
    requires done { done < length survey.old.roots.blocks }
    ensures walk { (before : List Bool) → IsWalkTo image.now before done survey.old
        → IfOk result (λ next. IsWalkTo image.now before next survey.new) }
    ensures next { IfOk result (λ next. (done < next) × (next ≤ length survey.old.roots.blocks)) }
    ensures room { survey.new.roots.room ≡ survey.old.roots.room }
{
    twigs.clear();
    let next = open_batch(image, standing, survey, twigs, done)?;
    let found = look_at_all(rt, alloc, image, &survey.roots, twigs)?;
    note_all(image, survey, twigs, &found)?;
    Ok(next)
}

/// Looks at all rooted objects. Only the root index was found before.
pub(crate) fn walk_all<R: Threads + Sync>(
    rt: &R,
    alloc: Global,
    image: &Image,
    standing: &Standing,
    survey: &mut Survey,
) -> Result<(), NoMemory>
    requires whole { AreSized image.now }
    requires table { IsStandingOf image.now standing.now }
    requires room { survey.old.roots.room ≡ length image.now }
    ensures walk { (before : List Bool) → IsWalkTo image.now before 0 survey.old
        → OnOk result (IsWalkTo image.now before (length survey.new.roots.blocks) survey.new) }
    ensures room { survey.new.roots.room ≡ survey.old.roots.room }
{
    let mut twigs = Vec::with_capacity(alloc, MOST_TWIGS)?;
    let mut done = 0;
    while done < survey.roots.count() {
        done = take_level(rt, alloc, image, standing, survey, &mut twigs, done)?;
    }
    Ok(())
}
