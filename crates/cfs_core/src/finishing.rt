//! What was left of a commit, carried out before a change.
ghost use Rattle.std.specs.Prelude.{◌≡◌, ◌*◌, true, is_some, IfErr, IfOk, length};
ghost use Rattle.cfs_base.specs.declared.kind.FileKind.TheVariants as kinds;
ghost use Rattle.cfs_base.specs.declared.refusal.Refused.TheVariants as refusals;
ghost use Rattle.cfs_core.specs.Finished as spec;

use cfs_base::{Disk, FileKind, Refused, Trouble};
use cyl_alloc::Space;
use finisher::finish_all;
use special_files::Room;
use std::alloc::Global;

/// Takes all memory that a change needs, before anything is carried out.
pub(crate) fn take_room(alloc: Global) -> Result<Room, Refused>
    ensures { IfErr result (λ e. e ≡ refusals.Memory) }
{
    Ok(Room::new(alloc)?)
}

/// Takes the memory for a change of a file of this kind.
///
/// A normal file is changed in place, and needs none.
pub(crate) fn room_for(alloc: Global, kind: FileKind) -> Result<Option<Room>, Refused>
    ensures room { IfOk result (λ room. kind ≡ kinds.Special → is_some room ≡ true) }
    ensures wants { IfErr result (λ e. e ≡ refusals.Memory) }
{
    match kind {
        FileKind::Normal => Ok(None),
        FileKind::Special => Ok(Some(take_room(alloc)?)),
    }
}

/// Carries out what was left of a commit, and returns whether anything was.
///
/// A change that comes after it comes after its tries.
pub(crate) fn finish<D: Disk>(disk: &mut D, space: &mut Space) -> Result<bool, Trouble>
    requires { D.blocks disk.old ≡ 64 * length space.old.free }
    ensures { spec.FinishesLeft D.Disk disk.old disk.new space.old space.new result }
{
    let tried = space.unfinished() > 0;
    finish_all(disk, space)?;
    Ok(tried)
}

/// Returns the refusal of a change that came after tries, or after none.
fn refused_since(tried: bool, refused: Refused) -> Refused
    ensures { result ≡ spec.refused_since tried refused }
{
    if tried { refused.after_try() } else { refused }
}

/// Returns the end of a change that came after tries, or after none.
pub(crate) fn since<T>(tried: bool, ended: Result<T, Refused>) -> Result<T, Refused>
    ensures { result ≡ spec.since tried ended }
{
    ended.map_err(|refused| refused_since(tried, refused))
}
