//! A request's visit to what it names.
ghost use Rattle.std.specs.Prelude.{◌≡◌, ◌≢◌, ◌/◌, ◌<◌, ◌≤◌, IfErr, IfOk, None, Ok, Some};
ghost use Rattle.block_tree.specs.Pointers.{size_limit};
ghost use Rattle.cfs_base.specs.declared.refusal.Refused.TheVariants as refusals;
ghost use Rattle.cfs_core.specs.Calls.{Tries};
ghost use Rattle.cfs_core.specs.Looks.{IsCalm, WasRead};
ghost use Rattle.cfs_core.specs.Makes.{made_kind};
ghost use Rattle.cfs_core.specs.Visits as spec;
ghost use Rattle.cfs_core.specs.Ways.{GoesBy, unfit_of};
ghost use Rattle.ufs_model.specs.declared.asked.Request.{Request};
ghost use Rattle.ufs_model.specs.declared.asked.Wanted.TheVariants.{AFile};
ghost use Rattle.ufs_model.specs.declared.object.Object.{Object};

use crate::kernel::Core;
use crate::way::Way;
use block_tree::{Root, read_root};
use cfs_base::{BlockNo, Disk, FileKind, Kind, Puid, Refused, Session, Tuid};
use ufs_model::{Reply, Wanted};

/// What a request goes to, if it isn't refused on the way.
#[derive(Clone, Copy, Debug, PartialEq, Eq)]
pub enum Reached {
    /// The draft of this grant.
    Draft(Tuid),
    /// An object that has no draft.
    Object { id: Puid, kind: Kind },
}

/// An object that a request reached, with its root as it is shown.
#[derive(Clone, Copy, Debug, PartialEq, Eq)]
pub struct There {
    /// The identifier of the object.
    pub id: Puid,
    /// Its kind.
    pub kind: Kind,
    /// Its root as it is shown.
    pub root: Root,
}

/// What a request reached.
#[derive(Debug, Drop)]
pub enum Visited {
    /// The request is refused on the way.
    Refused(Reply),
    /// The draft of this grant.
    Draft(Tuid),
    /// An object that has no draft.
    Object(There),
}

/// Returns the kind of file of a kind of object that is a file.
pub(crate) fn file_kind(kind: Kind) -> FileKind
    requires { unfit_of AFile (Some kind) ≡ None }
    ensures { made_kind result ≡ kind }
{
    match kind {
        Kind::Normal => FileKind::Normal,
        Kind::Special => FileKind::Special,
        Kind::Index => unreachable!(),
    }
}

/// Reads the root of the object that is shown at a block.
pub(crate) fn root_in<D: Disk>(disk: &mut D, at: BlockNo) -> Result<Root, Refused>
    requires { at.0 < D.blocks disk.old }
    ensures read { IfOk result (λ root. WasRead D.Disk 1 at.0 root disk.old disk.new) }
    ensures limit { IfOk result (λ root. root.size ≤ size_limit) }
    ensures calm { IsCalm D.Disk (λ (o : Object). o) 1 at.0 disk.old disk.new result }
    ensures never { IfErr result (λ e. e ≢ refusals.Memory) }
{
    Ok(read_root(disk, at)?)
}

impl<D: Disk> Core<D> {
    /// Returns what a request of a session goes to, or its refusal on the way there.
    pub(crate) fn reach(&self, who: Session, way: Way, wants: Wanted) -> Result<Reached, Reply>
        ensures refused { IfErr result (λ reply. (request : Request) → GoesBy request wants way
            → Tries D.Disk self.now self.now who request (Ok reply)) }
        ensures reached { IfOk result (spec.ReachesSo D.Disk wants way who self.now) }
    {
        match self.drafted(who, way.to, wants) {
            Some(grant) => Ok(Reached::Draft(grant)),
            None => {
                let (id, kind) = self.object_at(who, way, wants)?;
                Ok(Reached::Object { id, kind })
            }
        }
    }

    /// Returns what a request of a session reaches. The root of an object is read.
    pub(crate) fn visit(
        &mut self,
        who: Session,
        way: Way,
        wants: Wanted,
    ) -> Result<Visited, Refused>
        ensures { spec.Visits D.Disk wants way who self.old self.new result }
    {
        match self.reach(who, way, wants) {
            Ok(Reached::Object { id, kind }) => {
                let at = self.space.shown(BlockNo(id.block));
                let root = root_in(&mut self.disk, at)?;
                Ok(Visited::Object(There { id, kind, root }))
            }
            Ok(Reached::Draft(grant)) => Ok(Visited::Draft(grant)),
            Err(reply) => Ok(Visited::Refused(reply)),
        }
    }
}
