//! Requests that open an object.
ghost use Rattle.std.specs.Prelude.{◌≡◌, ◌≢◌, ◌<◌, ◌*◌, length, false, true, is_some, IfErr, IfOk, None, Ok};
ghost use Rattle.cfs_base.specs.declared.refusal.Refused.TheVariants as refusals;
ghost use Rattle.cfs_core.specs.Calls.{Tries};
ghost use Rattle.cfs_core.specs.Finished.{FinishesLeft};
ghost use Rattle.cfs_core.specs.Opening as spec;
ghost use Rattle.ufs_model.specs.declared.asked.Request.TheVariants as asks;

use crate::finishing::{finish, since, take_room};
use crate::kernel::Core;
use cfs_base::{BlockNo, Disk, Kind, Mode, Puid, Refused, Session, Trouble, Tuid};
use cyl_alloc::Space;
use open_table::{AcquireFault, OpenGrant};
use special_files::{ObjectDraft, Room};
use std::alloc::Global;
use ufs_model::{RESERVE, Reply};

/// Returns whether an object of this kind gets a draft when it is opened in this mode.
fn gets_draft(kind: Kind, mode: Mode) -> bool
    ensures { result ≡ spec.gets_draft kind mode }
{
    match (kind, mode) {
        (Kind::Special | Kind::Index, Mode::Writing) => true,
        _ => false,
    }
}

/// Returns the reply to an opening that a grant is in the way of.
fn reply_to_fault(fault: AcquireFault) -> Reply
    ensures { result ≡ spec.reply_to_fault fault }
{
    match fault {
        AcquireFault::Locked { mode: _ } => Reply::Locked,
        AcquireFault::Grants => Reply::Grants,
    }
}

/// Takes all memory that a draft needs, if one is to begin.
fn room_if(alloc: Global, wanted: bool) -> Result<Option<Room>, Refused>
    ensures room { IfOk result (λ room. is_some room ≡ wanted) }
    ensures wants { IfErr result (λ e. e ≡ refusals.Memory) }
{
    if !wanted {
        return Ok(None);
    }
    Ok(Some(take_room(alloc)?))
}

/// Carries out what was left of a commit, if a draft is to begin.
fn finish_if<D: Disk>(disk: &mut D, space: &mut Space, wanted: bool) -> Result<bool, Trouble>
    requires { D.blocks disk.old ≡ 64 * length space.old.free }
    ensures finished { wanted ≡ true → FinishesLeft D.Disk disk.old disk.new space.old space.new result }
    ensures idle { wanted ≡ false → (result ≡ Ok false) × (disk.new ≡ disk.old) × (space.new ≡ space.old) }
    ensures size { D.blocks disk.new ≡ D.blocks disk.old }
    ensures cylinders { length space.new.free ≡ length space.old.free }
{
    if wanted {
        finish(disk, space)
    } else {
        Ok(false)
    }
}

/// Begins the draft of the object at a block, if it is to have one.
fn first_draft<D: Disk>(
    room: Option<Room>,
    disk: &mut D,
    space: &mut Space,
    at: BlockNo,
) -> Result<Option<ObjectDraft>, Refused>
    requires some { at.0 ≢ 0 }
    requires on_disk { at.0 < D.blocks disk.old }
    requires size { D.blocks disk.old ≡ 64 * length space.old.free }
    ensures begins { spec.Begins D.Disk at.0 (is_some room) disk.old disk.new space.old space.new result }
    ensures bare { is_some room ≡ false → (result ≡ Ok None) × (disk.new ≡ disk.old) × (space.new ≡ space.old) }
    ensures never { IfErr result (λ e. e ≢ refusals.Memory) }
    ensures cylinders { length space.new.free ≡ length space.old.free }
{
    let Some(room) = room else {
        return Ok(None);
    };
    Ok(Some(ObjectDraft::begin(room, disk, space, at, RESERVE)?))
}

impl<D: Disk> Core<D> {
    /// Opens an object. A special file or an index that is opened for writing gets a draft.
    ///
    /// All memory for the draft is taken before what was left of a commit is carried out, and its shadow root is
    /// taken.
    pub(crate) fn open_for(
        &mut self,
        alloc: Global,
        who: Session,
        id: Puid,
        mode: Mode,
    ) -> Result<Reply, Refused>
        requires words { self.old.words.drawn < 4294967295 }
        ensures { Tries D.Disk self.old self.new who (asks.OpenFor id mode) result }
    {
        let Some(kind) = self.kind(id) else {
            return Ok(Reply::NoObject);
        };
        open_table::laws::table_follows_the_model();
        self.handles.reserve()?;
        let tuid = Tuid {
            draw: self.words.drawn() + 1,
            word: self.words.ahead(),
        };
        let grant = OpenGrant {
            tuid,
            session: who,
            id,
            mode,
        };
        if let Some(fault) = self.handles.fault(grant) {
            return Ok(reply_to_fault(fault));
        }
        let wanted = gets_draft(kind, mode);
        let room = room_if(alloc, wanted)?;
        let tried = finish_if(&mut self.disk, &mut self.space, wanted)?;
        let at = BlockNo(id.block);
        let draft = since(
            tried,
            first_draft(room, &mut self.disk, &mut self.space, at),
        )?;
        self.handles.open(grant, draft);
        self.words.next();
        Ok(Reply::Grant(tuid))
    }
}
