//! How a request goes to what it names.
ghost use Rattle.std.specs.Prelude.{◌≡◌, ◌≢◌, ◌<◌, ◌&&◌, ℕ, false, IfErr, IfOk, None, Some, if◌then◌else◌, is_none};
ghost use Rattle.std.specs.Prelude.{is_some};
ghost use Rattle.cfs_base.specs.declared.identifier.Puid.{Puid};
ghost use Rattle.cfs_core.specs.Calls.{Tries};
ghost use Rattle.cfs_core.specs.StandsFor.{ServesIs};
ghost use Rattle.cfs_core.specs.Ways.{Arrives, GoesBy, is_gone, reads_by, unfit_of};
ghost use Rattle.open_table.specs.Model.{is_writing};
ghost use Rattle.puid_space.specs.Directory.{directory_kind};
ghost use Rattle.ufs_model.specs.Refusal.{goes_through_reading, meets_a_grant};
ghost use Rattle.ufs_model.specs.State.{State, named};
ghost use Rattle.ufs_model.specs.declared.asked.Request.{Request};
ghost use Rattle.ufs_model.specs.declared.object.Object.{Object};

use crate::kernel::Core;
use cfs_base::{Disk, Kind, Mode, Puid, Session};
use open_table::OpenGrant;
use ufs_model::{Ref, Reply, Wanted};

/// How a request goes to what it names.
#[derive(Clone, Copy, Debug, PartialEq, Eq)]
pub struct Way {
    /// What the request goes to.
    pub to: Ref,
    /// An object that the request also names.
    pub also: Option<Puid>,
    /// Whether the request changes what is there.
    pub changes: bool,
}

impl<D: Disk> Core<D> {
    /// Returns the object that a request of a session goes to, and its kind, which is one that is wanted.
    ///
    /// The error is the refusal on the way there.
    pub(crate) fn object_at(
        &self,
        who: Session,
        way: Way,
        wants: Wanted,
    ) -> Result<(Puid, Kind), Reply>
        ensures refused { IfErr result (λ reply. (request : Request) → GoesBy request wants way
            → Tries D.Disk self.now self.now who request (Ok reply)) }
        ensures arrived { IfOk result (λ two. (request : Request) → GoesBy request wants way
            → (s : State) → ServesIs D.Disk self.now s → (o : Object) × Arrives s who request two.0 o) }
        ensures free { IfOk result (λ two. (s : State) → ServesIs D.Disk self.now s
            → meets_a_grant s way.changes way.to ≡ false) }
        ensures kind { IfOk result (λ two. directory_kind self.now.directory.named two.0 ≡ Some two.1) }
        ensures wanted { IfOk result (λ two. unfit_of wants (Some two.1) ≡ None) }
        ensures on_disk { IfOk result (λ two. two.0.block < D.blocks self.now.disk) }
        ensures some { IfOk result (λ two. two.0.block ≢ 0) }
        ensures also { IfOk result (λ two. (also : Puid) → way.also ≡ Some also → also.block ≢ 0) }
    {
        let id = self.goes_to(who, way.to).ok_or(Reply::NoGrant)?;
        if self.lacks(way.also) {
            return Err(Reply::NoObject);
        }
        let kind = wanted_kind(wants, self.kind(id))?;
        if self.may_only_read(who, way) {
            return Err(Reply::ReadOnly);
        }
        if self.is_met(way.changes, way.to) {
            return Err(Reply::Locked);
        }
        Ok((id, kind))
    }

    /// Returns the object to which a reference of a session goes, if it goes anywhere.
    pub(crate) fn goes_to(&self, who: Session, to: Ref) -> Option<Puid>
        ensures { (s : State) → ServesIs D.Disk self.now s → result ≡ named s who to }
    {
        open_table::laws::table_follows_the_model();
        match to {
            Ref::Direct(id) => Some(id),
            Ref::Through(grant) => Some(self.handles.find(who, grant)?.id),
        }
    }

    /// Returns whether an object that is also named doesn't exist.
    pub(crate) fn lacks(&self, also: Option<Puid>) -> bool
        ensures gone { (s : State) → ServesIs D.Disk self.now s → result ≡ is_gone s also }
        ensures some { result ≡ false → (id : Puid) → also ≡ Some id → id.block ≢ 0 }
    {
        match also {
            Some(id) => self.kind(id).is_none(),
            None => false,
        }
    }

    /// Returns whether a change is asked through a grant for reading.
    fn may_only_read(&self, who: Session, way: Way) -> bool
        ensures { (s : State) → ServesIs D.Disk self.now s
            → result ≡ (way.changes && goes_through_reading s who way.to) }
    {
        if !way.changes {
            return false;
        }
        self.is_for_reading(who, way.to)
    }

    /// Returns whether a reference of a session is a grant for reading.
    fn is_for_reading(&self, who: Session, to: Ref) -> bool
        ensures { (s : State) → ServesIs D.Disk self.now s → result ≡ goes_through_reading s who to }
    {
        open_table::laws::table_follows_the_model();
        match to {
            Ref::Direct(_) => false,
            Ref::Through(grant) => reads(self.handles.find(who, grant)),
        }
    }

    /// Returns whether a request that goes straight to an object meets a grant.
    ///
    /// If it wants the object alone any grant counts, else one for writing.
    fn is_met(&self, alone: bool, to: Ref) -> bool
        ensures { (s : State) → ServesIs D.Disk self.now s → result ≡ meets_a_grant s alone to }
    {
        open_table::laws::table_follows_the_model();
        crate::laws::grants_are_a_table(&self.handles);
        match to {
            Ref::Direct(id) => bars(alone, self.handles.mode_on(id)),
            Ref::Through(_) => false,
        }
    }
}

/// Returns whether what is there is wanted.
pub(crate) fn is_fit(wants: Wanted, kind: Option<Kind>) -> bool
    ensures { result ≡ is_none (unfit_of wants kind) }
{
    wanted_kind(wants, kind).is_ok()
}

/// Returns the kind of what is there, or the refusal of a request that wants something else.
fn wanted_kind(wants: Wanted, kind: Option<Kind>) -> Result<Kind, Reply>
    ensures fit { IfOk result (λ there. (kind ≡ Some there) × (unfit_of wants kind ≡ None)) }
    ensures unfit { IfErr result (λ reply. unfit_of wants kind ≡ Some reply) }
{
    match (wants, kind) {
        (_, None) => Err(Reply::NoObject),
        (Wanted::AnIndex, Some(Kind::Normal | Kind::Special)) => Err(Reply::NotIndex),
        (Wanted::AFile, Some(Kind::Index)) => Err(Reply::NotFile),
        (_, Some(kind)) => Ok(kind),
    }
}

/// Returns whether there is a grant, and it is for reading.
fn reads(grant: Option<OpenGrant>) -> bool
    ensures { result ≡ reads_by grant }
{
    match grant {
        Some(grant) => match grant.mode {
            Mode::Reading => true,
            Mode::Writing => false,
        },
        None => false,
    }
}

/// Returns whether an object that is open in this mode, if it is open, can't be had, alone or for reading.
fn bars(alone: bool, mode: Option<Mode>) -> bool
    ensures { result ≡ (if alone then is_some mode else is_writing mode) }
{
    match mode {
        Some(Mode::Reading) => alone,
        Some(Mode::Writing) => true,
        None => false,
    }
}
