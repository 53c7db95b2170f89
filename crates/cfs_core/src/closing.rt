//! The ends of grants: a request that closes one, and a session that leaves.
ghost use Rattle.std.specs.Prelude.{Bool, ◌≡◌, ◌≢◌, ◌≤◌, ◌*◌, List, [], length, false, true, IfErr, IfOk, OnOk, IsSome};
ghost use Rattle.std.specs.Prelude.{None, Some, Ok};
ghost use Rattle.cfs_base.specs.declared.refusal.Refused.TheVariants as refusals;
ghost use Rattle.cfs_core.specs.Asked.{Happens, halted};
ghost use Rattle.cfs_core.specs.Calls.{Tries, TriesWith, leaves_all};
ghost use Rattle.cfs_core.specs.Drafts.{EndsDraft};
ghost use Rattle.cfs_core.specs.Kernel.{Handle, grants_in, is_ready_for};
ghost use Rattle.cfs_core.specs.Leaving as spec;
ghost use Rattle.cfs_core.specs.Leaving.{GivesUp, Sheds, StopsSo, objects_of};
ghost use Rattle.cfs_core.specs.Left.{AddsNone};
ghost use Rattle.cfs_core.specs.Rescues.{AreRescued};
ghost use Rattle.cfs_core.specs.Handles.{drafting_at, have_draft, is_at, with_drafting};
ghost use Rattle.cfs_core.specs.StandsFor.{ServesIs, StandsFor};
ghost use Rattle.cfs_core.specs.declared.kernel.Stop.{Stop};
ghost use Rattle.open_table.specs.Grants.{first_grant, session_grant, without_grant};
ghost use Rattle.ufs_model.specs.State.{State};
ghost use Rattle.ufs_model.specs.declared.asked.Event.TheVariants as events;
ghost use Rattle.ufs_model.specs.declared.asked.Request.TheVariants as asks;

use crate::finishing::{finish, since};
use crate::kernel::{Core, Halt, Stop};
use cfs_base::{Disk, Refused, Session, Trouble, Tuid};
use cyl_alloc::Space;
use open_table::OpenGrant;
use special_files::ObjectDraft;
use ufs_model::Reply;

/// Ends a draft, which becomes its object or is given up.
///
/// What is left of a commit then is unfinished.
fn end_draft<D: Disk>(
    draft: ObjectDraft,
    disk: &mut D,
    space: &mut Space,
    commit: bool,
) -> Result<(), Trouble>
    requires left { space.old.left ≡ None }
    requires ready { is_ready_for (D.blocks disk.old) draft ≡ true }
    requires size { D.blocks disk.old ≡ 64 * length space.old.free }
    ensures { EndsDraft D.Disk commit draft disk.old disk.new space.old space.new result }
{
    if !commit {
        return draft.abort(disk, space);
    }
    draft.commit(disk, space)
}

impl<D: Disk> Core<D> {
    /// Ends a grant.
    ///
    /// Its draft, if it has one, becomes the object or is given up, once what was left of an earlier commit is
    /// carried out.
    pub(crate) fn close(
        &mut self,
        who: Session,
        grant: Tuid,
        commit: bool,
    ) -> Result<Reply, Refused>
        ensures { Tries D.Disk self.old self.new who (asks.Close grant commit) result }
    {
        open_table::laws::table_follows_the_model();
        if self.handles.find(who, grant).is_none() {
            return Ok(Reply::NoGrant);
        }
        if self.handles.draft(grant.draw).is_none() {
            // There is none to take out, so no grant with this draw has a draft.
            let _ = self.handles.take(grant.draw);
            return Ok(self.close_bare(who, grant));
        }
        let tried = finish(&mut self.disk, &mut self.space)?;
        match self.handles.take(grant.draw) {
            Some(draft) => since(tried, self.end(who, grant, draft, commit)),
            None => unreachable!(),
        }
    }

    /// Ends a grant that has no draft.
    fn close_bare(&mut self, who: Session, grant: Tuid) -> Reply
        requires undrafted { have_draft (is_at grant.draw) self.old.handles ≡ false }
        ensures { (commit : Bool) → Tries D.Disk self.old self.new who (asks.Close grant commit) (Ok result) }
    {
        open_table::laws::table_follows_the_model();
        if let Err(_) = self.handles.close(who, grant) {
            return Reply::NoGrant;
        }
        Reply::Done
    }

    /// Ends a grant that had this draft.
    fn end(
        &mut self,
        who: Session,
        grant: Tuid,
        draft: ObjectDraft,
        commit: bool,
    ) -> Result<Reply, Refused>
        requires left { self.old.space.left ≡ None }
        requires ready { is_ready_for (D.blocks self.old.disk) draft ≡ true }
        requires taken { have_draft (is_at grant.draw) self.old.handles ≡ false }
        requires found { IsSome (session_grant (grants_in self.old.handles) who grant) }
        ensures tries { (handles : List Handle) → self.old.handles ≡ with_drafting grant.draw None handles
            → drafting_at handles grant.draw ≡ Some draft
            → TriesWith D.Disk None (record self.old { handles = handles }) self.new who (asks.Close grant commit)
            result }
        ensures told { IfOk result (λ reply. leaves_all reply ≡ false) }
        ensures never { IfErr result (λ e. e ≢ refusals.Memory) }
    {
        open_table::laws::table_follows_the_model();
        end_draft(draft, &mut self.disk, &mut self.space, commit)?;
        let _ = self.handles.close(who, grant);
        Ok(Reply::Done)
    }

    /// Ends a session: its grants are dropped, and their drafts are given up.
    ///
    /// What was left of a commit is carried out before. A session may also leave a core that has stopped, which makes
    /// no call of the disk. `Halt` if the core stops in this call.
    pub fn leave(&mut self, who: Session) -> Result<(), Halt>
        ensures event { (s : State) → StandsFor D.Disk self.old s
            → Happens D.Disk self.old self.new s (events.Leave who (halted result)) }
        ensures words { self.new.words ≡ self.old.words }
        ensures size { D.blocks self.new.disk ≡ D.blocks self.old.disk }
        ensures faults { D.faults self.old.disk ≤ D.faults self.new.disk }
        ensures later { D.moment self.old.disk ≤ D.moment self.new.disk }
        // A collection no longer reads a draft of the objects of its grants, and makes no step.
        ensures ended { AreRescued self.old.collections.collector self.new.collections.collector []
            (objects_of (grants_in self.old.handles) who) }
        ensures called { self.new.collections.called ≡ self.old.collections.called }
        ensures finished { self.new.collections.finished ≡ self.old.collections.finished }
        ensures waits { AddsNone (D.blocks self.old.disk) self.old.collections self.new.collections }
        ensures goes_on { OnOk result (self.new.stop ≡ self.old.stop) }
        // The core stopped at this moment: the one before the disk's present one if a device call failed, and the
        // disk's present one at a damage.
        ensures halts { IfErr result (λ halt. (stop : Stop) × (self.old.stop ≡ None) × (self.new.stop ≡ Some stop)
            × (stop.moment ≡ halt.moment) × StopsSo D.Disk self.old self.new stop) }
        // A core that served a state stops at no damage.
        ensures sound { (s : State) → ServesIs D.Disk self.old s → self.old.stop ≡ None
            → (stop : Stop) → self.new.stop ≡ Some stop → stop.damage ≡ None }
        // A core that had stopped makes no call of the disk.
        ensures idle { IsSome self.old.stop → self.new.disk ≡ self.old.disk }
    {
        let before = self.stop;
        while let Some(grant) = self.handles.next_of(who) {
            self.drop_grant(who, grant);
        }
        halt_of(before, self.stop)
    }

    /// Drops the first grant of a session.
    ///
    /// Its draft is given up, unless the core has stopped. If that fails, the core stops.
    fn drop_grant(&mut self, who: Session, grant: OpenGrant)
        requires first { first_grant (grants_in self.old.handles) who ≡ Some grant }
        ensures sheds { Sheds D.Disk who self.old self.new }
        ensures gone { grants_in self.new.handles ≡ without_grant (grants_in self.old.handles) who grant.tuid }
    {
        open_table::laws::table_follows_the_model();
        crate::laws::grants_are_a_table(&self.handles);
        let draft = self.handles.take(grant.tuid.draw);
        let _ = self.handles.close(who, grant.tuid);
        self.collections.draft_ended(grant.id);
        match draft {
            Some(draft) => self.give_up(draft),
            None => {}
        }
    }

    /// Carries out what was left of a commit and gives up a draft, unless the core has stopped.
    ///
    /// If that fails, the core stops.
    fn give_up(&mut self, draft: ObjectDraft)
        requires ready { is_ready_for (D.blocks self.old.disk) draft ≡ true }
        ensures { GivesUp D.Disk draft self.old self.new }
    {
        if self.stop.is_some() {
            return;
        }
        let _tried = match finish(&mut self.disk, &mut self.space) {
            Ok(tried) => tried,
            Err(trouble) => {
                // The draft is gone, so the core also stops if nothing was tried.
                self.refuse(Refused::from(trouble.after_try()));
                return;
            }
        };
        if let Err(trouble) = draft.abort(&mut self.disk, &mut self.space) {
            self.refuse(Refused::from(trouble));
        }
    }
}

/// Returns what a leave reports, given how the core had stopped before, and how it has now.
fn halt_of(before: Option<Stop>, now: Option<Stop>) -> Result<(), Halt>
    ensures { result ≡ spec.halt_of before now }
{
    match (before, now) {
        (None, Some(stop)) => Err(Halt {
            moment: stop.moment,
        }),
        _ => Ok(()),
    }
}
