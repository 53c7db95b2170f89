//! What a request goes to, and what it asks for there.
ghost use Rattle.std.specs.Prelude.{◌≡◌};
ghost use Rattle.ufs_model.specs.Outcome.{creates};
ghost use Rattle.ufs_model.specs.Refusal.{is_changing, opens_for_writing, slot_named, target, wanted};

use crate::asked::{Ref, Request, Wanted};
use cfs_base::Mode;

impl Request {
    /// Returns what the request goes to.
    pub fn target(&self) -> Ref
        ensures { result ≡ target self.now }
    {
        match self {
            Request::CreateFile { index, .. }
            | Request::CreateIndex { index, .. }
            | Request::Retain { index, .. }
            | Request::Retrieve { index, .. }
            | Request::Delete { index, .. }
            | Request::Slots { index } => *index,
            Request::OpenFor { id, .. } => Ref::Direct(*id),
            Request::Close { grant, .. } => Ref::Through(*grant),
            Request::Read { file, .. }
            | Request::Write { file, .. }
            | Request::Size { file }
            | Request::Resize { file, .. } => *file,
        }
    }

    /// Returns what the request expects to find there.
    pub fn wanted(&self) -> Wanted
        ensures { result ≡ wanted self.now }
    {
        match self {
            Request::CreateFile { .. }
            | Request::CreateIndex { .. }
            | Request::Retain { .. }
            | Request::Retrieve { .. }
            | Request::Delete { .. }
            | Request::Slots { .. } => Wanted::AnIndex,
            Request::OpenFor { .. } | Request::Close { .. } => Wanted::Either,
            Request::Read { .. }
            | Request::Write { .. }
            | Request::Size { .. }
            | Request::Resize { .. } => Wanted::AFile,
        }
    }

    /// Returns whether the request changes what is there.
    pub fn is_changing(&self) -> bool
        ensures { result ≡ is_changing self.now }
    {
        matches!(
            self,
            Request::CreateFile { .. }
                | Request::CreateIndex { .. }
                | Request::Retain { .. }
                | Request::Delete { .. }
                | Request::Write { .. }
                | Request::Resize { .. }
        )
    }

    /// Returns the slot that the request names, if it names one.
    pub fn slot_named(&self) -> Option<u64>
        ensures { result ≡ slot_named self.now }
    {
        match self {
            Request::CreateFile { slot, .. }
            | Request::CreateIndex { slot, .. }
            | Request::Retain { slot, .. }
            | Request::Retrieve { slot, .. }
            | Request::Delete { slot, .. } => Some(*slot),
            _ => None,
        }
    }

    /// Returns whether the request makes an object.
    pub fn creates(&self) -> bool
        ensures { result ≡ creates self.now }
    {
        matches!(
            self,
            Request::CreateFile { .. } | Request::CreateIndex { .. }
        )
    }

    /// Returns whether the request opens an object for writing.
    pub fn opens_for_writing(&self) -> bool
        ensures { result ≡ opens_for_writing self.now }
    {
        matches!(
            self,
            Request::OpenFor {
                mode: Mode::Writing,
                ..
            }
        )
    }
}
