//! Whether a reply is the one that the definitions give.
ghost use Rattle.std.specs.Prelude.{◌≡◌, ◌<◌, None, false, true};
ghost use Rattle.std.specs.Option.{option_map_or};
ghost use Rattle.ufs_model.specs.Followed.{refuses};
ghost use Rattle.ufs_model.specs.Graph.{is_free_root};
ghost use Rattle.ufs_model.specs.Next.{is_outcome, parts_of, same_reply};
ghost use Rattle.ufs_model.specs.Outcome.{block_named, outcome_of};
ghost use Rattle.ufs_model.specs.Refusal.{refusal_of};
ghost use Rattle.ufs_model.specs.declared.asked.Reply.TheVariants as replies;

use crate::asked::{Reply, Request};
use crate::blocks::is_taken;
use crate::server::Server;
use cfs_base::{Puid, Session, Tuid};

impl Reply {
    /// Returns the number of the reply's variant.
    pub(crate) fn place(&self) -> u8
        ensures { result ≡ (parts_of self.now).0 }
    {
        match self {
            Reply::Done => 0,
            Reply::Id(_) => 1,
            Reply::Grant(_) => 2,
            Reply::Number(_) => 3,
            Reply::Content(_) => 4,
            Reply::Memory => 5,
            Reply::Stopped { .. } => 6,
            Reply::NoGrant => 7,
            Reply::NoObject => 8,
            Reply::NotIndex => 9,
            Reply::NotFile => 10,
            Reply::ReadOnly => 11,
            Reply::Locked => 12,
            Reply::Slot => 13,
            Reply::Empty => 14,
            Reply::Range => 15,
            Reply::Grants => 16,
            Reply::Full(_) => 17,
            Reply::Disk { .. } => 18,
            Reply::Damaged { .. } => 19,
        }
    }

    /// Returns the root block that the reply names.
    pub(crate) fn block(&self) -> u32
        ensures { result ≡ block_named self.now }
    {
        match self {
            Reply::Id(id) => id.block,
            _ => 0,
        }
    }

    fn is_id(&self, id: Puid) -> bool
        ensures { result ≡ same_reply (replies.Id id) self.now }
    {
        matches!(self, Reply::Id(told) if id.block == told.block && id.word == told.word)
    }

    fn is_grant(&self, t: Tuid) -> bool
        ensures { result ≡ same_reply (replies.Grant t) self.now }
    {
        matches!(self, Reply::Grant(told) if t.draw == told.draw && t.word == told.word)
    }

    fn is_number(&self, n: u64) -> bool
        ensures { result ≡ same_reply (replies.Number n) self.now }
    {
        matches!(self, Reply::Number(told) if n == *told)
    }

    fn is_content(&self, bytes: &[u8]) -> bool
        ensures { result ≡ same_reply (replies.Content bytes.now) self.now }
    {
        matches!(self, Reply::Content(told) if bytes == told.as_slice())
    }

    fn is_done(&self) -> bool
        ensures { result ≡ same_reply replies.Done self.now }
    {
        matches!(self, Reply::Done)
    }
}

impl Server {
    /// Returns whether this reply refuses the request.
    pub(crate) fn is_refusal(&self, who: Session, request: &Request, reply: &Reply) -> bool
        requires { refuses reply.now ≡ true }
        ensures { result ≡ option_map_or (same_reply reply.now) (refusal_of self.now.state who request.now) false }
    {
        match self.refusal(who, request) {
            Some(refused) => reply.place() == refused.place(),
            None => false,
        }
    }

    /// Returns whether the request is not refused and this reply is that of its outcome.
    pub(crate) fn is_outcome(&self, who: Session, request: &Request, reply: &Reply) -> bool
        requires { self.now.state.drawn < 4294967295 }
        ensures { result ≡ is_outcome self.now.seed self.now.state who request.now reply.now }
    {
        self.is_quiet();
        self.refusal(who, request).is_none()
            && (!request.creates() || self.has_free_root(reply.block()))
            && self.tells(who, request, reply)
    }

    /// Returns whether a new object may take this root block.
    fn has_free_root(&self, block: u32) -> bool
        ensures { result ≡ is_free_root self.now.state.graph block }
    {
        block != 0 && !is_taken(&self.objects, block)
    }

    /// Returns whether the reply is that of the outcome in which a new object takes the block that the reply names.
    fn tells(&self, who: Session, request: &Request, reply: &Reply) -> bool
        requires words { self.now.state.drawn < 4294967295 }
        requires refused { refusal_of self.now.state who request.now ≡ None }
        ensures { result ≡ same_reply (outcome_of self.now.seed self.now.state who request.now (block_named
            reply.now)).0 reply.now }
    {
        match request {
            Request::CreateFile { .. } | Request::CreateIndex { .. } => reply.is_id(Puid {
                block: reply.block(),
                word: self.words.next(),
            }),
            Request::OpenFor { .. } => reply.is_grant(Tuid {
                draw: self.words.drawn() + 1,
                word: self.words.next(),
            }),
            Request::Retrieve { index, slot } => match self.slot_seen(who, *index, *slot) {
                Some(id) => reply.is_id(id),
                None => false,
            },
            Request::Slots { index } => reply.is_number(self.slots_seen(who, *index)),
            Request::Size { file } => reply.is_number(self.bytes_seen(who, *file).len() as u64),
            Request::Read {
                file,
                offset,
                count,
            } => {
                let all = self.bytes_seen(who, *file);
                reply.is_content(&all[*offset as usize..(*offset + *count) as usize])
            }
            _ => reply.is_done(),
        }
    }
}
