//! Drawn requests of three sessions on four indices and their drafts: each answer of the slow server is one that the
//! definitions allow, and what arrays of slots have.
ghost use Rattle.std.specs.Prelude.{◌<◌};

use cfs_base::{FileKind, Mode, Puid, Session, Tuid};
use std::alloc::Global;
use std::process::Abort;
use std::test::Fail;
use ufs_model::{Event, Follower, Plain, Ref, Reply, Request};

const ROOT: Puid = Puid {
    block: 2,
    word: 0xade0_b876,
};

const INDICES: usize = 4;

const SLOTS: usize = 4;

type Shown = [Option<Puid>; SLOTS];

/// A session that has an index open for writing, and what its draft shows.
#[derive(Clone, Copy)]
struct Writer {
    session: Session,
    grant: Tuid,
    draft: Shown,
}

#[derive(Clone, Copy)]
struct Index {
    id: Puid,
    shown: Shown,
    writer: Option<Writer>,
}

#[derive(Clone, Copy)]
enum Act {
    Open,
    Close { commit: bool },
    Retain { id: Puid },
    Delete,
    Retrieve,
    Create,
}

/// A request, through the writer's grant if there is one.
#[derive(Clone, Copy)]
struct Turn {
    session: Session,
    at: usize,
    slot: usize,
    act: Act,
    grant: Option<Tuid>,
}

/// Returns the next number of a stream below a limit.
fn below(stream: &mut u64, limit: u64) -> u64
    requires { 0 < limit }
    ensures { result < limit }
{
    *stream = stream
        .wrapping_mul(6_364_136_223_846_793_005)
        .wrapping_add(1_442_695_040_888_963_407);
    (*stream >> 33) % limit
}

fn draw(stream: &mut u64, indices: &[Index; INDICES]) -> Turn
    ensures { (result.at < 4) × (result.slot < 4) }
{
    let at = below(stream, 4) as usize;
    let slot = below(stream, 4) as usize;
    let session = below(stream, 3) as Session;
    let commit = below(stream, 2) == 0;
    let id = indices[below(stream, 4) as usize].id;
    let act = match below(stream, 8) {
        0 => Act::Open,
        1 => Act::Delete,
        2 | 3 => Act::Retain { id },
        4 | 5 => Act::Retrieve,
        6 => Act::Create,
        _ => Act::Close { commit },
    };
    let direct = Turn {
        session,
        at,
        slot,
        act,
        grant: None,
    };
    match indices[at].writer {
        Some(writer) if below(stream, 3) > 0 || matches!(&act, Act::Close { .. }) => Turn {
            session: writer.session,
            grant: Some(writer.grant),
            ..direct
        },
        None if matches!(&act, Act::Close { .. }) => Turn {
            act: Act::Open,
            ..direct
        },
        _ => direct,
    }
}

/// Returns the index of an identifier as a request names it: through the grant if there is one.
fn named(grant: Option<Tuid>, id: Puid) -> Ref {
    match grant {
        Some(grant) => Ref::Through(grant),
        None => Ref::Direct(id),
    }
}

fn request_of(turn: Turn, id: Puid) -> Request {
    let index = named(turn.grant, id);
    let slot = turn.slot as u64;
    match turn.act {
        Act::Open => Request::OpenFor {
            id,
            mode: Mode::Writing,
        },
        Act::Close { commit } => Request::Close {
            grant: turn.grant.unwrap_or(Tuid { draw: 0, word: 0 }),
            commit,
        },
        Act::Retain { id } => Request::Retain { index, slot, id },
        Act::Delete => Request::Delete { index, slot },
        Act::Retrieve => Request::Retrieve { index, slot },
        Act::Create => Request::CreateFile {
            kind: FileKind::Special,
            fill: 0,
            index,
            slot,
        },
    }
}

/// Returns whether the slots allow this answer, and changes them as it was answered.
fn slots_follow(shown: &mut Shown, act: Act, slot: usize, reply: &Reply) -> bool
    requires { slot < 4 }
{
    match (act, reply) {
        (Act::Retain { id }, Reply::Done) => shown[slot] = Some(id),
        (Act::Create, Reply::Id(id)) => shown[slot] = Some(*id),
        (Act::Delete, Reply::Done) if shown[slot].is_some() => shown[slot] = None,
        (Act::Retrieve, Reply::Id(id)) => return shown[slot] == Some(*id),
        (Act::Delete | Act::Retrieve, Reply::Empty) => return shown[slot].is_none(),
        _ => return false,
    }
    true
}

/// Returns whether the index allows this answer, and changes it as it was answered.
fn follows(index: &mut Index, turn: Turn, reply: &Reply) -> bool
    requires { turn.slot < 4 }
{
    let Some(mut writer) = index.writer else {
        if let (Act::Open, Reply::Grant(grant)) = (turn.act, reply) {
            index.writer = Some(Writer {
                session: turn.session,
                grant: *grant,
                draft: index.shown,
            });
            return true;
        }
        return slots_follow(&mut index.shown, turn.act, turn.slot, reply);
    };
    if turn.grant.is_none() || matches!(&turn.act, Act::Open) {
        return matches!(reply, Reply::Locked);
    }
    if let Act::Close { commit } = turn.act {
        index.writer = None;
        if commit {
            index.shown = writer.draft;
        }
        return matches!(reply, Reply::Done);
    }
    let follows = slots_follow(&mut writer.draft, turn.act, turn.slot, reply);
    index.writer = Some(writer);
    follows
}

/// Asks the slow server a request, and follows its answer.
fn ask(
    rt: &impl Abort,
    alloc: Global,
    servers: (&mut Plain, &mut Follower),
    session: Session,
    request: Request,
) -> Result<Event, Fail> {
    let (plain, follower) = servers;
    assert!(rt; plain.drawn() < 100_000 && follower.drawn() < 100_000);
    let reply = plain.ask(alloc, session, &request);
    let event = Event::Ask {
        session,
        request,
        reply,
    };
    assert!(rt; follower.step(alloc, &event)?);
    Ok(event)
}

#[test]
fn drawn_requests_on_drafts_of_indices_are_answered_as_slots_in_arrays(
    rt: HostRuntime,
) -> Result<(), Fail> {
    let alloc = rt.alloc();
    let mut plain = Plain::new(alloc, ROOT, 0)?;
    let mut follower = Follower::new(alloc, ROOT, 0)?;
    let none = Index {
        id: ROOT,
        shown: [None; SLOTS],
        writer: None,
    };
    let mut indices = [none; INDICES];
    for slot in 0..INDICES {
        let request = Request::CreateIndex {
            slots: SLOTS as u64,
            index: Ref::Direct(ROOT),
            slot: slot as u64,
        };
        let event = ask(&rt, alloc, (&mut plain, &mut follower), 0, request)?;
        assert!(rt;
            matches!(
                &event,
                Event::Ask {
                    reply: Reply::Id(_),
                    ..
                }
            )
        );
        if let Event::Ask {
            reply: Reply::Id(id),
            ..
        } = event
        {
            indices[slot].id = id;
        }
    }
    let mut stream = 0;
    for _ in 0..20_000 {
        let turn = draw(&mut stream, &indices);
        let request = request_of(turn, indices[turn.at].id);
        let event = ask(
            &rt,
            alloc,
            (&mut plain, &mut follower),
            turn.session,
            request,
        )?;
        if let Event::Ask { reply, .. } = &event {
            assert!(rt; follows(&mut indices[turn.at], turn, reply));
        }
    }
    assert!(rt; plain.count() > 1_000);
    Ok(())
}
