//! A run on the slow server with ample memory, with the words of seed 0.
use cfs_base::{Bytes, FileKind, Mode, Puid, Tuid};
use std::test::Fail;
use ufs_model::{Plain, Ref, Reply, Request};

const ROOT: Puid = Puid {
    block: 2,
    word: 0xade0_b876,
};

/// The index that is made first, and the file that is made next.
const INDEX: Puid = Puid {
    block: 3,
    word: 0x903d_f1a0,
};

const FILE: Puid = Puid {
    block: 4,
    word: 0xe56a_5d40,
};

/// The grant that is drawn third.
const GRANT: Tuid = Tuid {
    draw: 3,
    word: 0x28bd_8653,
};

/// What a reply says. Bytes are given as one number.
#[derive(Clone, Copy, Debug, PartialEq, Eq)]
enum Told {
    Done,
    Id(Puid),
    Grant(Tuid),
    Number(u64),
    Bytes(u64),
    Slot,
    Empty,
    Other,
}

impl Told {
    fn of(reply: &Reply) -> Told {
        match reply {
            Reply::Done => Told::Done,
            Reply::Id(id) => Told::Id(*id),
            Reply::Grant(grant) => Told::Grant(*grant),
            Reply::Number(number) => Told::Number(*number),
            Reply::Content(bytes) => Told::Bytes(number_of(bytes.as_slice())),
            Reply::Slot => Told::Slot,
            Reply::Empty => Told::Empty,
            _ => Told::Other,
        }
    }
}

fn number_of(bytes: &[u8]) -> u64 {
    let mut number = 0u64;
    for byte in bytes {
        number = number.wrapping_mul(256).wrapping_add(u64::from(*byte));
    }
    number
}

/// Requests of one session in their order, and what they are answered. Only the write's bytes are on the heap.
fn rows(bytes: Bytes) -> [(Request, Told); 15] {
    let root = Ref::Direct(ROOT);
    let index = Ref::Direct(INDEX);
    let file = Ref::Direct(FILE);
    let draft = Ref::Through(GRANT);
    let (slot, mode, commit) = (0, Mode::Writing, true);
    let made = Request::CreateFile {
        kind: FileKind::Special,
        fill: 0x2e,
        index: root,
        slot: 1,
    };
    [
        (
            Request::CreateIndex {
                slots: 4,
                index: root,
                slot,
            },
            Told::Id(INDEX),
        ),
        (Request::Retrieve { index: root, slot }, Told::Id(INDEX)),
        (Request::Slots { index }, Told::Number(4)),
        (
            Request::Retrieve {
                index: root,
                slot: 63,
            },
            Told::Empty,
        ),
        (
            Request::Retrieve {
                index: root,
                slot: 64,
            },
            Told::Slot,
        ),
        (
            Request::Retain {
                index,
                slot: 3,
                id: ROOT,
            },
            Told::Done,
        ),
        (Request::Delete { index: root, slot }, Told::Done),
        (Request::Delete { index: root, slot }, Told::Empty),
        (made, Told::Id(FILE)),
        (Request::Resize { file, size: 4 }, Told::Done),
        (Request::Size { file }, Told::Number(4)),
        (Request::OpenFor { id: FILE, mode }, Told::Grant(GRANT)),
        (
            Request::Write {
                file: draft,
                offset: 1,
                bytes,
            },
            Told::Done,
        ),
        (
            Request::Close {
                grant: GRANT,
                commit,
            },
            Told::Done,
        ),
        (
            Request::Read {
                file,
                offset: 0,
                count: 4,
            },
            Told::Bytes(0x2e41_2e2e),
        ),
    ]
}

#[test]
fn each_of_the_twelve_requests_is_served_with_ample_memory(rt: HostRuntime) -> Result<(), Fail> {
    let alloc = rt.alloc();
    let mut plain = Plain::new(alloc, ROOT, 0)?;
    let rows = rows(Bytes::new(vec![in alloc; 0x41]?));
    for (request, wanted) in &rows {
        assert!(rt; plain.drawn() < 1000);
        assert_eq!(rt; Told::of(&plain.ask(alloc, 0, request)), *wanted);
    }
    Ok(())
}
