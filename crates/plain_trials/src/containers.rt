//! Calls on containers with ample memory, each as the layers above make it.
ghost use Rattle.std.specs.Prelude.{◌≡◌, ◌+◌, ◌≤◌, ◌==◌, length, vec_len, vec_capacity};
ghost use Rattle.puid_space.specs.Directory.{kept_by};

use cfs_base::{Disk, Gate, Ids, Kind, Mode, Puid, Sink, Tuid};
use cfs_fakes::{HoldGate, MemoryDisk, MemorySink};
use cfs_trail::Trail;
use collector_marks::{Grey, Marks, Rescue, Rescues};
use open_table::{Grants, OpenGrant};
use puid_space::Directory;
use std::test::Fail;
use ufs_model::Event;

/// Returns an identifier whose object has this root block.
const fn named(block: u32) -> Puid
    ensures { result ≡ record { block = block; word = 9 } }
{
    Puid { block, word: 9 }
}

/// Removes all but the object of one block. A closure's answers are the test of which the contract speaks.
fn keep_only(directory: &mut Directory, kept: u32, gone: &mut Vec<Puid>)
    requires { vec_len gone.old + length directory.old.named ≤ vec_capacity gone.old }
    ensures { directory.new.named ≡ kept_by (λ block. block == kept) directory.old.named }
{
    directory.take_unless(|block| block == kept, gone);
}

#[test]
fn names_are_added_and_taken_out_in_rising_order(rt: HostRuntime) -> Result<(), Fail> {
    let mut directory = Directory::new(rt.alloc());
    directory.reserve(8)?;
    for block in [7, 3, 5] {
        assert!(rt; block < directory.room() && !directory.has_root(block));
        directory.add(named(block), Kind::Index);
    }
    let mut gone = Vec::new(rt.alloc());
    gone.reserve(directory.len() as usize)?;
    keep_only(&mut directory, 5, &mut gone);
    assert_eq!(rt; gone.as_slice(), [named(3), named(7)].as_slice());
    assert_eq!(rt; directory.first_from(0), Some(named(5)));
    Ok(())
}

#[test]
fn a_grant_is_acquired_and_found(rt: HostRuntime) -> Result<(), Fail> {
    let grant = OpenGrant {
        tuid: Tuid { draw: 1, word: 7 },
        session: 0,
        id: named(3),
        mode: Mode::Writing,
    };
    let mut grants = Grants::new(rt.alloc());
    grants.reserve()?;
    assert_eq!(rt; grants.acquire(grant), Ok(()));
    assert_eq!(rt; grants.find(0, grant.tuid), Some(grant));
    Ok(())
}

#[test]
fn events_are_read_back_with_their_moments(rt: HostRuntime) -> Result<(), Fail> {
    let gone = Ids::new(vec![in rt.alloc(); named(3)]?);
    let mut trail = Trail::new(rt.alloc());
    trail.reserve(2)?;
    trail.push(Event::Began, 17);
    trail.push(Event::Vanish { ids: gone }, 40);
    assert!(rt; matches!(trail.event(0), Event::Began));
    assert!(rt; matches!(trail.event(1), Event::Vanish { .. }));
    assert_eq!(rt; (trail.moment(0), trail.moment(1)), (17, 40));
    Ok(())
}

#[test]
fn a_new_grey_index_comes_first_and_a_file_is_never_grey(rt: HostRuntime) -> Result<(), Fail> {
    let mut marks = Marks::new(rt.alloc(), 10)?;
    for (block, kind, first) in [
        (2, Kind::Index, 2),
        (3, Kind::Special, 2),
        (9, Kind::Index, 9),
        (2, Kind::Index, 9),
    ] {
        assert!(rt; (block as usize) < marks.blocks());
        marks.shade(named(block), kind);
        let id = named(first);
        assert_eq!(rt; marks.next_grey(), Some(Grey { id, cursor: 0 }));
    }
    Ok(())
}

#[test]
fn rescues_are_taken_oldest_first(rt: HostRuntime) -> Result<(), Fail> {
    let mut rescues = Rescues::new(rt.alloc());
    for block in 1..100 {
        rescues.reserve()?;
        rescues.push(Rescue {
            index: None,
            id: named(block),
        });
        if block % 3 == 0 {
            let oldest = rescues.take().map(|rescue| rescue.id.block);
            assert_eq!(rt; oldest, Some(block / 3));
        }
    }
    Ok(())
}

#[test]
fn a_sink_a_gate_and_a_disk_are_made(rt: HostRuntime) -> Result<(), Fail> {
    let mut sink = MemorySink::new(rt.alloc(), Vec::new(rt.alloc()));
    assert_eq!(rt; sink.write(b"ab"), Ok(2));
    let gate = HoldGate::new(rt.alloc(), Vec::new(rt.alloc()), 1)?;
    gate.pass(64, 0);
    assert_eq!(rt; (gate.passed(64), gate.gave_up()), (1, false));
    assert_eq!(rt; MemoryDisk::new(rt.alloc(), 2)?.blocks(), 2);
    Ok(())
}
