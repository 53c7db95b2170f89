//! Worked lines, and spellings that are refused.
use std::alloc::Global;
use std::test::Fail;
use trail_text::{TrailFault, print_event, read_event};

/// A run of one session that makes an index and reads slots, with the words of seed 0, and then lines of each other
/// kind.
const LINES: [&[u8]; 21] = [
    b"ask 0 create-index 4 00000002ade0b876 0 = ok 00000003903df1a0",
    b"ask 0 retrieve 00000002ade0b876 0 = ok 00000003903df1a0",
    b"ask 0 slots 00000003903df1a0 = ok 4",
    b"ask 0 retrieve 00000002ade0b876 63 = no empty",
    b"ask 0 retrieve 00000002ade0b876 64 = no slot",
    b"leave 0",
    b"unread 63 syntax",
    b"unread 4294967295 name",
    b"ask 1 create-file special 2e 00000002ade0b876 18446744073709551615 = no memory",
    b"ask 1 open 00000003903df1a0 write = ok 00000002e56a5d40",
    b"ask 1 write g00000002e56a5d40 0 41424344 = ok",
    b"ask 1 read g00000002e56a5d40 0 4 = ok 41424344",
    b"ask 1 close g00000002e56a5d40 commit = no disk 88",
    b"ask 1 size 00000003903df1a0 = no stopped 88",
    b"ask 2 retain 00000002ade0b876 1 00000003903df1a0 = no full 6 3",
    b"ask 2 resize 00000003903df1a0 7864320 = no damaged 64 2 9",
    b"leave 1 88",
    b"began",
    b"vanish 2 00000003903df1a0 00000004e56a5d40",
    b"finished",
    b"halted 0",
];

/// Lines that differ a little from the line of an event.
///
/// They have an empty line, other blanks, a sign or a zero before a number, a number past its width, upper case, a
/// grant without its mark, a reply of another request's form, no bytes, a wrong count, an order that doesn't
/// increase, too many words, and a line's end.
const BAD_LINES: [&[u8]; 20] = [
    b"",
    b" began",
    b"began ",
    b"leave  0",
    b"leave\t0",
    b"leave 00",
    b"leave +1",
    b"leave 4294967296",
    b"halted 18446744073709551616",
    b"ask 0 slots 00000003903DF1A0 = ok 4",
    b"ask 0 slots 3903df1a0 = ok 4",
    b"ask 1 close 00000002e56a5d40 commit = ok",
    b"ask 0 slots 00000003903df1a0 = ok",
    b"ask 0 slots 00000003903df1a0 = ok 04",
    b"ask 0 delete 00000002ade0b876 0 = ok 4",
    b"ask 1 write g00000002e56a5d40 0  = ok",
    b"vanish 1 00000003903df1a0 00000004e56a5d40",
    b"vanish 2 00000004e56a5d40 00000003903df1a0",
    b"began 0",
    b"began\n",
];

/// Returns whether the line is read as an event whose line it is.
fn comes_back(alloc: Global, line: &[u8]) -> bool {
    let Ok(event) = read_event(alloc, line) else {
        return false;
    };
    match print_event(alloc, &event) {
        Ok(printed) => printed.as_bytes() == line,
        Err(_) => false,
    }
}

fn is_refused(alloc: Global, line: &[u8]) -> bool {
    matches!(read_event(alloc, line), Err(TrailFault::BadLine))
}

#[test]
fn lines_come_back_and_other_spellings_are_refused(rt: HostRuntime) -> Result<(), Fail> {
    for line in LINES {
        assert!(rt; comes_back(rt.alloc(), line));
    }
    for line in BAD_LINES {
        assert!(rt; is_refused(rt.alloc(), line));
    }
    Ok(())
}
