//! A script of the workload.
use cfs_workload::script;
use std::test::Fail;

/// The first lines of session 0 at seed 0.
///
/// The words were worked out apart, by the cipher's rules from the key of the seed and the session, after the same
/// rules had given the five words with which a volume of seed 0 begins.
const LINES: &str = "\
create-index top 64 root 0\n\
create-file o52 normal 00 top 52\n\
create-file o60 special 2e top 60\n\
create-file o27 normal 00 top 27\n\
create-file o0 normal 00 top 0\n\
create-file o30 special 2e top 30\n\
create-file o9 normal 00 top 9\n\
create-file o17 normal 00 top 17\n\
create-file o45 normal 00 top 45\n\
create-file o39 normal 00 top 39\n\
create-file o14 normal 00 top 14\n\
create-file o34 normal 00 top 34\n\
create-file o19 normal 00 top 19\n\
create-file o25 normal 00 top 25\n\
create-file o58 special 2e top 58\n\
create-file o56 normal 00 top 56\n\
create-file o2 normal 00 top 2\n\
size o27\n\
create-file o38 special 2e top 38\n\
write o58 0 61b97bd5\n\
create-file o5 normal 00 top 5\n\
create-index o25 64 top 25\n\
resize o30 1933\n";

#[test]
fn lines_are_drawn_from_the_seed(rt: HostRuntime) -> Result<(), Fail> {
    let lines = script(rt.alloc(), 0, 0, 22).ok().ok_or("memory")?;
    assert!(rt; lines.as_slice() == LINES.as_bytes());
    Ok(())
}
