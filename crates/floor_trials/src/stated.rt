//! One script with a line for each request, on which sources, sinks and disks fail at each of their calls.
use crate::service::Came;

/// A line for each request. One draft is committed, and one is given up.
pub const STATED: &str =
    "create-index a 4 root 0\ncreate-file f special 2e root 1\nresize f 4\nretain a 3 f\nopen g f write\n\
    write g 1 5a\nread g 0 4\nclose g commit\nopen h f write\nwrite h 2 42\nclose h abort\nsize f\n\
    retrieve b a 3\ndelete root 1\nslots a\n";

/// How many lines it has.
pub const LINES: usize = 15;

/// Their replies. Of the words of the seed the root index has the first, and a grant begins with how many were drawn.
pub const REPLIES: &str =
    "ok 00000003903df1a0\nok 00000006e56a5d40\nok\nok\nok 0000000328bd8653\nok\nok 2e5a2e2e\nok\n\
    ok 00000004b819d2bd\nok\nok\nok 4\nok 00000006e56a5d40\nok\nok 4\n";

/// What a volume is asked on which the script was served.
pub const LOOKING: &str =
    "retrieve a root 0\nslots a\nretrieve f root 1\nsize f\nretrieve h a 3\nread h 0 4\n";

/// What a look is answered after this number of the lines, and on until the next.
const LOOKS: [(usize, &str); 7] = [
    (
        0,
        "no empty\nno name\nno empty\nno name\nno name\nno name\n",
    ),
    (
        1,
        "ok 00000003903df1a0\nok 4\nno empty\nno name\nno empty\nno name\n",
    ),
    (
        2,
        "ok 00000003903df1a0\nok 4\nok 00000006e56a5d40\nok 0\nno empty\nno name\n",
    ),
    (
        3,
        "ok 00000003903df1a0\nok 4\nok 00000006e56a5d40\nok 4\nno empty\nno name\n",
    ),
    (
        4,
        "ok 00000003903df1a0\nok 4\nok 00000006e56a5d40\nok 4\nok 00000006e56a5d40\nok 2e2e2e2e\n",
    ),
    (
        8,
        "ok 00000003903df1a0\nok 4\nok 00000006e56a5d40\nok 4\nok 00000006e56a5d40\nok 2e5a2e2e\n",
    ),
    (
        14,
        "ok 00000003903df1a0\nok 4\nno empty\nno name\nok 00000006e56a5d40\nok 2e5a2e2e\n",
    ),
];

/// Returns whether a volume that answers so holds the effects of the lines that had been answered, and at most one
/// more.
pub fn holds(came: &Came, answered: usize) -> bool {
    let mut until = usize::MAX;
    for (from, look) in LOOKS.iter().rev() {
        if came.first() == look.as_bytes() {
            return *from <= answered.saturating_add(1) && answered < until;
        }
        until = *from;
    }
    false
}
