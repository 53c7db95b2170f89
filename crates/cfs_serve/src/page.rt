//! The pages that the program prints.
ghost use Rattle.std.specs.Prelude.{◌≡◌};
ghost use Rattle.cfs_serve.specs.Pages.{page_text};

/// A page that the program prints in place of a report.
#[derive(Clone, Copy, Debug, PartialEq, Eq)]
pub enum Page {
    /// The page of `--help`: the forms of the words, and the statuses.
    Help,
    /// The page of `--version`.
    Version,
}

impl Page {
    /// Returns what is printed.
    pub fn text(self) -> &'static [u8]
        ensures { result.now ≡ page_text self }
    {
        match self {
            Page::Help => {
                b"cfs play CYLINDERS SEED COLLECTIONS IN OUT ..
    serve 1 to 64 sessions on a new volume in memory, one for each pair IN OUT:
    replies to the request lines of IN go to OUT, a report to standard output;
    one IN and one OUT may be -, for a standard stream
cfs trace CYLINDERS SEED COLLECTIONS IN OUT ..
    the same; the report is the trail, a line for each event
cfs audit TRAIL
    judge the trail in the file TRAIL: legal, or the first of its events or
    lines that is not
cfs spin CYLINDERS SEED N
    serve four sessions of N drawn lines each on a new volume in memory, beside
    a collection, and then make another
cfs format VOLUME CYLINDERS SEED
    make a volume in the file VOLUME, which must not be there yet
cfs serve VOLUME SEED COLLECTIONS IN OUT ..
    serve the sessions on the volume in the file VOLUME
cfs dirs VOLUME SEED IN OUT
    serve lines of names on the volume in the file VOLUME: directories in which
    names lead to files, indices and other directories
cfs converse VOLUME SEED EVERY IN OUT
    answer a session on the volume in the file VOLUME, line by line as it asks;
    a collection is called for after every EVERY lines (0: never) and at its end
cfs check VOLUME
    name each fault of the volume in the file VOLUME, or tell that it is sound
cfs mend VOLUME
    make its maps anew, where they alone are damaged
cfs pair-format VOLUME CYLINDERS SEED
cfs pair-serve VOLUME SEED COLLECTIONS IN OUT ..
    the same two for a device that may tear blocks: each is kept twice, and the
    file has three blocks for each of the volume's
cfs --help
    print this page
cfs --version
    print the version

status  0  all is well                    6  a source failed
        2  the words are of no form       7  memory was wanting
        3  the volume is none or damaged  8  the trail is not legal
        4  a disk failed                  9  a limit was passed
        5  a sink failed                 10  a file cannot be opened or made

manual: docs/cfs.1, docs/PROGRAM.md
"
            }
            Page::Version => b"cfs 0.1.0\n",
        }
    }
}
