//! The commands of the program.
ghost use Rattle.std.specs.Prelude.{◌≤◌, ◌+◌, ◌*◌, length, map, string_bytes};
ghost use Rattle.cfs_serve.specs.Words.{files_in, most_made};

use crate::page::Page;

/// What the words of a command ask for.
#[derive(Clone, Copy, Debug)]
pub enum Command<'a> {
    /// To show a page.
    Page(Page),
    /// To make a volume.
    Format(Format<'a>),
    /// To audit the trail in the file of this name.
    Audit(&'a str),
    /// To check the volume in the file of this name.
    Check(&'a str),
    /// To mend the volume in the file of this name.
    Mend(&'a str),
    /// To serve sessions on a new volume in memory.
    Play(Play<'a>),
    /// To serve drawn sessions on a new volume in memory.
    Spin(Spin),
    /// To serve sessions on a volume in a file.
    Serve(Serve<'a>),
    /// To serve lines of names on a volume in a file.
    Dirs(Dirs<'a>),
    /// To answer a session on a volume in a file as it asks.
    Converse(Converse<'a>),
}

/// A volume that is to be made.
#[derive(Clone, Copy, Debug)]
pub struct Format<'a> {
    /// The name of its file.
    pub volume: &'a str,
    /// How many cylinders of 64 blocks it has.
    pub cylinders: u32,
    /// The seed of the root index's identifier.
    pub seed: u64,
    /// Whether its file is one of pairs of blocks.
    pub pair: bool,
    ghost sized: { (1 ≤ cylinders) × (cylinders ≤ most_made pair) },
}

/// Sessions on a new volume in memory.
#[derive(Clone, Copy, Debug)]
pub struct Play<'a> {
    /// How many cylinders of 64 blocks the volume has.
    pub cylinders: u32,
    /// The seed of the service.
    pub seed: u64,
    /// How many collections are called for.
    pub collections: u32,
    /// The names of the sessions' files: for each the request file, and then the reply file.
    pub files: &'a [String],
    /// Whether the report is the trail.
    pub traced: bool,
    ghost sized: { (1 ≤ cylinders) × (cylinders ≤ 1024) },
    ghost most: { collections ≤ 1000 },
    ghost few: { length (files_in (map string_bytes files.now)) ≤ 64 },
}

/// Four drawn sessions on a new volume in memory.
#[derive(Clone, Copy, Debug)]
pub struct Spin {
    /// How many cylinders of 64 blocks the volume has.
    pub cylinders: u32,
    /// The seed of the service, and of the lines that are drawn.
    pub seed: u64,
    /// How many lines are drawn for each session, after its first.
    pub count: u64,
    ghost sized: { (1 ≤ cylinders) × (cylinders ≤ 1024) },
    ghost fits: { 12 * count + 64 ≤ 63 * cylinders },
}

/// Sessions on a volume in a file.
#[derive(Clone, Copy, Debug)]
pub struct Serve<'a> {
    /// The name of the volume's file.
    pub volume: &'a str,
    /// The seed of the service.
    pub seed: u64,
    /// How many collections are called for.
    pub collections: u32,
    /// The names of the sessions' files: for each the request file, and then the reply file.
    pub files: &'a [String],
    /// Whether the volume's file is one of pairs of blocks.
    pub pair: bool,
    ghost most: { collections ≤ 1000 },
    ghost few: { length (files_in (map string_bytes files.now)) ≤ 64 },
}

/// Lines of names on a volume in a file.
#[derive(Clone, Copy, Debug)]
pub struct Dirs<'a> {
    /// The name of the volume's file.
    pub volume: &'a str,
    /// The seed of the service.
    pub seed: u64,
    /// The name of the file from which the lines come.
    pub input: &'a str,
    /// The name of the file to which their answers go.
    pub output: &'a str,
}

/// A session on a volume in a file, answered as it asks.
#[derive(Clone, Copy, Debug)]
pub struct Converse<'a> {
    /// The name of the volume's file.
    pub volume: &'a str,
    /// The seed of the service.
    pub seed: u64,
    /// After how many lines a collection is called for, or 0 for never.
    pub every: u64,
    /// The name of the file from which the lines come.
    pub input: &'a str,
    /// The name of the file to which their replies go.
    pub output: &'a str,
    ghost most: { every ≤ 500000 },
}
