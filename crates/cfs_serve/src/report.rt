//! The report of a run, and its status.
ghost use Rattle.std.specs.Prelude.{◌≡◌, ◌++◌, codes};
ghost use Rattle.cfs_streams.specs.Writing.{WritesWhole};
ghost use Rattle.std.specs.Fmt.{decimal};
ghost use Rattle.cfs_serve.specs.Report.{numbered, paired};

use crate::page::Page;
use cfs_base::{Damage, Failed, Sink};
use cfs_check::Damages;
use cfs_streams::write_whole;
use itoa::Buffer;
use std::alloc::Global;

/// What was served, in numbers.
#[derive(Clone, Copy, Debug, PartialEq, Eq)]
pub struct Counts {
    /// How many sessions there were.
    pub sessions: u64,
    /// How many request lines were answered.
    pub replies: u64,
    /// How many collections were finished.
    pub collections: u64,
    /// How many objects the graph has.
    pub objects: u64,
    /// How many blocks are Free.
    pub free: u64,
}

/// What is wrong with a volume.
#[derive(Clone, Copy, Debug, PartialEq, Eq)]
pub enum VolumeFault {
    /// The file holds no volume.
    NotVolume,
    /// The file holds a volume of another version, which is this one.
    Version(u32),
    /// A block of the volume is damaged.
    Damaged(Damage),
}

/// What a run came to: nothing to report, what ended it early or spoiled it, or what it found.
#[derive(Clone, Copy, Debug, PartialEq, Eq)]
pub enum Cause {
    /// All went well, and there is nothing more to report.
    Nothing,
    /// This page was asked for, and is all that the report has.
    Page(Page),
    /// The words are of no form.
    Words,
    /// The volume was refused as it was opened, or its service stopped at a block that is damaged.
    Volume(VolumeFault),
    /// The volume's disk failed. If the service stopped, this is the moment of the disk at which it did.
    Disk(Option<u64>),
    /// A session's sink failed.
    Sink,
    /// The source of this number failed.
    Source(u64),
    /// Memory was wanting, for a reply or elsewhere.
    Memory,
    /// The source of this number has more bytes than a request file, or an audited trail, may have.
    Long(u64),
    /// The files have more request lines than a run may have.
    LongTotal,
    /// The volume has more blocks than can be checked or mended.
    LongVolume,
    /// The trail is legal, and has `events` events.
    Legal { events: u64 },
    /// This line of the trail, counted from 1, is not one that a trail may have there.
    BadLine { line: u64 },
    /// This event of the trail, counted from 1, may not happen.
    Illegal { event: u64 },
    /// The volume is sound. It has `objects` objects, and `left` blocks beside these, the maps and the label.
    Sound { objects: u32, left: u32 },
}

impl Cause {
    ghost use Rattle.cfs_serve.specs.Report.{status_of};

    /// Returns the status of a run that ended for this cause.
    pub fn status(self) -> u8
        ensures { result ≡ status_of self }
    {
        match self {
            Cause::Nothing | Cause::Page(_) | Cause::Legal { .. } | Cause::Sound { .. } => 0,
            Cause::Words => 2,
            Cause::Volume(_) => 3,
            Cause::Disk(_) => 4,
            Cause::Sink => 5,
            Cause::Source(_) => 6,
            Cause::Memory => 7,
            Cause::BadLine { .. } | Cause::Illegal { .. } => 8,
            Cause::Long(_) | Cause::LongTotal | Cause::LongVolume => 9,
        }
    }

    ghost use Rattle.cfs_serve.specs.Text.{last_cause};

    /// Returns the cause that the status gives. `short` is set if memory was wanting for a line of the report.
    pub(crate) fn at_last(self, short: bool) -> Cause
        ensures { result ≡ last_cause short self }
    {
        match self {
            Cause::Nothing if short => Cause::Memory,
            cause => cause,
        }
    }

    ghost use Rattle.cfs_serve.specs.Report.{cause_text};

    /// Writes the line of the cause, if it has one.
    fn write_line<K: Sink>(self, sink: &mut K) -> Result<(), Failed>
        ensures { WritesWhole (K.intake sink.old) (K.intake sink.new) (cause_text self) result }
    {
        match self {
            Cause::Nothing | Cause::Page(_) => Ok(()),
            Cause::Words => write_whole(sink, b"words\n"),
            Cause::Volume(fault) => fault.write(sink),
            Cause::Disk(None) => write_whole(sink, b"disk\n"),
            Cause::Disk(Some(moment)) => write_number(sink, b"disk", moment),
            Cause::Sink => write_whole(sink, b"sink\n"),
            Cause::Source(source) => write_number(sink, b"source", source),
            Cause::Memory => write_whole(sink, b"memory\n"),
            Cause::Long(source) => write_number(sink, b"long", source),
            Cause::LongTotal => write_whole(sink, b"long total\n"),
            Cause::LongVolume => write_whole(sink, b"long volume\n"),
            Cause::Legal { events } => write_number(sink, b"legal", events),
            Cause::BadLine { line } => write_number(sink, b"bad line", line),
            Cause::Illegal { event } => write_number(sink, b"illegal", event),
            Cause::Sound { objects, left } => write_pair(sink, b"sound ", objects, left),
        }
    }

    /// Writes the line of the cause and that of the status.
    fn write_told<K: Sink>(self, sink: &mut K) -> Result<(), Failed>
        ensures { WritesWhole (K.intake sink.old) (K.intake sink.new)
            (cause_text self ++ numbered (codes "status") (status_of self)) result }
    {
        self.write_line(sink)?;
        write_number(sink, b"status", u64::from(self.status()))
    }

    ghost use Rattle.cfs_serve.specs.Report.{ending_text};

    /// Writes the lines that end the report, or the page in its place.
    fn write_ending<K: Sink>(self, sink: &mut K) -> Result<(), Failed>
        ensures { WritesWhole (K.intake sink.old) (K.intake sink.new) (ending_text self) result }
    {
        match self {
            Cause::Page(page) => write_whole(sink, page.text()),
            _ => self.write_told(sink),
        }
    }
}

/// Writes a line of a word and a number.
pub(crate) fn write_number<K: Sink>(sink: &mut K, word: &[u8], number: u64) -> Result<(), Failed>
    ensures { WritesWhole (K.intake sink.old) (K.intake sink.new) (numbered word.now number) result }
{
    let mut digits = Buffer::new();
    write_whole(sink, word)?;
    write_whole(sink, b" ")?;
    write_whole(sink, digits.format(number).as_bytes())?;
    write_whole(sink, b"\n")
}

/// Writes the beginning of a line of two numbers: the word, with its blank, and the first.
fn write_first<K: Sink>(sink: &mut K, word: &[u8], first: u32) -> Result<(), Failed>
    ensures { WritesWhole (K.intake sink.old) (K.intake sink.new) (word.now ++ decimal first) result }
{
    let mut digits = Buffer::new();
    write_whole(sink, word)?;
    write_whole(sink, digits.format(first).as_bytes())
}

/// Writes a line of a word, with its blank, and two numbers.
fn write_pair<K: Sink>(sink: &mut K, word: &[u8], first: u32, second: u32) -> Result<(), Failed>
    ensures { WritesWhole (K.intake sink.old) (K.intake sink.new) (paired word.now first second) result }
{
    write_first(sink, word, first)?;
    write_number(sink, b"", u64::from(second))
}

/// Writes a line of a word, with its blank, and a damage.
fn write_damage<K: Sink>(sink: &mut K, word: &[u8], damage: Damage) -> Result<(), Failed>
    ensures { WritesWhole (K.intake sink.old) (K.intake sink.new) (paired word.now damage.block damage.code) result }
{
    write_pair(sink, word, damage.block, u32::from(damage.code))
}

impl VolumeFault {
    ghost use Rattle.cfs_serve.specs.Report.{fault_text};

    /// Writes the line of the fault.
    fn write<K: Sink>(self, sink: &mut K) -> Result<(), Failed>
        ensures { WritesWhole (K.intake sink.old) (K.intake sink.new) (fault_text self) result }
    {
        match self {
            VolumeFault::NotVolume => write_whole(sink, b"volume not-volume\n"),
            VolumeFault::Version(found) => {
                write_number(sink, b"volume version", u64::from(found))
            }
            VolumeFault::Damaged(damage) => write_damage(sink, b"volume damaged ", damage),
        }
    }
}

impl Counts {
    ghost use Rattle.std.specs.Prelude.{Some};
    ghost use Rattle.cfs_serve.specs.Report.{counts_text, served_text};

    /// Writes a line for each count.
    fn write<K: Sink>(self, sink: &mut K) -> Result<(), Failed>
        ensures { WritesWhole (K.intake sink.old) (K.intake sink.new) (counts_text (Some self)) result }
    {
        self.write_served(sink)?;
        write_number(sink, b"free", self.free)
    }

    /// Writes a line for each count but the last.
    fn write_served<K: Sink>(self, sink: &mut K) -> Result<(), Failed>
        ensures { WritesWhole (K.intake sink.old) (K.intake sink.new) (served_text self) result }
    {
        write_number(sink, b"sessions", self.sessions)?;
        write_number(sink, b"replies", self.replies)?;
        write_number(sink, b"collections", self.collections)?;
        write_number(sink, b"objects", self.objects)
    }
}

/// The report of a run.
#[derive(Debug, Drop)]
pub struct Report {
    /// What was served, or `None` if nothing was.
    pub counts: Option<Counts>,
    /// The faults of a volume that was checked.
    pub faults: Damages,
    /// What the run came to, by which its status goes.
    pub cause: Cause,
}

impl Report {
    ghost use Rattle.std.specs.Prelude.{◌≡◌};
    ghost use Rattle.cfs_serve.specs.Report as spec;
    ghost use Rattle.cfs_serve.specs.Report.{counts_text, fault_lines, report_text};

    /// Returns the report of a run that served nothing and found no faults to list. Takes no memory.
    pub(crate) fn untold(alloc: Global, cause: Cause) -> Report
        ensures { result ≡ spec.untold cause }
    {
        Report {
            counts: None,
            faults: Damages::of(Vec::new(alloc)),
            cause,
        }
    }

    /// Writes a line for each fault.
    fn write_faults<K: Sink>(&self, sink: &mut K) -> Result<(), Failed>
        ensures { WritesWhole (K.intake sink.old) (K.intake sink.new) (fault_lines self.now.faults) result }
    {
        let faults = self.faults.as_slice();
        'faults: for fault in faults {
            write_damage(sink, b"fault ", *fault)?;
        }
        Ok(())
    }

    /// Writes the lines of the counts, if something was served.
    fn write_counts<K: Sink>(&self, sink: &mut K) -> Result<(), Failed>
        ensures { WritesWhole (K.intake sink.old) (K.intake sink.new) (counts_text self.now.counts) result }
    {
        match self.counts {
            Some(counts) => counts.write(sink),
            None => Ok(()),
        }
    }

    /// Writes the lines of the report.
    ///
    /// If the sink fails, it has taken some beginning of them.
    pub fn write<K: Sink>(&self, sink: &mut K) -> Result<(), Failed>
        ensures { WritesWhole (K.intake sink.old) (K.intake sink.new) (report_text self.now) result }
    {
        self.write_faults(sink)?;
        self.write_counts(sink)?;
        self.cause.write_ending(sink)
    }
}
