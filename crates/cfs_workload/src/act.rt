//! What a line of the workload asks, and what it leaves in a slot.
ghost use Rattle.std.specs.Prelude.{◌≡◌, IfOk};
ghost use Rattle.std.specs.String.{string_bytes};
ghost use Rattle.cfs_workload.specs.Workload.{act_of, left_after, act_line, of_file, of_object};
ghost use Rattle.cfs_workload.specs.declared.act.Act.TheVariants as acts;

use std::alloc::{AllocError, Global};

/// What the last create or delete left in a slot.
#[derive(Clone, Copy, Debug, PartialEq, Eq)]
pub enum Left {
    /// No object.
    Nothing,
    /// A file.
    File,
    /// An index.
    Index,
}

/// What a line asks.
#[derive(Clone, Copy, Debug, PartialEq, Eq)]
pub enum Act {
    /// Makes a normal file.
    CreateNormal,
    /// Makes a special file.
    CreateSpecial,
    /// Makes an index.
    CreateIndex,
    /// Empties the slot.
    Delete,
    /// Sets the size of the file.
    Resize,
    /// Writes into the file.
    Write,
    /// Reads a byte of the file.
    Read,
    /// Asks for the size of the file.
    Size,
}

/// Returns what is asked of a slot if this number is drawn.
///
/// What can't be asked of it becomes the create of a normal file.
pub fn act_of(drawn: u32, left: Left) -> Act
    ensures { result ≡ act_of drawn left }
{
    match drawn {
        0 => Act::CreateNormal,
        1 => Act::CreateSpecial,
        2 => Act::CreateIndex,
        3 => of_object(left, Act::Delete),
        4 => of_file(left, Act::Resize),
        5 => of_file(left, Act::Write),
        6 => of_file(left, Act::Read),
        _ => of_file(left, Act::Size),
    }
}

fn of_object(left: Left, act: Act) -> Act
    ensures { result ≡ of_object left act }
{
    match left {
        Left::File | Left::Index => act,
        Left::Nothing => Act::CreateNormal,
    }
}

fn of_file(left: Left, act: Act) -> Act
    ensures { result ≡ of_file left act }
{
    match left {
        Left::File => act,
        Left::Nothing | Left::Index => Act::CreateNormal,
    }
}

/// Returns what the act leaves in the slot.
pub fn left_after(act: Act, left: Left) -> Left
    ensures { result ≡ left_after act left }
{
    match act {
        Act::CreateNormal | Act::CreateSpecial => Left::File,
        Act::CreateIndex => Left::Index,
        Act::Delete => Left::Nothing,
        Act::Resize | Act::Write | Act::Read | Act::Size => left,
    }
}

/// Returns the act's line without its end, for this slot, this size in bytes and this word.
pub fn line_of(
    alloc: Global,
    act: Act,
    slot: usize,
    size: u32,
    word: u32,
) -> Result<String, AllocError>
    ensures { IfOk result (λ line. string_bytes line ≡ act_line act slot size word) }
{
    match act {
        Act::CreateNormal => format!(in alloc; "create-file o{slot} normal 00 top {slot}"),
        Act::CreateSpecial => format!(in alloc; "create-file o{slot} special 2e top {slot}"),
        Act::CreateIndex => format!(in alloc; "create-index o{slot} 64 top {slot}"),
        Act::Delete => format!(in alloc; "delete top {slot}"),
        Act::Resize => format!(in alloc; "resize o{slot} {size}"),
        Act::Write => write_line(alloc, slot, word),
        Act::Read => format!(in alloc; "read o{slot} 0 1"),
        Act::Size => format!(in alloc; "size o{slot}"),
    }
}

/// Returns the line that writes the word at the beginning of a file.
fn write_line(alloc: Global, slot: usize, word: u32) -> Result<String, AllocError>
    ensures { IfOk result (λ line. string_bytes line ≡ act_line acts.Write slot 0 word) }
{
    let digits = hex::encode(alloc, word.to_be_bytes())?;
    format!(in alloc; "write o{slot} 0 {digits}")
}
