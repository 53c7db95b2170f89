//! What a session makes of a line.
ghost use Rattle.std.specs.Prelude.{◌≡◌};
ghost use Rattle.cfs_script.specs.NameTable.{names_of};
ghost use Rattle.cfs_ports.specs.Heard.{CanBind, Hears};
ghost use Rattle.ufs_model.specs.Script.{words_of};
ghost use Rattle.ufs_model.specs.Spoken.{all_forms, reading_of, name_spoken};

use cfs_script::{Name, Names, ScriptFault, Spoken, all_verbs, read_line};
use std::alloc::Global;
use ufs_model::{Request, Unread};

/// What a line was heard as.
#[derive(Drop)]
pub enum Heard {
    /// A request, and the name that an ok reply to it binds.
    Ready {
        request: Request,
        name: Option<Name>,
    },
    /// No request, and why.
    Not(Unread),
}

/// Reads a line, and makes room for the name that it may bind.
///
/// If memory is wanting for either, the line is heard as no request. The names stay as they were.
pub(crate) fn hear(alloc: Global, line: &[u8], names: &mut Names) -> Heard
    ensures heard { Hears (reading_of all_forms (names_of names.old) line.now)
        (name_spoken all_forms (words_of line.now)) result }
    ensures names { names_of names.new ≡ names_of names.old }
    ensures room { CanBind result names.new.room }
{
    let Spoken { request, name } = match read_line(alloc, &all_verbs(), line, names) {
        Ok(spoken) => spoken,
        Err(ScriptFault::Syntax) => return Heard::Not(Unread::Syntax),
        Err(ScriptFault::NoName) => return Heard::Not(Unread::NoName),
        Err(ScriptFault::Memory) => return Heard::Not(Unread::Memory),
    };
    if name.is_some() && names.reserve().is_err() {
        return Heard::Not(Unread::Memory);
    }
    Heard::Ready { request, name }
}
