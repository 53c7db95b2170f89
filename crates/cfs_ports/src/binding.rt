//! The name that a reply binds.
ghost use Rattle.std.specs.Prelude.{◌≡◌};
ghost use Rattle.cfs_script.specs.NameTable.{names_of};
ghost use Rattle.cfs_ports.specs.Heard.{HasRoomForName};
ghost use Rattle.ufs_model.specs.Turns.{names_after_reply};

use cfs_script::{Name, Names};
use ufs_model::{Bound, Reply};

/// Binds the name of a request to what its reply gave.
///
/// Nothing is bound if the reply gave neither an identifier nor a grant. Takes no memory.
pub(crate) fn bind_reply(names: &mut Names, name: Option<Name>, reply: &Reply)
    requires { HasRoomForName name names.old.room }
    ensures { names_of names.new ≡ names_after_reply (names_of names.old) name reply.now }
{
    let Some(name) = name else {
        return;
    };
    match reply {
        Reply::Id(id) => names.bind(name, Bound::Permanent(*id)),
        Reply::Grant(grant) => names.bind(name, Bound::Temporary(*grant)),
        _ => {}
    }
}
