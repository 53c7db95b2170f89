//! A directory's table, as it was read.
ghost use Rattle.std.specs.Prelude.{◌≡◌, ◌*◌, ◌<◌, length};

use crate::fault::DirFault;
use crate::row::{ROW, letters_of, row_at};
use crate::text::Text;
use cfs_base::{Bytes, Puid};
use std::alloc::{AllocError, Global};
use std::marker::Model;

/// A directory as it was read: its table, how many rows the table has, and their bytes.
#[derive(Drop)]
pub(crate) struct Table {
    pub file: Puid,
    pub slots: u64,
    pub bytes: Bytes,
    ghost sized: { length bytes ≡ 64 * slots },
    ghost small: { slots < 288230376151711744 },
}

impl Table {
    ghost use Rattle.std.specs.Prelude.{true, IfOk, MatchOption};
    ghost use Rattle.name_dirs.specs.Directory.{row_at};
    ghost use Rattle.name_dirs.specs.Opening as spec;
    ghost use Rattle.name_dirs.specs.Text.{is_row, name_in};

    /// Returns the first place of this row, after the header.
    pub(crate) fn place_of(&self, row: &[u8; ROW]) -> Option<u64>
        ensures { MatchOption result (spec.HasNoRow self.now.bytes self.now.slots row.now)
            (spec.IsFirstRow self.now.bytes self.now.slots row.now) }
    {
        'rows: for place in 1..self.slots {
            if row_at(self.bytes.as_slice(), place as usize) == row.as_slice() {
                return Some(place);
            }
        }
        None
    }

    /// Returns the name of a row, or `None` if it has none.
    pub(crate) fn name_at(&self, alloc: Global, place: u64) -> Result<Option<Text>, AllocError>
        requires { place < self.now.slots }
        ensures { IfOk result (λ name. is_row (row_at self.now.bytes place) ≡ true
            → name ≡ name_in (row_at self.now.bytes place)) }
    {
        match letters_of(row_at(self.bytes.as_slice(), place as usize)) {
            Some(letters) => Text::copied(alloc, letters),
            None => Ok(None),
        }
    }

    /// Returns the fault of a table in which each row but the header has a name.
    pub(crate) fn full(&self) -> DirFault
        ensures { result ≡ spec.full_of self.now.slots }
    {
        DirFault::DirFull {
            capacity: u32::try_from(self.slots.saturating_sub(1)).unwrap_or(u32::MAX),
        }
    }
}
