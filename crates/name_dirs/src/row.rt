//! The rows of a table, each with a name or with none.
ghost use Rattle.std.specs.Prelude.{◌≡◌, ◌+◌, ◌*◌, ◌≤◌, ◌==◌, length, false, true, MatchOption};
ghost use Rattle.std.specs.List.{list_all};
ghost use Rattle.name_dirs.specs.Directory.{row_at};
ghost use Rattle.name_dirs.specs.Text.{header, is_row, letters_in, longest_name, row_size, spelled};

use crate::text::{LONGEST_NAME, has_name_bytes};

/// The number of bytes of a row.
pub(crate) const ROW: usize = 64;

/// The row of no name.
pub(crate) const NO_NAME: [u8; ROW] = [0; ROW];

/// Returns the first row of a table, which names nothing.
pub(crate) fn header() -> [u8; ROW]
    ensures { result ≡ header }
{
    let mut row = NO_NAME;
    row[..8].copy_from_slice(b"CFSDIR01");
    row
}

/// Returns the row of a name.
pub(crate) fn row_of(name: &[u8]) -> [u8; ROW]
    requires { length name.now ≤ longest_name }
    ensures { result ≡ spelled name.now }
{
    let mut row = NO_NAME;
    row[0] = name.len() as u8;
    row[1..1 + name.len()].copy_from_slice(name);
    row
}

/// Returns the letters of a row's name, which are none if it has no name, or `None` if these bytes are no row.
pub(crate) fn letters_of(row: &[u8]) -> Option<&[u8]>
    requires { length row.now ≡ row_size }
    ensures { MatchOption result (is_row row.now ≡ false)
        (λ letters. (is_row row.now ≡ true) × (letters.now ≡ letters_in row.now)) }
{
    let length = row[0] as usize;
    if length > LONGEST_NAME {
        return None;
    }
    let (letters, rest) = row[1..].split_at(length);
    if !has_name_bytes(letters) || !are_zeros(rest) {
        return None;
    }
    Some(letters)
}

fn are_zeros(bytes: &[u8]) -> bool
    ensures { result ≡ list_all (λ byte. byte == 0) bytes.now }
{
    bytes.iter().all(|byte| *byte == 0)
}

/// Returns the row at a place of these bytes.
pub(crate) fn row_at(bytes: &[u8], place: usize) -> &[u8]
    requires { row_size * place + row_size ≤ length bytes.now }
    ensures row { result.now ≡ row_at bytes.now place }
    ensures size { length result.now ≡ row_size }
{
    &bytes[ROW * place..ROW * place + ROW]
}
