//! The first line of a trail and its last.
ghost use Rattle.std.specs.Prelude.{◌≡◌, ◌&&◌, IfErr, IfOk, true};
ghost use Rattle.std.specs.Str.{bytes_eq};
ghost use Rattle.std.specs.String.{string_bytes};
ghost use Rattle.trail_text.specs.EventLine.{in_8};
ghost use Rattle.trail_text.specs.Read.{IsNoneOf, opening_read, texts};
ghost use Rattle.trail_text.specs.Trail.{opening_fits, opening_line, status_line};
ghost use Rattle.trail_text.specs.declared.fault.TrailFault.TheVariants as faults;

use crate::fault::TrailFault;
use crate::print::line_of;
use crate::read_word::{number_in, number_in_8, number_in_32, word_at, words_in};
use crate::word::Word::{Code, Number, Small};
use cfs_base::NoMemory;
use std::alloc::Global;

/// What the first line says.
#[derive(Clone, Copy, Debug, PartialEq, Eq)]
pub struct Opening {
    /// The number of cylinders of the volume, 1 to 1,024.
    pub cylinders: u32,
    /// The seed of the words.
    pub seed: u64,
}

/// Returns the first line, without its end.
///
/// `NoMemory` comes only for want of memory.
pub fn print_opening(alloc: Global, opening: Opening) -> Result<String, NoMemory>
    ensures { IfOk result (λ line. string_bytes line ≡ opening_line opening) }
{
    let words = [Small(opening.cylinders), Number(opening.seed)];
    line_of(alloc, "trail", &words)
}

/// Reads this first line, which is handed in without its end.
///
/// `BadLine` comes exactly if it is no first line. `Memory` may come in the place of any result.
pub fn read_opening(alloc: Global, line: &[u8]) -> Result<Opening, TrailFault>
    ensures fits { IfOk result (λ opening. opening_fits opening ≡ true) }
    ensures line { IfOk result (λ opening. line.now ≡ opening_line opening) }
    ensures bad { IfErr result (λ fault. fault ≡ faults.BadLine → IsNoneOf opening_fits opening_line line.now) }
{
    let words = words_in(alloc, line)?;
    let opening = opening_in(words.as_slice());
    if !is_opening(alloc, line, opening)? {
        return Err(TrailFault::BadLine);
    }
    Ok(opening)
}

/// Returns the only opening that these words can be of.
fn opening_in(words: &[&[u8]]) -> Opening
    ensures { result ≡ opening_read (texts words.now) }
{
    Opening {
        cylinders: number_in_32(word_at(words, 1)),
        seed: number_in(word_at(words, 2)),
    }
}

fn is_opening(alloc: Global, line: &[u8], opening: Opening) -> Result<bool, NoMemory>
    ensures { IfOk result (λ is. is ≡ (opening_fits opening && bytes_eq line.now (opening_line opening))) }
{
    let printed = print_opening(alloc, opening)?;
    Ok(fits(opening) && line == printed.as_bytes())
}

fn fits(opening: Opening) -> bool
    ensures { result ≡ opening_fits opening }
{
    0 < opening.cylinders && opening.cylinders <= 1_024
}

/// Returns the last line, without its end.
///
/// `NoMemory` comes only for want of memory.
pub fn print_status(alloc: Global, status: u8) -> Result<String, NoMemory>
    ensures { IfOk result (λ line. string_bytes line ≡ status_line status) }
{
    line_of(alloc, "status", &[Code(status)])
}

/// Reads the status in this last line, which is handed in without its end.
///
/// `BadLine` comes exactly if it is no last line. `Memory` may come in the place of any result.
pub fn read_status(alloc: Global, line: &[u8]) -> Result<u8, TrailFault>
    ensures line { IfOk result (λ status. line.now ≡ status_line status) }
    ensures bad { IfErr result (λ fault. fault ≡ faults.BadLine → IsNoneOf in_8 status_line line.now) }
{
    let words = words_in(alloc, line)?;
    let status = number_in_8(word_at(words.as_slice(), 1));
    if !is_status(alloc, line, status)? {
        return Err(TrailFault::BadLine);
    }
    Ok(status)
}

fn is_status(alloc: Global, line: &[u8], status: u8) -> Result<bool, NoMemory>
    ensures { IfOk result (λ is. is ≡ (in_8 status && bytes_eq line.now (status_line status))) }
{
    let printed = print_status(alloc, status)?;
    Ok(line == printed.as_bytes())
}
