//! The script of a session, line after line.
ghost use Rattle.std.specs.Prelude.{◌≡◌, ◌<◌, IfOk};
ghost use Rattle.cfs_workload.specs.Workload.{script, size_in, slot_drawn, word_of};

use crate::act::{Left, act_of, left_after, line_of};
use cfs_base::NoMemory;
use rand_chacha::ChaCha20Rng;
use rand_core::SeedableRng;
use rand_core::utils::NextWord;
use std::alloc::Global;

/// How many slots lines name.
const SLOTS: usize = 64;

/// Returns the word at a place of the session's stream.
#[tactic(auto, unfolding(crate::specs::Workload::word_of))]
fn word_of(seed: u64, session: u32, place: u64) -> u32
    requires { session < 4 }
    ensures { result ≡ word_of seed session place }
{
    let s = seed.to_le_bytes();
    let own = session as u8 + 1;
    let mut stream = ChaCha20Rng::from_seed([
        s[0], s[1], s[2], s[3], s[4], s[5], s[6], s[7], own, 0, 0, 0, 0, 0, 0, 0, 0, 0, 0, 0, 0, 0,
        0, 0, 0, 0, 0, 0, 0, 0, 0, 0,
    ]);
    stream.set_word_pos(u128::from(place));
    stream.next_word()
}

/// Returns the slot that a word names.
fn slot_in(word: u32) -> usize
    ensures slot { result ≡ slot_drawn word }
    ensures within { result < 64 }
{
    (word / 8 % 64) as usize
}

/// Returns the size that a word names, in bytes.
fn size_in(word: u32) -> u32
    ensures { result ≡ size_in word }
{
    word / 512 % 4_096
}

/// Returns the script of a session, with `count` lines after the first.
///
/// `NoMemory` comes only for want of memory.
pub fn script(alloc: Global, seed: u64, session: u32, count: u64) -> Result<Vec<u8>, NoMemory>
    requires { session < 4 }
    ensures { IfOk result (λ text. text.items ≡ script seed session count) }
{
    let first = format!(in alloc; "create-index top 64 root {session}")?;
    let mut text = Vec::from_slice(alloc, first.as_bytes())?;
    text.push(b'\n')?;
    let mut left = [Left::Nothing; SLOTS];
    'lines: for place in 0..count {
        let word = word_of(seed, session, place);
        let slot = slot_in(word);
        let act = act_of(word % 8, left[slot]);
        let line = line_of(alloc, act, slot, size_in(word), word)?;
        text.extend_from_slice(line.as_bytes())?;
        text.push(b'\n')?;
        left[slot] = left_after(act, left[slot]);
    }
    Ok(text)
}
