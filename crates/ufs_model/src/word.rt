//! The random words.
ghost use Rattle.std.specs.Prelude.{◌≡◌, ◌+◌, ◌<◌, ◌^◌};
ghost use Rattle.ufs_model.specs.Word.{Drawing, word, words_from};

use rand_chacha::ChaCha20Rng;
use rand_core::SeedableRng;
use rand_core::utils::NextWord;
use std::marker::Model;

/// Returns the stream of a seed, from its first word on.
#[tactic(auto, unfolding(crate::specs::Word::words_from))]
fn stream_of(seed: u64) -> ChaCha20Rng
    ensures { result ≡ words_from seed 0 }
{
    let s = seed.to_le_bytes();
    let key = [
        s[0], s[1], s[2], s[3], s[4], s[5], s[6], s[7], 0, 0, 0, 0, 0, 0, 0, 0, 0, 0, 0, 0, 0, 0,
        0, 0, 0, 0, 0, 0, 0, 0, 0, 0,
    ];
    ChaCha20Rng::from_seed(key)
}

/// Returns the word at place `k` of the stream of a seed.
///
/// The root identifier has word 0.
#[tactic(auto, unfolding(crate::specs::Word::word, crate::specs::Word::words_from))]
pub fn word_of(seed: u64, k: u32) -> u32
    ensures { result ≡ word seed k }
{
    let mut stream = stream_of(seed);
    stream.set_word_pos(u128::from(k));
    stream.next_word()
}

/// The words of a seed, drawn one after another from place 1 on.
#[derive(Drop)]
pub struct Words {
    seed: u64,
    drawn: u32,
    /// The word that is drawn next, and the stream from the one after it.
    next: u32,
    stream: ChaCha20Rng,
}

impl Model for Words {
    ghost use Rattle.ufs_model.specs.Word.{Drawing, word, words_from};
    ghost use Rattle.std.specs.Prelude.{◌≡◌, ◌+◌};

    ghost Value = { Drawing };

    ghost view = { λ w. record { seed = w.seed; drawn = w.drawn } };

    ghost invariant = { λ w. (w.next ≡ word w.seed (w.drawn + 1)) × (w.stream ≡ words_from w.seed (w.drawn + 2)) };
}

impl Words {
    /// Begins the words of a seed, with none drawn.
    pub fn new(seed: u64) -> Words
        ensures { result ≡ record { seed = seed; drawn = 0 } }
    {
        let mut stream = stream_of(seed);
        let _root = stream.next_word();
        Words {
            seed,
            drawn: 0,
            next: stream.next_word(),
            stream,
        }
    }

    /// Returns how many words were drawn.
    pub fn drawn(&self) -> u32
        ensures { result ≡ self.now.drawn }
    {
        self.drawn
    }

    /// Returns the word that is drawn next, and doesn't draw it.
    pub fn next(&self) -> u32
        ensures { result ≡ word self.now.seed (self.now.drawn + 1) }
    {
        self.next
    }

    /// Draws the next word.
    pub fn draw(&mut self)
        requires { self.old.drawn < 4294967295 }
        ensures { self.new ≡ record self.old { drawn = self.old.drawn + 1 } }
    {
        self.drawn += 1;
        self.next = self.stream.next_word();
    }
}
