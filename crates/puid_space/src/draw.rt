//! The random words, drawn in turn.
ghost use Rattle.std.specs.Prelude.{◌≡◌, ◌+◌, ◌<◌, ℕ};
ghost use Rattle.ufs_model.specs.Word.{word};
ghost use Rattle.puid_space.specs.Draw.{stream_at};

use rand_chacha::ChaCha20Rng;
use rand_core::SeedableRng;
use rand_core::utils::NextWord;
use std::marker::Model;
use ufs_model::word_of;

/// A word that was drawn, and the number of its draw. The first draw has number 1.
#[derive(Clone, Copy, Debug, PartialEq, Eq)]
pub struct Drawn {
    pub draw: u32,
    pub word: u32,
}

/// The words of a seed, drawn in turn. Word 0 is the root identifier's, and isn't drawn.
#[derive(Drop)]
pub struct Draw {
    seed: u64,
    drawn: u32,
    /// The word of the next draw.
    ahead: u32,
    stream: ChaCha20Rng,
}

impl Model for Draw {
    ghost use Rattle.puid_space.specs.Draw.{Draws, stream_at};

    ghost Value = { Draws };

    ghost use Rattle.std.specs.Prelude.{◌≡◌, ◌+◌};
    ghost use Rattle.ufs_model.specs.Word.{word};

    ghost view = { λ d. record { seed = d.seed; drawn = d.drawn } };

    ghost invariant = { λ d. (d.stream ≡ stream_at d.seed (d.drawn + 2)) × (d.ahead ≡ word d.seed (d.drawn + 1)) };
}

impl Draw {
    /// Begins the words of a seed, with none drawn.
    #[tactic(auto, unfolding(ufs_model::specs::Word::word))]
    pub fn new(seed: u64) -> Draw
        ensures { result ≡ record { seed = seed; drawn = 0 } }
    {
        let mut stream = first_draw(seed);
        let ahead = stream.next_word();
        Draw {
            seed,
            drawn: 0,
            ahead,
            stream,
        }
    }

    /// Returns how many words were drawn.
    pub fn drawn(&self) -> u32
        ensures { result ≡ self.now.drawn }
    {
        self.drawn
    }

    /// Draws the next word.
    ///
    /// The number of draws must be below the greatest of its type.
    #[tactic(auto, unfolding(ufs_model::specs::Word::word))]
    pub fn next(&mut self) -> Drawn
        requires { self.old.drawn < 4294967295 }
        ensures draw { result.draw ≡ self.old.drawn + 1 }
        ensures word { result.word ≡ word self.old.seed (self.old.drawn + 1) }
        ensures drawn { self.new ≡ record self.old { drawn = self.old.drawn + 1 } }
    {
        let word = self.ahead;
        self.ahead = self.stream.next_word();
        self.drawn += 1;
        Drawn {
            draw: self.drawn,
            word,
        }
    }

    /// Returns the word of the next draw, and doesn't draw it.
    pub fn ahead(&self) -> u32
        ensures { result ≡ word self.now.seed (self.now.drawn + 1) }
    {
        self.ahead
    }
}

/// Returns the word of the root identifier.
pub fn root_word(seed: u64) -> u32
    ensures { result ≡ word seed 0 }
{
    word_of(seed, 0)
}

/// Returns the generator of a seed, before its first draw.
fn first_draw(seed: u64) -> ChaCha20Rng
    ensures { result ≡ stream_at seed 1 }
{
    let mut key = [0; 32];
    key[..8].copy_from_slice(&seed.to_le_bytes());
    let mut stream = ChaCha20Rng::from_seed(key);
    stream.set_word_pos(1);
    stream
}
