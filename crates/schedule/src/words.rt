//! The random words of a seed.

ghost use Rattle.std.specs.Prelude.{◌≡◌, ◌%◌, ◌/◌, length};
ghost use Rattle.rand_chacha.specs.ChaCha.{next_word};
ghost use Rattle.schedule.specs.Words.{key_bytes, generator_at, stream_start, generator_after, words_to_come, bytes_of};

use rand_chacha::ChaCha8Rng;
use rand_core::SeedableRng;
use rand_core::utils::NextWord;
use std::marker::Model;

/// The words of ChaCha8 with the key of a seed, one after another.
#[derive(Drop)]
pub struct Words {
    generator: ChaCha8Rng,
}

impl Model for Words {
    ghost use Rattle.rand_chacha.specs.ChaCha.{ChaCha};

    ghost Value = { ChaCha };

    ghost view = { λ a. a.generator };
}

/// The seed in eight bytes, least significant first, and 24 zeros.
fn key_bytes(seed: u64) -> [u8; 32]
    ensures { result ≡ key_bytes seed }
{
    let mut key = [0; 32];
    key[..8].copy_from_slice(&seed.to_le_bytes());
    key
}

impl Words {
    /// The words of stream 0, from its start on.
    pub(crate) fn new(seed: u64) -> Words
        ensures { result ≡ generator_at seed 0 }
    {
        Words {
            generator: ChaCha8Rng::from_seed(key_bytes(seed)),
        }
    }

    /// The words of stream 0, from a place on.
    pub(crate) fn from_place(seed: u64, place: u32) -> Words
        ensures { result ≡ generator_at seed place }
    {
        let mut words = Words::new(seed);
        words.generator.set_word_pos(u128::from(place));
        words
    }

    /// The words of a stream, from its start on. Nodes and files are made of those of stream 0.
    pub fn of_stream(seed: u64, stream: u64) -> Words
        ensures { result ≡ stream_start seed stream }
    {
        let mut words = Words::new(seed);
        words.generator.set_stream(stream);
        words
    }

    pub(crate) fn next(&mut self) -> u32
        ensures word { result ≡ (next_word 4 self.old).0 }
        ensures after { self.new ≡ (next_word 4 self.old).1 }
    {
        self.generator.next_word()
    }

    /// Fills bytes with the next words, each most significant byte first. The next call goes on behind them: who needs many
    /// bytes, but only some at a time, fills the same few again and again.
    #[tactic(auto, unfolding(crate::specs::Words::words_to_come, crate::specs::Words::generator_after))]
    pub fn fill(&mut self, bytes: &mut [u8])
        requires { length bytes.old % 4 ≡ 0 }
        ensures bytes { bytes.new ≡ bytes_of (words_to_come self.old (length bytes.old / 4)) }
        ensures after { self.new ≡ generator_after self.old (length bytes.old / 4) }
    {
        'words: for i in 0..bytes.len() / 4 {
            let word = self.next();
            bytes[4 * i..4 * i + 4].copy_from_slice(&word.to_be_bytes());
        }
    }
}
