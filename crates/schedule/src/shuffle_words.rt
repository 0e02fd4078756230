//! The random words of shuffles, by their places.

ghost use Rattle.std.specs.Prelude.{◌≡◌};
ghost use Rattle.schedule.specs.Words.{word_of};

use crate::words::Words;
use std::marker::Model;

/// Random words by their seeds and places. A generator stands behind the word that was asked for last, so words are made
/// only once where they are asked for in their order.
#[derive(Drop)]
pub struct ShuffleWords {
    seed: u64,
    place: u64,
    words: Words,
}

impl Model for ShuffleWords {
    ghost use Rattle.std.specs.Prelude.{◌≡◌};
    ghost use Rattle.schedule.specs.Words.{generator_at};

    ghost Value = { Unit {0} };

    ghost view = { λ a. tt };

    ghost invariant = { λ a. a.words ≡ generator_at a.seed a.place };
}

impl ShuffleWords {
    /// Every word can be asked for.
    pub fn new() -> ShuffleWords {
        ShuffleWords {
            seed: 0,
            place: 0,
            words: Words::new(0),
        }
    }

    /// The word of a seed at a place. Places are counted from 0.
    pub(crate) fn word(&mut self, seed: u64, place: u32) -> u32
        ensures { result ≡ word_of seed place }
    {
        if self.seed != seed || self.place != u64::from(place) {
            *self = ShuffleWords {
                seed,
                place: u64::from(place),
                words: Words::from_place(seed, place),
            };
        }
        self.place += 1;
        self.words.next()
    }
}
