//! Guesses of where a node stands, by its name.
//!
//! Most lines of part two name a node, and a search through all nodes compares their names one after another. Mostly the guess is
//! right, and it is looked at before it is taken, so no promise rests on it.

ghost use Rattle.std.specs.Prelude.{◌<◌};
ghost use Rattle.group_reader.specs.declared.guesses.TheConstants.{GUESSES};

use ring_math::SPREAD;
use scenario_reader::NodeLine;

/// How many bits of a name that is spread choose its guess.
const GUESS_BITS: u32 = 10;

/// How many guesses there are: four times as many as nodes at most, so that few names are spread alike.
const GUESSES: usize = 1 << GUESS_BITS;

/// For each value of so many bits the place of a node whose name is spread to it, if there is one.
#[derive(Drop)]
pub(crate) struct Guesses {
    places: [u8; GUESSES],
}

impl Guesses {
    /// The guesses for these nodes: of those whose names are spread alike the last is guessed.
    pub(crate) fn of(nodes: &[NodeLine]) -> Guesses {
        let mut places = [0; GUESSES];
        for (place, node) in (0..=u8::MAX).zip(nodes) {
            places[guess_of(node.name.as_slice())] = place;
        }
        Guesses { places }
    }

    /// Where the node with this name may stand.
    pub(crate) fn place(&self, name: &[u8]) -> usize {
        usize::from(self.places[guess_of(name)])
    }
}

/// Which guess a name goes by.
fn guess_of(name: &[u8]) -> usize
    ensures { result < GUESSES }
{
    let mut spread: u64 = 0;
    for byte in name {
        spread = spread.wrapping_add(u64::from(*byte)).wrapping_mul(SPREAD);
    }
    (spread >> (u64::BITS - GUESS_BITS)) as usize
}
