//! Guesses of where an identifier or a name stands in a list. Who takes one looks at what stands there first, so that no promise
//! rests on it.

ghost use Rattle.std.specs.Prelude.{◌<◌, ◌^◌};
ghost use Rattle.ring_math.specs.declared.guess.TheConstants.{GUESS_BITS};

use crate::id::Id;

/// How many of its first bits an identifier is guessed by.
pub const GUESS_BITS: u32 = 10;

/// 2^64 divided by the golden ratio: what is multiplied by it is spread over the high bits (Knuth, multiplicative hashing).
pub const SPREAD: u64 = 0x9e37_79b9_7f4a_7c15;

/// Which guess an identifier goes by: its first [`GUESS_BITS`] bits.
pub fn guess_of(id: Id) -> usize
    ensures { result < 2 ^ GUESS_BITS }
{
    (id.0 >> (u128::BITS - GUESS_BITS)) as usize
}
