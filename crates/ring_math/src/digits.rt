//! The digits of an identifier, in base 16.

ghost use Rattle.std.specs.Prelude.{◌≡◌, ◌≢◌, ◌<◌};
ghost use Rattle.ring_math.specs.Ring.{digit_of, shared_of};

use crate::id::Id;
use crate::limits::DIGITS;

/// Digit `row` of an identifier, below [`DIGIT_VALUES`](crate::DIGIT_VALUES). Row 0 is the leftmost of [`DIGITS`].
pub fn digit(id: Id, row: u8) -> u8
    requires { row < DIGITS }
    ensures { result ≡ digit_of id row }
{
    ((id.0 >> (4 * ((DIGITS - 1 - row) as u32))) & 0xf) as u8
}

/// How many leading digits `a` and `b` have in common: all where they are the same, else fewer.
pub fn shared(a: Id, b: Id) -> u8
    ensures value { result ≡ shared_of a b }
    ensures fewer { a ≢ b → result < DIGITS }
{
    ((a.0 ^ b.0).leading_zeros() / 4) as u8
}
