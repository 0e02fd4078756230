//! Why a line is none.

ghost use Rattle.std.specs.Prelude.{◌≡◌};
ghost use Rattle.node_lines.specs.declared.refusal.TellFault.TheVariants as fault;

use ring_math::OutOfMemory;

/// Why nothing was taken in for a line. Places are counted from 0, and are those of a word's first byte.
#[derive(Clone, Copy, PartialEq, Eq, Debug)]
pub enum Refusal {
    /// The line has more bytes than a line may have.
    TooLong,
    /// A byte outside 20 to 7e stands here, the first.
    NotText { place: u32 },
    /// No line begins with this word, or the line has no word.
    Word { place: u32 },
    /// The line has so many words, the first included, and needs another number of them.
    Count { found: u32 },
    /// A number is not `0`, nor decimal digits that do not begin with 0, or it is above 18,446,744,073,709,551,615.
    Number { place: u32 },
    /// Hexadecimal digits are wanted, so many as the line's form says.
    Hex { place: u32 },
    /// A limit is passed.
    Limit { place: u32 },
    /// The line is one, and no stamp is left for what it says.
    Spent,
}

/// Why a line was not read.
#[derive(Clone, Copy, PartialEq, Eq, Debug)]
pub enum TellFault {
    /// The line is none.
    Refused(Refusal),
    /// Memory was refused. It may come in the place of any other answer.
    OutOfMemory,
}

impl From<OutOfMemory> for TellFault {
    ghost from_gives = { λ _ made. made ≡ fault.OutOfMemory };

    fn from(_error: OutOfMemory) -> TellFault {
        TellFault::OutOfMemory
    }
}
