//! Why bytes are no scenario.

ghost use Rattle.std.specs.Prelude.{◌≡◌};
ghost use Rattle.scenario_reader.specs.declared.fault.LineFault.TheVariants as fault;

use ring_math::OutOfMemory;

/// The fault of the first line at fault, and of that line the first check that it fails. Lines are counted from 1, places in
/// a line from 0. A place is that of the first byte of the word at fault.
#[derive(Clone, Copy, PartialEq, Eq, Debug)]
pub enum LineFault {
    /// The line has more than [`MOST_LINE_BYTES`].
    TooLong { line: u32 },
    /// A byte outside 20 to 7e stands here, the first.
    NotText { line: u32, place: u32 },
    /// The first word begins no line of the language.
    Word { line: u32, place: u32 },
    /// The line has so many words, the first included, and needs another number of them.
    Count { line: u32, found: u32 },
    /// A number is not `0`, nor decimal digits that do not begin with 0, or it is above 18,446,744,073,709,551,615.
    Number { line: u32, place: u32 },
    /// Hexadecimal digits are wanted, so many as the language says.
    Hex { line: u32, place: u32 },
    /// A name is not 1 to [`MOST_LETTERS`] letters, digits and underscores, or a name that is used was not declared on an earlier line.
    Name { line: u32, place: u32 },
    /// A name was declared before, or an identifier is another node's.
    Twice { line: u32, place: u32 },
    /// An action, or the end, and no founder yet. At the end the line is the number of lines plus 1.
    NoFounder { line: u32 },
    /// A second founder.
    SecondFounder { line: u32 },
    /// A limit of the language is passed. The line behind the last of [`MOST_LINES`] passes the limit of lines, at place 0.
    Limit { line: u32, place: u32 },
    /// The bytes of a noise are a frame.
    Frame { line: u32, place: u32 },
    /// Memory was refused. It may come in the place of any other answer.
    OutOfMemory,
}

impl From<OutOfMemory> for LineFault {
    ghost from_gives = { λ _ e. e ≡ fault.OutOfMemory };

    fn from(_refusal: OutOfMemory) -> LineFault {
        LineFault::OutOfMemory
    }
}
