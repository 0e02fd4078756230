//! Why a large file was not cut, or not joined.

ghost use Rattle.std.specs.Prelude.{◌≡◌};

use ring_math::OutOfMemory;

/// Why a file was not cut.
#[derive(Clone, Copy, PartialEq, Eq, Debug)]
pub enum CutFault {
    /// It has more than [`MOST_LARGE_BYTES`](crate::MOST_LARGE_BYTES).
    TooLong { found: usize },
    /// Its name has more bytes than [`MOST_LARGE_NAME`](crate::MOST_LARGE_NAME).
    LongName { found: usize },
    /// Memory was refused.
    OutOfMemory,
}

impl From<OutOfMemory> for CutFault {
    ghost use Rattle.fragments.specs.declared.fault.CutFault.TheVariants.{OutOfMemory};

    ghost from_gives = { λ _ fault. fault ≡ OutOfMemory };

    fn from(_error: OutOfMemory) -> CutFault {
        CutFault::OutOfMemory
    }
}

/// Why pieces were not joined.
#[derive(Clone, Copy, PartialEq, Eq, Debug)]
pub enum JoinFault {
    /// The index is none: it is shorter than the six bytes with which one begins, and the place is its size; or its number
    /// of fragments is not that of its length, at place 4; or behind that it has not as many identifiers, at place 6.
    Index { place: usize },
    /// So many fragments were to be joined, where the index states another number.
    Count { stated: u16, found: usize },
    /// This fragment, counted from 0, is missing.
    Missing { fragment: u16 },
    /// This fragment has another size than its place in the file asks for.
    Size { fragment: u16 },
    /// Memory was refused.
    OutOfMemory,
}

impl From<OutOfMemory> for JoinFault {
    ghost use Rattle.fragments.specs.declared.fault.JoinFault.TheVariants.{OutOfMemory};

    ghost from_gives = { λ _ fault. fault ≡ OutOfMemory };

    fn from(_error: OutOfMemory) -> JoinFault {
        JoinFault::OutOfMemory
    }
}
