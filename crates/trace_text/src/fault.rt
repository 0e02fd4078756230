//! Why bytes are no trace.

use ring_math::OutOfMemory;
use std::alloc::AllocError;

/// Why bytes are no trace.
#[derive(Clone, Copy, PartialEq, Eq, Debug)]
pub enum TraceFault {
    /// There are more than [`MOST_TRACE_BYTES`](crate::MOST_TRACE_BYTES).
    TooLong { found: usize },
    /// This line, counted from 1, is the first that may not stand at its place. It is one past the last line where the
    /// line `end` is missing.
    Line { line: u32 },
    /// Memory was refused.
    OutOfMemory,
}

/// Why a line, or a part of it, was not read.
#[derive(Clone, Copy, PartialEq, Eq, Debug)]
pub(crate) enum Refusal {
    /// It may not stand at its place.
    NotAllowed,
    /// Memory was refused.
    OutOfMemory,
}

impl From<OutOfMemory> for Refusal {
    ghost use Rattle.std.specs.Prelude.{◌≡◌};
    ghost use Rattle.trace_text.specs.declared.fault.Refusal.TheVariants.{OutOfMemory};

    ghost from_gives = { λ _ made. made ≡ OutOfMemory };

    fn from(_error: OutOfMemory) -> Refusal {
        Refusal::OutOfMemory
    }
}

impl From<AllocError> for Refusal {
    ghost use Rattle.std.specs.Prelude.{◌≡◌};
    ghost use Rattle.trace_text.specs.declared.fault.Refusal.TheVariants.{OutOfMemory};

    ghost from_gives = { λ _ made. made ≡ OutOfMemory };

    fn from(_error: AllocError) -> Refusal {
        Refusal::OutOfMemory
    }
}
