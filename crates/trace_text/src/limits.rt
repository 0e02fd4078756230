//! The limit of a trace that is read.

/// The most bytes of a trace that is read.
pub const MOST_TRACE_BYTES: usize = 268_435_456;
