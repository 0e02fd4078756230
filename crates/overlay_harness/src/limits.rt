//! The limit of a run.

/// The most nodes of a scenario that is run, each in a thread of its own.
pub const MOST_RUN_NODES: usize = 64;
