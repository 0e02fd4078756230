//! The limit of a mailbox. It stands here alone; code and definitions cite it by name.

/// The parts of a mailbox, of which each pass to it has one or more: one for each node of a run, at most 64, and one for who
/// drives them.
pub const ALL_PARTS: u64 = 65;
