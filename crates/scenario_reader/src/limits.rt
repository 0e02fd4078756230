//! The limits of the scenario language. Each stands here alone; the reader, the definitions and messages cite it by name.

/// The most nodes of a scenario.
pub const MOST_NODES: usize = 256;

/// The most files of a scenario.
pub const MOST_FILES: usize = 256;

/// The most letters of a name in a scenario.
pub const MOST_LETTERS: usize = 32;

/// The most bytes of a file's name, and of its owner.
pub const MOST_NAME_BYTES: usize = 64;

/// The most lines.
pub const MOST_LINES: u32 = 10_000;

/// The most bytes of a line without its end.
pub const MOST_LINE_BYTES: usize = 9_000;

/// How many times in succession a settle delivers a message at most.
pub const MOST_REPEATS: u64 = 4;

/// The most deliveries of one settle or shuffle, and of a whole scenario.
pub const MOST_DELIVERIES: u64 = 1_000_000;
