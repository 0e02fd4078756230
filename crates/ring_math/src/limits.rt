//! The limits of the overlay that lists and identifiers have. Each stands here alone; code and definitions cite it by name.

/// How many leaves a side of a leaf set holds at most.
pub const LEAVES_PER_SIDE: usize = 8;

/// How many members one reply names at most: the leaves of both sides, and the node that replies.
pub const MOST_MEMBERS: usize = 2 * LEAVES_PER_SIDE + 1;

/// How many bytes a file has at most.
pub const MOST_BYTES: usize = 4_096;

/// How many entries a node's store has at most, and so how many files one lease hands over.
pub const MOST_ENTRIES: usize = 4_096;

/// How many digits an identifier has.
pub const DIGITS: u8 = 32;

/// How many values a digit has.
pub const DIGIT_VALUES: u8 = 16;
