//! The limits of what messages count. Each stands here alone; code and definitions cite it by name.

/// How many nodes an insert asks to keep a file at most: the root, and the targets of its replicas.
pub const MOST_COPIES: u8 = 9;

/// How many targets an insert has at most: all copies but the root's own.
pub const MOST_TARGETS: usize = MOST_COPIES as usize - 1;

/// What hops are counted up to.
pub const MOST_HOPS: u16 = u16::MAX;

/// The last attempt at a join that a node can make.
pub const LAST_ATTEMPT: u32 = u32::MAX;
