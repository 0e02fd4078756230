//! The limit of access points; code and definitions cite it by name.

/// How many files an access point remembers at most.
pub const MOST_ROOM: usize = 4_096;
