//! The numbers of the options: the least and the most that each takes, and the one that stands where it is not given.

/// The fewest nodes of a scenario that is made.
pub const FEWEST_MADE_NODES: u32 = 2;

/// The most nodes of a scenario that is made.
pub const MOST_MADE_NODES: u32 = 256;

/// How many nodes are made where no number is given.
pub const DEFAULT_NODES: u32 = 12;

/// [`DEFAULT_NODES`] as a text.
pub(crate) const DEFAULT_NODES_TEXT: &str = "12";

/// The seed where none is given.
pub const DEFAULT_SEED: u64 = 7;

/// [`DEFAULT_SEED`] as a text.
pub(crate) const DEFAULT_SEED_TEXT: &str = "7";

/// The least room of an access point.
pub const LEAST_ROOM: u32 = 1;

/// The most room of an access point.
pub const MOST_ROOM: u32 = 4096;

/// The room of an access point where none is given.
pub const DEFAULT_ROOM: u32 = 16;

/// [`DEFAULT_ROOM`] as a text.
pub(crate) const DEFAULT_ROOM_TEXT: &str = "16";

/// The most bytes of a large file.
pub const MOST_SIZE: u32 = 835_584;

/// The bytes of a large file where no number is given.
pub const DEFAULT_SIZE: u32 = 10_000;

/// [`DEFAULT_SIZE`] as a text.
pub(crate) const DEFAULT_SIZE_TEXT: &str = "10000";

/// The first entry that is drawn where none is given, counted from 0.
pub const DEFAULT_FROM: u64 = 0;

/// [`DEFAULT_FROM`] as a text.
pub(crate) const DEFAULT_FROM_TEXT: &str = "0";

/// The most entries of a picture.
pub const MOST_DRAWN: u32 = 10_000;

/// The entries of a picture where no number is given.
pub const DEFAULT_DRAWN: u32 = 120;

/// [`DEFAULT_DRAWN`] as a text.
pub(crate) const DEFAULT_DRAWN_TEXT: &str = "120";
