//! The limits of large files. Each stands here alone; code and definitions cite it by name.

use ring_math::MOST_BYTES;
use scenario_reader::MOST_NAME_BYTES;

/// How many bytes of an index stand before the identifiers: four of the length, and two of the number of fragments.
pub const HEAD_BYTES: usize = 6;

/// How many bytes an identifier of a file has.
pub const FILE_ID_BYTES: usize = 20;

/// How many fragments an index has room for at most: 204.
pub const MOST_FRAGMENTS: usize = (MOST_BYTES - HEAD_BYTES) / FILE_ID_BYTES;

/// How many bytes a large file has at most: 835,584.
pub const MOST_LARGE_BYTES: usize = MOST_FRAGMENTS * MOST_BYTES;

/// How many bytes the name of a large file has at most: the names of its fragments have four more.
pub const MOST_LARGE_NAME: usize = MOST_NAME_BYTES - 4;
