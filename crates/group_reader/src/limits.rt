//! The limit of a script as a whole.

use scenario_reader::{MOST_LINE_BYTES, MOST_LINES};

/// The most bytes of a script: as many lines as each part may have, each of them full and with its end, and the line `groups`
/// between them. A longer input has a line that is too long, or a line too many, so it is refused.
pub const MOST_SCRIPT_BYTES: usize = 2 * MOST_LINES as usize * (MOST_LINE_BYTES + 1) + 7;
