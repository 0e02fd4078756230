//! The circle of 128-bit identifiers, and the lists of identifiers, files and bytes that messages carry.
#![tactic(auto)]

mod circle;
mod digits;
mod direction;
mod file;
mod guess;
mod id;
mod limits;
mod lists;
mod memory;
mod nearest;
mod text;

pub use circle::{between, cw, dist, nearer, order_law};
pub use digits::{digit, shared};
pub use direction::{Direction, distance};
pub use file::{FileId, Held, file_id, key_of};
pub use guess::{GUESS_BITS, SPREAD, guess_of};
pub use id::{Id, id_of_name};
pub use limits::{DIGIT_VALUES, DIGITS, LEAVES_PER_SIDE, MOST_BYTES, MOST_ENTRIES, MOST_MEMBERS};
pub use lists::{Bytes, BytesFault, FileIds, Ids, IdsBuilder};
pub use memory::{OutOfMemory, reserve_ahead};
pub use nearest::{improves, nearer_of};
pub use text::{IdFault, id_from_hex, id_to_hex};

#[cfg(test)]
mod tests;
