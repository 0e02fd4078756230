//! The lines that one node is told by: commands of its own user, and bytes from the network.
#![tactic(auto)]

mod command;
mod limits;
mod refusal;
mod start;
mod told;
mod words;

pub use limits::MOST_FRAME_LINE;
pub use refusal::{Refusal, TellFault};
pub use start::{Start, read_start};
pub use told::{Told, read_line};

#[cfg(test)]
mod tests;
