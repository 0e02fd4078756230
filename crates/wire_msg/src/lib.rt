//! The messages of the overlay, the commands that nodes are given, and what is noted of them.
#![tactic(auto)]

mod command;
mod frame;
mod limits;
mod lists;
mod message;
mod note;
mod reply;

pub use command::{Command, Copies};
pub use frame::Frame;
pub use limits::{LAST_ATTEMPT, MOST_COPIES, MOST_HOPS, MOST_TARGETS};
pub use lists::{Envelopes, Notes, Sends};
pub use message::{Envelope, Message, Outgoing};
pub use note::Note;
pub use reply::{Answer, Own, Reply, Why};

#[cfg(test)]
mod tests;
