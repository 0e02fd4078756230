//! Messages, notes and answers compared: whether two of them are the same.
#![tactic(auto)]

mod lists;
mod message;
mod note;
mod reply;

pub use message::same_message;
pub use note::{same_answer, same_note};
pub use reply::same_reply;

#[cfg(test)]
mod tests;
