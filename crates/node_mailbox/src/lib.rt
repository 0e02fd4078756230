//! Mailboxes of frames, which threads share without a lock.
//!
//! Each thread that puts into a mailbox or takes from it holds a pass of its own. What a pass put and took, and which of
//! the mailbox's [`ALL_PARTS`] it has, is known to contracts alone and costs nothing. All passes of a mailbox together keep one
//! rule with its queue, so once a pass has all the parts, by `join`, it is known that every frame it took was put.
//!
//! A [`Post`] is a mailbox for each of some nodes, and [`Passes`] are a pass to each of them.
#![tactic(auto)]

mod hand;
mod limits;
mod mailbox;
mod passes;
mod post;
mod rule;

pub use limits::ALL_PARTS;
pub use mailbox::{MailPass, Mailbox};
pub use passes::Passes;
pub use post::Post;

#[cfg(test)]
mod tests;
