//! Groups of members, to each of which anyone publishes, after Scribe.
//!
//! A group has a key. Members ask for their place in a tree, node by node on the way to the key, and what is published goes to the
//! root of the tree and from there down to all of its members. The overlay below does not change meanwhile.
#![tactic(auto)]

mod action;
mod entry;
mod flat;
mod group;
mod group_record;
mod laws;
mod message;
mod note;
mod published;
mod writer;

pub use action::{GroupAction, GroupWhat};
pub use entry::{GroupEntryRef, GroupEvent, GroupEventRef};
pub use group::Group;
pub use group_record::GroupRecord;
pub use laws::groups_law;
pub use message::{GroupCommand, GroupMessage, GroupSent};
pub use note::GroupNote;
pub use published::Published;
pub use writer::GroupWriter;

#[cfg(test)]
mod tests;
