//! What is done in groups, line by line.

use crate::message::GroupCommand;
use ring_math::Id;
use scenario_reader::Name;

/// What an action does.
#[derive(Drop)]
pub enum GroupWhat {
    /// A command to a node in a group. Commands are numbered from 1 in the order of their lines.
    Command {
        number: u64,
        node: Id,
        group: Name,
        command: GroupCommand,
    },
    /// Takes the oldest message that was never delivered and delivers it, so many times, at most 1,000,000.
    Settle(u32),
    /// Delivers the message of this number once.
    Deliver(u64),
}

/// An action, and the line that it stands on, counted from 1.
#[derive(Drop)]
pub struct GroupAction {
    pub line: u32,
    pub what: GroupWhat,
}
