//! What a scenario does, line by line.

use ring_math::Id;
use wire_msg::{Command, Frame};

/// What an action does.
#[derive(Drop)]
pub enum What {
    /// A command to a node. Commands are numbered from 1 in the order of their lines.
    Command {
        number: u64,
        node: Id,
        command: Command,
    },
    /// Takes the oldest message that was never delivered and delivers it, so many times, at most 1,000,000.
    Settle(u32),
    /// Delivers the message of this number once.
    Deliver(u64),
    /// So many deliveries, at most 1,000,000, by random words from the seed.
    Shuffle {
        seed: u64,
        count: u32,
    },
    /// From here on each delivery of a settle is made so many times, 1 to [`MOST_REPEATS`].
    Dup(u8),
    /// Bytes that are no frame reach a node.
    Noise {
        node: Id,
        bytes: Frame,
    },
}

/// An action, and the line that it stands on, counted from 1.
#[derive(Drop)]
pub struct Action {
    pub line: u32,
    pub what: What,
}
