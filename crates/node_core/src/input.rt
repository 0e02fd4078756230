//! What comes to a node, and what its step gives.

use ring_math::Id;
use wire_msg::{Command, Message, Notes, Sends};

/// What comes to a node. It is only read, so it is lent.
#[derive(Clone, Copy)]
pub enum Input<'a> {
    /// A command of the node's own user, with its number.
    Command { number: u64, command: &'a Command },
    Message { sender: Id, message: &'a Message },
    /// Bytes that are no frame.
    Noise,
}

/// What a step sends and notes, each in order.
#[derive(Drop)]
pub struct Output {
    pub messages: Sends,
    pub notes: Notes,
}
