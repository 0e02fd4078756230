//! What comes to a node is in the range of its types, of what a step keeps: laws, which do nothing.

ghost use Rattle.wire_msg.specs.Words.{plain};
ghost use Rattle.node_core.specs.Inputs.{plain_input, WhyIsInRange, IsInRange, CommandIsInRange, InputIsInRange};

use crate::input::Input;
use wire_msg::{Command, Message, Why};

fn why_law(why: &Why)
    ensures { WhyIsInRange why.now }
{
    if let Why::Moved { left, right } = why {
        left.range_law();
        right.range_law();
    }
}

fn message_law(message: &Message)
    ensures { IsInRange (plain message.now) }
{
    match message {
        Message::JoinReply { members, .. } => members.range_law(),
        Message::ProbeReply { members, .. } => members.range_law(),
        Message::LeaseRequest { left, right, .. } => {
            left.range_law();
            right.range_law();
        }
        Message::Deny { why, .. } => why_law(why),
        Message::Insert { copies, .. } => {
            let _copies = copies.get();
        }
        _ => {}
    }
}

fn command_law(command: &Command)
    ensures { CommandIsInRange command.now }
{
    if let Command::Insert { copies, .. } = command {
        let _copies = copies.get();
    }
}

/// The sender of a message is an identifier, what the message teaches are such, and an insert asks for no more copies than
/// there can be.
pub(crate) fn input_law(input: &Input<'_>)
    ensures { InputIsInRange (plain_input input.now) }
{
    match input {
        Input::Message { sender, message } => {
            sender.range_law();
            message_law(message);
        }
        Input::Command { command, .. } => command_law(command),
        Input::Noise => {}
    }
}
