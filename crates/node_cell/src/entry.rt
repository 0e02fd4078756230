//! What a cell's history is made of.

ghost use Rattle.std.specs.Prelude.{◌≡◌};
ghost use Rattle.node_core.specs.Inputs.{plain_input};
ghost use Rattle.weave_laws.specs.Cells.{input_of, input_stamp};
ghost use Rattle.node_cell.specs.Entries.{plain_input_of};

use node_core::Input;
use wire_msg::{Command, Envelope, Envelopes, Notes};

/// What came to a cell.
#[derive(Drop)]
pub enum CellInput {
    /// A command of the node's own user, with its number.
    Command { number: u64, command: Command },
    /// A message to the node.
    Comes(Envelope),
    /// Bytes that are no frame of a message to the node.
    Noise,
}

/// What came to a cell, with its stamp, and what the node's step sent and noted.
#[derive(Drop)]
pub struct CellEntry {
    pub stamp: u64,
    pub input: CellInput,
    pub sent: Envelopes,
    pub notes: Notes,
}

impl CellInput {
    /// As it comes to the node.
    pub(crate) fn as_input(&self) -> Input<'_>
        ensures { plain_input result ≡ input_of (plain_input_of self.now) }
    {
        match self {
            CellInput::Command { number, command } => Input::Command {
                number: *number,
                command,
            },
            CellInput::Comes(envelope) => Input::Message {
                sender: envelope.sender,
                message: &envelope.message,
            },
            CellInput::Noise => Input::Noise,
        }
    }

    /// The stamp of the entry that sent it, and 0 of a command and of noise.
    pub(crate) fn stamp(&self) -> u64
        ensures { result ≡ input_stamp (plain_input_of self.now) }
    {
        match self {
            CellInput::Comes(envelope) => envelope.stamp,
            CellInput::Command { .. } | CellInput::Noise => 0,
        }
    }
}
