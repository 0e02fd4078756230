//! Bytes as what comes to a node.

ghost use Rattle.std.specs.Prelude.{◌≡◌, IfOk};
ghost use Rattle.wire_msg.specs.Words.{plain_envelope};
ghost use Rattle.node_cell.specs.Entries.{plain_input_of};
ghost use Rattle.node_cell.specs.Reading.{IsInputOf, input_for};

use crate::entry::CellInput;
use ring_math::{Id, OutOfMemory};
use std::alloc::Global;
use wire_codec::{FrameFault, decode};
use wire_msg::Envelope;

/// What bytes are to a node: the message of a frame that is addressed to it, and else noise.
pub(crate) fn read(alloc: Global, node: Id, bytes: &[u8]) -> Result<CellInput, OutOfMemory>
    ensures { IfOk result (λ input. IsInputOf node bytes.now (plain_input_of input)) }
{
    match decode(alloc, bytes) {
        Ok(envelope) => Ok(input_for(node, envelope)),
        Err(FrameFault::OutOfMemory) => Err(OutOfMemory),
        Err(_) => Ok(CellInput::Noise),
    }
}

/// What an envelope is to a node.
fn input_for(node: Id, envelope: Envelope) -> CellInput
    ensures { plain_input_of result ≡ input_for node (plain_envelope envelope) }
{
    if envelope.receiver == node {
        CellInput::Comes(envelope)
    } else {
        CellInput::Noise
    }
}
