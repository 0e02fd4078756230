//! Messages that come again, and the bytes that they then share.

ghost use Rattle.std.specs.Prelude.{◌≡◌, IfOk, IfSome};
ghost use Rattle.wire_msg.specs.Words.{plain};
ghost use Rattle.node_cell.specs.Entries.{plain_input_of};
ghost use Rattle.node_cell.specs.Reading.{IsInputOf};

use crate::entry::{CellEntry, CellInput};
use crate::reading::read;
use ring_math::{Id, OutOfMemory};
use std::alloc::Global;
use wire_compare::same_message;
use wire_msg::Message;

/// How many of the last entries are searched for a message that came before: what comes again mostly comes soon.
const MOST_LOOKS_BACK: usize = 8;

/// What bytes are to a node, as [`read`] answers it, for a history to keep. If one of its last entries has the same message, it
/// shares the bytes of that one: a network may hand a message over many times, and each time it is read into bytes of its own.
pub(crate) fn read_to_keep(
    alloc: Global,
    node: Id,
    bytes: &[u8],
    history: &[CellEntry],
) -> Result<CellInput, OutOfMemory>
    ensures { IfOk result (λ input. IsInputOf node bytes.now (plain_input_of input)) }
{
    let mut input = read(alloc, node, bytes)?;
    share_bytes(alloc, history, &mut input);
    Ok(input)
}

fn share_bytes(alloc: Global, history: &[CellEntry], input: &mut CellInput)
    ensures { plain_input_of input.new ≡ plain_input_of input.old }
{
    if let CellInput::Comes(envelope) = input {
        share_bytes_of_message(alloc, history, &mut envelope.message);
    }
}

fn share_bytes_of_message(alloc: Global, history: &[CellEntry], message: &mut Message)
    ensures { plain message.new ≡ plain message.old }
{
    if !has_bytes(message) {
        return;
    }
    if let Some(known) = same_before(history, message)
        && let Ok(shared) = known.copy(alloc)
    {
        *message = shared;
    }
}

/// Whether a message may have the bytes of a file. No promise rests on this: what has none is not worth a search.
fn has_bytes(message: &Message) -> bool {
    matches!(
        message,
        Message::FetchReply { .. }
            | Message::Insert { .. }
            | Message::Replicate { .. }
            | Message::Handover { .. }
    )
}

/// The same message, if one of the last entries has it.
fn same_before<'a>(history: &'a [CellEntry], message: &Message) -> Option<&'a Message>
    ensures { IfSome result (λ known. plain known.now ≡ plain message.now) }
{
    let begin = history.len().saturating_sub(MOST_LOOKS_BACK);
    for entry in &history[begin..] {
        if let CellInput::Comes(came) = &entry.input
            && same_message(&came.message, message)
        {
            return Some(&came.message);
        }
    }
    None
}
