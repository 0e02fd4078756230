//! The same message to many.

ghost use Rattle.std.specs.Prelude.{◌≡◌, IfOk};
ghost use Rattle.wire_msg.specs.Words.{plain};
ghost use Rattle.overlay_rules.specs.Outcome.{to_each};

use node_parts::send_to_each;
use ring_math::{Id, OutOfMemory};
use std::alloc::Global;
use wire_msg::{Message, Sends};

/// The same message to each of these.
pub(crate) fn sent_to_each(
    alloc: Global,
    ids: &[Id],
    message: Message,
) -> Result<Sends, OutOfMemory>
    ensures { IfOk result (λ messages. messages ≡ to_each ids.now (plain message)) }
{
    let mut messages = Sends::new(alloc);
    let sent = send_to_each(alloc, &mut messages, ids, &message);
    drop(message);
    sent?;
    Ok(messages)
}
