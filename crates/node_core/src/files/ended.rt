//! Inserts that are over while they wait.

ghost use Rattle.std.specs.Prelude.{◌≡◌, ◌++◌, ◌∷◌, [], OnOk};
ghost use Rattle.wire_msg.specs.Words.{InsertReply};
ghost use Rattle.wire_msg.specs.declared.note.Note.TheVariants as note;
ghost use Rattle.overlay_rules.specs.Outcome.{sent};
ghost use Rattle.overlay_rules.specs.State.{State};
ghost use Rattle.past_core.specs.Replied.{replied_asks};

use past_core::Asks;
use ring_math::{Id, OutOfMemory};
use std::alloc::Global;
use wire_msg::{Message, Note, Notes, Outgoing, Reply, Sends};

/// Each of these commands is replied alike, behind what is sent and noted already.
pub(crate) fn reply_each(
    alloc: Global,
    asks: &Asks,
    reply: &Reply,
    messages: &mut Sends,
    notes: &mut Notes,
) -> Result<(), OutOfMemory>
    ensures messages { (s : State) → OnOk result (messages.new ≡ messages.old ++ (replied_asks s reply.now asks.now).sends) }
    ensures notes { (s : State) → OnOk result (notes.new ≡ notes.old ++ (replied_asks s reply.now asks.now).notes) }
{
    for ask in asks.as_slice() {
        reply_one(alloc, ask.0, ask.1, reply, messages, notes)?;
    }
    Ok(())
}

/// One command is replied, behind what is sent and noted already.
fn reply_one(
    alloc: Global,
    origin: Id,
    number: u64,
    reply: &Reply,
    messages: &mut Sends,
    notes: &mut Notes,
) -> Result<(), OutOfMemory>
    ensures messages { OnOk result (messages.new ≡ messages.old ++ sent origin (InsertReply number reply.now) ∷ []) }
    ensures notes { OnOk result (notes.new ≡ notes.old ++ note.Answered origin number reply.now ∷ []) }
{
    notes.push(Note::Answered {
        origin,
        number,
        reply: reply.copy(alloc)?,
    })?;
    let message = Message::InsertReply {
        number,
        reply: reply.copy(alloc)?,
    };
    messages.push(Outgoing {
        receiver: origin,
        message,
    })
}
