//! Where lookups were delivered.

ghost use Rattle.std.specs.Prelude.{◌≡◌, ◌++◌, map, OnOk};
ghost use Rattle.wire_msg.specs.Words.{plain_envelope};
ghost use Rattle.overlay_rules.specs.Record.{visit};
ghost use Rattle.overlay_rules.specs.Seen.{event_seen};
ghost use Rattle.delivery_report.specs.Deliveries.{delivery_line, note_lines, entry_lines, delivery_lines, node_of};

use crate::names::Names;
use overlay_rules::{Entries, EventRef};
use ring_math::{Id, OutOfMemory};
use text_writer::Text;
use wire_msg::{Envelope, Note};

/// Writes a line for each delivery, in the order of the record. The only error is that memory was refused.
pub fn delivery_lines(text: &mut Text, names: &Names, entries: &Entries) -> Result<(), OutOfMemory>
    ensures { OnOk result (text.new ≡ text.old ++ delivery_lines names.now entries.now) }
{
    let sent = entries.sent();
    let mut before = 0;
    for place in 0..entries.len() {
        let entry = entries.at(place);
        entry_lines(text, names, &sent[..before], &entry.event, entry.notes)?;
        // Named, since the prover has to see what type a command is.
        if let EventRef::Command {
            command: _command,
            ..
        } = entry.event
        {}
        before += entry.messages.len();
    }
    Ok(())
}

/// The lines of an event's notes, before which these messages were sent.
fn entry_lines(
    text: &mut Text,
    names: &Names,
    sent: &[Envelope],
    event: &EventRef,
    notes: &[Note],
) -> Result<(), OutOfMemory>
    ensures { OnOk result (text.new ≡ text.old ++ entry_lines names.now (visit (map plain_envelope sent.now) (event_seen event.now)) notes.now) }
{
    // Most entries note nothing, and their node is not looked for.
    if notes.is_empty() {
        return Ok(());
    }
    match node_of(sent, event) {
        Some(node) => note_lines(text, names, node, notes),
        None => Ok(()),
    }
}

/// The node of an event, before which these messages were sent; None where it delivers a message that was not sent. It takes
/// no memory.
pub fn node_of(sent: &[Envelope], event: &EventRef) -> Option<Id>
    ensures { result ≡ node_of (visit (map plain_envelope sent.now) (event_seen event.now)) }
{
    match event {
        EventRef::Command { node, .. } | EventRef::Noise { node } => Some(*node),
        EventRef::Deliver { message } => {
            let envelope = sent.get(*message as usize)?;
            Some(envelope.receiver)
        }
    }
}

fn note_lines(text: &mut Text, names: &Names, node: Id, notes: &[Note]) -> Result<(), OutOfMemory>
    ensures { OnOk result (text.new ≡ text.old ++ note_lines names.now node notes.now) }
{
    for note in notes {
        delivery_line(text, names, node, note)?;
    }
    Ok(())
}

/// Writes the line of a note of this node, if the note is a delivery; else nothing. The only error is that memory was refused.
pub fn delivery_line(
    text: &mut Text,
    names: &Names,
    node: Id,
    note: &Note,
) -> Result<(), OutOfMemory>
    ensures { OnOk result (text.new ≡ text.old ++ delivery_line names.now node note.now) }
{
    let Note::Delivered {
        number,
        key,
        hops,
        ..
    } = note
    else {
        return Ok(());
    };
    text.number_after(b"delivery ", *number)?;
    text.id_after(b" of ", *key)?;
    names.write_after(text, b" by ", node)?;
    text.number_after(b" hops ", u64::from(*hops))?;
    text.put(b"\n")
}
