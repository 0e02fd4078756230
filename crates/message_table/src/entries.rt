//! The lines of entries.

ghost use Rattle.std.specs.Prelude.{◌≡◌, ◌++◌, ◌+◌, ◌<◌, ◌^◌, [], length, map, Some, OnOk};
ghost use Rattle.wire_msg.specs.Words.{plain_envelope};
ghost use Rattle.overlay_rules.specs.Seen.{entry_seen, event_seen};
ghost use Rattle.delivery_report.specs.Deliveries.{node_of};
ghost use Rattle.message_table.specs.Entries.{entries_text, entry_text, event_line, event_text, lines_at, message_line, message_lines};

use crate::commands::put_command;
use crate::labels::Labels;
use crate::messages::put_message;
use crate::notes::put_notes;
use delivery_report::node_of;
use overlay_rules::{Entries, EntryRef, EventRef};
use ring_math::{Id, OutOfMemory};
use text_writer::Text;
use wire_msg::Envelope;

/// The lines of all entries, which are numbered from 1, and their messages from 0.
pub(crate) fn put_entries(
    text: &mut Text,
    labels: &Labels,
    entries: &Entries,
) -> Result<(), OutOfMemory>
    ensures { OnOk result (text.new ≡ text.old ++ entries_text labels.now 1 [] entries.now) }
{
    let sent = entries.sent();
    let mut before = 0;
    for place in 0..entries.len() {
        let entry = entries.at(place);
        put_entry(text, labels, place as u64 + 1, &sent[..before], &entry)?;
        // Named, since the prover has to see what type a command is.
        if let EventRef::Command {
            command: _command,
            ..
        } = entry.event
        {}
        before += entry.messages.len();
    }
    Ok(())
}

/// The lines of an entry, before which these messages were sent.
fn put_entry(
    text: &mut Text,
    labels: &Labels,
    number: u64,
    sent: &[Envelope],
    entry: &EntryRef,
) -> Result<(), OutOfMemory>
    requires { length sent.now + length entry.now.messages.now < 2 ^ 64 }
    ensures { OnOk result (text.new ≡ text.old ++ entry_text labels.now number (map plain_envelope sent.now) (entry_seen entry.now)) }
{
    match node_of(sent, &entry.event) {
        Some(node) => put_lines(text, labels, number, node, sent.len() as u64, entry),
        None => Ok(()),
    }
}

/// The lines of an entry that was made at this node; its first message has this number.
fn put_lines(
    text: &mut Text,
    labels: &Labels,
    number: u64,
    node: Id,
    message: u64,
    entry: &EntryRef,
) -> Result<(), OutOfMemory>
    requires { message + length entry.now.messages.now < 2 ^ 64 }
    ensures { OnOk result (text.new ≡ text.old ++ lines_at labels.now number (Some node) message (entry_seen entry.now)) }
{
    put_event(text, labels, number, node, &entry.event)?;
    put_messages(text, labels, message, entry.messages)?;
    put_notes(text, labels, node, entry.notes)
}

/// The line of what came to this node.
fn put_event(
    text: &mut Text,
    labels: &Labels,
    number: u64,
    node: Id,
    event: &EventRef,
) -> Result<(), OutOfMemory>
    ensures { OnOk result (text.new ≡ text.old ++ event_line labels.now number node (event_seen event.now)) }
{
    text.number_after(b"entry ", number)?;
    labels.put_node(text, b" at ", node)?;
    put_input(text, labels, event)?;
    text.put(b"\n")
}

fn put_input(text: &mut Text, labels: &Labels, event: &EventRef) -> Result<(), OutOfMemory>
    ensures { OnOk result (text.new ≡ text.old ++ event_text labels.now (event_seen event.now)) }
{
    match event {
        EventRef::Command {
            number,
            command,
            ..
        } => {
            text.number_after(b" command ", *number)?;
            text.number_after(b" line ", u64::from(labels.line(*number)))?;
            text.put(b" ")?;
            put_command(text, labels, command)
        }
        EventRef::Deliver { message } => text.number_after(b" message ", *message),
        EventRef::Noise { .. } => text.put(b" noise"),
    }
}

/// A line for each message, the first of which has this number.
fn put_messages(
    text: &mut Text,
    labels: &Labels,
    first: u64,
    messages: &[Envelope],
) -> Result<(), OutOfMemory>
    requires { first + length messages.now < 2 ^ 64 }
    ensures { OnOk result (text.new ≡ text.old ++ message_lines labels.now first (map plain_envelope messages.now)) }
{
    let mut number = first;
    for envelope in messages {
        put_sent(text, labels, number, envelope)?;
        number += 1;
    }
    Ok(())
}

fn put_sent(
    text: &mut Text,
    labels: &Labels,
    number: u64,
    envelope: &Envelope,
) -> Result<(), OutOfMemory>
    ensures { OnOk result (text.new ≡ text.old ++ message_line labels.now number (plain_envelope envelope.now)) }
{
    text.number_after(b"  message ", number)?;
    labels.put_node(text, b" from ", envelope.sender)?;
    labels.put_node(text, b" to ", envelope.receiver)?;
    text.put(b" ")?;
    put_message(text, labels, &envelope.message)?;
    text.put(b"\n")
}
