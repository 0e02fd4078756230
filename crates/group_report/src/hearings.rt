//! What members heard.

ghost use Rattle.std.specs.Prelude.{◌≡◌, ◌++◌, OnOk, flat_map, option_map};
ghost use Rattle.scribe_core.specs.Record.{Visit, visit};
ghost use Rattle.scribe_core.specs.Seen.{entry_seen, event_seen};
ghost use Rattle.group_report.specs.Hearings.{entry_lines, hearing_line, hearing_lines};

use delivery_report::{NodeNames, put_bytes};
use ring_math::{Id, OutOfMemory};
use scribe_core::{
    Group, GroupEntryRef, GroupEventRef, GroupNote, GroupRecord, GroupSent, Published,
};
use text_writer::Text;

/// Writes a line for each publication that a member heard.
pub(crate) fn hearing_lines(
    text: &mut Text,
    names: &NodeNames<'_>,
    steps: &GroupRecord,
) -> Result<(), OutOfMemory>
    ensures { OnOk result (text.new ≡ text.old ++ hearing_lines names.now steps.now) }
{
    for place in 0..steps.len() {
        let entry = steps.at(place);
        entry_lines(text, names, steps.sent_before(place), &entry)?;
        // Named, since the prover has to see what type a command is.
        if let GroupEventRef::Command {
            command: _command,
            ..
        } = entry.event
        {}
    }
    Ok(())
}

/// Writes the lines of an entry, before which this was sent.
fn entry_lines(
    text: &mut Text,
    names: &NodeNames<'_>,
    sent: &[GroupSent],
    entry: &GroupEntryRef<'_>,
) -> Result<(), OutOfMemory>
    ensures { OnOk result (text.new ≡ text.old ++ entry_lines names.now (visit sent.now (entry_seen entry.now).event) (entry_seen entry.now).notes) }
{
    // What notes nothing has no line, so whose it is need not be looked up.
    if entry.notes.is_empty() {
        return Ok(());
    }
    match node_of(&entry.event, sent) {
        Some(node) => note_lines(text, names, node, entry.notes),
        None => Ok(()),
    }
}

/// The node of an event, before which this was sent. None where it delivers a message that was not.
fn node_of(event: &GroupEventRef<'_>, sent: &[GroupSent]) -> Option<Id>
    ensures { result ≡ option_map (λ (v : Visit). v.node) (visit sent.now (event_seen event.now)) }
{
    match event {
        GroupEventRef::Command { node, .. } => Some(*node),
        GroupEventRef::Deliver { message } => {
            let sent = sent.get(*message as usize)?;
            Some(sent.receiver)
        }
    }
}

/// Writes the lines of a node's notes.
fn note_lines(
    text: &mut Text,
    names: &NodeNames<'_>,
    node: Id,
    notes: &[GroupNote],
) -> Result<(), OutOfMemory>
    ensures { OnOk result (text.new ≡ text.old ++ flat_map (hearing_line names.now node) notes.now) }
{
    for note in notes {
        if let GroupNote::Heard {
            group,
            number,
            bytes,
        } = note
        {
            put_hearing(text, names, node, group, *number, bytes)?;
        }
    }
    Ok(())
}

/// Writes the line of what a node heard.
fn put_hearing(
    text: &mut Text,
    names: &NodeNames<'_>,
    node: Id,
    group: &Group,
    number: u64,
    bytes: &Published,
) -> Result<(), OutOfMemory>
    ensures { OnOk result (text.new ≡ text.old ++ hearing_line names.now node (GroupNote.Heard group.now number bytes.now)) }
{
    text.number_after(b"heard ", number)?;
    names.write_after(text, b" by ", node)?;
    text.put(b" ")?;
    text.put(group.as_slice())?;
    text.put(b" ")?;
    put_bytes(text, bytes.as_slice())?;
    text.put(b"\n")
}
