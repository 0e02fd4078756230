//! Notes in words.

ghost use Rattle.std.specs.Prelude.{◌≡◌, ◌++◌, OnOk};
ghost use Rattle.message_table.specs.Entries.{note_line, note_lines, note_text};

use crate::labels::Labels;
use crate::messages::asker;
use delivery_report::{command_line, delivery_line, put_bytes, put_reply};
use ring_math::{Id, OutOfMemory};
use text_writer::Text;
use wire_msg::Note;

/// A line for each note of this node.
pub(crate) fn put_notes(
    text: &mut Text,
    labels: &Labels,
    node: Id,
    notes: &[Note],
) -> Result<(), OutOfMemory>
    ensures { OnOk result (text.new ≡ text.old ++ note_lines labels.now node notes.now) }
{
    for note in notes {
        put_line(text, labels, node, note)?;
    }
    Ok(())
}

fn put_line(text: &mut Text, labels: &Labels, node: Id, note: &Note) -> Result<(), OutOfMemory>
    ensures { OnOk result (text.new ≡ text.old ++ note_line labels.now node note.now) }
{
    text.put(b"  note ")?;
    put_note(text, labels, node, note)
}

/// A note, in the words of the report where that has a line for it.
fn put_note(text: &mut Text, labels: &Labels, node: Id, note: &Note) -> Result<(), OutOfMemory>
    ensures { OnOk result (text.new ≡ text.old ++ note_text labels.now node note.now) }
{
    match note {
        Note::Accepted { file, bytes } => {
            labels.put_file(text, b"accepted ", file)?;
            text.put(b" ")?;
            put_bytes(text, bytes.as_slice())?;
            text.put(b"\n")
        }
        Note::Delivered { .. } => delivery_line(text, labels.names(), node, note),
        Note::Answered {
            origin,
            number,
            reply,
        } => {
            asker(text, labels, b"answered", *origin, *number)?;
            text.put(b" ")?;
            put_reply(text, labels.names(), reply)?;
            text.put(b"\n")
        }
        Note::Closed { number, answer } => {
            command_line(text, labels.names(), *number, Some(answer))
        }
        Note::Reclaimed { file } => {
            labels.put_file(text, b"reclaimed ", file)?;
            text.put(b"\n")
        }
    }
}
