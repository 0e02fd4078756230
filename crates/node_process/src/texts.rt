//! How lines are answered.

ghost use Rattle.std.specs.Prelude.{◌≡◌, ◌++◌, [], codes, decimal, OnOk};
ghost use Rattle.std.specs.List.{flat_map};
ghost use Rattle.hex.specs.Hex.{encode_lower};
ghost use Rattle.ring_math.specs.Texts.{text_of};
ghost use Rattle.node_process.specs.Texts.{at_place, cause_text, done_line, note_line, note_text, refused_line, send_line};

use delivery_report::{NodeNames, put_answer, put_reply};
use node_cell::{Addressed, Taken};
use node_lines::Refusal;
use ring_math::{FileId, Id, OutOfMemory};
use text_writer::Text;
use wire_msg::Note;

/// Writes what a step sent and noted, and its stamp.
pub(crate) fn put_taken(
    text: &mut Text,
    names: &NodeNames,
    taken: &Taken,
) -> Result<(), OutOfMemory>
    requires { names.now ≡ [] }
    ensures { OnOk result (text.new ≡ text.old ++ (flat_map send_line taken.now.frames.items ++ flat_map note_line taken.now.entry.notes ++ done_line taken.now.entry.stamp)) }
{
    put_sends(text, &taken.frames)?;
    put_notes(text, names, taken.entry.notes.as_slice())?;
    put_done(text, taken.entry.stamp)
}

fn put_sends(text: &mut Text, frames: &[Addressed]) -> Result<(), OutOfMemory>
    ensures { OnOk result (text.new ≡ text.old ++ flat_map send_line frames.now) }
{
    for addressed in frames {
        put_send(text, addressed)?;
    }
    Ok(())
}

fn put_send(text: &mut Text, addressed: &Addressed) -> Result<(), OutOfMemory>
    ensures { OnOk result (text.new ≡ text.old ++ send_line addressed.now) }
{
    text.id_after(b"send ", addressed.receiver)?;
    text.put(b" ")?;
    text.hex(addressed.frame.as_slice())?;
    text.put(b"\n")
}

fn put_notes(text: &mut Text, names: &NodeNames, notes: &[Note]) -> Result<(), OutOfMemory>
    requires { names.now ≡ [] }
    ensures { OnOk result (text.new ≡ text.old ++ flat_map note_line notes.now) }
{
    for note in notes {
        put_note(text, names, note)?;
    }
    Ok(())
}

fn put_note(text: &mut Text, names: &NodeNames, note: &Note) -> Result<(), OutOfMemory>
    requires { names.now ≡ [] }
    ensures { OnOk result (text.new ≡ text.old ++ note_line note.now) }
{
    put_note_text(text, names, note)?;
    text.put(b"\n")
}

fn put_note_text(text: &mut Text, names: &NodeNames, note: &Note) -> Result<(), OutOfMemory>
    requires { names.now ≡ [] }
    ensures { OnOk result (text.new ≡ text.old ++ note_text note.now) }
{
    match note {
        Note::Accepted { file, .. } => put_file(text, b"accepted ", file),
        Note::Delivered {
            origin,
            number,
            key,
            hops,
        } => {
            put_numbered(text, b"delivered ", *origin, *number)?;
            text.id_after(b" of ", *key)?;
            text.number_after(b" hops ", u64::from(*hops))
        }
        Note::Answered {
            origin,
            number,
            reply,
        } => {
            put_numbered(text, b"answered ", *origin, *number)?;
            text.put(b" ")?;
            put_reply(text, names, reply)
        }
        Note::Closed { number, answer } => {
            text.number_after(b"closed ", *number)?;
            text.put(b" ")?;
            put_answer(text, names, answer)
        }
        Note::Reclaimed { file } => put_file(text, b"reclaimed ", file),
    }
}

/// A word and the identifier of a file.
fn put_file(text: &mut Text, word: &[u8], file: &FileId) -> Result<(), OutOfMemory>
    ensures { OnOk result (text.new ≡ text.old ++ (word.now ++ encode_lower file.now)) }
{
    text.put(word)?;
    text.hex(&file.0)
}

/// A word, a node, and the number of a command of its own.
fn put_numbered(text: &mut Text, word: &[u8], origin: Id, number: u64) -> Result<(), OutOfMemory>
    ensures { OnOk result (text.new ≡ text.old ++ (word.now ++ text_of origin ++ codes " " ++ decimal number)) }
{
    text.id_after(word, origin)?;
    text.number_after(b" ", number)
}

/// Writes that a line was taken in, at this stamp.
pub fn put_done(text: &mut Text, stamp: u64) -> Result<(), OutOfMemory>
    ensures { OnOk result (text.new ≡ text.old ++ done_line stamp) }
{
    text.number_after(b"done ", stamp)?;
    text.put(b"\n")
}

/// Writes why a line is none.
pub fn put_refused(text: &mut Text, refusal: Refusal) -> Result<(), OutOfMemory>
    ensures { OnOk result (text.new ≡ text.old ++ refused_line refusal) }
{
    text.put(b"refused ")?;
    put_cause(text, refusal)?;
    text.put(b"\n")
}

fn put_cause(text: &mut Text, refusal: Refusal) -> Result<(), OutOfMemory>
    ensures { OnOk result (text.new ≡ text.old ++ cause_text refusal) }
{
    match refusal {
        Refusal::TooLong => text.put(b"too long"),
        Refusal::NotText { place } => put_place(text, b"no text at ", place),
        Refusal::Word { place } => put_place(text, b"unknown word at ", place),
        Refusal::Count { found } => text.number_after(b"count of words ", u64::from(found)),
        Refusal::Number { place } => put_place(text, b"no number at ", place),
        Refusal::Hex { place } => put_place(text, b"no hexadecimal at ", place),
        Refusal::Limit { place } => put_place(text, b"over limit at ", place),
        Refusal::Spent => text.put(b"stamps spent"),
    }
}

/// A word and a place, which is counted from 1.
fn put_place(text: &mut Text, word: &[u8], place: u32) -> Result<(), OutOfMemory>
    ensures { OnOk result (text.new ≡ text.old ++ (word.now ++ at_place place)) }
{
    text.number_after(word, u64::from(place) + 1)
}
