//! The words beside an entry.

ghost use Rattle.std.specs.Prelude.{◌≡◌, ◌++◌, map, OnOk};
ghost use Rattle.std.specs.Option.{option_copied, option_map};
ghost use Rattle.wire_msg.specs.Words.{plain, plain_envelope};
ghost use Rattle.overlay_rules.specs.Seen.{event_seen};
ghost use Rattle.course_picture.specs.Words.{answer_words, command_words, event_words, kind_of, message_words, node_words};
ghost use Rattle.course_picture.specs.Words.{note_words, notes_words, reply_words, short_file};

use delivery_report::{NodeNames, put_answer, put_reply};
use overlay_rules::EventRef;
use ring_math::{FileId, Id, OutOfMemory};
use svg_text::put_short;
use text_writer::Text;
use wire_msg::{Answer, Command, Envelope, Message, Note, Reply};

/// The node, where there is one.
pub(crate) fn put_node(
    text: &mut Text,
    names: &NodeNames,
    node: Option<Id>,
) -> Result<(), OutOfMemory>
    ensures { OnOk result (text.new ≡ text.old ++ node_words names.now node) }
{
    match node {
        Some(node) => {
            names.write(text, node)?;
            text.put(b" ")
        }
        None => Ok(()),
    }
}

/// What came, in a record that sent these messages.
pub(crate) fn put_event(
    text: &mut Text,
    names: &NodeNames,
    sent: &[Envelope],
    event: &EventRef,
) -> Result<(), OutOfMemory>
    ensures { OnOk result (text.new ≡ text.old ++ event_words names.now (map plain_envelope sent.now) (event_seen event.now)) }
{
    match event {
        EventRef::Command {
            number,
            command,
            ..
        } => {
            text.number_after(b"command ", *number)?;
            text.put(b" ")?;
            put_command(text, names, command)
        }
        EventRef::Deliver { message } => {
            put_message(text, *message, sent.get(*message as usize))
        }
        EventRef::Noise { .. } => text.put(b"noise"),
    }
}

/// A message by its number, and its kind where it was sent.
pub(crate) fn put_message(
    text: &mut Text,
    number: u64,
    envelope: Option<&Envelope>,
) -> Result<(), OutOfMemory>
    ensures { OnOk result (text.new ≡ text.old ++ message_words number (option_map plain_envelope (option_copied envelope.entry))) }
{
    text.number_after(b"message ", number)?;
    match envelope {
        Some(envelope) => {
            text.put(b" ")?;
            text.put(kind_of(&envelope.message))
        }
        None => Ok(()),
    }
}

fn kind_of(message: &Message) -> &'static [u8]
    ensures { result.now ≡ kind_of (plain message.now) }
{
    match message {
        Message::Lookup { .. } => b"Lookup",
        Message::LookupReply { .. } => b"LookupReply",
        Message::Insert { .. } => b"Insert",
        Message::InsertReply { .. } => b"InsertReply",
        Message::Fetch { .. } => b"Fetch",
        Message::FetchReply { .. } => b"FetchReply",
        Message::JoinRequest { .. } => b"JoinRequest",
        Message::JoinReply { .. } => b"JoinReply",
        Message::JoinRefuse { .. } => b"JoinRefuse",
        Message::Probe { .. } => b"Probe",
        Message::ProbeReply { .. } => b"ProbeReply",
        Message::LeaseRequest { .. } => b"LeaseRequest",
        Message::Grant { .. } => b"Grant",
        Message::Deny { .. } => b"Deny",
        Message::Handover { .. } => b"Handover",
        Message::Release { .. } => b"Release",
        Message::Confirm { .. } => b"Confirm",
        Message::Announce => b"Announce",
        Message::Replicate { .. } => b"Replicate",
        Message::ReplicaAck { .. } => b"ReplicaAck",
        Message::Reclaim { .. } => b"Reclaim",
        Message::ReclaimReply { .. } => b"ReclaimReply",
    }
}

fn put_command(text: &mut Text, names: &NodeNames, command: &Command) -> Result<(), OutOfMemory>
    ensures { OnOk result (text.new ≡ text.old ++ command_words names.now command.now) }
{
    match command {
        Command::Join { via } => names.write_after(text, b"join by ", *via),
        Command::Lookup { key } => put_short(text, b"lookup ", *key),
        Command::Insert { file, copies, .. } => {
            put_file(text, b"insert ", file)?;
            text.number_after(b" ", u64::from(copies.get()))
        }
        Command::Fetch { file } => put_file(text, b"fetch ", file),
        Command::GiveUp => text.put(b"giveup"),
        Command::Reclaim { file } => put_file(text, b"reclaim ", file),
    }
}

/// A word and the first digits of a file.
fn put_file(text: &mut Text, word: &[u8], file: &FileId) -> Result<(), OutOfMemory>
    ensures { OnOk result (text.new ≡ text.old ++ (word.now ++ short_file file.now)) }
{
    text.put(word)?;
    text.hex(&file.0[..4])
}

/// What an entry noted, each note behind a semicolon.
pub(crate) fn put_notes(
    text: &mut Text,
    names: &NodeNames,
    notes: &[Note],
) -> Result<(), OutOfMemory>
    ensures { OnOk result (text.new ≡ text.old ++ notes_words names.now notes.now) }
{
    for note in notes {
        text.put(b"; ")?;
        put_note(text, names, note)?;
    }
    Ok(())
}

fn put_note(text: &mut Text, names: &NodeNames, note: &Note) -> Result<(), OutOfMemory>
    ensures { OnOk result (text.new ≡ text.old ++ note_words names.now note.now) }
{
    match note {
        Note::Accepted { file, .. } => put_file(text, b"accepted ", file),
        Note::Delivered {
            number,
            key,
            hops,
            ..
        } => {
            text.number_after(b"delivery ", *number)?;
            put_short(text, b" of ", *key)?;
            text.number_after(b" hops ", u64::from(*hops))
        }
        Note::Answered { origin, number, .. } => {
            names.write_after(text, b"answered of ", *origin)?;
            text.number_after(b" ", *number)
        }
        Note::Closed { number, answer } => {
            text.number(*number)?;
            text.put(b" ")?;
            put_closing(text, names, answer)
        }
        Note::Reclaimed { file } => put_file(text, b"reclaimed ", file),
    }
}

fn put_closing(text: &mut Text, names: &NodeNames, answer: &Answer) -> Result<(), OutOfMemory>
    ensures { OnOk result (text.new ≡ text.old ++ answer_words names.now answer.now) }
{
    match answer {
        Answer::Reply(reply) => put_short_reply(text, names, reply),
        _ => put_answer(text, names, answer),
    }
}

/// A reply as the report has it, but for the bytes that were found, which may be many.
fn put_short_reply(text: &mut Text, names: &NodeNames, reply: &Reply) -> Result<(), OutOfMemory>
    ensures { OnOk result (text.new ≡ text.old ++ reply_words names.now reply.now) }
{
    match reply {
        Reply::Found { node, .. } => names.write_after(text, b"found by ", *node),
        _ => put_reply(text, names, reply),
    }
}
