//! Traces written as texts.

ghost use Rattle.std.specs.Prelude.{◌≡◌, ◌≤◌, ◌∷◌, ◌++◌, [], codes, length, map, IfOk, OnOk};
ghost use Rattle.std.specs.List.{flat_map};
ghost use Rattle.hex.specs.Hex.{encode_lower};
ghost use Rattle.overlay_rules.specs.Record.{IsSetting};
ghost use Rattle.overlay_rules.specs.declared.entry.Event.TheVariants as event;
ghost use Rattle.overlay_rules.specs.Seen.{entry_seen, event_seen};
ghost use Rattle.scenario_reader.specs.declared.limits.TheConstants.{MOST_NODES};
ghost use Rattle.wire_msg.specs.Words.{plain_envelope};
ghost use Rattle.trace_text.specs.Lines as lines;
ghost use Rattle.trace_text.specs.Traces.{IsTraceOf, entry_lines, setting_lines, setting_of, trace_of};
ghost use Rattle.trace_text.specs.Writing.{WritesLines};

use crate::lanes::{LANES, block_digits};
use overlay_rules::{Entries, EntryRef, EventRef, Record};
use ring_math::{Id, OutOfMemory};
use std::alloc::Global;
use text_writer::Text;
use wire_codec::{encode_command, encode_into, encode_note_into};
use wire_msg::{Command, Envelope, Frame, Note};

/// The text of a trace, with these nodes and this founder. The only error is that memory was refused.
pub fn write_trace(
    alloc: Global,
    nodes: &[Id],
    founder: Id,
    steps: &Record,
) -> Result<Frame, OutOfMemory>
    requires setting { IsSetting (setting_of nodes.now founder) }
    requires few { length nodes.now ≤ MOST_NODES }
    ensures { IfOk result (λ text. IsTraceOf text (trace_of nodes.now founder steps.now.entries steps.now.skipped)) }
{
    let mut text = Text::new(alloc);
    put_setting(&mut text, nodes, founder)?;
    put_entries(alloc, &mut text, &steps.entries)?;
    put_end(&mut text, steps.skipped)?;
    Ok(text.into_frame())
}

/// The line of the format, those of the nodes, and that of the founder.
fn put_setting(text: &mut Text, nodes: &[Id], founder: Id) -> Result<(), OutOfMemory>
    ensures { OnOk result (WritesLines text.old text.new (setting_lines nodes.now founder)) }
{
    put_head(text)?;
    put_nodes(text, nodes)?;
    put_founder(text, founder)
}

fn put_nodes(text: &mut Text, nodes: &[Id]) -> Result<(), OutOfMemory>
    ensures { OnOk result (WritesLines text.old text.new (map lines.Node nodes.now)) }
{
    for node in nodes {
        put_node(text, *node)?;
    }
    Ok(())
}

fn put_head(text: &mut Text) -> Result<(), OutOfMemory>
    ensures { OnOk result (WritesLines text.old text.new (lines.Trace ∷ [])) }
{
    text.put(b"trace 1\n")
}

fn put_node(text: &mut Text, node: Id) -> Result<(), OutOfMemory>
    ensures { OnOk result (WritesLines text.old text.new (lines.Node node ∷ [])) }
{
    text.id_after(b"node ", node)?;
    text.put(b"\n")
}

fn put_founder(text: &mut Text, founder: Id) -> Result<(), OutOfMemory>
    ensures { OnOk result (WritesLines text.old text.new (lines.Founder founder ∷ [])) }
{
    text.id_after(b"founder ", founder)?;
    text.put(b"\n")
}

fn put_end(text: &mut Text, skipped: u64) -> Result<(), OutOfMemory>
    ensures { OnOk result (WritesLines text.old text.new (lines.End skipped ∷ [])) }
{
    text.number_after(b"end ", skipped)?;
    text.put(b"\n")
}

/// The lines of all entries. The bytes of each message and note stand in one buffer, one after another.
fn put_entries(alloc: Global, text: &mut Text, entries: &Entries) -> Result<(), OutOfMemory>
    ensures { OnOk result (WritesLines text.old text.new (flat_map entry_lines entries.now)) }
{
    let mut buffer = Vec::new(alloc);
    for place in 0..entries.len() {
        let entry = entries.at(place);
        put_entry(alloc, text, &mut buffer, &entry)?;
        // Named, since the prover has to see what type a command is.
        if let EventRef::Command {
            command: _command,
            ..
        } = entry.event
        {}
    }
    Ok(())
}

fn put_entry(
    alloc: Global,
    text: &mut Text,
    buffer: &mut Vec<u8>,
    entry: &EntryRef,
) -> Result<(), OutOfMemory>
    ensures { OnOk result (WritesLines text.old text.new (entry_lines (entry_seen entry.now))) }
{
    put_event(alloc, text, &entry.event)?;
    put_messages(text, buffer, entry.messages)?;
    put_notes(text, buffer, entry.notes)
}

fn put_event(alloc: Global, text: &mut Text, event: &EventRef) -> Result<(), OutOfMemory>
    ensures { OnOk result (WritesLines text.old text.new (lines.Event (event_seen event.now) ∷ [])) }
{
    match event {
        EventRef::Command {
            node,
            number,
            command,
        } => put_command(alloc, text, *node, *number, command),
        EventRef::Deliver { message } => {
            text.number_after(b"deliver ", *message)?;
            text.put(b"\n")
        }
        EventRef::Noise { node } => put_noise(text, *node),
    }
}

fn put_command(
    alloc: Global,
    text: &mut Text,
    node: Id,
    number: u64,
    command: &Command,
) -> Result<(), OutOfMemory>
    ensures { OnOk result (WritesLines text.old text.new (lines.Event (event.Command node number command.now) ∷ [])) }
{
    let bytes = encode_command(alloc, command)?;
    text.id_after(b"command ", node)?;
    text.number_after(b" ", number)?;
    put_hex(text, b" ", bytes.as_slice())
}

fn put_noise(text: &mut Text, node: Id) -> Result<(), OutOfMemory>
    ensures { OnOk result (WritesLines text.old text.new (lines.Event (event.Noise node) ∷ [])) }
{
    text.id_after(b"noise ", node)?;
    text.put(b"\n")
}

/// A word, the digits of these bytes, and the end of a line.
fn put_hex(text: &mut Text, word: &[u8], bytes: &[u8]) -> Result<(), OutOfMemory>
    ensures { OnOk result (text.new ≡ text.old ++ (word.now ++ encode_lower bytes.now ++ codes "\n")) }
{
    text.put(word)?;
    put_digits(text, bytes)?;
    text.put(b"\n")
}

/// Two digits for each byte, those of sixteen bytes at a time.
fn put_digits(text: &mut Text, bytes: &[u8]) -> Result<(), OutOfMemory>
    ensures { OnOk result (text.new ≡ text.old ++ encode_lower bytes.now) }
{
    let mut rest = bytes;
    while rest.len() >= LANES {
        text.put(&block_digits(rest))?;
        rest = &rest[LANES..];
    }
    text.hex(rest)
}

fn put_messages(
    text: &mut Text,
    buffer: &mut Vec<u8>,
    messages: &[Envelope],
) -> Result<(), OutOfMemory>
    ensures { OnOk result (WritesLines text.old text.new (map (λ e. lines.Sent (plain_envelope e)) messages.now)) }
{
    for envelope in messages {
        put_sent(text, buffer, envelope)?;
    }
    Ok(())
}

fn put_sent(text: &mut Text, buffer: &mut Vec<u8>, envelope: &Envelope) -> Result<(), OutOfMemory>
    ensures { OnOk result (WritesLines text.old text.new (lines.Sent (plain_envelope envelope.now) ∷ [])) }
{
    encode_into(buffer, envelope)?;
    put_hex(text, b"sent ", buffer)
}

fn put_notes(text: &mut Text, buffer: &mut Vec<u8>, notes: &[Note]) -> Result<(), OutOfMemory>
    ensures { OnOk result (WritesLines text.old text.new (map lines.Note notes.now)) }
{
    for note in notes {
        put_note(text, buffer, note)?;
    }
    Ok(())
}

fn put_note(text: &mut Text, buffer: &mut Vec<u8>, note: &Note) -> Result<(), OutOfMemory>
    ensures { OnOk result (WritesLines text.old text.new (lines.Note note.now ∷ [])) }
{
    encode_note_into(buffer, note)?;
    put_hex(text, b"note ", buffer)
}
