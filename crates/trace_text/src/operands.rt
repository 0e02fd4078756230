//! Reading what stands behind the first word of a line.

ghost use Rattle.std.specs.Prelude.{◌≡◌};
ghost use Rattle.wire_msg.specs.Words.{plain_envelope};
ghost use Rattle.trace_text.specs.Answers.{Finds, refusal_of};
ghost use Rattle.trace_text.specs.Digits.{IsCommandText};
ghost use Rattle.trace_text.specs.Lines.{plain_line, AreOperands};
ghost use Rattle.trace_text.specs.Lines as lines;
ghost use Rattle.trace_text.specs.declared.form.Form.TheVariants as form;

use crate::fault::Refusal;
use crate::form::Form;
use crate::line::Line;
use crate::words::{bytes_in, id_in, number_in, split_once};
use overlay_rules::Event;
use std::alloc::Global;
use wire_codec::{FrameFault, decode, decode_command, decode_note};
use wire_msg::{Command, Envelope, Note};

/// The line of this form whose operands these are.
pub(crate) fn line_in(
    alloc: Global,
    buffer: &mut Vec<u8>,
    form: Form,
    text: &[u8],
) -> Result<Line, Refusal>
    ensures { Finds plain_line (AreOperands form text.now) result }
{
    match form {
        Form::Trace => trace_line(text),
        Form::Node => Ok(Line::Node(id_in(text)?)),
        Form::Founder => Ok(Line::Founder(id_in(text)?)),
        Form::Command => Ok(Line::Event(command_event(alloc, buffer, text)?)),
        Form::Deliver => {
            let message = number_in(text)?;
            Ok(Line::Event(Event::Deliver { message }))
        }
        Form::Noise => {
            let node = id_in(text)?;
            Ok(Line::Event(Event::Noise { node }))
        }
        Form::Sent => Ok(Line::Sent(envelope_in(alloc, buffer, text)?)),
        Form::Note => Ok(Line::Note(note_in(alloc, buffer, text)?)),
        Form::End => {
            let skipped = number_in(text)?;
            Ok(Line::End { skipped })
        }
    }
}

/// The format has one version.
fn trace_line(text: &[u8]) -> Result<Line, Refusal>
    ensures { Finds plain_line (AreOperands form.Trace text.now) result }
{
    if text == b"1".as_slice() {
        Ok(Line::Trace)
    } else {
        Err(Refusal::NotAllowed)
    }
}

/// A node, a number and a command.
fn command_event(alloc: Global, buffer: &mut Vec<u8>, text: &[u8]) -> Result<Event, Refusal>
    ensures { Finds (λ e. lines.Event e) (AreOperands form.Command text.now) result }
{
    let Some((node, rest)) = split_once(b' ', text) else {
        return Err(Refusal::NotAllowed);
    };
    let Some((number, command)) = split_once(b' ', rest) else {
        return Err(Refusal::NotAllowed);
    };
    let node = id_in(node)?;
    let number = number_in(number)?;
    let command = command_in(alloc, buffer, command)?;
    Ok(Event::Command {
        node,
        number,
        command,
    })
}

fn command_in(alloc: Global, buffer: &mut Vec<u8>, text: &[u8]) -> Result<Command, Refusal>
    ensures { Finds (λ c. c) (IsCommandText text.now) result }
{
    bytes_in(buffer, text)?;
    match decode_command(alloc, buffer) {
        Ok(command) => Ok(command),
        Err(fault) => Err(refusal_of(fault)),
    }
}

fn envelope_in(alloc: Global, buffer: &mut Vec<u8>, text: &[u8]) -> Result<Envelope, Refusal>
    ensures { Finds (λ e. lines.Sent (plain_envelope e)) (AreOperands form.Sent text.now) result }
{
    bytes_in(buffer, text)?;
    match decode(alloc, buffer) {
        Ok(envelope) => Ok(envelope),
        Err(fault) => Err(refusal_of(fault)),
    }
}

fn note_in(alloc: Global, buffer: &mut Vec<u8>, text: &[u8]) -> Result<Note, Refusal>
    ensures { Finds (λ n. lines.Note n) (AreOperands form.Note text.now) result }
{
    bytes_in(buffer, text)?;
    match decode_note(alloc, buffer) {
        Ok(note) => Ok(note),
        Err(fault) => Err(refusal_of(fault)),
    }
}

/// Bytes that spell nothing are no operands.
fn refusal_of(fault: FrameFault) -> Refusal
    ensures { result ≡ refusal_of fault }
{
    match fault {
        FrameFault::OutOfMemory => Refusal::OutOfMemory,
        _ => Refusal::NotAllowed,
    }
}
