//! Commands and notes as bytes, and bytes as commands and notes: a tag and fields, in the forms of frames.

ghost use Rattle.std.specs.Prelude.{◌≡◌, None, IfOk, MatchResult, OnOk};
ghost use Rattle.wire_msg.specs.declared.command.Command.{Command as PlainCommand};
ghost use Rattle.wire_msg.specs.declared.note.Note.{Note as PlainNote};
ghost use Rattle.wire_codec.specs.declared.fault.FrameFault.TheVariants as fault;
ghost use Rattle.wire_codec.specs.Notes.{SpellsCommand, SpellsNote, command_refusal, note_refusal};
ghost use Rattle.wire_codec.specs.Reading.{IsDue};

use crate::fault::FrameFault;
use crate::note::{command_at, note_at};
use crate::put_note::{put_command, put_note};
use crate::walk_note::{walk_command, walk_note};
use ring_math::OutOfMemory;
use std::alloc::Global;
use wire_msg::{Command, Frame, Note};

/// The one spelling of the command.
pub fn encode_command(alloc: Global, command: &Command) -> Result<Frame, OutOfMemory>
    ensures { IfOk result (λ bytes. SpellsCommand bytes command.now) }
{
    let mut out = Vec::new(alloc);
    put_command(&mut out, command)?;
    Ok(Frame::from(out))
}

/// The one spelling of the note.
pub fn encode_note(alloc: Global, note: &Note) -> Result<Frame, OutOfMemory>
    ensures { IfOk result (λ bytes. SpellsNote bytes note.now) }
{
    let mut out = Vec::new(alloc);
    encode_note_into(&mut out, note)?;
    Ok(Frame::from(out))
}

/// The one spelling of the note, in the place of what the buffer had. After `OutOfMemory` nothing is known of what it has.
pub fn encode_note_into(out: &mut Vec<u8>, note: &Note) -> Result<(), OutOfMemory>
    ensures { OnOk result (SpellsNote out.new.items note.now) }
{
    out.clear();
    put_note(out, note)?;
    Ok(())
}

/// The command that bytes spell. They are checked whole before memory is taken.
///
/// `Short` and `Range` come as in [`decode`](crate::decode), and there is no header that other faults could be in.
pub fn decode_command(alloc: Global, bytes: &[u8]) -> Result<Command, FrameFault>
    // What is read is spelled so.
    ensures read { IfOk result (λ command. SpellsCommand bytes.now command) }
    // What spells a command is read as it, unless memory is refused.
    ensures spelled { (c : PlainCommand) → SpellsCommand bytes.now c → MatchResult result (λ command. command ≡ c) (λ f. f ≡ fault.OutOfMemory) }
    // Each fault is the first refusal that applies, and want of memory comes only where none does.
    ensures refused { MatchResult result (λ command. command_refusal bytes.now ≡ None) (λ f. IsDue f (command_refusal bytes.now)) }
{
    match walk_command(bytes) {
        Ok(()) => command_at(alloc, bytes),
        Err(fault) => Err(fault),
    }
}

/// The note that bytes spell. They are checked whole before memory is taken.
///
/// `Short` and `Range` come as in [`decode`](crate::decode), and there is no header that other faults could be in.
pub fn decode_note(alloc: Global, bytes: &[u8]) -> Result<Note, FrameFault>
    // What is read is spelled so.
    ensures read { IfOk result (λ note. SpellsNote bytes.now note) }
    // What spells a note is read as it, unless memory is refused.
    ensures spelled { (n : PlainNote) → SpellsNote bytes.now n → MatchResult result (λ note. note ≡ n) (λ f. f ≡ fault.OutOfMemory) }
    // Each fault is the first refusal that applies, and want of memory comes only where none does.
    ensures refused { MatchResult result (λ note. note_refusal bytes.now ≡ None) (λ f. IsDue f (note_refusal bytes.now)) }
{
    match walk_note(bytes) {
        Ok(()) => note_at(alloc, bytes),
        Err(fault) => Err(fault),
    }
}
