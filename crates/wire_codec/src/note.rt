//! Reading the fields of a command and of a note.

ghost use Rattle.std.specs.Prelude.{◌∷◌, [], ◌≤◌, length};
ghost use Rattle.wire_codec.specs.Fields.{Field};
ghost use Rattle.wire_codec.specs.Notes.{answer_layout, command_layout, note_layout, own_layout};
ghost use Rattle.wire_codec.specs.Notes.{fields_of_answer, fields_of_command, fields_of_note, tag_of_own};
ghost use Rattle.wire_codec.specs.Values.{Gives, values_at};

use crate::fault::FrameFault;
use crate::field::{byte_within, bytes_at, copies_at, file_at, hops_at, id_at, number_at};
use crate::owned::owned_bytes;
use crate::tagged::{reply_tagged, why_at};
use std::alloc::Global;
use wire_msg::{Answer, Command, Note, Own};

pub(crate) fn command_at(alloc: Global, bytes: &[u8]) -> Result<Command, FrameFault>
    ensures { Gives (λ c. fields_of_command c) result (values_at bytes.now command_layout 0) }
{
    match byte_within(bytes, 1, 6, 0)? {
        1 => {
            let (via, _) = id_at(bytes, 1)?;
            Ok(Command::Join { via })
        }
        2 => {
            let (key, _) = id_at(bytes, 1)?;
            Ok(Command::Lookup { key })
        }
        3 => {
            let (file, place) = file_at(bytes, 1)?;
            let (copies, place) = copies_at(bytes, place)?;
            let (bytes, _) = bytes_at(bytes, place)?;
            let bytes = owned_bytes(alloc, bytes)?;
            Ok(Command::Insert {
                file,
                copies,
                bytes,
            })
        }
        4 => {
            let (file, _) = file_at(bytes, 1)?;
            Ok(Command::Fetch { file })
        }
        5 => Ok(Command::GiveUp),
        _ => {
            let (file, _) = file_at(bytes, 1)?;
            Ok(Command::Reclaim { file })
        }
    }
}

fn own_at(bytes: &[u8], place: usize) -> Result<Own, FrameFault>
    requires { place ≤ length bytes.now }
    ensures { Gives (λ o. Field.Tag (tag_of_own o) ∷ []) result (values_at bytes.now own_layout place) }
{
    match byte_within(bytes, 1, 3, place)? {
        1 => Ok(Own::GivenUp),
        2 => Ok(Own::Already),
        _ => Ok(Own::Spent),
    }
}

fn answer_at(alloc: Global, bytes: &[u8], place: usize) -> Result<Answer, FrameFault>
    requires { place ≤ length bytes.now }
    ensures { Gives (λ a. fields_of_answer a) result (values_at bytes.now answer_layout place) }
{
    let tag = byte_within(bytes, 1, 6, place)?;
    let place = place + 1;
    match tag {
        1 => {
            let reply = reply_tagged(alloc, bytes, 1, 11, place)?;
            Ok(Answer::Reply(reply))
        }
        2 => {
            let (left, place) = id_at(bytes, place)?;
            let (right, _) = id_at(bytes, place)?;
            Ok(Answer::Joined { left, right })
        }
        3 => {
            let (node, place) = id_at(bytes, place)?;
            let why = why_at(bytes, place)?;
            Ok(Answer::Denied { node, why })
        }
        4 => {
            let (node, place) = id_at(bytes, place)?;
            let own = own_at(bytes, place)?;
            Ok(Answer::Stopped { node, own })
        }
        5 => Ok(Answer::GaveUp),
        _ => Ok(Answer::NothingToGiveUp),
    }
}

pub(crate) fn note_at(alloc: Global, bytes: &[u8]) -> Result<Note, FrameFault>
    ensures { Gives (λ n. fields_of_note n) result (values_at bytes.now note_layout 0) }
{
    match byte_within(bytes, 1, 5, 0)? {
        1 => {
            let (file, place) = file_at(bytes, 1)?;
            let (bytes, _) = bytes_at(bytes, place)?;
            let bytes = owned_bytes(alloc, bytes)?;
            Ok(Note::Accepted { file, bytes })
        }
        2 => {
            let (origin, place) = id_at(bytes, 1)?;
            let (number, place) = number_at(bytes, place)?;
            let (key, place) = id_at(bytes, place)?;
            let (hops, _) = hops_at(bytes, place)?;
            Ok(Note::Delivered {
                origin,
                number,
                key,
                hops,
            })
        }
        3 => {
            let (origin, place) = id_at(bytes, 1)?;
            let (number, place) = number_at(bytes, place)?;
            let reply = reply_tagged(alloc, bytes, 1, 11, place)?;
            Ok(Note::Answered {
                origin,
                number,
                reply,
            })
        }
        4 => {
            let (number, place) = number_at(bytes, 1)?;
            let answer = answer_at(alloc, bytes, place)?;
            Ok(Note::Closed { number, answer })
        }
        _ => {
            let (file, _) = file_at(bytes, 1)?;
            Ok(Note::Reclaimed { file })
        }
    }
}
