//! Walking over the fields of a command and of a note, to the end of the bytes.

ghost use Rattle.std.specs.Prelude.{◌≤◌, length};
ghost use Rattle.wire_codec.specs.Layouts.{Form, end, tagged, ◌▸◌, behind_reply};
ghost use Rattle.wire_codec.specs.Notes.{command_layout, note_layout, answer_layout, own_layout};
ghost use Rattle.wire_codec.specs.Reading.{Reads, walk};

use crate::fault::FrameFault;
use crate::field::{byte_within, bytes_at, copies_at, file_at, hops_at, id_at, number_at};
use crate::walk::{walk_end, walk_tagged, walk_why};

/// The fields of a command, up to the end of the bytes.
pub(crate) fn walk_command(bytes: &[u8]) -> Result<(), FrameFault>
    ensures { Reads (λ ended. ended) result (walk bytes.now command_layout 0) }
{
    match byte_within(bytes, 1, 6, 0)? {
        1 | 2 => {
            let (_, place) = id_at(bytes, 1)?;
            walk_end(bytes, place)
        }
        3 => {
            let (_, place) = file_at(bytes, 1)?;
            let (_, place) = copies_at(bytes, place)?;
            let (_, place) = bytes_at(bytes, place)?;
            walk_end(bytes, place)
        }
        5 => walk_end(bytes, 1),
        _ => walk_file(bytes, 1),
    }
}

/// A file alone.
fn walk_file(bytes: &[u8], place: usize) -> Result<(), FrameFault>
    requires { place ≤ length bytes.now }
    ensures { Reads (λ ended. ended) result (walk bytes.now (Form.File ▸ end) place) }
{
    let (_, place) = file_at(bytes, place)?;
    walk_end(bytes, place)
}

/// How a node ended its own join.
fn walk_own(bytes: &[u8], place: usize) -> Result<(), FrameFault>
    requires { place ≤ length bytes.now }
    ensures { Reads (λ ended. ended) result (walk bytes.now own_layout place) }
{
    byte_within(bytes, 1, 3, place)?;
    walk_end(bytes, place + 1)
}

fn walk_answer(bytes: &[u8], place: usize) -> Result<(), FrameFault>
    requires { place ≤ length bytes.now }
    ensures { Reads (λ ended. ended) result (walk bytes.now answer_layout place) }
{
    let tag = byte_within(bytes, 1, 6, place)?;
    let place = place + 1;
    match tag {
        1 => walk_tagged(bytes, 1, 11, place),
        2 => {
            let (_, place) = id_at(bytes, place)?;
            let (_, place) = id_at(bytes, place)?;
            walk_end(bytes, place)
        }
        3 => {
            let (_, place) = id_at(bytes, place)?;
            walk_why(bytes, place)
        }
        4 => {
            let (_, place) = id_at(bytes, place)?;
            walk_own(bytes, place)
        }
        _ => walk_end(bytes, place),
    }
}

/// An origin, a number and a reply.
fn walk_answered(bytes: &[u8], place: usize) -> Result<(), FrameFault>
    requires { place ≤ length bytes.now }
    ensures { Reads (λ ended. ended) result (walk bytes.now (Form.Id ▸ Form.Number ▸ tagged 1 11 behind_reply) place) }
{
    let (_, place) = id_at(bytes, place)?;
    let (_, place) = number_at(bytes, place)?;
    walk_tagged(bytes, 1, 11, place)
}

/// The fields of a note, up to the end of the bytes.
pub(crate) fn walk_note(bytes: &[u8]) -> Result<(), FrameFault>
    ensures { Reads (λ ended. ended) result (walk bytes.now note_layout 0) }
{
    match byte_within(bytes, 1, 5, 0)? {
        1 => {
            let (_, place) = file_at(bytes, 1)?;
            let (_, place) = bytes_at(bytes, place)?;
            walk_end(bytes, place)
        }
        2 => {
            let (_, place) = id_at(bytes, 1)?;
            let (_, place) = number_at(bytes, place)?;
            let (_, place) = id_at(bytes, place)?;
            let (_, place) = hops_at(bytes, place)?;
            walk_end(bytes, place)
        }
        3 => walk_answered(bytes, 1),
        4 => {
            let (_, place) = number_at(bytes, 1)?;
            walk_answer(bytes, place)
        }
        _ => walk_file(bytes, 1),
    }
}
