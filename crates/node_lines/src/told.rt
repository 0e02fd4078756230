//! What a line tells a node.

ghost use Rattle.std.specs.Prelude.{◌≡◌, ◌≤◌, ◌<◌, length, map};
ghost use Rattle.scenario_reader.specs.declared.limits.TheConstants.{MOST_LINE_BYTES};
ghost use Rattle.scenario_reader.specs.Words.{plain_word};
ghost use Rattle.node_lines.specs.Lines.{Reads, brings_bytes, brought_by, commanded_by, said_by, told_by};

use crate::command::{bytes_of, command_of};
use crate::limits::MOST_FRAME_LINE;
use crate::refusal::{Refusal, TellFault};
use crate::words::text_words;
use scenario_reader::{Word, form_with};
use std::alloc::Global;
use wire_msg::{Command, Frame};

/// What a line tells a node.
#[derive(Drop)]
pub enum Told {
    /// A command of the node's own user.
    Does(Command),
    /// Bytes that came from the network.
    Comes(Frame),
}

/// What a line tells: `frame HEX` brings bytes, and `join VIA`, `lookup KEY`, `insert NAME OWNER SALT BYTES K`, `fetch FILE`,
/// `reclaim FILE` and `giveup` are commands. Their words are spelled as in a scenario, and identifiers in hexadecimal.
pub fn read_line(alloc: Global, line: &[u8]) -> Result<Told, TellFault>
    ensures { Reads (told_by line.now) result }
{
    if brings_bytes(line) {
        read_bytes(alloc, line)
    } else {
        read_command(alloc, line)
    }
}

fn brings_bytes(line: &[u8]) -> bool
    ensures { result ≡ brings_bytes line.now }
{
    line.starts_with(b"frame ")
}

/// The bytes that a line brings.
fn read_bytes(alloc: Global, line: &[u8]) -> Result<Told, TellFault>
    requires { 6 ≤ length line.now }
    ensures { Reads (brought_by line.now) result }
{
    if line.len() > MOST_FRAME_LINE {
        return Err(TellFault::Refused(Refusal::TooLong));
    }
    let word = Word {
        place: 6,
        text: &line[6..],
    };
    Ok(Told::Comes(bytes_of(alloc, &word)?))
}

/// The command that a line says.
fn read_command(alloc: Global, line: &[u8]) -> Result<Told, TellFault>
    ensures { Reads (commanded_by line.now) result }
{
    let words = text_words(alloc, line)?;
    read_words(alloc, &words)
}

/// What the words of a line say.
fn read_words(alloc: Global, words: &[Word<'_>]) -> Result<Told, TellFault>
    requires { length words.now ≤ MOST_LINE_BYTES }
    ensures { Reads (said_by (map plain_word words.now)) result }
{
    let Some((first, operands)) = words.split_first() else {
        return Err(TellFault::Refused(Refusal::Word { place: 0 }));
    };
    let form = form_with(first.text);
    let command = command_of(alloc, first.place, form, operands)?;
    Ok(Told::Does(command))
}
