//! The line that names the node.

ghost use Rattle.std.specs.Prelude.{◌≡◌, ◌≤◌, length, map};
ghost use Rattle.scenario_reader.specs.declared.limits.TheConstants.{MOST_LINE_BYTES};
ghost use Rattle.scenario_reader.specs.Words.{plain_word};
ghost use Rattle.node_lines.specs.Lines.{Reads};
ghost use Rattle.node_lines.specs.Starts.{founder_by, start_of, start_with, started_by};

use crate::command::{id_in, wrong_count};
use crate::refusal::{Refusal, TellFault};
use crate::words::text_words;
use ring_math::Id;
use scenario_reader::Word;
use std::alloc::Global;

/// The node that a process is, and whether it is the founder of a ring.
#[derive(Clone, Copy, PartialEq, Eq, Debug)]
pub struct Start {
    pub me: Id,
    pub founder: bool,
}

/// The node that a line names: `node ID`, or `founder ID` for the founder of a ring.
pub fn read_start(alloc: Global, line: &[u8]) -> Result<Start, TellFault>
    ensures { Reads (started_by line.now) result }
{
    let words = text_words(alloc, line)?;
    start_of(&words)
}

fn start_of(words: &[Word<'_>]) -> Result<Start, TellFault>
    requires { length words.now ≤ MOST_LINE_BYTES }
    ensures { Reads (start_of (map plain_word words.now)) result }
{
    let Some((first, operands)) = words.split_first() else {
        return Err(TellFault::Refused(Refusal::Word { place: 0 }));
    };
    start_with(first.place, founder_by(first.text), operands)
}

/// Whether a node that is named by this word is the founder.
fn founder_by(word: &[u8]) -> Option<bool>
    ensures { result ≡ founder_by word.now }
{
    if word == b"node".as_slice() {
        Some(false)
    } else if word == b"founder".as_slice() {
        Some(true)
    } else {
        None
    }
}

fn start_with(place: u32, founder: Option<bool>, words: &[Word<'_>]) -> Result<Start, TellFault>
    requires { length words.now ≤ MOST_LINE_BYTES }
    ensures { Reads (start_with place founder (map plain_word words.now)) result }
{
    let Some(founder) = founder else {
        return Err(TellFault::Refused(Refusal::Word { place }));
    };
    match words {
        [id] => Ok(Start {
            me: id_in(id)?,
            founder,
        }),
        _ => Err(wrong_count(words)),
    }
}
