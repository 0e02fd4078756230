//! The words of a line that is a text.

ghost use Rattle.std.specs.Prelude.{◌≡◌, ◌≤◌, Ok, IfOk, IfErr, map, vec_len};
ghost use Rattle.scenario_reader.specs.Words.{plain_word};
ghost use Rattle.node_lines.specs.Lines.{IsDue, text_words};

use crate::refusal::{Refusal, TellFault};
use scenario_reader::{MOST_LINE_BYTES, Word, first_outside_text, words_in};
use std::alloc::Global;

/// The words of a line that is a text, and no longer than a line of a scenario.
pub(crate) fn text_words<'a>(alloc: Global, line: &'a [u8]) -> Result<Vec<Word<'a>>, TellFault>
    ensures words { IfOk result (λ words. text_words line.now ≡ Ok (map plain_word words.items)) }
    ensures few { IfOk result (λ words. vec_len words ≤ MOST_LINE_BYTES) }
    ensures due { IfErr result (IsDue (text_words line.now)) }
{
    if line.len() > MOST_LINE_BYTES {
        return Err(TellFault::Refused(Refusal::TooLong));
    }
    if let Some(place) = first_outside_text(line) {
        let place = place as u32;
        return Err(TellFault::Refused(Refusal::NotText { place }));
    }
    Ok(words_in(alloc, line)?)
}
