//! The reader of the scenario language.

ghost use Rattle.std.specs.Prelude.{◌≡◌, ◌⊎◌, ◌<◌, ◌≤◌, IfErr, IfOk, IfSome, length, map, not, position};
ghost use Rattle.scenario_reader.specs.declared.fault.LineFault.TheVariants as fault;
ghost use Rattle.scenario_reader.specs.Checks.{is_text_byte};
ghost use Rattle.scenario_reader.specs.Grammar.{scenario_of, finished, read_line, read_words, read_form, is_comment};
ghost use Rattle.scenario_reader.specs.Outcome.{Gives};
ghost use Rattle.scenario_reader.specs.Rules.{KeepsRules};
ghost use Rattle.scenario_reader.specs.Words.{plain_word};

use crate::act::{read_deliver, read_dup, read_noise, read_settle, read_shuffle};
use crate::builder::ScenarioBuilder;
use crate::command::{read_fetch, read_giveup, read_insert, read_join, read_lookup, read_reclaim};
use crate::declare::{FileWords, read_file, read_first, read_node};
use crate::fault::LineFault;
use crate::form::{Form, form_with};
use crate::limits::{MOST_LINE_BYTES, MOST_LINES};
use crate::lines::split_line;
use crate::scenario::Scenario;
use crate::words::{Word, words_in};
use std::alloc::Global;

/// The scenario that the bytes are, or their fault.
///
/// Out of memory may come in the place of any answer.
pub fn read_scenario(alloc: Global, bytes: &[u8]) -> Result<Scenario, LineFault>
    // The bytes are this scenario.
    ensures read { IfOk result (λ scenario. scenario_of bytes.now ≡ Ok scenario) }
    ensures rules { IfOk result (λ scenario. KeepsRules scenario) }
    // They are none, and this is their fault.
    ensures refused { IfErr result (λ refusal. (refusal ≡ fault.OutOfMemory) ⊎ (scenario_of bytes.now ≡ Err refusal)) }
{
    let mut draft = ScenarioBuilder::new(alloc);
    let mut line = 1;
    let mut rest = bytes;
    while !rest.is_empty() {
        if line > MOST_LINES {
            return Err(LineFault::Limit { line, place: 0 });
        }
        let (text, behind) = split_line(rest);
        read_line(&mut draft, alloc, line, text)?;
        line += 1;
        rest = behind;
    }
    finished(draft, line)
}

/// The scenario at the end of the lines, of which the next would be this one.
fn finished(draft: ScenarioBuilder, line: u32) -> Result<Scenario, LineFault>
    ensures same { finished draft line draft.founder ≡ result }
    ensures rules { IfOk result (λ scenario. KeepsRules scenario) }
{
    if draft.has_founder() {
        Ok(draft.finish())
    } else {
        Err(LineFault::NoFounder { line })
    }
}

/// Reads a line into a draft.
fn read_line(
    draft: &mut ScenarioBuilder,
    alloc: Global,
    line: u32,
    text: &[u8],
) -> Result<(), LineFault>
    ensures { Gives (read_line draft.old line text.now) result draft.new }
{
    if text.len() > MOST_LINE_BYTES {
        return Err(LineFault::TooLong { line });
    }
    if let Some(place) = first_outside_text(text) {
        let place = place as u32;
        return Err(LineFault::NotText { line, place });
    }
    let words = words_in(alloc, text)?;
    read_words(draft, alloc, line, &words)
}

/// The place of the first byte outside 20 to 7e, which no line may have. None where there is none.
pub fn first_outside_text(text: &[u8]) -> Option<usize>
    ensures value { result ≡ position (λ byte. not (is_text_byte byte)) text.now }
    ensures within { IfSome result (λ place. place < length text.now) }
{
    text.iter().position(|byte| !is_text(*byte))
}

fn is_text(byte: u8) -> bool
    ensures { result ≡ is_text_byte byte }
{
    byte >= 0x20 && byte <= 0x7e
}

/// Reads the words of a line into a draft.
fn read_words(
    draft: &mut ScenarioBuilder,
    alloc: Global,
    line: u32,
    words: &[Word<'_>],
) -> Result<(), LineFault>
    requires { length words.now ≤ 9001 }
    ensures { Gives (read_words draft.old line (map plain_word words.now)) result draft.new }
{
    let Some((first, operands)) = words.split_first() else {
        return Ok(());
    };
    if is_comment(first.text) {
        return Ok(());
    }
    match form_with(first.text) {
        Some(form) => read_form(draft, alloc, line, form, operands),
        None => Err(LineFault::Word {
            line,
            place: first.place,
        }),
    }
}

/// Whether a line that begins with this word is a comment.
pub fn is_comment(word: &[u8]) -> bool
    ensures { result ≡ is_comment word.now }
{
    match word {
        [first, ..] => *first == b'#',
        [] => false,
    }
}

/// Reads a line of a form, with these words behind the first.
fn read_form(
    draft: &mut ScenarioBuilder,
    alloc: Global,
    line: u32,
    form: Form,
    words: &[Word<'_>],
) -> Result<(), LineFault>
    requires { length words.now ≤ MOST_LINE_BYTES }
    ensures { Gives (read_form draft.old line form (map plain_word words.now)) result draft.new }
{
    match (form, words) {
        (Form::Node, [name, id]) => read_node(draft, alloc, line, name, id),
        (Form::File, [file, name, owner, salt, content]) => {
            let words = FileWords {
                file: *file,
                name: *name,
                owner: *owner,
                salt: *salt,
                content: *content,
            };
            read_file(draft, alloc, line, &words)
        }
        (Form::First, [name]) => read_first(draft, line, name),
        (Form::Join, [name, via]) => read_join(draft, alloc, line, name, via),
        (Form::Lookup, [name, key]) => read_lookup(draft, alloc, line, name, key),
        (Form::Insert, [name, file, copies]) => {
            read_insert(draft, alloc, line, name, file, copies)
        }
        (Form::Fetch, [name, file]) => read_fetch(draft, alloc, line, name, file),
        (Form::Reclaim, [name, file]) => read_reclaim(draft, alloc, line, name, file),
        (Form::GiveUp, [name]) => read_giveup(draft, alloc, line, name),
        (Form::Settle, [count]) => read_settle(draft, alloc, line, count),
        (Form::Deliver, [number]) => read_deliver(draft, alloc, line, number),
        (Form::Shuffle, [seed, count]) => read_shuffle(draft, alloc, line, seed, count),
        (Form::Dup, [copies]) => read_dup(draft, alloc, line, copies),
        (Form::Noise, [name, content]) => read_noise(draft, alloc, line, name, content),
        _ => Err(LineFault::Count {
            line,
            found: words.len() as u32 + 1,
        }),
    }
}
