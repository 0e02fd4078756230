//! The lines of commands.

ghost use Rattle.std.specs.Prelude.{◌≡◌, ◌++◌, ◌+◌, ◌<◌, ◌∷◌, [], ℕ, None, length, map, slice_index_or, IfOk, OnOk};
ghost use Rattle.std.specs.Option.{option_or, option_copied};
ghost use Rattle.delivery_report.specs.Report.{closing_of, closings_of, command_line, command_lines};
ghost use Rattle.delivery_report.specs.Texts.{commands_of};

use crate::answers::put_answer;
use crate::names::Names;
use overlay_rules::Entries;
use ring_math::OutOfMemory;
use scenario_reader::{Scenario, What};
use std::alloc::Global;
use text_writer::Text;
use wire_msg::{Answer, Note};

/// How many commands a scenario has.
pub fn command_count(scenario: &Scenario) -> u64
    ensures { result ≡ commands_of scenario.now }
{
    let mut count = 0;
    for action in scenario.actions() {
        if matches!(&action.what, What::Command { .. }) {
            count += 1;
        }
    }
    count
}

/// A line for each of so many commands, in the order of their numbers.
pub(crate) fn command_lines(
    alloc: Global,
    text: &mut Text,
    names: &Names,
    commands: u64,
    entries: &Entries,
) -> Result<(), OutOfMemory>
    ensures { OnOk result (text.new ≡ text.old ++ command_lines names.now commands entries.now) }
{
    let closings = closings_of(alloc, commands, entries)?;
    for (place, closing) in closings.iter().enumerate() {
        command_line(text, names, place as u64 + 1, *closing)?;
    }
    Ok(())
}

/// Writes the line of a command, by its number and how it was closed. The only error is that memory was refused.
pub fn command_line(
    text: &mut Text,
    names: &Names,
    number: u64,
    closing: Option<&Answer>,
) -> Result<(), OutOfMemory>
    ensures { OnOk result (text.new ≡ text.old ++ command_line names.now number (option_copied closing.entry)) }
{
    text.number(number)?;
    text.put(b" ")?;
    match closing {
        Some(closing) => put_answer(text, names, closing)?,
        None => text.put(b"unanswered")?,
    }
    text.put(b"\n")
}

/// How each of so many commands was closed, in the order of their numbers; None where it was not. The only error is that
/// memory was refused.
pub fn closings_of(
    alloc: Global,
    commands: u64,
    entries: &Entries,
) -> Result<Vec<Option<&Answer>>, OutOfMemory>
    ensures { IfOk result (λ closings. map option_copied closings.items ≡ closings_of commands entries.now) }
{
    let mut closings = Vec::new(alloc);
    closings.resize(commands as usize, None)?;
    take_in_all(&mut closings, entries.notes());
    Ok(closings)
}

fn take_in_all<'a>(closings: &mut [Option<&'a Answer>], notes: &'a [Note])
    ensures { (k : ℕ) → k < length closings.old →
        option_copied (slice_index_or closings.new k None) ≡ option_or (option_copied (slice_index_or closings.old k None)) (closing_of (k + 1) notes.now) }
{
    for note in notes {
        take_in(closings, note);
    }
}

/// Keeps an answer for the command that it closes, unless the command was closed before.
fn take_in<'a>(closings: &mut [Option<&'a Answer>], note: &'a Note)
    ensures { (k : ℕ) → k < length closings.old →
        option_copied (slice_index_or closings.new k None) ≡ option_or (option_copied (slice_index_or closings.old k None)) (closing_of (k + 1) (note.now ∷ [])) }
{
    if let Note::Closed { number, answer } = note
        && *number > 0
        && *number <= closings.len() as u64
    {
        let place = *number as usize - 1;
        if closings[place].is_none() {
            closings[place] = Some(answer);
        }
    }
}
