//! How commands were answered.

ghost use Rattle.std.specs.Prelude.{◌≡◌, ◌<◌, ◌++◌, ℕ, All, IfOk, None, OnOk, Some, length, slice_index_or};
ghost use Rattle.scribe_core.specs.declared.action.GroupAction.{GroupAction as PlainAction};
ghost use Rattle.group_report.specs.Answers.{HasAnswers, IsNumberedUpTo, answer_by, answer_in, answer_line, answer_lines, answer_text, or_later};

use ring_math::OutOfMemory;
use scribe_core::{GroupAction, GroupNote, GroupWhat};
use std::alloc::Global;
use text_writer::Text;

/// The answer to a command.
#[derive(Clone, Copy)]
pub(crate) enum Answer {
    Subscribed,
    Left,
    Published,
    Refused,
}

/// Writes a line for each command of these actions, of which all was noted that is to be known.
pub(crate) fn answer_lines(
    alloc: Global,
    text: &mut Text,
    actions: &[GroupAction],
    notes: &[GroupNote],
) -> Result<(), OutOfMemory>
    requires { All (λ (a : PlainAction). IsNumberedUpTo (length actions.now) a.what) actions.now }
    ensures { OnOk result (text.new ≡ text.old ++ answer_lines actions.now notes.now) }
{
    let answers = answers_in(alloc, actions.len() + 1, notes)?;
    for action in actions {
        if let GroupWhat::Command { number, .. } = &action.what {
            put_answer(text, *number, answers[*number as usize])?;
        }
    }
    Ok(())
}

/// The first answer to each command below this number, at its number.
fn answers_in(
    alloc: Global,
    count: usize,
    notes: &[GroupNote],
) -> Result<Vec<Option<Answer>>, OutOfMemory>
    ensures { IfOk result (λ answers. HasAnswers count answers.items notes.now) }
{
    let mut answers = vec![in alloc; None; count]?;
    for note in notes {
        add_answer(&mut answers, note);
    }
    Ok(answers)
}

/// Adds a note's answer, if it is the first to its command.
fn add_answer(answers: &mut Vec<Option<Answer>>, note: &GroupNote)
    ensures count { length answers.new.items ≡ length answers.old.items }
    ensures answers { (n : ℕ) → n < length answers.old.items →
        slice_index_or answers.new.items n None ≡ or_later (slice_index_or answers.old.items n None) (answer_by n (answer_in note.now) None) }
{
    let Some((number, answer)) = answer_in(note) else {
        return;
    };
    let place = number as usize;
    if place < answers.len() && answers[place].is_none() {
        answers[place] = Some(answer);
    }
}

/// A note's answer to a command, with the command's number.
fn answer_in(note: &GroupNote) -> Option<(u64, Answer)>
    ensures { result ≡ answer_in note.now }
{
    match note {
        GroupNote::Subscribed { number } => Some((*number, Answer::Subscribed)),
        GroupNote::Left { number } => Some((*number, Answer::Left)),
        GroupNote::Published { number } => Some((*number, Answer::Published)),
        GroupNote::Refused { number } => Some((*number, Answer::Refused)),
        GroupNote::Heard { .. } => None,
    }
}

/// Writes the line of a command, if it was answered.
fn put_answer(text: &mut Text, number: u64, answer: Option<Answer>) -> Result<(), OutOfMemory>
    ensures { OnOk result (text.new ≡ text.old ++ answer_line number answer) }
{
    let Some(answer) = answer else {
        return Ok(());
    };
    text.number(number)?;
    text.put(text_of(answer))
}

fn text_of(answer: Answer) -> &'static [u8]
    ensures { result.now ≡ answer_text answer }
{
    match answer {
        Answer::Subscribed => b" subscribed\n",
        Answer::Left => b" left\n",
        Answer::Published => b" published\n",
        Answer::Refused => b" refused\n",
    }
}
