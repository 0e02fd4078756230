//! The report of a group record: how each command of the script was answered, what was heard, and a summary.
#![tactic(auto)]

mod answers;
mod counts;
mod hearings;

ghost use Rattle.std.specs.Prelude.{◌≡◌, ◌++◌, IfOk, OnOk};
ghost use Rattle.group_report.specs.Report.{groups_text};

use crate::answers::answer_lines;
use crate::counts::put_summary;
use crate::hearings::hearing_lines;
use delivery_report::NodeNames;
use group_reader::GroupScript;
use ring_math::OutOfMemory;
use scribe_core::GroupRecord;
use std::alloc::Global;
use text_writer::Text;
use wire_msg::Frame;

/// The lines of part two of a script, for its group record.
///
/// They are a line for each command, in the order of their numbers; a line for each publication that a member heard, in the order
/// of the record; and a summary line. Nodes are called by the names that part one gave them. The only error is that memory was
/// refused.
pub fn report_groups(
    alloc: Global,
    script: &GroupScript,
    steps: &GroupRecord,
) -> Result<Frame, OutOfMemory>
    ensures { IfOk result (λ text. text ≡ groups_text script.now steps.now) }
{
    let mut text = Text::new(alloc);
    put_groups(alloc, &mut text, script, steps)?;
    Ok(text.into_frame())
}

/// Writes the lines of [`report_groups`] at the end of a text. After `OutOfMemory` some of them may stand there.
pub fn put_groups(
    alloc: Global,
    text: &mut Text,
    script: &GroupScript,
    steps: &GroupRecord,
) -> Result<(), OutOfMemory>
    ensures { OnOk result (text.new ≡ text.old ++ groups_text script.now steps.now) }
{
    let names = NodeNames::of(alloc, script.scenario().nodes())?;
    answer_lines(alloc, text, script.actions(), steps.notes())?;
    hearing_lines(text, &names, steps)?;
    put_summary(alloc, text, steps)?;
    Ok(())
}

#[cfg(test)]
mod tests;
