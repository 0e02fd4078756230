//! The report of a scenario and its record: how each command was closed, where each lookup was delivered, and a summary.
#![tactic(auto)]

ghost use Rattle.std.specs.Prelude.{◌≡◌, IfOk};
ghost use Rattle.overlay_rules.specs.Record.{Setting, IsRecord};
ghost use Rattle.schedule.specs.Schedule.{setting_of};
ghost use Rattle.delivery_report.specs.Report.{report_of};
ghost use Rattle.delivery_report.specs.Tally.{brief_of};
ghost use Rattle.delivery_report.specs.Texts.{report_text, summary_text};

mod answers;
mod closings;
mod counts;
mod deliveries;
mod names;
mod tally;

pub use crate::answers::{found_bytes, put_answer, put_bytes, put_reply, put_why};
use crate::closings::command_lines;
pub use crate::closings::{closings_of, command_count, command_line};
pub use crate::counts::put_summary;
pub use crate::deliveries::{delivery_line, delivery_lines, node_of};
use crate::names::Names;
pub use crate::names::Names as NodeNames;
pub use crate::tally::tally_of;
use overlay_rules::Record;
use ring_math::OutOfMemory;
use scenario_reader::{NodeLine, Scenario};
use std::alloc::Global;
use text_writer::Text;
use wire_msg::Frame;

/// The report of a scenario and its record.
///
/// It has a line for each command, in the order of their numbers from 1 on; a line for each delivery of a lookup, in
/// the order of the record; and a summary line. Nodes are called by the names that the scenario gave them. The only
/// error is that memory was refused.
pub fn report(alloc: Global, scenario: &Scenario, steps: &Record) -> Result<Frame, OutOfMemory>
    requires { IsRecord (setting_of scenario.now) steps.now.entries }
    ensures { IfOk result (λ text. text ≡ report_text scenario.now steps.now) }
{
    report_of(alloc, scenario.nodes(), command_count(scenario), steps)
}

/// The summary line of a scenario's record, and the tally of the scenario's commands: how many were closed in which way.
/// The only error is that memory was refused.
pub fn summary(alloc: Global, scenario: &Scenario, steps: &Record) -> Result<Frame, OutOfMemory>
    requires { IsRecord (setting_of scenario.now) steps.now.entries }
    ensures { IfOk result (λ text. text ≡ summary_text scenario.now steps.now) }
{
    brief_of(alloc, command_count(scenario), steps)
}

/// The report of a record among these nodes, to which so many commands were given.
fn report_of(
    alloc: Global,
    nodes: &[NodeLine],
    commands: u64,
    steps: &Record,
) -> Result<Frame, OutOfMemory>
    ensures { (g : Setting) → IsRecord g steps.now.entries →
        IfOk result (λ text. text ≡ report_of nodes.now g commands steps.now.entries steps.now.skipped) }
{
    let names = Names::of(alloc, nodes)?;
    let entries = &steps.entries;
    let mut text = Text::new(alloc);
    command_lines(alloc, &mut text, &names, commands, entries)?;
    delivery_lines(&mut text, &names, entries)?;
    put_summary(alloc, &mut text, steps)?;
    Ok(text.into_frame())
}

/// The summary line and the tally of a record in which so many commands were given.
fn brief_of(alloc: Global, commands: u64, steps: &Record) -> Result<Frame, OutOfMemory>
    ensures { (g : Setting) → IsRecord g steps.now.entries →
        IfOk result (λ text. text ≡ brief_of g commands steps.now.entries steps.now.skipped) }
{
    let closings = closings_of(alloc, commands, &steps.entries)?;
    let mut text = Text::new(alloc);
    put_summary(alloc, &mut text, steps)?;
    tally_of(&closings).write(&mut text)?;
    Ok(text.into_frame())
}

#[cfg(test)]
mod tests;
