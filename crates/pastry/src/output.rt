//! What is written of a scenario and its record.

ghost use Rattle.std.specs.Prelude.{◌≡◌, IfOk};
ghost use Rattle.overlay_rules.specs.Record.{IsRecord};
ghost use Rattle.schedule.specs.Schedule.{setting_of};
ghost use Rattle.pastry.specs.Outputs.{output_text, played_trace};

use delivery_report::{report, summary};
use large_report::report_large;
use overlay_rules::Record;
use play_engine::ids_of;
use ring_math::OutOfMemory;
use scenario_reader::Scenario;
use std::alloc::Global;
use trace_text::write_trace;
use wire_msg::Frame;

/// What a mode writes.
#[derive(Clone, Copy)]
pub enum Output {
    /// The answers to the commands, the deliveries, and a summary line.
    Report,
    /// The summary line and a tally of the answers.
    Summary,
    /// The nodes, the founder and the record itself.
    Trace,
    /// The summary line, and what became of a large file of so many bytes.
    Large { size: u32 },
}

/// The text of a scenario and its record.
pub(crate) fn output_text(
    alloc: Global,
    output: Output,
    scenario: &Scenario,
    steps: &Record,
) -> Result<Frame, OutOfMemory>
    requires { IsRecord (setting_of scenario.now) steps.now.entries }
    ensures { IfOk result (λ text. text ≡ output_text output scenario.now steps.now) }
{
    match output {
        Output::Report => report(alloc, scenario, steps),
        Output::Summary => summary(alloc, scenario, steps),
        Output::Trace => played_trace(alloc, scenario, steps),
        Output::Large { size } => report_large(alloc, scenario, size, steps),
    }
}

/// The trace of a scenario's record.
fn played_trace(alloc: Global, scenario: &Scenario, steps: &Record) -> Result<Frame, OutOfMemory>
    requires { IsRecord (setting_of scenario.now) steps.now.entries }
    ensures { IfOk result (λ text. text ≡ played_trace scenario.now steps.now) }
{
    let nodes = ids_of(alloc, scenario.nodes())?;
    write_trace(alloc, &nodes, scenario.founder(), steps)
}
