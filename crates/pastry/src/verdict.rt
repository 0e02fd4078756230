//! What is written of a trace and the verdict on it: a line that tells the verdict, or a picture.

ghost use Rattle.std.specs.Prelude.{◌≡◌, ◌≤◌, length, IfOk};
ghost use Rattle.overlay_rules.specs.Record.{IsSetting};
ghost use Rattle.scenario_reader.specs.declared.limits.TheConstants.{MOST_NODES};
ghost use Rattle.trace_text.specs.Traces.{plain_trace, setting_of};
ghost use Rattle.pastry.specs.VerdictTexts.{told_by, verdict_text, IsDrawable};

use ring_math::OutOfMemory;
use std::alloc::Global;
use text_writer::Text;
use trace_check::{Trace, Verdict};
use trace_picture::picture;
use wire_msg::Frame;

/// What is written of a trace.
#[derive(Clone, Copy)]
pub enum Telling {
    /// The line that tells the verdict.
    Line,
    /// A picture of so many entries, from one on that is counted from 0.
    Picture { from: u64, entries: u32 },
}

/// The text of a trace with this verdict.
pub(crate) fn told(
    alloc: Global,
    telling: Telling,
    trace: &Trace,
    verdict: Verdict,
) -> Result<Frame, OutOfMemory>
    requires setting { IsSetting (setting_of trace.now.nodes trace.now.founder) }
    requires few { length trace.now.nodes ≤ MOST_NODES }
    requires drawable { IsDrawable telling }
    ensures { IfOk result (λ text. text ≡ told_by telling (plain_trace trace.now) verdict) }
{
    match telling {
        Telling::Line => verdict_text(alloc, verdict, trace.steps.entries.len() as u64),
        Telling::Picture { from, entries } => picture(alloc, trace, verdict, from, entries),
    }
}

/// The line that tells the verdict on a record of so many entries.
pub(crate) fn verdict_text(
    alloc: Global,
    verdict: Verdict,
    entries: u64,
) -> Result<Frame, OutOfMemory>
    ensures { IfOk result (λ text. text ≡ verdict_text entries verdict) }
{
    let mut text = Text::new(alloc);
    match verdict {
        Verdict::Legal { ready } => {
            text.number_after(b"legal entries ", entries)?;
            text.number_after(b" ready ", ready)?;
        }
        Verdict::Wrong { entry, part } => {
            text.number_after(b"wrong entry ", entry)?;
            text.put(b" ")?;
            text.put(part.word())?;
        }
    }
    text.put(b"\n")?;
    Ok(text.into_frame())
}
