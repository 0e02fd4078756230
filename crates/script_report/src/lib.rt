//! A script of groups, whole: its scenario played, its groups played over what that leaves, and the report of both.
#![tactic(auto)]

ghost use Rattle.std.specs.Prelude.{◌≡◌, IfOk};
ghost use Rattle.script_report.specs.Whole.{IsPlayedScript, steps_of};

mod laws;

use crate::laws::{PlayedGroups, play_both};
use delivery_report::report;
use group_reader::GroupScript;
use group_report::put_groups;
use outside::Turnstile;
use overlay_rules::Record;
use ring_math::OutOfMemory;
use scribe_core::GroupRecord;
use std::alloc::Global;
use text_writer::Text;
use wire_msg::Frame;

/// The records of both parts of a script, and their report.
#[derive(Drop)]
pub struct PlayedScript {
    pub record: Record,
    pub steps: GroupRecord,
    pub text: Frame,
}

/// Plays both parts of a script, and writes the report of part one and then the lines of part two. The turns of part one pass a
/// turnstile as those of the node at place 0. The only error is that memory was refused.
pub fn play_script<T: Turnstile>(
    alloc: Global,
    script: &GroupScript,
    turnstile: &T,
) -> Result<PlayedScript, OutOfMemory>
    ensures played { IfOk result (λ p. IsPlayedScript script.now p.record p.text) }
    ensures steps { IfOk result (λ p. p.steps ≡ steps_of script.now p.record.entries) }
{
    let PlayedGroups { record, steps } = play_both(alloc, script, turnstile)?;
    let mut text = Text::new(alloc);
    text.put(report(alloc, script.scenario(), &record)?.as_slice())?;
    put_groups(alloc, &mut text, script, &steps)?;
    Ok(PlayedScript {
        record,
        steps,
        text: text.into_frame(),
    })
}

#[cfg(test)]
mod tests;
