//! A play as a table for people: a line for each entry of its record, for each message that was sent, and for each note, in
//! the scenario's own names; and how the nodes are left. A message has the number by which a scenario's `deliver` names it.
#![tactic(auto)]

ghost use Rattle.std.specs.Prelude.{◌≡◌, IfOk};
ghost use Rattle.schedule.specs.Schedule.{setting_of};
ghost use Rattle.world_model.specs.Recorded as recorded;
ghost use Rattle.message_table.specs.Table.{table_text};

mod commands;
mod ends;
mod entries;
mod labels;
mod messages;
mod notes;

use crate::ends::{put_ends, put_heads};
use crate::entries::put_entries;
use crate::labels::Labels;
use ring_math::OutOfMemory;
use scenario_reader::Scenario;
use std::alloc::Global;
use text_writer::Text;
use wire_msg::Frame;
use world_model::World;

/// The table of a scenario and what has happened in its world. The only error is that memory was refused.
pub fn message_table(
    alloc: Global,
    scenario: &Scenario,
    world: &World,
) -> Result<Frame, OutOfMemory>
    requires { recorded.setting_of world.now ≡ setting_of scenario.now }
    ensures { IfOk result (λ text. text ≡ table_text scenario.now world.now.entries) }
{
    let labels = Labels::of(alloc, scenario)?;
    let mut text = Text::new(alloc);
    put_heads(&mut text, &labels)?;
    put_entries(&mut text, &labels, world.entries())?;
    put_ends(&mut text, &labels, world.cells())?;
    Ok(text.into_frame())
}

#[cfg(test)]
mod tests;
