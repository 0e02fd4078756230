//! Playing a scenario: the one record that its actions give, one turn after another or as a whole.
#![tactic(auto)]

ghost use Rattle.std.specs.Prelude.{IfOk};
ghost use Rattle.overlay_rules.specs.Record.{IsRecord};
ghost use Rattle.schedule.specs.Schedule.{setting_of};
ghost use Rattle.play_engine.specs.Progress.{IsWhole, Plays};

mod player;

use outside::{FreePass, Turnstile};
use overlay_rules::Record;
pub use player::{Player, ids_of};
use ring_math::OutOfMemory;
use scenario_reader::Scenario;
use std::alloc::Global;

/// The played record of a scenario. The only error is that memory was refused.
pub fn play(alloc: Global, scenario: &Scenario) -> Result<Record, OutOfMemory>
    ensures played { IfOk result (λ steps. IsWhole scenario.now steps.entries steps.skipped) }
    ensures legal { IfOk result (λ steps. IsRecord (setting_of scenario.now) steps.entries) }
{
    play_past(alloc, scenario, &FreePass)
}

/// The played record of a scenario, whose turns, counted from 0, pass a turnstile as those of the node at place 0. The only
/// error is that memory was refused.
pub fn play_past<T: Turnstile>(
    alloc: Global,
    scenario: &Scenario,
    turnstile: &T,
) -> Result<Record, OutOfMemory>
    ensures played { IfOk result (λ steps. IsWhole scenario.now steps.entries steps.skipped) }
    ensures legal { IfOk result (λ steps. IsRecord (setting_of scenario.now) steps.entries) }
{
    let player = played_past(alloc, scenario, turnstile)?;
    Ok(player.finish())
}

/// A player that has played a scenario to its end, past a turnstile as [`play_past`] does: the world stands as it was left.
/// The only error is that memory was refused.
pub fn played_past<T: Turnstile>(
    alloc: Global,
    scenario: &Scenario,
    turnstile: &T,
) -> Result<Player, OutOfMemory>
    ensures plays { IfOk result (λ player. Plays scenario.now player) }
    ensures whole { IfOk result (λ player. IsWhole scenario.now player.recorded.entries player.skipped) }
{
    let mut player = Player::new(alloc, scenario)?;
    let mut turn: u64 = 0;
    while player.advance(alloc, scenario)? {
        turnstile.pass(0, turn);
        turn = turn.wrapping_add(1);
    }
    Ok(player)
}

#[cfg(test)]
mod tests;
