//! The stages of a scenario.

ghost use Rattle.std.specs.Prelude.{◌≡◌, IfOk, map};
ghost use Rattle.overlay_harness.specs.Stages.{budget_in, copies_behind, is_settle, stages_of};
ghost use Rattle.overlay_harness.specs.Shown.{shown};

use ring_math::OutOfMemory;
use scenario_reader::{Action, Scenario, What};
use std::alloc::Global;

/// Actions up to and with a `settle`, or those behind the last one.
#[derive(Clone, Copy)]
pub struct Stage<'a> {
    pub actions: &'a [Action],
    /// How many frames each node may take in it: the number of its `settle`, and 0 without one.
    pub budget: u32,
    /// How often each frame is put into its receiver's mailbox: the number of the last `dup` up to the stage's end, and 1 before
    /// any.
    pub copies: u8,
}

/// The stages of a scenario, in order.
pub fn stages(alloc: Global, scenario: &Scenario) -> Result<Vec<Stage<'_>>, OutOfMemory>
    ensures { IfOk result (λ stages. map shown stages.items ≡ stages_of scenario.now) }
{
    let actions = scenario.actions();
    let mut stages = Vec::new(alloc);
    let mut begin = 0;
    let mut copies = 1;
    for (place, action) in actions.iter().enumerate() {
        copies = copies_behind(copies, &action.what);
        if is_settle(&action.what) {
            stages.push(Stage {
                actions: &actions[begin..=place],
                budget: budget_in(&action.what),
                copies,
            })?;
            begin = place + 1;
        }
    }
    if begin < actions.len() {
        stages.push(Stage {
            actions: &actions[begin..],
            budget: 0,
            copies,
        })?;
    }
    Ok(stages)
}

fn is_settle(what: &What) -> bool
    ensures { result ≡ is_settle what.now }
{
    matches!(what, What::Settle(_))
}

/// The number of a settle.
fn budget_in(what: &What) -> u32
    ensures { result ≡ budget_in what.now }
{
    match what {
        What::Settle(count) => *count,
        _ => 0,
    }
}

/// The copies in force behind an action.
fn copies_behind(copies: u8, what: &What) -> u8
    ensures { result ≡ copies_behind copies what.now }
{
    match what {
        What::Dup(count) => *count,
        _ => copies,
    }
}
