//! Scenarios that can't be run.

ghost use Rattle.std.specs.Prelude.{◌≡◌, Some};
ghost use Rattle.overlay_harness.specs.Fault.{choosing_lines, chooses_messages, first_of, first_unfit_line, least};

use crate::limits::MOST_RUN_NODES;
use scenario_reader::{Action, Scenario, What};

/// The first line that a run can't have: a `deliver`, a `shuffle`, or the `node` that is one too many. None for a scenario that
/// can be run. It takes no memory.
pub fn first_unfit_line(scenario: &Scenario) -> Option<u32>
    ensures { result ≡ first_unfit_line scenario.now }
{
    let choosing = first_choosing_line(scenario.actions());
    match scenario.nodes().get(MOST_RUN_NODES) {
        Some(node) => Some(first_of(choosing, node.line)),
        None => choosing,
    }
}

/// The first line of an action that names or draws messages.
fn first_choosing_line(actions: &[Action]) -> Option<u32>
    ensures { result ≡ least (choosing_lines actions.now) }
{
    let mut first = None;
    for action in actions {
        if chooses_messages(&action.what) {
            first = Some(first_of(first, action.line));
        }
    }
    first
}

/// Whether an action names or draws the messages that are delivered.
fn chooses_messages(what: &What) -> bool
    ensures { result ≡ chooses_messages what.now }
{
    matches!(what, What::Deliver(_) | What::Shuffle { .. })
}

/// The first of this line and one that may be missing.
fn first_of(first: Option<u32>, line: u32) -> u32
    ensures { result ≡ first_of first line }
{
    match first {
        Some(other) => other.min(line),
        None => line,
    }
}
