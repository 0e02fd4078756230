//! A script that was read.

ghost use Rattle.std.specs.Prelude.{◌≡◌};
ghost use Rattle.scenario_reader.specs.Plain.{ids};
ghost use Rattle.scribe_core.specs.Actions.{AreActions};

use scenario_reader::Scenario;
use scribe_core::GroupAction;
use std::marker::Model;

/// A scenario, and what is done in groups on the overlay that it leaves.
#[derive(Drop)]
pub struct GroupScript {
    pub(crate) scenario: Scenario,
    pub(crate) actions: Vec<GroupAction>,
}

impl Model for GroupScript {
    ghost use Rattle.scenario_reader.specs.Plain.{ids};
    ghost use Rattle.scribe_core.specs.Actions.{AreActions};
    ghost use Rattle.group_reader.specs.Plain.{PlainScript};

    ghost Value = { PlainScript };

    ghost view = { λ a. record { scenario = a.scenario; actions = a.actions.items } };

    ghost invariant = { λ a. AreActions (ids a.scenario.nodes) a.actions.items };
}

impl GroupScript {
    /// Part one.
    pub fn scenario(&self) -> &Scenario
        ensures { result.now ≡ self.now.scenario }
    {
        &self.scenario
    }

    /// The actions of part two, in the order of their lines.
    pub fn actions(&self) -> &[GroupAction]
        ensures value { result.now ≡ self.now.actions }
        ensures rules { AreActions (ids self.now.scenario.nodes) self.now.actions }
    {
        &self.actions
    }
}
