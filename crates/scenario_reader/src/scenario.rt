//! A scenario that was read or made.

ghost use Rattle.std.specs.Prelude.{◌≡◌};
ghost use Rattle.scenario_reader.specs.Rules.{KeepsRules};
ghost use Rattle.scenario_reader.specs.Tallies.{tally_of};

use crate::action::Action;
use crate::node::{FileLine, NodeLine};
use crate::tally::Tally;
use ring_math::Id;
use std::marker::Model;

/// A scenario: nodes, files, a founder, and what is done in order.
#[derive(Drop)]
pub struct Scenario {
    pub(crate) nodes: Vec<NodeLine>,
    pub(crate) founder: Id,
    pub(crate) files: Vec<FileLine>,
    pub(crate) actions: Vec<Action>,
    pub(crate) tally: Tally,
}

impl Model for Scenario {
    ghost use Rattle.scenario_reader.specs.Plain.{PlainScenario};
    ghost use Rattle.std.specs.Prelude.{◌≡◌};
    ghost use Rattle.scenario_reader.specs.Rules.{KeepsRules};
    ghost use Rattle.scenario_reader.specs.Tallies.{tally_of};

    ghost Value = { PlainScenario };

    ghost view = { λ a. record { nodes = a.nodes.items; founder = a.founder; files = a.files.items; actions = a.actions.items } };

    ghost invariant = { λ a. KeepsRules (record { nodes = a.nodes.items; founder = a.founder; files = a.files.items; actions = a.actions.items }) × (a.tally ≡ tally_of a.actions.items) };
}

impl Scenario {
    /// The declared nodes, in the order of their lines.
    pub fn nodes(&self) -> &[NodeLine]
        ensures value { result.now ≡ self.now.nodes }
        ensures rules { KeepsRules self.now }
    {
        &self.nodes
    }

    /// The node that is ready at the start.
    pub fn founder(&self) -> Id
        ensures value { result ≡ self.now.founder }
        ensures rules { KeepsRules self.now }
    {
        self.founder
    }

    /// The declared files, in the order of their lines.
    pub fn files(&self) -> &[FileLine]
        ensures value { result.now ≡ self.now.files }
        ensures rules { KeepsRules self.now }
    {
        &self.files
    }

    /// The actions, in the order of their lines.
    pub fn actions(&self) -> &[Action]
        ensures value { result.now ≡ self.now.actions }
        ensures rules { KeepsRules self.now }
    {
        &self.actions
    }

    /// What the actions come to.
    pub fn tally(&self) -> Tally
        ensures { result ≡ tally_of self.now.actions }
    {
        self.tally
    }
}
