//! A script whose part two is being read.

ghost use Rattle.std.specs.Prelude.{◌≡◌, ◌≢◌, ◌+◌, ◌≤◌, AllPairs, Contains, IfSome, OnOk, option_map};
ghost use Rattle.scenario_reader.specs.declared.limits.TheConstants.{MOST_DELIVERIES};
ghost use Rattle.scenario_reader.specs.Plain.{ids, node_named, node_names};
ghost use Rattle.scribe_core.specs.declared.action.GroupWhat.TheVariants as what;
ghost use Rattle.group_reader.specs.Grammar.{node_id};
ghost use Rattle.group_reader.specs.Plain.{nothing_yet, script_of, with_command, with_deliveries};

use crate::guesses::Guesses;
use crate::script::GroupScript;
use ring_math::{Id, OutOfMemory};
use scenario_reader::{Name, NodeLine, Scenario};
use scribe_core::{GroupAction, GroupCommand, GroupWhat};
use std::alloc::Global;
use std::marker::Model;

/// A script whose part two is being read, in the order of its lines.
#[derive(Drop)]
pub(crate) struct ScriptBuilder {
    scenario: Scenario,
    actions: Vec<GroupAction>,
    commands: u64,
    deliveries: u64,
    guesses: Guesses,
}

impl Model for ScriptBuilder {
    ghost use Rattle.std.specs.Prelude.{◌≤◌};
    ghost use Rattle.scenario_reader.specs.declared.limits.TheConstants.{MOST_DELIVERIES};
    ghost use Rattle.scenario_reader.specs.Plain.{ids};
    ghost use Rattle.group_reader.specs.Plain.{Draft};
    ghost use Rattle.group_reader.specs.Rules.{KeepsRules};

    ghost Value = { Draft };

    ghost view = { λ a. record { scenario = a.scenario; actions = a.actions.items; commands = a.commands; deliveries = a.deliveries } };

    ghost invariant = { λ a. KeepsRules (record { scenario = a.scenario; actions = a.actions.items; commands = a.commands; deliveries = a.deliveries }) };
}

impl ScriptBuilder {
    /// No action yet. It takes no memory.
    pub(crate) fn new(alloc: Global, scenario: Scenario) -> ScriptBuilder
        ensures { result ≡ nothing_yet scenario }
    {
        let guesses = Guesses::of(scenario.nodes());
        ScriptBuilder {
            scenario,
            actions: Vec::new(alloc),
            commands: 0,
            deliveries: 0,
            guesses,
        }
    }

    /// The identifier of the node that was declared under a name.
    pub(crate) fn node(&self, name: &[u8]) -> Option<Id>
        ensures value { result ≡ node_id self.now name.now }
        ensures declared { IfSome result (λ id. Contains (ids self.now.scenario.nodes) id) }
    {
        let guess = self.guesses.place(name);
        let node = node_named(self.scenario.nodes(), name, guess)?;
        Some(node.id)
    }

    /// For how many deliveries the actions ask.
    pub(crate) fn deliveries(&self) -> u64
        ensures value { result ≡ self.now.deliveries }
        ensures limit { self.now.deliveries ≤ MOST_DELIVERIES }
    {
        self.deliveries
    }

    /// One command more, with the next number.
    pub(crate) fn add_command(
        &mut self,
        line: u32,
        node: Id,
        group: Name,
        command: GroupCommand,
    ) -> Result<(), OutOfMemory>
        requires { Contains (ids self.old.scenario.nodes) node }
        ensures { OnOk result (self.new ≡ with_command self.old line node group command) }
    {
        let number = self.commands + 1;
        let what = GroupWhat::Command {
            number,
            node,
            group,
            command,
        };
        self.actions.push(GroupAction { line, what })?;
        self.commands = number;
        Ok(())
    }

    /// One settle more.
    pub(crate) fn add_settle(&mut self, line: u32, count: u32) -> Result<(), OutOfMemory>
        requires { self.old.deliveries + count ≤ MOST_DELIVERIES }
        ensures { OnOk result (self.new ≡ with_deliveries self.old line (what.Settle count) count) }
    {
        let what = GroupWhat::Settle(count);
        self.actions.push(GroupAction { line, what })?;
        self.deliveries += u64::from(count);
        Ok(())
    }

    /// One delivery more.
    pub(crate) fn add_delivery(&mut self, line: u32, message: u64) -> Result<(), OutOfMemory>
        requires { self.old.deliveries + 1 ≤ MOST_DELIVERIES }
        ensures { OnOk result (self.new ≡ with_deliveries self.old line (what.Deliver message) 1) }
    {
        let what = GroupWhat::Deliver(message);
        self.actions.push(GroupAction { line, what })?;
        self.deliveries += 1;
        Ok(())
    }

    /// The script that was read.
    pub(crate) fn finish(self) -> GroupScript
        ensures { result ≡ script_of self }
    {
        GroupScript {
            scenario: self.scenario,
            actions: self.actions,
        }
    }
}

/// The node that was declared under a name. It may stand at the guessed place.
fn node_named<'a>(nodes: &'a [NodeLine], name: &[u8], guess: usize) -> Option<&'a NodeLine>
    requires { AllPairs ◌≢◌ (node_names nodes.now) }
    ensures { option_map (λ node. node.now) result ≡ node_named nodes.now name.now }
{
    match nodes.get(guess) {
        Some(node) if node.name.as_slice() == name => Some(node),
        _ => nodes.iter().find(|node| node.name.as_slice() == name),
    }
}
