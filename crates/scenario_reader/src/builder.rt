//! A scenario that is being put together.

ghost use Rattle.std.specs.Prelude.{◌≡◌, ◌≢◌, ◌+◌, ◌==◌, ◌≤◌, Some, Ok, OnOk, OnErr, IfSome, IsSome, IsFalse, All, Contains, IsTrue, is_some, length, option_map};
ghost use Rattle.std.specs.List.{list_any};
ghost use Rattle.scenario_reader.specs.declared.limits.TheConstants.{MOST_DELIVERIES};
ghost use Rattle.scenario_reader.specs.declared.node.NodeLine.{NodeLine as PlainNode};
ghost use Rattle.scenario_reader.specs.Plain.{nothing_yet, with_founder, ids, file_names, node_named, file_named};
ghost use Rattle.scenario_reader.specs.Effects.{with_node, with_file, with_action};
ghost use Rattle.scenario_reader.specs.Meanings.{file_key};
ghost use Rattle.scenario_reader.specs.Rules.{KeepsRules, MayDeclareNode, MayDeclareFile, MayFound, MayAct};
ghost use Rattle.scenario_reader.specs.Spelling.{is_name};
ghost use Rattle.scenario_reader.specs.Tallies.{tally_of};

use crate::action::Action;
use crate::name::Name;
use crate::named::{find_named, mark_of};
use crate::node::{FileLine, NodeLine};
use crate::scenario::Scenario;
use crate::tally::Tally;
use ring_math::{Bytes, FileId, Id, OutOfMemory, key_of};
use std::alloc::Global;
use std::marker::Model;

/// A scenario that is being put together, in the order of its lines.
#[derive(Drop)]
pub struct ScenarioBuilder {
    nodes: Vec<NodeLine>,
    founder: Option<Id>,
    files: Vec<FileLine>,
    actions: Vec<Action>,
    tally: Tally,
    /// The marks of the nodes' names and of the files', in order, with room for as many as may be.
    node_marks: [u8; 256],
    file_marks: [u8; 256],
}

impl Model for ScenarioBuilder {
    ghost use Rattle.std.specs.Prelude.{◌≡◌, length, take};
    ghost use Rattle.scenario_reader.specs.Marks.{marks_by};
    ghost use Rattle.scenario_reader.specs.Plain.{Draft};
    ghost use Rattle.scenario_reader.specs.declared.node.NodeLine.{NodeLine};
    ghost use Rattle.scenario_reader.specs.declared.node.FileLine.{FileLine};
    ghost use Rattle.scenario_reader.specs.Meanings.{file_key};
    ghost use Rattle.scenario_reader.specs.Rules.{DraftKeepsRules};
    ghost use Rattle.scenario_reader.specs.Tallies.{tally_of};

    ghost Value = { Draft };

    ghost view = { λ a. record { nodes = a.nodes.items; founder = a.founder; files = a.files.items; actions = a.actions.items } };

    ghost invariant = { λ a. DraftKeepsRules (record { nodes = a.nodes.items; founder = a.founder; files = a.files.items; actions = a.actions.items }) × (a.tally ≡ tally_of a.actions.items) × (take (length a.nodes.items) a.node_marks ≡ marks_by (λ (node : NodeLine). node.name) a.nodes.items) × (take (length a.files.items) a.file_marks ≡ marks_by (λ (file : FileLine). file.name) a.files.items) };
}

impl ScenarioBuilder {
    /// Nothing yet. It takes no memory.
    pub fn new(alloc: Global) -> ScenarioBuilder
        ensures { result ≡ nothing_yet }
    {
        ScenarioBuilder {
            nodes: Vec::new(alloc),
            founder: None,
            files: Vec::new(alloc),
            actions: Vec::new(alloc),
            tally: Tally::start(),
            node_marks: [0; 256],
            file_marks: [0; 256],
        }
    }

    /// Adds a node behind the others.
    pub fn add_node(
        &mut self,
        _alloc: Global,
        name: &[u8],
        id: Id,
        line: u32,
    ) -> Result<(), OutOfMemory>
        requires { MayDeclareNode self.old name.now id }
        ensures ok { OnOk result (self.new ≡ with_node self.old (record { name = name.now; id = id; line = line })) }
        ensures err { OnErr result (self.new ≡ self.old) }
    {
        self.node_marks[self.nodes.len()] = mark_of(name);
        let name = spelled(name);
        self.nodes.push(NodeLine { name, id, line })?;
        Ok(())
    }

    /// Adds a file behind the others.
    pub fn add_file(
        &mut self,
        _alloc: Global,
        name: &[u8],
        file: FileId,
        bytes: Bytes,
        line: u32,
    ) -> Result<(), OutOfMemory>
        requires { MayDeclareFile self.old name.now }
        ensures ok { OnOk result (self.new ≡ with_file self.old (record { name = name.now; file = file; bytes = bytes; line = line })) }
        ensures err { OnErr result (self.new ≡ self.old) }
    {
        self.file_marks[self.files.len()] = mark_of(name);
        let name = spelled(name);
        self.files.push(FileLine {
            name,
            file,
            bytes,
            line,
        })?;
        Ok(())
    }

    /// Makes a declared node the founder.
    pub fn set_founder(&mut self, id: Id)
        requires { MayFound self.old id }
        ensures { self.new ≡ record self.old { founder = Some id } }
    {
        self.founder = Some(id);
    }

    /// Adds an action behind the others.
    pub fn add_action(&mut self, _alloc: Global, action: Action) -> Result<(), OutOfMemory>
        requires { MayAct self.old action.what }
        ensures ok { OnOk result (self.new ≡ with_action self.old action) }
        ensures err { OnErr result (self.new ≡ self.old) }
    {
        let tally = self.tally.after(&action.what);
        self.actions.push(action)?;
        self.tally = tally;
        Ok(())
    }

    /// The scenario that was put together.
    pub fn finish(self) -> Scenario
        requires { IsSome self.founder }
        ensures scenario { IfSome self.founder (λ founder. result ≡ with_founder self founder) }
        ensures rules { KeepsRules result }
    {
        Scenario {
            nodes: self.nodes,
            founder: self.founder.unwrap(),
            files: self.files,
            actions: self.actions,
            tally: self.tally,
        }
    }

    /// How many nodes are declared.
    pub(crate) fn node_count(&self) -> usize
        ensures { result ≡ length self.now.nodes }
    {
        self.nodes.len()
    }

    /// The identifier of the node that was declared under a name.
    pub(crate) fn id_named(&self, name: &[u8]) -> Option<Id>
        ensures value { result ≡ option_map (λ (node : PlainNode). node.id) (node_named self.now.nodes name.now) }
        ensures declared { IfSome result (λ id. Contains (ids self.now.nodes) id) }
    {
        let node = self.node_named(name)?;
        Some(node.id)
    }

    /// The node that was declared under a name.
    fn node_named(&self, name: &[u8]) -> Option<&NodeLine>
        ensures { option_map (λ node. node.now) result ≡ node_named self.now.nodes name.now }
    {
        let marks = &self.node_marks[..self.nodes.len()];
        find_named(&self.nodes, marks, name)
    }

    /// Whether a node has this identifier.
    pub(crate) fn has_id(&self, id: Id) -> bool
        ensures { result ≡ list_any (λ (node : PlainNode). node.id == id) self.now.nodes }
    {
        self.nodes.iter().any(|node| node.id == id)
    }

    /// How many files are declared.
    pub(crate) fn file_count(&self) -> usize
        ensures { result ≡ length self.now.files }
    {
        self.files.len()
    }

    /// Whether a file was declared under a name.
    pub(crate) fn has_file(&self, name: &[u8]) -> bool
        ensures answer { result ≡ is_some (file_named self.now.files name.now) }
        ensures new { IsFalse result → All (λ other. other ≢ name.now) (file_names self.now.files) }
    {
        self.file_named(name).is_some()
    }

    /// The file that was declared under a name.
    pub(crate) fn file_named(&self, name: &[u8]) -> Option<&FileLine>
        ensures { option_map (λ file. file.now) result ≡ file_named self.now.files name.now }
    {
        let marks = &self.file_marks[..self.files.len()];
        find_named(&self.files, marks, name)
    }

    /// The key of the file that was declared under a name.
    pub(crate) fn file_key(&self, name: &[u8]) -> Option<Id>
        ensures { result ≡ file_key self.now name.now }
    {
        let file = self.file_named(name)?;
        Some(key_of(&file.file))
    }

    /// Whether a node is the founder.
    pub(crate) fn has_founder(&self) -> bool
        ensures answer { result ≡ is_some self.now.founder }
        ensures deliveries { (tally_of self.now.actions).deliveries ≤ MOST_DELIVERIES }
    {
        self.founder.is_some()
    }

    /// The number of the next command.
    pub(crate) fn next_number(&self) -> u64
        ensures value { result ≡ (tally_of self.now.actions).commands + 1 }
        ensures limit { (tally_of self.now.actions).deliveries ≤ MOST_DELIVERIES }
    {
        self.tally.commands + 1
    }

    pub(crate) fn tally(&self) -> Tally
        ensures { result ≡ tally_of self.now.actions }
    {
        self.tally
    }
}

/// The name with these bytes, which are spelled as one.
fn spelled(name: &[u8]) -> Name
    requires { IsTrue (is_name name.now) }
    ensures { result ≡ name.now }
{
    Name::new(name).unwrap()
}
