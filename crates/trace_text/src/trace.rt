//! Traces: a setting, and what happened in it.

ghost use Rattle.std.specs.Prelude.{◌≡◌, ◌++◌, ◌∷◌, [], OnOk};

use overlay_rules::Record;
use ring_math::{Id, OutOfMemory};
use std::alloc::Global;
use std::marker::Model;

/// The nodes of a trace, in the order of their lines. They are seen as the list of their identifiers.
#[derive(Drop)]
pub struct Nodes {
    items: Vec<Id>,
}

impl Model for Nodes {
    ghost use Rattle.std.specs.Prelude.{ℕ, List};

    ghost Value = { List ℕ };

    ghost view = { λ a. a.items.items };
}

impl Nodes {
    pub(crate) fn new(alloc: Global) -> Nodes
        ensures { result ≡ [] }
    {
        Nodes {
            items: Vec::new(alloc),
        }
    }

    /// The nodes, in order.
    pub fn as_slice(&self) -> &[Id]
        ensures { result.now ≡ self.now }
    {
        &self.items
    }

    pub(crate) fn push(&mut self, node: Id) -> Result<(), OutOfMemory>
        ensures { OnOk result (self.new ≡ self.old ++ node ∷ []) }
    {
        self.items.push(node)?;
        Ok(())
    }
}

/// A setting and a record, as they stand in a trace.
#[derive(Drop)]
pub struct Trace {
    /// 1 to [`MOST_NODES`](scenario_reader::MOST_NODES) different nodes.
    pub nodes: Nodes,
    /// One of the nodes.
    pub founder: Id,
    /// What happened, which need not be legal.
    pub steps: Record,
}
