//! A cell, one input after another.

ghost use Rattle.std.specs.Prelude.{◌≡◌, ◌<◌, ◌∷◌, [], None, IfOk, IfErr, IfSome, IfNone, OnOk, OnErr, All};
ghost use Rattle.node_cell.specs.Entries.{plain_history, plain_input_of};
ghost use Rattle.node_cell.specs.Cell.{empty_cell, stamp_of, with_input};
ghost use Rattle.node_cell.specs.Carried.{IsBesidePasses};
ghost use Rattle.node_cell.specs.Faults.{IsDueTo, greater_stamp};
ghost use Rattle.node_cell.specs.Taken.{IsDueToBytes, TookBytes};
ghost use Rattle.node_cell.specs.declared.fault.TheConstants.{LAST_STAMP};
ghost use Rattle.weave_laws.specs.Cells as plain;
ghost use Rattle.weave_laws.specs.Cells.{IsCellHistory, IsFor};
ghost use Rattle.weave_laws.specs.Numbers.{IsNumberedAfter, NumbersRise};

use crate::carried::Carried;
use crate::entry::{CellEntry, CellInput};
use crate::fault::CellFault;
use crate::frames::Addressed;
use crate::live::node_at_start;
use crate::plan::{commit, plan_with_room};
use crate::sharing::read_to_keep;
use node_core::Node;
use ring_math::{Id, OutOfMemory};
use std::alloc::Global;
use std::collections::VecDeque;
use std::marker::Model;
use wire_msg::{Command, Frame};

/// A node, the history of all that came to it, the frames that it has not handed out yet, and its passes to mailboxes, if it has
/// any.
#[derive(Drop)]
pub struct NodeCell {
    pub(crate) node: Node,
    is_founder: bool,
    history: Vec<CellEntry>,
    stamp: u64,
    pub(crate) unsent: VecDeque<Addressed>,
    pub(crate) carried: Option<Carried>,
}

impl Model for NodeCell {
    ghost use Rattle.node_cell.specs.Cell.{Cell, cell_seen};
    ghost use Rattle.node_cell.specs.Kept.{IsCell};

    ghost Value = { Cell };

    ghost view = { λ a. cell_seen a.node a.is_founder a.history.items a.unsent.items a.carried };

    ghost invariant = { λ a. IsCell a.node a.stamp (cell_seen a.node a.is_founder a.history.items a.unsent.items a.carried) };
}

impl NodeCell {
    /// The cell of a node to which nothing came yet. The founder of a ring is ready and alone, every other node is to join.
    pub fn new(alloc: Global, me: Id, founder: bool) -> Result<NodeCell, OutOfMemory>
        ensures { IfOk result (λ cell. cell ≡ empty_cell me founder) }
    {
        let node = node_at_start(alloc, me, founder)?;
        Ok(NodeCell {
            node,
            is_founder: founder,
            history: Vec::new(alloc),
            stamp: 0,
            unsent: VecDeque::new(alloc),
            carried: None,
        })
    }

    /// Takes in bytes that came to the node: the message of a frame that is addressed to it, and else noise. One entry is added,
    /// whose stamp is one more than the greater of the cell's and the input's. `Spent` comes only where that greater one is the
    /// last stamp, and then nothing is taken in. After a fault the cell is as before. A cell with passes serves instead.
    pub fn handle(&mut self, alloc: Global, frame: &[u8]) -> Result<(), CellFault>
        requires { self.old.carried ≡ None }
        ensures ok { OnOk result (TookBytes self.old frame.now self.new) }
        ensures err { OnErr result (self.new ≡ self.old) }
        ensures due { IfErr result (IsDueToBytes self.old frame.now) }
    {
        let input = read_to_keep(alloc, self.me(), frame, &self.history)?;
        self.take_in(alloc, input)
    }

    /// Takes in a command of the node's own user, whose number is greater than those of all before it. One entry is added. A
    /// command's own stamp is 0, so `Spent` comes only where the cell's is the last. After a fault the cell is as before.
    pub fn submit(&mut self, alloc: Global, number: u64, command: &Command) -> Result<(), CellFault>
        requires { All (λ e. IsNumberedAfter e.input (plain.Command number command.now)) self.old.history }
        ensures ok { OnOk result (self.new ≡ with_input self.old (plain.Command number command.now)) }
        ensures err { OnErr result (self.new ≡ self.old) }
        ensures due { IfErr result (IsDueTo self.old (plain.Command number command.now)) }
        ensures in_time { OnOk result (greater_stamp self.old (plain.Command number command.now) < LAST_STAMP) }
    {
        let input = CellInput::Command {
            number,
            command: command.copy(alloc)?,
        };
        self.take_in(alloc, input)
    }

    /// The first frame that was not handed out yet, and whom it is for; None exactly where none is left. It takes no memory. A
    /// cell with passes posts instead.
    pub fn next_unsent(&mut self) -> Option<(Id, Frame)>
        requires { self.old.carried ≡ None }
        ensures some { IfSome result (λ next. self.old ≡ record self.new { unsent = record { receiver = next.0; frame = next.1 } ∷ self.new.unsent }) }
        ensures none { IfNone result (self.old.unsent ≡ []) }
        ensures same { IfNone result (self.new ≡ self.old) }
    {
        let Addressed { receiver, frame } = self.unsent.pop_front()?;
        Some((receiver, frame))
    }

    /// The node of the cell.
    pub fn me(&self) -> Id
        ensures { result ≡ self.now.node }
    {
        self.node.id()
    }

    /// All that came to the node, in order, with what its steps sent and noted.
    pub fn history(&self) -> &[CellEntry]
        ensures value { plain_history result.now ≡ self.now.history }
        ensures cell { IsCellHistory self.now.node self.now.is_founder self.now.history }
        ensures numbers { NumbersRise self.now.history }
    {
        &self.history
    }

    /// The history of a cell that is not needed any more.
    pub fn into_history(self) -> Vec<CellEntry>
        ensures value { plain_history result.items ≡ self.history }
        ensures cell { IsCellHistory self.node self.is_founder self.history }
        ensures numbers { NumbersRise self.history }
    {
        self.history
    }

    /// The stamp of the last entry, and 0 before the first.
    pub fn stamp(&self) -> u64
        ensures { result ≡ stamp_of self.now }
    {
        self.stamp
    }

    /// Takes in an input that is the node's, and comes in no frame that its passes took.
    fn take_in(&mut self, alloc: Global, input: CellInput) -> Result<(), CellFault>
        requires addressed { IsFor self.old.node (plain_input_of input) }
        requires numbered { All (λ e. IsNumberedAfter e.input (plain_input_of input)) self.old.history }
        requires beside { IsBesidePasses self.old.carried (plain_input_of input) }
        ensures ok { OnOk result (self.new ≡ with_input self.old (plain_input_of input)) }
        ensures err { OnErr result (self.new ≡ self.old) }
        ensures due { IfErr result (IsDueTo self.old (plain_input_of input)) }
        ensures in_time { OnOk result (greater_stamp self.old (plain_input_of input) < LAST_STAMP) }
    {
        let planned = plan_with_room(
            &mut self.node,
            &mut self.history,
            &mut self.unsent,
            alloc,
            input,
            self.stamp,
        )?;
        let stamp = planned.entry.stamp;
        commit(&mut self.node, &mut self.history, &mut self.unsent, planned);
        self.stamp = stamp;
        Ok(())
    }
}
