//! A node that answers lines.

ghost use Rattle.std.specs.Prelude.{IfOk, IfErr, OnOk, OnErr};
ghost use Rattle.node_lines.specs.declared.told.Told.TheVariants as told;
ghost use Rattle.node_process.specs.Steps.{IsDueToTold, Stepped};
ghost use Rattle.node_process.specs.Talk.{Added, IsAnswered, IsAnsweredTo, IsAsFar, Talk, talk_at_start};

use crate::texts::{put_refused, put_taken};
use delivery_report::NodeNames;
use node_cell::{CellFault, LiveNode, Taken};
use node_lines::{Refusal, TellFault, Told, read_line};
use ring_math::{Id, OutOfMemory};
use std::alloc::Global;
use std::marker::Model;
use text_writer::Text;
use wire_msg::Command;

/// A node, and how many commands it was told. Its memory is that of its node, however many lines it answers.
#[derive(Drop)]
pub struct NodeProcess {
    live: LiveNode,
    commands: u64,
}

impl Model for NodeProcess {
    ghost use Rattle.std.specs.Prelude.{◌≤◌};
    ghost use Rattle.node_process.specs.Talk.{Process};

    ghost Value = { Process };

    ghost view = { λ a. record { live = a.live; commands = a.commands } };

    ghost invariant = { λ a. a.commands ≤ a.live.stamp };
}

impl NodeProcess {
    /// A node to which nothing came yet. The founder of a ring is ready and alone, every other node is to join.
    pub fn new(alloc: Global, me: Id, founder: bool) -> Result<NodeProcess, OutOfMemory>
        ensures { IfOk result (λ process. IsAsFar process (talk_at_start me founder)) }
    {
        let live = LiveNode::new(alloc, me, founder)?;
        Ok(NodeProcess { live, commands: 0 })
    }

    /// Answers a line: its answer stands at the end of the text.
    pub fn answer(&mut self, alloc: Global, line: &[u8], text: &mut Text) -> Result<(), OutOfMemory>
        ensures { (t : Talk) → IsAsFar self.old t → OnOk result (Added (IsAnswered t line.now) self.new text.old text.new) }
    {
        match read_line(alloc, line) {
            Ok(told) => self.take_in(alloc, &told, text),
            Err(TellFault::Refused(refusal)) => put_refused(text, refusal),
            Err(TellFault::OutOfMemory) => Err(OutOfMemory),
        }
    }

    /// Takes in what a line tells, and writes what came of it.
    fn take_in(&mut self, alloc: Global, told: &Told, text: &mut Text) -> Result<(), OutOfMemory>
        ensures { (t : Talk) → IsAsFar self.old t → OnOk result (Added (IsAnsweredTo t told.now) self.new text.old text.new) }
    {
        let names = NodeNames::of(alloc, &[])?;
        match self.step(alloc, told) {
            Ok(taken) => put_taken(text, &names, &taken),
            Err(CellFault::Spent { .. }) => put_refused(text, Refusal::Spent),
            Err(CellFault::OutOfMemory) => Err(OutOfMemory),
        }
    }

    /// Takes in what a line tells.
    fn step(&mut self, alloc: Global, told: &Told) -> Result<Taken, CellFault>
        ensures ok { (t : Talk) → IsAsFar self.old t → IfOk result (λ taken. Stepped t told.now taken self.new) }
        ensures err { (t : Talk) → IsAsFar self.old t → OnErr result (IsAsFar self.new t) }
        ensures spent { (t : Talk) → IsAsFar self.old t → IfErr result (IsDueToTold t told.now) }
    {
        match told {
            Told::Does(command) => self.submit(alloc, command),
            Told::Comes(frame) => self.live.handle(alloc, frame.as_slice()),
        }
    }

    fn submit(&mut self, alloc: Global, command: &Command) -> Result<Taken, CellFault>
        ensures ok { (t : Talk) → IsAsFar self.old t → IfOk result (λ taken. Stepped t (told.Does command.now) taken self.new) }
        ensures err { (t : Talk) → IsAsFar self.old t → OnErr result (IsAsFar self.new t) }
        ensures spent { (t : Talk) → IsAsFar self.old t → IfErr result (IsDueToTold t (told.Does command.now)) }
    {
        let Some(number) = self.commands.checked_add(1) else {
            return Err(CellFault::Spent {
                stamp: self.live.stamp(),
            });
        };
        let taken = self.live.submit(alloc, number, command)?;
        self.commands = number;
        Ok(taken)
    }
}
