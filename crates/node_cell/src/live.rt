//! A node that keeps nothing of what came to it.

ghost use Rattle.std.specs.Prelude.{◌≡◌, ◌<◌, ◌≤◌, IfOk, IfErr, OnOk, OnErr};
ghost use Rattle.ring_math.specs.Names.{Id as PlainId, Stamp};
ghost use Rattle.overlay_rules.specs.State.{State, start};
ghost use Rattle.weave_laws.specs.Cells as plain;
ghost use Rattle.node_parts.specs.Makes.{Makes};
ghost use Rattle.node_parts.specs.Fits.{Fits};
ghost use Rattle.node_parts.specs.Seen.{Stands};
ghost use Rattle.node_parts.specs.Sound.{IsSound};
ghost use Rattle.node_cell.specs.Entries.{plain_input_of};
ghost use Rattle.node_cell.specs.Faults.{IsDueAt};
ghost use Rattle.node_cell.specs.Live.{IsAt, IsDueToNextBytes, TookNext, TookNextBytes};

use crate::entry::{CellEntry, CellInput};
use crate::fault::CellFault;
use crate::frames::Addressed;
use crate::plan::{Planned, plan};
use crate::reading::read;
use node_core::Node;
use ring_math::{Id, OutOfMemory};
use std::alloc::Global;
use std::marker::Model;
use wire_msg::Command;

/// A node with the stamp of what came to it last. It takes in one input after another, as a [`NodeCell`](crate::NodeCell) does,
/// and keeps no history: its memory is that of its node, however much came to it.
#[derive(Drop)]
pub struct LiveNode {
    node: Node,
    stamp: u64,
}

impl Model for LiveNode {
    ghost use Rattle.node_cell.specs.Live.{Live};

    ghost Value = { Live };

    ghost view = { λ a. record { node = a.node; stamp = a.stamp } };
}

/// The entry of what a node took in, and the frame of each message that it sent, in order.
#[derive(Drop)]
pub struct Taken {
    pub entry: CellEntry,
    pub frames: Vec<Addressed>,
}

impl LiveNode {
    /// A node to which nothing came yet. The founder of a ring is ready and alone, every other node is to join.
    pub fn new(alloc: Global, me: Id, founder: bool) -> Result<LiveNode, OutOfMemory>
        ensures { IfOk result (λ live. IsAt live me 0 (start me founder)) }
    {
        let node = node_at_start(alloc, me, founder)?;
        Ok(LiveNode { node, stamp: 0 })
    }

    /// The stamp of what came last, and 0 before the first.
    pub fn stamp(&self) -> u64
        ensures { result ≡ self.now.stamp }
    {
        self.stamp
    }

    /// Takes in bytes that came to the node: the message of a frame that is addressed to it, and else noise. The answer is the
    /// entry that a cell which is as far would add. `Spent` comes only where the greater of the stamp so far and the input's is
    /// the last stamp. After a fault the node is as far as before.
    pub fn handle(&mut self, alloc: Global, frame: &[u8]) -> Result<Taken, CellFault>
        ensures ok { (x : PlainId) (last : Stamp) (s : State) → IsAt self.old x last s → IfOk result (λ taken. TookNextBytes x last s frame.now taken self.new) }
        ensures err { (x : PlainId) (last : Stamp) (s : State) → IsAt self.old x last s → OnErr result (IsAt self.new x last s) }
        ensures due { IfErr result (IsDueToNextBytes self.old.node.me self.old.stamp frame.now) }
        ensures not_fallen { self.old.stamp ≤ self.new.stamp }
    {
        let input = read(alloc, self.node.id(), frame)?;
        self.take_in(alloc, input)
    }

    /// Takes in a command of the node's own user, as [`LiveNode::handle`] takes in bytes. Its own stamp is 0.
    pub fn submit(
        &mut self,
        alloc: Global,
        number: u64,
        command: &Command,
    ) -> Result<Taken, CellFault>
        ensures ok { (x : PlainId) (last : Stamp) (s : State) → IsAt self.old x last s → IfOk result (λ taken. TookNext x last s (plain.Command number command.now) taken self.new) }
        ensures err { (x : PlainId) (last : Stamp) (s : State) → IsAt self.old x last s → OnErr result (IsAt self.new x last s) }
        ensures due { IfErr result (IsDueAt self.old.stamp (plain.Command number command.now)) }
        ensures not_fallen { self.old.stamp ≤ self.new.stamp }
        ensures risen { OnOk result (self.old.stamp < self.new.stamp) }
    {
        let input = CellInput::Command {
            number,
            command: command.copy(alloc)?,
        };
        self.take_in(alloc, input)
    }

    fn take_in(&mut self, alloc: Global, input: CellInput) -> Result<Taken, CellFault>
        ensures ok { (x : PlainId) (last : Stamp) (s : State) → IsAt self.old x last s → IfOk result (λ taken. TookNext x last s (plain_input_of input) taken self.new) }
        ensures err { (x : PlainId) (last : Stamp) (s : State) → IsAt self.old x last s → OnErr result (IsAt self.new x last s) }
        ensures due { IfErr result (IsDueAt self.old.stamp (plain_input_of input)) }
        ensures not_fallen { self.old.stamp ≤ self.new.stamp }
        ensures risen { OnOk result (self.old.stamp < self.new.stamp) }
    {
        let planned = plan(&mut self.node, alloc, input, self.stamp)?;
        self.stamp = planned.entry.stamp;
        Ok(made(&mut self.node, planned))
    }
}

/// What was planned comes about.
fn made(node: &mut Node, planned: Planned) -> Taken
    requires { Fits node.old planned.change }
    ensures me { node.new.me ≡ node.old.me }
    ensures stands { (s t : State) → Stands node.old s → Makes planned.change s t → IsSound t → Stands node.new t }
    ensures entry { result.entry ≡ planned.entry }
    ensures frames { result.frames ≡ planned.frames }
{
    let Planned {
        change,
        entry,
        frames,
    } = planned;
    node.commit(change);
    Taken { entry, frames }
}

/// A node to which nothing came yet.
pub(crate) fn node_at_start(alloc: Global, me: Id, founder: bool) -> Result<Node, OutOfMemory>
    ensures me { IfOk result (λ node. node.me ≡ me) }
    ensures stands { IfOk result (λ node. Stands node (start me founder)) }
{
    if founder {
        Node::founder(alloc, me)
    } else {
        Node::fresh(alloc, me)
    }
}
