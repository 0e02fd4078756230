//! The step of a part: by what comes, the rule that it takes.

ghost use Rattle.std.specs.Prelude.{◌≡◌, Contains, OnOk, List};
ghost use Rattle.ring_math.specs.Names.{Number};
ghost use Rattle.scribe_core.specs.Parts.{Part as PlainPart};
ghost use Rattle.scribe_core.specs.Record.{way_in};
ghost use Rattle.scribe_core.specs.Step.{on_command, on_message};
ghost use Rattle.scribe_core.specs.Tree.{attach};
ghost use Rattle.world_model.specs.Recorded.{world_of};
ghost use Rattle.group_play.specs.Said.{Gives};
ghost use Rattle.group_play.specs.Shown.{HasSeen, part_of, place_of};

use crate::part::Part;
use crate::spot::Spot;
use crate::way::way_from;
use overlay_rules::Way;
use ring_math::{Id, OutOfMemory};
use scribe_core::{GroupCommand, GroupMessage, GroupWriter, Published};
use std::alloc::Global;
use world_model::World;

impl Part {
    /// A command comes.
    pub(crate) fn command(
        &mut self,
        alloc: Global,
        writer: &mut GroupWriter,
        world: &World,
        at: &Spot<'_>,
        number: u64,
        command: &GroupCommand,
    ) -> Result<(), OutOfMemory>
        requires member { Contains world.now.nodes at.now.node }
        ensures { (seen : List Number) → HasSeen self.old.seen seen → OnOk result (Gives at.now.node at.now.group.now self.new writer.old writer.new
            (on_command (way_in (world_of world.now) at.now.node at.now.group.now) at.now.group.now (part_of self.old seen) number command.now)) }
    {
        match command {
            GroupCommand::Subscribe => {
                let way = way_from(world, at.node, at.group.key());
                self.on_subscribe(writer, at, way, number)
            }
            GroupCommand::Leave => self.on_leave(writer, at, number),
            GroupCommand::Publish { bytes } => {
                let way = way_from(world, at.node, at.group.key());
                let bytes = Published::of(alloc, bytes)?;
                self.on_publish(writer, at, way, number, &bytes)
            }
        }
    }

    /// A message comes.
    pub(crate) fn message(
        &mut self,
        writer: &mut GroupWriter,
        world: &World,
        at: &Spot<'_>,
        sender: Id,
        message: &GroupMessage,
    ) -> Result<(), OutOfMemory>
        requires member { Contains world.now.nodes at.now.node }
        ensures { (seen : List Number) → HasSeen self.old.seen seen → OnOk result (Gives at.now.node at.now.group.now self.new writer.old writer.new
            (on_message (way_in (world_of world.now) at.now.node at.now.group.now) at.now.group.now (part_of self.old seen) sender message.now)) }
    {
        match message {
            GroupMessage::Graft => {
                let way = self.way_to_place(world, at);
                self.on_graft(writer, at, way, sender)
            }
            GroupMessage::Prune => self.on_prune(writer, at, sender),
            GroupMessage::Publish { number, bytes } => {
                let way = way_from(world, at.node, at.group.key());
                self.on_published(writer, at, way, *number, bytes)
            }
            GroupMessage::Cast { number, bytes } => self.cast(writer, at, *number, bytes),
        }
    }

    /// Where the key leads, as far as the node's place depends on it: who is in a tree stays there wherever the key leads, so only
    /// who is loose asks.
    fn way_to_place(&self, world: &World, at: &Spot<'_>) -> Way
        requires { Contains world.now.nodes at.now.node }
        ensures { (p : PlainPart) → p.place ≡ place_of self.now.place →
            attach result p ≡ attach (way_in (world_of world.now) at.now.node at.now.group.now) p }
    {
        if self.is_loose() {
            way_from(world, at.node, at.group.key())
        } else {
            Way::NotReady
        }
    }
}
