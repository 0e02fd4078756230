//! Actions played, one after another.

ghost use Rattle.std.specs.Prelude.{◌≡◌, ◌<◌, ◌++◌, ◌∷◌, [], Contains, IfOk, OnOk, length};
ghost use Rattle.overlay_rules.specs.Record.{IsRecord};
ghost use Rattle.scenario_reader.specs.Plain.{ids};
ghost use Rattle.scribe_core.specs.declared.entry.GroupEvent.TheVariants as event;
ghost use Rattle.scribe_core.specs.Actions.{AreActions};
ghost use Rattle.scribe_core.specs.Played.{acted, delivered_once, happened, played, settled};
ghost use Rattle.scribe_core.specs.Record.{IsGroupRecord, sent_in};
ghost use Rattle.world_model.specs.Index.{IsBelow};
ghost use Rattle.world_model.specs.Recorded.{Recorded, setting_of, world_of};
ghost use Rattle.group_play.specs.Messages.{ListsMessages, delivered_by};
ghost use Rattle.group_play.specs.Playing.{CanAct, IsNewest, IsPlay};

use crate::ahead::Ahead;
use crate::groups::Groups;
use crate::messages::Messages;
use crate::seats::Seats;
use crate::spot::Spot;
use group_reader::GroupScript;
use ring_math::{Id, OutOfMemory};
use scenario_reader::Name;
use scribe_core::{GroupAction, GroupCommand, GroupEvent, GroupRecord, GroupWhat, GroupWriter};
use std::alloc::Global;
use world_model::World;

/// The group record of a script over the world that its part one has left. The only error is that memory was refused.
pub fn play_groups(
    alloc: Global,
    script: &GroupScript,
    world: &World,
) -> Result<GroupRecord, OutOfMemory>
    requires { world.now.nodes ≡ ids script.now.scenario.nodes }
    ensures played { IfOk result (λ steps. steps ≡ played (world_of world.now) script.now.actions) }
    ensures legal { IfOk result (λ steps. IsGroupRecord (setting_of world.now) (world_of world.now) steps) }
{
    play_actions(alloc, script.actions(), world)
}

/// The group record that actions give.
fn play_actions(
    alloc: Global,
    actions: &[GroupAction],
    world: &World,
) -> Result<GroupRecord, OutOfMemory>
    requires { AreActions world.now.nodes actions.now }
    ensures played { IfOk result (λ steps. steps ≡ played (world_of world.now) actions.now) }
    ensures legal { IfOk result (λ steps. IsGroupRecord (setting_of world.now) (world_of world.now) steps) }
{
    world.entries();
    let mut play = Play::new(alloc);
    let mut ahead = Ahead::new(alloc);
    for action in actions {
        play.act(alloc, world, &mut ahead, &action.what)?;
    }
    Ok(play.writer.finish())
}

/// Groups that are played: the record so far, what is kept of its messages, the seats with the parts after it, and the groups.
#[derive(Drop)]
pub(crate) struct Play {
    pub(crate) groups: Groups,
    pub(crate) seats: Seats,
    pub(crate) messages: Messages,
    pub(crate) writer: GroupWriter,
}

impl Play {
    /// Nothing has happened. It takes no memory.
    fn new(alloc: Global) -> Play
        ensures plays { (r : Recorded) → IsPlay r result }
        ensures entries { result.writer.entries ≡ [] }
    {
        Play {
            groups: Groups::new(alloc),
            seats: Seats::new(alloc),
            messages: Messages::new(alloc),
            writer: GroupWriter::new(alloc),
        }
    }

    /// Does what an action says.
    fn act(
        &mut self,
        alloc: Global,
        world: &World,
        ahead: &mut Ahead,
        what: &GroupWhat,
    ) -> Result<(), OutOfMemory>
        requires plays { IsPlay world.now self.old }
        requires legal { IsRecord (setting_of world.now) world.now.entries }
        requires may { CanAct world.now.nodes self.old.writer.entries what.now }
        ensures plays { OnOk result (IsPlay world.now self.new) }
        ensures entries { OnOk result (self.new.writer.entries ≡ acted (world_of world.now) what.now self.old.writer.entries) }
    {
        match what {
            GroupWhat::Command {
                number,
                node,
                group,
                command,
            } => self.command(alloc, world, *number, *node, group, command),
            GroupWhat::Settle(count) => self.settle(alloc, world, ahead, *count),
            GroupWhat::Deliver(message) => self.deliver_once(alloc, world, *message),
        }
    }

    /// A node is given a command in a group.
    fn command(
        &mut self,
        alloc: Global,
        world: &World,
        number: u64,
        node: Id,
        name: &Name,
        command: &GroupCommand,
    ) -> Result<(), OutOfMemory>
        requires plays { IsPlay world.now self.old }
        requires member { Contains world.now.nodes node }
        requires newest { IsNewest number self.old.writer.entries }
        ensures plays { OnOk result (IsPlay world.now self.new) }
        ensures entries { OnOk result (self.new.writer.entries ≡
            happened (world_of world.now) self.old.writer.entries (event.Command node number name.now command.now)) }
    {
        let group = self.groups.group(alloc, name)?;
        let at = Spot {
            node,
            group: &group,
            guess: None,
        };
        self.seats
            .command(alloc, &mut self.writer, world, &at, number, command)?;
        let event = GroupEvent::Command {
            node,
            number,
            group: group.copy()?,
            command: command.copy(alloc)?,
        };
        self.close(event, None)?;
        Ok(())
    }

    /// So many times, the oldest message that was never delivered is delivered.
    fn settle(
        &mut self,
        alloc: Global,
        world: &World,
        ahead: &mut Ahead,
        count: u32,
    ) -> Result<(), OutOfMemory>
        requires plays { IsPlay world.now self.old }
        requires legal { IsRecord (setting_of world.now) world.now.entries }
        ensures plays { OnOk result (IsPlay world.now self.new) }
        ensures entries { OnOk result (self.new.writer.entries ≡ settled (world_of world.now) count self.old.writer.entries) }
    {
        for turn in 0..count {
            match self.messages.oldest() {
                Some(message) => {
                    let guess = self.guess(ahead, message, count - turn)?;
                    self.deliver(alloc, world, message, guess)?;
                }
                None => return Ok(()),
            }
        }
        Ok(())
    }

    /// Where the seat may stand to which a message comes, the first of so many that are to be delivered.
    fn guess(
        &self,
        ahead: &mut Ahead,
        message: usize,
        left: u32,
    ) -> Result<Option<usize>, OutOfMemory> {
        ahead.guess(message, left, self.writer.sent(), &self.seats)
    }

    /// A message is delivered, if it was sent.
    fn deliver_once(
        &mut self,
        alloc: Global,
        world: &World,
        message: u64,
    ) -> Result<(), OutOfMemory>
        requires plays { IsPlay world.now self.old }
        requires legal { IsRecord (setting_of world.now) world.now.entries }
        ensures plays { OnOk result (IsPlay world.now self.new) }
        ensures entries { OnOk result (self.new.writer.entries ≡ delivered_once (world_of world.now) message self.old.writer.entries) }
    {
        if message < self.messages.len() as u64 {
            self.deliver(alloc, world, message as usize, None)?;
        }
        Ok(())
    }

    /// A message that was sent is delivered, to a seat that may stand at this place.
    fn deliver(
        &mut self,
        alloc: Global,
        world: &World,
        message: usize,
        guess: Option<usize>,
    ) -> Result<(), OutOfMemory>
        requires plays { IsPlay world.now self.old }
        requires legal { IsRecord (setting_of world.now) world.now.entries }
        requires sent { message < length (sent_in self.old.writer.entries) }
        ensures plays { OnOk result (IsPlay world.now self.new) }
        ensures entries { OnOk result (self.new.writer.entries ≡ happened (world_of world.now) self.old.writer.entries (event.Deliver message)) }
    {
        let sent = &self.writer.sent()[message];
        let sent = sent.copy()?;
        let at = Spot {
            node: sent.receiver,
            group: &sent.group,
            guess,
        };
        self.seats.message(
            alloc,
            &mut self.writer,
            world,
            &at,
            sent.sender,
            &sent.message,
        )?;
        let message = message as u64;
        self.close(GroupEvent::Deliver { message }, Some(message))?;
        Ok(())
    }

    /// The next entry is complete: it is of this event.
    fn close(&mut self, event: GroupEvent, delivered: Option<u64>) -> Result<(), OutOfMemory>
        requires messages { ListsMessages self.old.messages self.old.writer.entries }
        requires delivered { delivered ≡ delivered_by event }
        requires below { IsBelow (length (sent_in self.old.writer.entries)) delivered }
        ensures entries { OnOk result (self.new.writer.entries ≡
            self.old.writer.entries ++ record { event = event; messages = self.old.writer.messages; notes = self.old.writer.notes } ∷ []) }
        ensures nothing_sent { OnOk result (self.new.writer.messages ≡ []) }
        ensures nothing_noted { OnOk result (self.new.writer.notes ≡ []) }
        ensures messages { OnOk result (ListsMessages self.new.messages self.new.writer.entries) }
        ensures seats { self.new.seats ≡ self.old.seats }
    {
        self.messages.add(delivered, self.writer.sent().len())?;
        self.writer.close(event)?;
        Ok(())
    }
}
