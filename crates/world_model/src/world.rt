//! The world and its events.

ghost use Rattle.std.specs.Prelude.{◌≡◌, ◌<◌, ℕ, Some, [], Contains, IfOk, OnOk, OnErr, MatchBool, nat_lt, length};
ghost use Rattle.overlay_rules.specs.declared.entry.Event.TheVariants as event;
ghost use Rattle.overlay_rules.specs.Record.{IsFresh, IsRecord, IsSetting, Visit, sent_in, visit};
ghost use Rattle.overlay_rules.specs.Flat.{event_kept};
ghost use Rattle.overlay_rules.specs.Played.{oldest_undelivered};
ghost use Rattle.step_facts.specs.Receivers.{ReceiversAre, ViaIs};
ghost use Rattle.node_parts.specs.Views.{hop_of};
ghost use Rattle.node_core.specs.Inputs.{plain_input};
ghost use Rattle.world_model.specs.Recorded.{setting_of, with_event, world_of};
ghost use Rattle.world_model.specs.Numbers.{IsNewest};
ghost use Rattle.world_model.specs.Stamps.{AreStamped};
ghost use Rattle.world_model.specs.Index.{IsBelow, delivered_by};
ghost use Rattle.world_model.specs.Cells.{AllStand, ids_of};
ghost use Rattle.world_model.specs.Worlds.{ComesTo};

use crate::cells::Cells;
use crate::index::{Messages, delivered_message};
use coverage::Hop;
use node_core::{Input, Prepared};
use overlay_rules::{CompactEvent, Entries, Event, EventRef, Record};
use ring_math::{Id, OutOfMemory};
use std::alloc::Global;
use std::marker::Model;
use wire_msg::Command;

/// Room for so many entries of each node is made as a world begins, and for so many messages, so that the lists of a short play are
/// not copied as they grow. A join in a ring of more than 16 nodes sends about 60 messages; more room than a play needs costs it
/// time, since it lies between what is used, and a message takes more than three times what an entry does.
const ENTRIES_A_NODE: usize = 96;

const MESSAGES_A_NODE: usize = 72;

/// Nodes, and the record of all that happened among them.
#[derive(Drop)]
pub struct World {
    cells: Cells,
    founder: Id,
    entries: Entries,
    messages: Messages,
}

impl Model for World {
    ghost use Rattle.world_model.specs.Recorded.{Recorded};
    ghost use Rattle.world_model.specs.Cells.{ids_of};
    ghost use Rattle.world_model.specs.Worlds.{IsWorld};

    ghost Value = { Recorded };

    ghost view = { λ a. record { nodes = ids_of a.cells; founder = a.founder; entries = a.entries } };

    ghost invariant = { λ a. IsWorld a.cells a.messages (record { nodes = ids_of a.cells; founder = a.founder; entries = a.entries }) };
}

impl World {
    /// Nothing has happened yet: the founder is ready and alone, and the others are to join.
    pub fn new(alloc: Global, nodes: &[Id], founder: Id) -> Result<World, OutOfMemory>
        requires { IsSetting (record { nodes = nodes.now; founder = founder }) }
        ensures { IfOk result (λ world. world ≡ record { nodes = nodes.now; founder = founder; entries = [] }) }
    {
        let cells = Cells::new(alloc, nodes, founder)?;
        let entries = Entries::with_room(
            alloc,
            nodes.len().saturating_mul(ENTRIES_A_NODE),
            nodes.len().saturating_mul(MESSAGES_A_NODE),
        )?;
        Ok(World {
            cells,
            founder,
            entries,
            messages: Messages::new(alloc),
        })
    }

    /// A node is given a command. After `OutOfMemory` the world is as before.
    pub fn command(
        &mut self,
        alloc: Global,
        node: Id,
        number: u64,
        command: &Command,
    ) -> Result<(), OutOfMemory>
        requires member { Contains self.old.nodes node }
        requires newest { IsNewest number self.old.entries }
        requires via { ViaIs (setting_of self.old) (event.Command node number command.now) }
        ensures ok { OnOk result (self.new ≡ with_event self.old (event.Command node number command.now)) }
        ensures err { OnErr result (self.new ≡ self.old) }
    {
        let place = self.cells.place(node);
        let command = command.copy(alloc)?;
        let event = Event::Command {
            node,
            number,
            command,
        };
        let event = CompactEvent::of(event, alloc)?;
        self.happen(alloc, place, event)
    }

    /// A message, counted from 0 over all that were sent, comes to its receiver. The answer is false, with nothing changed,
    /// exactly where at most so many were sent. After `OutOfMemory`, which comes only where the message was sent, the world is
    /// as before.
    #[inline(always)]
    pub fn deliver(&mut self, alloc: Global, message: u64) -> Result<bool, OutOfMemory>
        ensures answer { IfOk result (λ was_sent. was_sent ≡ nat_lt message (length (sent_in self.old.entries))) }
        ensures ok { IfOk result (λ was_sent. MatchBool was_sent (self.new ≡ with_event self.old (event.Deliver message)) (self.new ≡ self.old)) }
        ensures refused { OnErr result (message < length (sent_in self.old.entries)) }
        ensures err { OnErr result (self.new ≡ self.old) }
    {
        if message >= self.sent_len() {
            return Ok(false);
        }
        let place = self.receiver(message);
        self.happen(alloc, place, CompactEvent::Deliver { message })?;
        Ok(true)
    }

    /// Bytes that are no frame come to a node. After `OutOfMemory` the world is as before.
    pub fn noise(&mut self, alloc: Global, node: Id) -> Result<(), OutOfMemory>
        requires { Contains self.old.nodes node }
        ensures ok { OnOk result (self.new ≡ with_event self.old (event.Noise node)) }
        ensures err { OnErr result (self.new ≡ self.old) }
    {
        let place = self.cells.place(node);
        let event = CompactEvent::of(Event::Noise { node }, alloc)?;
        self.happen(alloc, place, event)
    }

    /// How many messages were sent.
    pub fn sent_len(&self) -> u64
        ensures { result ≡ length (sent_in self.now.entries) }
    {
        self.messages.len() as u64
    }

    /// The first message that was never delivered, None exactly where each was delivered.
    pub fn oldest_undelivered(&self) -> Option<u64>
        ensures { result ≡ oldest_undelivered (world_of self.now) }
    {
        match self.messages.oldest() {
            Some(message) => Some(message as u64),
            None => None,
        }
    }

    /// All that happened, in order.
    pub fn entries(&self) -> &Entries
        ensures value { result.now ≡ self.now.entries }
        ensures legal { IsRecord (setting_of self.now) self.now.entries }
        ensures stamps { AreStamped self.now.entries }
        ensures receivers { ReceiversAre (setting_of self.now) self.now.entries }
    {
        &self.entries
    }

    /// The record, with the number of deliveries that found no message.
    pub fn finish(self, skipped: u64) -> Record
        ensures entries { result.entries ≡ self.entries }
        ensures skipped { result.skipped ≡ skipped }
        ensures legal { IsRecord (setting_of self) self.entries }
    {
        Record {
            entries: self.entries,
            skipped,
        }
    }

    /// The nodes, as they are after all that happened.
    pub fn cells(&self) -> &Cells
        ensures ids { ids_of result.now ≡ self.now.nodes }
        ensures stand { AllStand result.now (world_of self.now).states }
    {
        &self.cells
    }

    /// Where a node sends what is for a key, None exactly where it is not ready. It takes no memory.
    pub fn next_hop(&self, node: Id, key: Id) -> Option<Hop>
        requires { Contains self.now.nodes node }
        ensures { result ≡ hop_of ((world_of self.now).states node) key }
    {
        self.cells.next_hop(self.cells.place(node), key)
    }

    /// The place of the node that a message goes to.
    fn receiver(&self, message: u64) -> usize
        requires { message < length (sent_in self.now.entries) }
        ensures { ComesTo self.now (event.Deliver message) result }
    {
        let sent = self.entries.sent();
        let envelope = &sent[message as usize];
        self.cells.place(envelope.receiver)
    }

    /// An event comes to the node at a place: its step is made, and its entry is added.
    fn happen(
        &mut self,
        alloc: Global,
        place: usize,
        event: CompactEvent,
    ) -> Result<(), OutOfMemory>
        requires comes { ComesTo self.old (event_kept event) place }
        requires fresh { IsFresh self.old.entries (event_kept event) }
        requires via { ViaIs (setting_of self.old) (event_kept event) }
        ensures ok { OnOk result (self.new ≡ with_event self.old (event_kept event)) }
        ensures err { OnErr result (self.new ≡ self.old) }
    {
        event.said_law();
        let delivered = delivered_message(&event);
        // Named, since the prover has to see what type a command is.
        if let EventRef::Command {
            command: _command,
            ..
        } = event.seen()
        {}
        let input = input_of(&event, &self.entries);
        let Prepared {
            messages,
            notes,
            change,
        } = self.cells.prepare(place, alloc, &input)?;
        let count = messages.as_slice().len();
        self.messages.reserve(count)?;
        let stamp = self.entries.next_stamp();
        self.entries
            .add(event, stamp, self.cells.id(place), messages, notes)?;
        self.cells.commit(place, change);
        self.messages.add(delivered, count);
        Ok(())
    }
}

/// What comes to the node of an event.
fn input_of<'a>(event: &'a CompactEvent, entries: &'a Entries) -> Input<'a>
    requires { IsBelow (length (sent_in entries.now)) (delivered_by (event_kept event.now)) }
    ensures { (at : Visit) → visit (sent_in entries.now) (event_kept event.now) ≡ Some at → plain_input result ≡ at.input }
{
    match event.seen() {
        EventRef::Command {
            number,
            command,
            ..
        } => Input::Command { number, command },
        EventRef::Deliver { message } => {
            let envelope = &entries.sent()[message as usize];
            Input::Message {
                sender: envelope.sender,
                message: &envelope.message,
            }
        }
        EventRef::Noise { .. } => Input::Noise,
    }
}
