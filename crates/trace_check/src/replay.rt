//! A record, replayed entry by entry.

ghost use Rattle.std.specs.Prelude.{◌≡◌, ◌<◌, ℕ, IfOk, Some, List, [], length, map, slice_get};
ghost use Rattle.wire_msg.specs.Words.{plain_envelope};
ghost use Rattle.overlay_rules.specs.declared.entry.Entry.{Entry as PlainEntry};
ghost use Rattle.overlay_rules.specs.declared.entry.Event.TheVariants as event;
ghost use Rattle.overlay_rules.specs.State.{State};
ghost use Rattle.overlay_rules.specs.Record.{IsSetting, Setting, run, sent_in, visit, visit_of, world_at_start};
ghost use Rattle.node_core.specs.Inputs.{plain_input};
ghost use Rattle.world_model.specs.Cells.{AllStand, ids_of, id_at};
ghost use Rattle.step_facts.specs.ReadyCount.{ready_count};
ghost use Rattle.step_facts.specs.Setting.{setting};
ghost use Rattle.trace_check.specs.Replays.{IsReplay, IsReplayedOrWrong, IsStepped, entry_with};

use crate::numbers::Numbers;
use crate::same::{are_noted, are_sent};
use crate::verdict::Part;
use node_core::{Input, Prepared};
use overlay_rules::{Entries, EntryRef, EventRef};
use ring_math::{Id, OutOfMemory};
use std::alloc::Global;
use wire_msg::{Command, Envelope, Note};
use world_model::Cells;

/// What is kept of the entries so far.
#[derive(Drop)]
pub(crate) struct Replay {
    /// The nodes, each as its state is after them.
    pub(crate) cells: Cells,
    /// The numbers of their commands.
    pub(crate) numbers: Numbers,
}

impl Replay {
    /// Before the first entry.
    pub(crate) fn new(alloc: Global, nodes: &[Id], founder: Id) -> Result<Replay, OutOfMemory>
        requires { IsSetting (setting nodes.now founder) }
        ensures { IfOk result (λ replay. IsReplay replay (setting nodes.now founder) []) }
    {
        let cells = Cells::new(alloc, nodes, founder)?;
        Ok(Replay {
            cells,
            numbers: Numbers::new(alloc),
        })
    }

    /// How many nodes are ready after the entries.
    pub(crate) fn ready(&self) -> usize
        ensures { (g : Setting) (past : List PlainEntry) → IsReplay self.now g past → result ≡ ready_count g (run (world_at_start g) past) }
    {
        self.cells.ready()
    }

    /// The entry at a place, after those before it, which sent these messages: None where it may follow, and then it is
    /// replayed; else the part of it that is wrong.
    pub(crate) fn follow(
        &mut self,
        alloc: Global,
        entries: &Entries,
        place: usize,
        sent: &[Envelope],
    ) -> Result<Option<Part>, OutOfMemory>
        requires { place < length entries.now }
        ensures { (g : Setting) (past : List PlainEntry) (e : PlainEntry) → IsReplay self.old g past → map plain_envelope sent.now ≡ sent_in past →
            slice_get entries.now place ≡ Some e → IfOk result (IsReplayedOrWrong self.new g past e) }
    {
        let EntryRef {
            event,
            messages,
            notes,
        } = entries.at(place);
        match event {
            EventRef::Command {
                node,
                number,
                command,
            } => self.command(alloc, node, number, command, messages, notes),
            EventRef::Deliver { message } => self.deliver(alloc, sent, message, messages, notes),
            EventRef::Noise { node } => self.noise(alloc, node, messages, notes),
        }
    }

    fn command(
        &mut self,
        alloc: Global,
        node: Id,
        number: u64,
        command: &Command,
        messages: &[Envelope],
        notes: &[Note],
    ) -> Result<Option<Part>, OutOfMemory>
        ensures { (g : Setting) (past : List PlainEntry) → IsReplay self.old g past →
            IfOk result (IsReplayedOrWrong self.new g past (entry_with (event.Command node number command.now) messages.now notes.now)) }
    {
        let Some(at) = self.cells.find(node) else {
            return Ok(Some(Part::Event));
        };
        if !self.numbers.is_new(node, number) {
            return Ok(Some(Part::Event));
        }
        self.numbers.add(node, number)?;
        let input = Input::Command { number, command };
        self.step(alloc, at, &input, messages, notes)
    }

    /// A delivery of one of these messages, which were sent so far.
    fn deliver(
        &mut self,
        alloc: Global,
        sent: &[Envelope],
        message: u64,
        messages: &[Envelope],
        notes: &[Note],
    ) -> Result<Option<Part>, OutOfMemory>
        ensures { (g : Setting) (past : List PlainEntry) → IsReplay self.old g past → map plain_envelope sent.now ≡ sent_in past →
            IfOk result (IsReplayedOrWrong self.new g past (entry_with (event.Deliver message) messages.now notes.now)) }
    {
        match sent.get(message as usize) {
            Some(envelope) => self.arrive(alloc, envelope, messages, notes),
            None => Ok(Some(Part::Event)),
        }
    }

    /// This message comes to its receiver.
    fn arrive(
        &mut self,
        alloc: Global,
        envelope: &Envelope,
        messages: &[Envelope],
        notes: &[Note],
    ) -> Result<Option<Part>, OutOfMemory>
        ensures { (g : Setting) (past : List PlainEntry) (m : ℕ) → IsReplay self.old g past → visit (sent_in past) (event.Deliver m) ≡ visit_of (Some (plain_envelope envelope.now)) →
            IfOk result (IsReplayedOrWrong self.new g past (entry_with (event.Deliver m) messages.now notes.now)) }
    {
        let Some(at) = self.cells.find(envelope.receiver) else {
            return Ok(Some(Part::Event));
        };
        let input = Input::Message {
            sender: envelope.sender,
            message: &envelope.message,
        };
        // Named, since the prover has to see what type a command is.
        if let Input::Command {
            command: _command,
            ..
        } = &input
        {}
        self.step(alloc, at, &input, messages, notes)
    }

    fn noise(
        &mut self,
        alloc: Global,
        node: Id,
        messages: &[Envelope],
        notes: &[Note],
    ) -> Result<Option<Part>, OutOfMemory>
        ensures { (g : Setting) (past : List PlainEntry) → IsReplay self.old g past →
            IfOk result (IsReplayedOrWrong self.new g past (entry_with (event.Noise node) messages.now notes.now)) }
    {
        let Some(at) = self.cells.find(node) else {
            return Ok(Some(Part::Event));
        };
        let input = Input::Noise;
        // Named, since the prover has to see what type a command is.
        if let Input::Command {
            command: _command,
            ..
        } = &input
        {}
        self.step(alloc, at, &input, messages, notes)
    }

    /// The step of the node at a place, made where these are its messages and its notes.
    fn step(
        &mut self,
        alloc: Global,
        at: usize,
        input: &Input<'_>,
        messages: &[Envelope],
        notes: &[Note],
    ) -> Result<Option<Part>, OutOfMemory>
        requires { at < length (ids_of self.old.cells) }
        ensures ids { ids_of self.new.cells ≡ ids_of self.old.cells }
        ensures numbers { self.new.numbers ≡ self.old.numbers }
        ensures step { (states : ℕ → State) → AllStand self.old.cells states →
            IfOk result (IsStepped self.new states (id_at self.old.cells at) (plain_input input.now) (map plain_envelope messages.now) notes.now) }
    {
        let Prepared {
            messages: sends,
            notes: noted,
            change,
        } = self.cells.prepare(at, alloc, input)?;
        if !are_sent(messages, self.cells.id(at), sends.as_slice()) {
            return Ok(Some(Part::Sent));
        }
        if !are_noted(notes, noted.as_slice()) {
            return Ok(Some(Part::Notes));
        }
        self.cells.commit(at, change);
        Ok(None)
    }
}
