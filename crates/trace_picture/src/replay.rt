//! The nodes of a trace after some of its entries, whether they are legal or not: an entry that cannot come changes nothing.

ghost use Rattle.std.specs.Prelude.{◌≡◌, ◌≤◌, ◌<◌, ℕ, Some, List, length, map, slice_get, IfOk, OnOk};
ghost use Rattle.wire_msg.specs.Words.{plain_envelope};
ghost use Rattle.overlay_rules.specs.declared.entry.Entry.{Entry as PlainEntry};
ghost use Rattle.overlay_rules.specs.declared.entry.Event.TheVariants as event;
ghost use Rattle.overlay_rules.specs.State.{State};
ghost use Rattle.overlay_rules.specs.Step.{step};
ghost use Rattle.overlay_rules.specs.Record.{IsSetting, sent_in, state_at, states_after, visit, visit_of, world_after};
ghost use Rattle.node_core.specs.Inputs.{plain_input};
ghost use Rattle.step_facts.specs.Setting.{setting};
ghost use Rattle.world_model.specs.Cells.{AllStand, id_at, ids_of};

use node_core::{Input, Prepared};
use overlay_rules::{Entries, EntryRef, EventRef};
use ring_math::{Id, OutOfMemory};
use std::alloc::Global;
use wire_msg::Envelope;
use world_model::Cells;

/// The nodes after the first `end` entries.
pub(crate) fn cells_after(
    alloc: Global,
    nodes: &[Id],
    founder: Id,
    entries: &Entries,
    end: usize,
) -> Result<Cells, OutOfMemory>
    requires setting { IsSetting (setting nodes.now founder) }
    requires within { end ≤ length entries.now }
    ensures ids { IfOk result (λ cells. ids_of cells ≡ nodes.now) }
    ensures stand { IfOk result (λ cells. AllStand cells (world_after (setting nodes.now founder) entries.now end).states) }
{
    let mut cells = Cells::new(alloc, nodes, founder)?;
    let all = entries.sent();
    let mut sent: usize = 0;
    for place in 0..end {
        follow(alloc, &mut cells, entries, place, &all[..sent])?;
        sent += sent_by(entries, place);
    }
    Ok(cells)
}

/// How many messages the entry at a place sent.
fn sent_by(entries: &Entries, place: usize) -> usize
    requires { place < length entries.now }
    ensures { (e : PlainEntry) → slice_get entries.now place ≡ Some e → result ≡ length e.messages }
{
    entries.at(place).messages.len()
}

/// The entry at a place comes, after those before it, which sent these messages.
fn follow(
    alloc: Global,
    cells: &mut Cells,
    entries: &Entries,
    place: usize,
    sent: &[Envelope],
) -> Result<(), OutOfMemory>
    requires { place < length entries.now }
    ensures ids { ids_of cells.new ≡ ids_of cells.old }
    ensures stand { (states : ℕ → State) (past : List PlainEntry) (e : PlainEntry) → AllStand cells.old states → map plain_envelope sent.now ≡ sent_in past →
        slice_get entries.now place ≡ Some e → OnOk result (AllStand cells.new (states_after states (visit (sent_in past) e.event))) }
{
    let EntryRef { event, .. } = entries.at(place);
    match event {
        EventRef::Command {
            node,
            number,
            command,
        } => come(alloc, cells, node, &Input::Command { number, command }),
        EventRef::Deliver { message } => deliver(alloc, cells, sent, message),
        EventRef::Noise { node } => come(alloc, cells, node, &Input::Noise),
    }
}

/// A message comes to its receiver, if it is one of these.
fn deliver(
    alloc: Global,
    cells: &mut Cells,
    sent: &[Envelope],
    message: u64,
) -> Result<(), OutOfMemory>
    ensures ids { ids_of cells.new ≡ ids_of cells.old }
    ensures stand { (states : ℕ → State) (past : List PlainEntry) → AllStand cells.old states → map plain_envelope sent.now ≡ sent_in past →
        OnOk result (AllStand cells.new (states_after states (visit (sent_in past) (event.Deliver message)))) }
{
    match sent.get(message as usize) {
        Some(envelope) => arrive(alloc, cells, envelope),
        None => Ok(()),
    }
}

fn arrive(alloc: Global, cells: &mut Cells, envelope: &Envelope) -> Result<(), OutOfMemory>
    ensures ids { ids_of cells.new ≡ ids_of cells.old }
    ensures stand { (states : ℕ → State) → AllStand cells.old states →
        OnOk result (AllStand cells.new (states_after states (visit_of (Some (plain_envelope envelope.now))))) }
{
    let input = Input::Message {
        sender: envelope.sender,
        message: &envelope.message,
    };
    // Named, since the prover has to see what type a command is.
    if let Input::Command {
        command: _command,
        ..
    } = &input
    {}
    come(alloc, cells, envelope.receiver, &input)
}

/// An input comes to a node, if there is one.
fn come(alloc: Global, cells: &mut Cells, node: Id, input: &Input<'_>) -> Result<(), OutOfMemory>
    ensures ids { ids_of cells.new ≡ ids_of cells.old }
    ensures stand { (states : ℕ → State) → AllStand cells.old states →
        OnOk result (AllStand cells.new (state_at states node (step (states node) (plain_input input.now)).state)) }
{
    match cells.find(node) {
        Some(at) => take_step(alloc, cells, at, input),
        None => Ok(()),
    }
}

/// The step of the node at a place.
fn take_step(
    alloc: Global,
    cells: &mut Cells,
    at: usize,
    input: &Input<'_>,
) -> Result<(), OutOfMemory>
    requires { at < length (ids_of cells.old) }
    ensures ids { ids_of cells.new ≡ ids_of cells.old }
    ensures stand { (states : ℕ → State) → AllStand cells.old states →
        OnOk result (AllStand cells.new (state_at states (id_at cells.old at) (step (states (id_at cells.old at)) (plain_input input.now)).state)) }
{
    let Prepared {
        messages: _messages,
        notes: _notes,
        change,
    } = cells.prepare(at, alloc, input)?;
    cells.commit(at, change);
    Ok(())
}
