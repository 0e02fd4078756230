//! Cells, and the frames that pass between them.

ghost use Rattle.std.specs.Prelude.{◌≡◌, ◌<◌, ◌++◌, ◌∷◌, [], List, length, Some, Contains, IfOk, IfErr, IsOk, OnOk, map, slice_get};
ghost use Rattle.wire_msg.specs.Words.{plain_envelope};
ghost use Rattle.overlay_rules.specs.Seen.{event_seen};
ghost use Rattle.step_facts.specs.Setting.{setting};
ghost use Rattle.weave_laws.specs.Cells as plain;
ghost use Rattle.weave_laws.specs.Cells.{CellEntry as PlainEntry};
ghost use Rattle.node_cell.specs.declared.fault.CellFault.TheVariants as fault;
ghost use Rattle.weave.specs.Relayed.{AreInputAt, CanHappen, CanTakeAt, CanTakeBytes, CanTakeFor, CanTakeLetter, Happened, Hold, IsLetter, Kept, Relayed, TookAt, TookFor, TookLetter};

use node_cell::{CellFault, NodeCell};
use overlay_rules::EventRef;
use ring_math::{Id, OutOfMemory};
use std::alloc::Global;
use wire_codec::encode;
use wire_msg::{Command, Envelope, Frame};

/// A frame that a cell sent, and whom it is for.
#[derive(Drop)]
pub(crate) struct Letter {
    pub(crate) receiver: Id,
    pub(crate) frame: Frame,
}

/// The cell of each node, in the order of the nodes, and the frames that they sent, in the order in which they sent them.
#[derive(Drop)]
pub(crate) struct Relay {
    pub(crate) cells: Vec<NodeCell>,
    pub(crate) letters: Vec<Letter>,
}

impl Relay {
    /// Nothing has come to the cells yet.
    pub(crate) fn new(alloc: Global, nodes: &[Id], founder: Id) -> Result<Relay, OutOfMemory>
        ensures cells { IfOk result (λ relay. Hold (setting nodes.now founder) [] relay.cells.items) }
        ensures letters { IfOk result (λ relay. relay.letters.items ≡ []) }
    {
        let mut cells = Vec::with_capacity(alloc, nodes.len())?;
        for node in nodes {
            cells.push(NodeCell::new(alloc, *node, *node == founder)?)?;
        }
        Ok(Relay {
            cells,
            letters: Vec::new(alloc),
        })
    }

    /// What an event brings comes to the cell of its node, and what this cell sends is kept.
    pub(crate) fn happen(
        &mut self,
        alloc: Global,
        nodes: &[Id],
        event: &EventRef<'_>,
    ) -> Result<(), OutOfMemory>
        requires { CanHappen nodes.now self.old.cells.items self.old.letters.items (event_seen event.now) }
        ensures { OnOk result (Relayed nodes.now self.old.cells.items self.old.letters.items (event_seen event.now) self.new.cells.items self.new.letters.items) }
    {
        let place = take_in(&mut self.cells, alloc, nodes, &self.letters, event)?;
        let cell = &self.cells[place];
        keep_sent(&mut self.letters, alloc, cell)
    }
}

/// What an event brings comes to the cell of its node. The answer is the place of this cell.
fn take_in(
    cells: &mut Vec<NodeCell>,
    alloc: Global,
    nodes: &[Id],
    letters: &[Letter],
    event: &EventRef<'_>,
) -> Result<usize, OutOfMemory>
    requires { CanHappen nodes.now cells.old.items letters.now (event_seen event.now) }
    ensures within { IfOk result (λ place. place < length cells.new.items) }
    ensures happened { IfOk result (λ place. Happened nodes.now cells.old.items letters.now (event_seen event.now) place cells.new.items) }
{
    match event {
        EventRef::Command {
            node,
            number,
            command,
        } => take_command(cells, alloc, nodes, *node, *number, command),
        EventRef::Deliver { message } => {
            take_letter(cells, alloc, nodes, &letters[*message as usize])
        }
        EventRef::Noise { node } => take_noise(cells, alloc, nodes, *node),
    }
}

fn take_command(
    cells: &mut Vec<NodeCell>,
    alloc: Global,
    nodes: &[Id],
    node: Id,
    number: u64,
    command: &Command,
) -> Result<usize, OutOfMemory>
    requires { CanTakeFor nodes.now cells.old.items node (plain.Command number command.now) }
    ensures { IfOk result (λ place. TookFor nodes.now cells.old.items node (plain.Command number command.now) place cells.new.items) }
{
    let place = place_of(nodes, node);
    submit_at(cells, place, alloc, number, command)?;
    Ok(place)
}

fn take_letter(
    cells: &mut Vec<NodeCell>,
    alloc: Global,
    nodes: &[Id],
    letter: &Letter,
) -> Result<usize, OutOfMemory>
    requires { CanTakeLetter nodes.now cells.old.items letter.now }
    ensures { IfOk result (λ place. TookLetter nodes.now cells.old.items letter.now place cells.new.items) }
{
    let place = place_of(nodes, letter.receiver);
    handle_at(cells, place, alloc, letter.frame.as_slice())?;
    Ok(place)
}

fn take_noise(
    cells: &mut Vec<NodeCell>,
    alloc: Global,
    nodes: &[Id],
    node: Id,
) -> Result<usize, OutOfMemory>
    requires { CanTakeFor nodes.now cells.old.items node plain.Noise }
    ensures { IfOk result (λ place. TookFor nodes.now cells.old.items node plain.Noise place cells.new.items) }
{
    let place = place_of(nodes, node);
    handle_at(cells, place, alloc, b"")?;
    Ok(place)
}

/// The place of a node.
fn place_of(nodes: &[Id], node: Id) -> usize
    requires { Contains nodes.now node }
    ensures { slice_get nodes.now result ≡ Some node }
{
    nodes.iter().position(|other| *other == node).unwrap()
}

fn submit_at(
    cells: &mut Vec<NodeCell>,
    place: usize,
    alloc: Global,
    number: u64,
    command: &Command,
) -> Result<(), OutOfMemory>
    requires { CanTakeAt cells.old.items place (plain.Command number command.now) }
    ensures { OnOk result (TookAt cells.old.items place (plain.Command number command.now) cells.new.items) }
{
    let cell = &mut cells[place];
    in_time(cell.submit(alloc, number, command))
}

fn handle_at(
    cells: &mut Vec<NodeCell>,
    place: usize,
    alloc: Global,
    frame: &[u8],
) -> Result<(), OutOfMemory>
    requires { CanTakeBytes cells.old.items place frame.now }
    ensures { OnOk result ((i : plain.CellInput) → AreInputAt cells.old.items place frame.now i → TookAt cells.old.items place i cells.new.items) }
{
    let cell = &mut cells[place];
    in_time(cell.handle(alloc, frame))
}

/// What a cell answers that has a stamp left.
fn in_time(taken: Result<(), CellFault>) -> Result<(), OutOfMemory>
    requires { IfErr taken (λ f. f ≡ fault.OutOfMemory) }
    ensures { OnOk result (IsOk taken) }
{
    match taken {
        Ok(()) => Ok(()),
        Err(CellFault::OutOfMemory) => Err(OutOfMemory),
        Err(CellFault::Spent { .. }) => unreachable!(),
    }
}

/// Keeps the frames of what the last entry of a cell sent.
fn keep_sent(letters: &mut Vec<Letter>, alloc: Global, cell: &NodeCell) -> Result<(), OutOfMemory>
    ensures { OnOk result ((es : List PlainEntry) (e : PlainEntry) → cell.now.history ≡ es ++ e ∷ [] → Kept letters.old.items e.sent letters.new.items) }
{
    let Some(entry) = cell.history().last() else {
        return Ok(());
    };
    keep(letters, alloc, entry.sent.as_slice())
}

fn keep(letters: &mut Vec<Letter>, alloc: Global, sent: &[Envelope]) -> Result<(), OutOfMemory>
    ensures { OnOk result (Kept letters.old.items (map plain_envelope sent.now) letters.new.items) }
{
    for envelope in sent {
        letters.push(letter_of(alloc, envelope)?)?;
    }
    Ok(())
}

fn letter_of(alloc: Global, envelope: &Envelope) -> Result<Letter, OutOfMemory>
    ensures { IfOk result (λ letter. IsLetter letter (plain_envelope envelope.now)) }
{
    Ok(Letter {
        receiver: envelope.receiver,
        frame: encode(alloc, envelope)?,
    })
}
