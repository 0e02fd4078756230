//! The histories that are woven.

ghost use Rattle.std.specs.Prelude.{◌≡◌, ◌≢◌, ◌<◌, ◌++◌, [], ℕ, length, map, All, IfOk, OnOk};
ghost use Rattle.wire_msg.specs.Words.{plain_envelope};
ghost use Rattle.weave_laws.specs.Cells.{History};
ghost use Rattle.node_cell.specs.Entries.{plain_history};
ghost use Rattle.weave.specs.Cells.{IsLawful, histories, kept_history};
ghost use Rattle.weave.specs.Placed.{entry_at};
ghost use Rattle.weave.specs.Strands.{entry_seen};

use node_cell::{CellEntry, NodeCell};
use ring_math::{Id, OutOfMemory};
use std::alloc::Global;
use wire_msg::{Envelope, Note};

/// A history with its node, which a cell lends or gives.
pub(crate) trait Strand {
    /// The history, in the words of the rules.
    ghost history: { Self → History };

    fn node(&self) -> Id
        ensures { result ≡ (history self.now).node };

    /// How many entries there are, those among them that are gone.
    fn count(&self) -> usize
        ensures { result ≡ length (history self.now).entries };

    /// The entry at a place, None where there is none, or none any more.
    fn entry(&self, place: usize) -> Option<&CellEntry>
        ensures { entry_seen result ≡ entry_at (history self.now).entries place };

    /// What an entry sent and noted comes into these lists, which are empty: copies of it, or itself, and then the entry has it no
    /// more, or is gone.
    fn hand_out(
        &mut self,
        alloc: Global,
        place: usize,
        messages: &mut Vec<Envelope>,
        notes: &mut Vec<Note>,
    ) -> Result<(), OutOfMemory>
        requires within { place < length (history self.old).entries }
        requires messages { messages.old.items ≡ [] }
        requires notes { notes.old.items ≡ [] }
        ensures messages { OnOk result (map plain_envelope messages.new.items ≡ (entry_at (history self.old).entries place).sent) }
        ensures notes { OnOk result (notes.new.items ≡ (entry_at (history self.old).entries place).notes) }
        ensures node { OnOk result ((history self.new).node ≡ (history self.old).node) }
        ensures others { OnOk result ((k : ℕ) → k ≢ place → entry_at (history self.new).entries k ≡ entry_at (history self.old).entries k) }
        ensures long { OnOk result (length (history self.new).entries ≡ length (history self.old).entries) };
}

/// The history of a cell, which lends it.
impl Strand for &NodeCell {
    ghost history = { λ c. kept_history c.now };

    fn node(&self) -> Id {
        self.me()
    }

    fn count(&self) -> usize {
        self.history().len()
    }

    fn entry(&self, place: usize) -> Option<&CellEntry> {
        entry_of(self.history(), place)
    }

    fn hand_out(
        &mut self,
        alloc: Global,
        place: usize,
        messages: &mut Vec<Envelope>,
        notes: &mut Vec<Note>,
    ) -> Result<(), OutOfMemory> {
        let entry = &self.history()[place];
        copy_envelopes(alloc, messages, entry.sent.as_slice())?;
        copy_notes(alloc, notes, entry.notes.as_slice())
    }
}

/// The entry at a place, if there is one.
pub(crate) fn entry_of(entries: &[CellEntry], place: usize) -> Option<&CellEntry>
    ensures { entry_seen result ≡ entry_at (plain_history entries.now) place }
{
    entries.get(place)
}

/// Copies these to the end of a list. The copies share the bytes that they have.
fn copy_envelopes(
    alloc: Global,
    to: &mut Vec<Envelope>,
    envelopes: &[Envelope],
) -> Result<(), OutOfMemory>
    ensures { OnOk result (map plain_envelope to.new.items ≡ map plain_envelope to.old.items ++ map plain_envelope envelopes.now) }
{
    for envelope in envelopes {
        to.push(envelope.copy(alloc)?)?;
    }
    Ok(())
}

fn copy_notes(alloc: Global, to: &mut Vec<Note>, notes: &[Note]) -> Result<(), OutOfMemory>
    ensures { OnOk result (to.new.items ≡ to.old.items ++ notes.now) }
{
    for note in notes {
        to.push(note.copy(alloc)?)?;
    }
    Ok(())
}

/// Cells, which lend their histories.
pub(crate) fn lent_by(alloc: Global, cells: &[NodeCell]) -> Result<Vec<&NodeCell>, OutOfMemory>
    ensures history { IfOk result (λ strands. map (λ c. kept_history c.now) strands.items ≡ histories cells.now) }
    ensures lawful { OnOk result (All IsLawful cells.now) }
{
    let mut strands = Vec::new(alloc);
    for cell in cells {
        lawful_law(cell);
        strands.push(cell)?;
    }
    Ok(strands)
}

/// What a cell keeps is lawful. It does nothing: what it ensures is said of every cell by its type.
fn lawful_law(cell: &NodeCell)
    ensures { IsLawful cell.now }
{
    let _history = cell.history();
}
