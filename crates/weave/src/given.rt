//! Histories of cells that are not needed any more.

ghost use Rattle.std.specs.Prelude.{◌≡◌, ◌≢◌, ◌≤◌, ◌+◌, [], ℕ, length, map, All, IfNone, IfOk, IfSome, OnOk};
ghost use Rattle.wire_msg.specs.Words.{plain_envelope};
ghost use Rattle.node_cell.specs.Entries.{plain_history};
ghost use Rattle.weave.specs.Cells.{IsLawful, histories, kept_history};
ghost use Rattle.weave.specs.Placed.{entry_at};

use crate::strand::{Strand, entry_of};
use node_cell::{CellEntry, NodeCell};
use ring_math::{Id, OutOfMemory};
use std::alloc::Global;
use std::marker::Model;
use std::mem;
use wire_msg::{Envelope, Envelopes, Note, Notes};

/// After how many entries that are gone their memory is given back.
const GIVEN_BACK: usize = 512;

/// The history of a cell that is not needed any more. Its entries are handed out in order, so they stand the last first: the
/// memory of those that are gone is at the end, and can be given back.
#[derive(Drop)]
pub(crate) struct Given {
    node: Id,
    count: usize,
    entries: Vec<CellEntry>,
}

impl Model for Given {
    ghost use Rattle.std.specs.Prelude.{◌≤◌, length};
    ghost use Rattle.weave_laws.specs.Cells.{History};
    ghost use Rattle.node_cell.specs.Entries.{plain_history};
    ghost use Rattle.weave.specs.Strands.{left_of};

    ghost Value = { History };

    ghost view = { λ a. record { node = a.node; entries = left_of a.count (plain_history a.entries.items) } };

    ghost invariant = { λ a. length a.entries.items ≤ a.count };
}

impl Given {
    /// The history of a cell that is not needed any more.
    pub(crate) fn of(cell: NodeCell) -> Given
        ensures history { result ≡ kept_history cell }
        ensures lawful { IsLawful cell }
    {
        let node = cell.me();
        let mut entries = cell.into_history();
        entries.reverse();
        Given {
            node,
            count: entries.len(),
            entries,
        }
    }

    /// The place of an entry among those that are left, or behind them.
    fn index(&self, place: usize) -> Option<usize>
        ensures some { IfSome result (λ index. index + place + 1 ≡ length self.now.entries) }
        ensures none { IfNone result (length self.now.entries ≤ place) }
    {
        self.count.checked_sub(place)?.checked_sub(1)
    }
}

impl Strand for Given {
    ghost history = { λ h. h };

    fn node(&self) -> Id {
        self.node
    }

    fn count(&self) -> usize {
        self.count
    }

    fn entry(&self, place: usize) -> Option<&CellEntry> {
        entry_of(&self.entries, self.index(place)?)
    }

    fn hand_out(
        &mut self,
        alloc: Global,
        place: usize,
        messages: &mut Vec<Envelope>,
        notes: &mut Vec<Note>,
    ) -> Result<(), OutOfMemory> {
        let Some(index) = self.index(place) else {
            return Ok(());
        };
        take_out(alloc, &mut self.entries, index, messages, notes)?;
        drop_last(&mut self.entries, index);
        Ok(())
    }
}

/// What an entry sent and noted comes into these lists, which are empty, and the entry has it no more.
fn take_out(
    alloc: Global,
    entries: &mut Vec<CellEntry>,
    index: usize,
    messages: &mut Vec<Envelope>,
    notes: &mut Vec<Note>,
) -> Result<(), OutOfMemory>
    requires messages { messages.old.items ≡ [] }
    requires notes { notes.old.items ≡ [] }
    ensures messages { OnOk result (map plain_envelope messages.new.items ≡ (entry_at (plain_history entries.old.items) index).sent) }
    ensures notes { OnOk result (notes.new.items ≡ (entry_at (plain_history entries.old.items) index).notes) }
    ensures others { OnOk result ((k : ℕ) → k ≢ index → entry_at (plain_history entries.new.items) k ≡ entry_at (plain_history entries.old.items) k) }
    ensures long { length entries.new.items ≡ length entries.old.items }
{
    if index >= entries.len() {
        return Ok(());
    }
    let entry = &mut entries[index];
    let mut sent = mem::replace(&mut entry.sent, Envelopes::new(alloc)).into_items();
    messages.append(&mut sent)?;
    let mut noted = mem::replace(&mut entry.notes, Notes::new(alloc)).into_items();
    notes.append(&mut noted)?;
    Ok(())
}

/// Drops the entry at this place, if it is the last. The memory of those that were dropped is given back now and then.
fn drop_last(entries: &mut Vec<CellEntry>, index: usize)
    ensures others { (k : ℕ) → k ≢ index → entry_at (plain_history entries.new.items) k ≡ entry_at (plain_history entries.old.items) k }
    ensures long { length entries.new.items ≤ length entries.old.items }
{
    if index >= entries.len() || entries.len() - index > 1 {
        return;
    }
    let _dropped = entries.pop();
    if index % GIVEN_BACK == 0 {
        entries.shrink_to_fit();
    }
}

/// The histories of cells, which are not needed any more.
pub(crate) fn given_by(alloc: Global, cells: Vec<NodeCell>) -> Result<Vec<Given>, OutOfMemory>
    ensures history { IfOk result (λ strands. strands.items ≡ histories cells.items) }
    ensures lawful { OnOk result (All IsLawful cells.items) }
{
    let mut strands = Vec::new(alloc);
    for cell in cells {
        strands.push(Given::of(cell))?;
    }
    Ok(strands)
}
