//! Whether all messages were taken.

ghost use Rattle.std.specs.Prelude.{◌≡◌, ◌++◌, true, false, All, Contains, IfOk, OnOk, map, option_to_list};
ghost use Rattle.ring_math.specs.Names.{Id};
ghost use Rattle.wire_msg.specs.Words.{plain_envelope};
ghost use Rattle.node_cell.specs.Entries.{plain_history, plain_input_of};
ghost use Rattle.weave.specs.ByStamp.{envelopes_at, kept_in};
ghost use Rattle.weave.specs.Table.{IsSearchable};
ghost use Rattle.weave.specs.Cells.{histories};
ghost use Rattle.weave.specs.Taken.{HasMissing, SentMissing, all_came, came_in, envelope_in};
ghost use Rattle.weave.specs.Unread.{AllRead, IsSomeUnread};
ghost use Rattle.weave.specs.Wanted.{HasSame};

use crate::search::{Sorted, by_stamp, place_of};
use node_cell::{CellEntry, CellInput, NodeCell};
use ring_math::OutOfMemory;
use std::alloc::Global;
use wire_msg::Envelope;

/// Whether some history took each message that was sent. It takes as long as to sort them, and to look each of them up.
pub fn all_read(alloc: Global, cells: &[NodeCell]) -> Result<bool, OutOfMemory>
    ensures yes { IfOk result (λ read. read ≡ true → (receiver : Id) → AllRead (histories cells.now) receiver) }
    ensures no { IfOk result (λ read. read ≡ false → IsSomeUnread (histories cells.now)) }
{
    let taken = all_taken_sorted(alloc, cells)?;
    for cell in cells {
        if !are_all_taken(cell.history(), &taken) {
            return Ok(false);
        }
    }
    Ok(true)
}

/// The messages that the histories took in, by stamp and then by sender.
fn all_taken_sorted(alloc: Global, cells: &[NodeCell]) -> Result<Sorted<'_>, OutOfMemory>
    ensures sorted { IfOk result IsSearchable }
    ensures same { IfOk result (λ taken. HasSame (all_came (histories cells.now)) (kept_in taken)) }
{
    let taken = all_taken(alloc, cells)?;
    by_stamp(alloc, taken)
}

fn all_taken(alloc: Global, cells: &[NodeCell]) -> Result<Vec<&Envelope>, OutOfMemory>
    ensures { IfOk result (λ taken. envelopes_at taken.items ≡ all_came (histories cells.now)) }
{
    let mut taken = Vec::new(alloc);
    for cell in cells {
        add_taken(&mut taken, cell.history())?;
    }
    Ok(taken)
}

fn add_taken<'a>(taken: &mut Vec<&'a Envelope>, history: &'a [CellEntry]) -> Result<(), OutOfMemory>
    ensures { OnOk result (envelopes_at taken.new.items ≡ envelopes_at taken.old.items ++ came_in (plain_history history.now)) }
{
    for entry in history {
        if let Some(envelope) = envelope_in(&entry.input) {
            taken.push(envelope)?;
        }
    }
    Ok(())
}

/// The message that came in.
fn envelope_in(input: &CellInput) -> Option<&Envelope>
    ensures { envelopes_at (option_to_list result) ≡ envelope_in (plain_input_of input.now) }
{
    match input {
        CellInput::Comes(envelope) => Some(envelope),
        _ => None,
    }
}

/// Whether all that entries sent is among the messages taken.
fn are_all_taken(history: &[CellEntry], taken: &Sorted<'_>) -> bool
    requires { IsSearchable taken.now }
    ensures yes { result ≡ true → All (λ e. All (Contains (kept_in taken.now)) e.sent) (plain_history history.now) }
    ensures no { result ≡ false → SentMissing (kept_in taken.now) (plain_history history.now) }
{
    for entry in history {
        if !are_taken(entry.sent.as_slice(), taken) {
            return false;
        }
    }
    true
}

fn are_taken(sent: &[Envelope], taken: &Sorted<'_>) -> bool
    requires { IsSearchable taken.now }
    ensures yes { result ≡ true → All (Contains (kept_in taken.now)) (map plain_envelope sent.now) }
    ensures no { result ≡ false → HasMissing (kept_in taken.now) (map plain_envelope sent.now) }
{
    for envelope in sent {
        if place_of(taken, envelope).is_none() {
            return false;
        }
    }
    true
}
