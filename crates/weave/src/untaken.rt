//! Messages that are still to be taken.

ghost use Rattle.std.specs.Prelude.{◌≡◌, true, All, IfOk, IfSome, IfNone, map, option_to_list};
ghost use Rattle.wire_msg.specs.Words.{plain_envelope};
ghost use Rattle.weave.specs.ByStamp.{envelopes_at, kept_in};
ghost use Rattle.weave.specs.Table.{IsSearchable};
ghost use Rattle.overlay_rules.specs.Record.{all_differ};
ghost use Rattle.weave_laws.specs.Cells.{nodes_of};
ghost use Rattle.weave.specs.Cells.{AreKept, HaveOwnNodes, histories};
ghost use Rattle.weave.specs.Strands.{entry_seen};
ghost use Rattle.weave.specs.Placed.{IsWithin, acts_in, placed};
ghost use Rattle.weave.specs.Unread.{AllRead, IsFirstUnread};
ghost use Rattle.weave.specs.Wanted.{HasNoWanted, IsFirstWanted, IsFound, HasSame, taken_by, taken_in};

use crate::acts::{Act, woven_order};
use crate::search::{Sorted, by_stamp, place_of};
use crate::strand::{Strand, lent_by};
use crate::waiting::Unread;
use node_cell::{CellEntry, CellInput, NodeCell};
use ring_math::{Id, OutOfMemory};
use std::alloc::Global;
use wire_msg::Envelope;

/// The first message for this node that no history took: first by the woven order of the entries that sent them, then by the
/// order in which one entry sent them.
pub fn unread(
    alloc: Global,
    cells: &[NodeCell],
    receiver: Id,
) -> Result<Option<Unread>, OutOfMemory>
    requires { HaveOwnNodes cells.now }
    ensures some { IfOk result (λ found. IfSome found (λ u. IsFirstUnread (histories cells.now) receiver u.node u.place (plain_envelope u.envelope))) }
    ensures none { IfOk result (λ found. IfNone found (AllRead (histories cells.now) receiver)) }
{
    let mut strands = lent_by(alloc, cells)?;
    first_unread(alloc, &mut strands, receiver)
}

/// The same of histories of different nodes.
fn first_unread<S: Strand>(
    alloc: Global,
    strands: &mut [S],
    receiver: Id,
) -> Result<Option<Unread>, OutOfMemory>
    requires differ { all_differ (nodes_of (map S.history strands.old)) ≡ true }
    requires kept { AreKept (map S.history strands.old) }
    ensures some { IfOk result (λ found. IfSome found (λ u. IsFirstUnread (map S.history strands.old) receiver u.node u.place (plain_envelope u.envelope))) }
    ensures none { IfOk result (λ found. IfNone found (AllRead (map S.history strands.old) receiver)) }
{
    let acts = woven_order(alloc, strands)?;
    let taken = taken_sorted(alloc, &acts, strands, receiver)?;
    first_untaken(alloc, &acts, strands, &taken, receiver)
}

/// The messages for this node that the entries took in, by stamp and then by sender.
fn taken_sorted<'a, S: Strand>(
    alloc: Global,
    acts: &[Act],
    strands: &'a [S],
    receiver: Id,
) -> Result<Sorted<'a>, OutOfMemory>
    requires { All (IsWithin (map S.history strands.now)) acts.now }
    ensures sorted { IfOk result IsSearchable }
    ensures same { IfOk result (λ taken. HasSame (taken_by receiver (acts_in (map (placed (map S.history strands.now)) acts.now))) (kept_in taken)) }
{
    let taken = taken_by(alloc, acts, strands, receiver)?;
    by_stamp(alloc, taken)
}

fn taken_by<'a, S: Strand>(
    alloc: Global,
    acts: &[Act],
    strands: &'a [S],
    receiver: Id,
) -> Result<Vec<&'a Envelope>, OutOfMemory>
    requires { All (IsWithin (map S.history strands.now)) acts.now }
    ensures { IfOk result (λ taken. envelopes_at taken.items ≡ taken_by receiver (acts_in (map (placed (map S.history strands.now)) acts.now))) }
{
    let mut taken = Vec::new(alloc);
    for act in acts {
        if let Some(envelope) = taken_in(act.entry(strands), receiver) {
            taken.push(envelope)?;
        }
    }
    Ok(taken)
}

/// The message that an entry took in, if it is one for this node.
fn taken_in(entry: Option<&CellEntry>, receiver: Id) -> Option<&Envelope>
    ensures { envelopes_at (option_to_list result) ≡ taken_in receiver (entry_seen entry.entry).input }
{
    match &entry?.input {
        CellInput::Comes(envelope) if envelope.receiver == receiver => Some(envelope),
        _ => None,
    }
}

/// The first message for this node that is not among those taken.
fn first_untaken<S: Strand>(
    alloc: Global,
    acts: &[Act],
    strands: &[S],
    taken: &Sorted<'_>,
    receiver: Id,
) -> Result<Option<Unread>, OutOfMemory>
    requires sorted { IsSearchable taken.now }
    requires within { All (IsWithin (map S.history strands.now)) acts.now }
    ensures { IfOk result (IsFound (kept_in taken.now) receiver (map (placed (map S.history strands.now)) acts.now)) }
{
    for act in acts {
        if let Some(envelope) = first_sent_by(act.entry(strands), taken, receiver) {
            return Ok(Some(Unread {
                node: act.node(strands),
                place: act.place as u64,
                envelope: envelope.copy(alloc)?,
            }));
        }
    }
    Ok(None)
}

/// The first such one that an entry sent.
fn first_sent_by<'a>(
    entry: Option<&'a CellEntry>,
    taken: &Sorted<'_>,
    receiver: Id,
) -> Option<&'a Envelope>
    requires { IsSearchable taken.now }
    ensures some { IfSome result (λ v. IsFirstWanted (kept_in taken.now) receiver (entry_seen entry.entry).sent (plain_envelope v.now)) }
    ensures none { IfNone result (HasNoWanted (kept_in taken.now) receiver (entry_seen entry.entry).sent) }
{
    first_sent(entry?.sent.as_slice(), taken, receiver)
}

fn first_sent<'a>(sent: &'a [Envelope], taken: &Sorted<'_>, receiver: Id) -> Option<&'a Envelope>
    requires { IsSearchable taken.now }
    ensures some { IfSome result (λ v. IsFirstWanted (kept_in taken.now) receiver (map plain_envelope sent.now) (plain_envelope v.now)) }
    ensures none { IfNone result (HasNoWanted (kept_in taken.now) receiver (map plain_envelope sent.now)) }
{
    for envelope in sent {
        if envelope.receiver == receiver && place_of(taken, envelope).is_none() {
            return Some(envelope);
        }
    }
    None
}
