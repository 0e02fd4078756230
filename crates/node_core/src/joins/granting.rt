//! What a lease hands over: the lists of the joiner's gap, and its files.

ghost use Rattle.std.specs.Prelude.{◌≡◌, ◌++◌, IfOk, OnOk, List, ℕ, filter, not};
ghost use Rattle.coverage.specs.GapFiles.{lists_in_gap as lists_in_gap_of};
ghost use Rattle.overlay_rules.specs.Gates.{gate_on, is_older};
ghost use Rattle.overlay_rules.specs.Gatekeeper.{handovers, granted as granted_of, opened, cleared, unless_lease, with_lease, is_left_to};
ghost use Rattle.overlay_rules.specs.Roots.{replied_each};
ghost use Rattle.overlay_rules.specs.State.{State};
ghost use Rattle.wire_msg.specs.declared.reply.Reply.TheVariants.{Busy};
ghost use Rattle.node_parts.specs.Change.{changed, gate_after};
ghost use Rattle.node_parts.specs.Seen.{seen};
ghost use Rattle.node_parts.specs.Plans.{Plans};

use crate::files::ended::reply_each;
use crate::joins::gates::without_older;
use coverage::Reach;
use file_store::FileStore;
use gate_core::Gate;
use node_parts::{
    Change, GateChange, Learn, Lease, Node, Parts, PastChange, Prepared, SeatChange, StoreChange,
    Wait,
};
use replica_handover::{Pledge, in_gap, tombs_in_gap};
use ring_math::{FileId, Id, OutOfMemory};
use std::alloc::Global;
use wire_msg::{Message, Notes, Outgoing, Reply, Sends};

/// Hands over each of these files that has bytes, in order.
fn hand_over(
    alloc: Global,
    messages: &mut Sends,
    store: &FileStore,
    to: Id,
    manifest: &[FileId],
) -> Result<(), OutOfMemory>
    ensures { OnOk result (messages.new ≡ messages.old ++ handovers to store.now.files manifest.now) }
{
    for file in manifest {
        if let Some(Some(bytes)) = store.slot(file) {
            let message = Message::Handover {
                file: *file,
                bytes: bytes.copy(alloc)?,
            };
            messages.push(Outgoing {
                receiver: to,
                message,
            })?;
        }
    }
    Ok(())
}

/// The Grant with these lists, and the files that go with it.
pub(crate) fn granted(
    alloc: Global,
    store: &FileStore,
    to: Id,
    attempt: u32,
    lists: &Pledge,
) -> Result<Sends, OutOfMemory>
    ensures { IfOk result (λ messages. messages ≡ granted_of to attempt lists.now store.now.files) }
{
    let mut messages = Sends::new(alloc);
    let message = Message::Grant {
        attempt,
        manifest: lists.manifest().copy(alloc)?,
        tombs: lists.tombs().copy(alloc)?,
    };
    messages.push(Outgoing {
        receiver: to,
        message,
    })?;
    hand_over(alloc, &mut messages, store, to, lists.manifest().as_slice())?;
    Ok(messages)
}

/// The lists of the joiner's gap.
fn lists_in_gap(
    alloc: Global,
    store: &FileStore,
    reach: &Reach,
    joiner: Id,
) -> Result<Pledge, OutOfMemory>
    ensures { IfOk result (λ lists. lists ≡ lists_in_gap_of reach.now joiner store.now.files) }
{
    let manifest = in_gap(alloc, store, reach, joiner)?;
    let tombs = tombs_in_gap(alloc, store, reach, joiner)?;
    Ok(Pledge::new(manifest, tombs))
}

/// The gate of a side: a new one where the side is asked for, else what is left of the old one.
fn set_gate(
    alloc: Global,
    asked: bool,
    gate: &Gate,
    lists: &Pledge,
    held: &Option<Lease>,
) -> Result<GateChange, OutOfMemory>
    ensures { IfOk result (λ change. gate_after change held.now ≡
        gate_on asked (record { gate = gate.now; lists = lists.now }) (unless_lease (is_older gate.now.joiner gate.now.attempt) held.now)) }
{
    if asked {
        let lease = Lease {
            gate: *gate,
            lists: lists.copy(alloc)?,
        };
        Ok(GateChange::Set(Box::new(alloc, lease)?))
    } else {
        Ok(without_older(held, gate.joiner, gate.attempt))
    }
}

/// The gates are opened, with the lists of the joiner's gap; then the inserts that wait there are over.
pub(crate) fn open(
    node: &Node,
    alloc: Global,
    reach: &Reach,
    gate: &Gate,
) -> Result<Prepared, OutOfMemory>
    ensures { (known : List ℕ) → IfOk result (λ p. Plans (seen node.now known) p
        (opened (cleared (seen node.now known) gate.now.joiner gate.now.attempt) reach.now gate.now
        (lists_in_gap_of reach.now gate.now.joiner node.now.store.files))) }
{
    let lists = lists_in_gap(alloc, &node.store, reach, gate.joiner)?;
    open_with(node, alloc, reach, gate, &lists)
}

/// The gates are opened with these lists; then the inserts that wait in the joiner's gap are over.
fn open_with(
    node: &Node,
    alloc: Global,
    reach: &Reach,
    gate: &Gate,
    lists: &Pledge,
) -> Result<Prepared, OutOfMemory>
    ensures { (known : List ℕ) → IfOk result (λ p. Plans (seen node.now known) p
        (opened (cleared (seen node.now known) gate.now.joiner gate.now.attempt) reach.now gate.now lists.now)) }
{
    let mut messages = granted(alloc, &node.store, gate.joiner, gate.attempt, lists)?;
    let mut notes = Notes::new(alloc);
    reply_busy(node, alloc, reach, gate.joiner, &mut messages, &mut notes)?;
    let change = gates_set(node, alloc, reach, gate, lists)?;
    Ok(Prepared {
        messages,
        notes,
        change,
    })
}

/// The inserts that wait in the joiner's gap are replied Busy, behind what is sent and noted already.
fn reply_busy(
    node: &Node,
    alloc: Global,
    reach: &Reach,
    joiner: Id,
    messages: &mut Sends,
    notes: &mut Notes,
) -> Result<(), OutOfMemory>
    ensures messages { (s : State) → OnOk result (messages.new ≡ messages.old
        ++ (replied_each s (Busy node.now.me joiner) (filter (is_left_to reach.now joiner) node.now.past.asks)).sends) }
    ensures notes { (s : State) → OnOk result (notes.new ≡ notes.old
        ++ (replied_each s (Busy node.now.me joiner) (filter (is_left_to reach.now joiner) node.now.past.asks)).notes) }
{
    let asks = node.past.in_gap(alloc, reach, joiner)?;
    let busy = Reply::Busy {
        node: node.me,
        joiner,
    };
    reply_each(alloc, &asks, &busy, messages, notes)
}

/// The gates of the sides that are asked for are set with these lists, and what waits in the joiner's gap is over.
fn gates_set(
    node: &Node,
    alloc: Global,
    reach: &Reach,
    gate: &Gate,
    lists: &Pledge,
) -> Result<Change, OutOfMemory>
    ensures { (known : List ℕ) → IfOk result (λ change. changed change (seen node.now known) ≡
        record (with_lease (cleared (seen node.now known) gate.now.joiner gate.now.attempt) gate.now lists.now)
        { pending = filter (λ p. not (is_left_to reach.now gate.now.joiner p)) node.now.past.asks }) }
{
    let gap = Box::new(alloc, *reach)?;
    let on_left = node.me == gate.right;
    let left_gate = set_gate(alloc, on_left, gate, lists, &node.left_gate)?;
    let on_right = node.me == gate.left;
    let right_gate = set_gate(alloc, on_right, gate, lists, &node.right_gate)?;
    let parts = Parts {
        seat: SeatChange::Keep,
        left_gate,
        right_gate,
        learn: Learn::Nothing,
        store: StoreChange::Keep,
        past: PastChange::Leave {
            reach: gap,
            joiner: gate.joiner,
        },
    };
    Change::of(alloc, parts, Wait::Keep)
}
