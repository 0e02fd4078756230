//! What taking in an input will change, and the entry and the frames that go with it.

ghost use Rattle.std.specs.Prelude.{◌≡◌, ◌<◌, ◌≤◌, ◌+◌, ◌++◌, ◌∷◌, [], max, IfOk, IfErr, OnOk, vec_len, vec_capacity};
ghost use Rattle.std.specs.VecDeque.{deque_len, deque_capacity};
ghost use Rattle.overlay_rules.specs.State.{State};
ghost use Rattle.overlay_rules.specs.Step.{step};
ghost use Rattle.weave_laws.specs.Cells.{input_of, input_stamp, stamp_after};
ghost use Rattle.node_parts.specs.Makes.{Makes};
ghost use Rattle.node_parts.specs.Fits.{Fits};
ghost use Rattle.node_parts.specs.Plans.{Prepares};
ghost use Rattle.node_parts.specs.Seen.{Stands};
ghost use Rattle.node_parts.specs.Sound.{IsSound};
ghost use Rattle.node_cell.specs.declared.fault.TheConstants.{LAST_STAMP};
ghost use Rattle.node_cell.specs.Entries.{plain_input_of};
ghost use Rattle.node_cell.specs.Faults.{IsDueAt};
ghost use Rattle.node_cell.specs.Kept.{IsPlanned};

use crate::entry::{CellEntry, CellInput};
use crate::fault::CellFault;
use crate::frames::{Addressed, Dispatch, append, dispatch_of};
use crate::stamps::{Stamped, with_stamp};
use node_core::{Change, Node, Prepared};
use ring_math::{Id, OutOfMemory};
use std::alloc::Global;
use std::collections::VecDeque;

/// A change of a node that has room, the entry of the step that makes it, and the frames of what that step sends.
#[derive(Drop)]
pub(crate) struct Planned {
    pub(crate) change: Change,
    pub(crate) entry: CellEntry,
    pub(crate) frames: Vec<Addressed>,
}

/// All of taking in an input, after this stamp, that can be refused, but the room in the cell's own lists. The node stands for what
/// it stood for.
pub(crate) fn plan(
    node: &mut Node,
    alloc: Global,
    input: CellInput,
    last: u64,
) -> Result<Planned, CellFault>
    ensures me { node.new.me ≡ node.old.me }
    ensures stand { (s : State) → Stands node.old s → Stands node.new s }
    ensures fits { IfOk result (λ r. Fits node.new r.change) }
    ensures stamp { IfOk result (λ r. r.entry.stamp ≡ stamp_after last (plain_input_of input)) }
    ensures planned { (s : State) → Stands node.old s → IfOk result (IsPlanned node.old.me s (stamp_after last (plain_input_of input)) (plain_input_of input)) }
    ensures in_time { OnOk result (max last (input_stamp (plain_input_of input)) < LAST_STAMP) }
    ensures due { IfErr result (IsDueAt last (plain_input_of input)) }
{
    let Stamped { stamp, input } = with_stamp(last, input)?;
    let prepared = node.prepare(alloc, &input.as_input())?;
    Ok(with_frames(alloc, node.id(), stamp, input, prepared)?)
}

/// What was prepared for an input of this node, with the entry of its step and the frames.
fn with_frames(
    alloc: Global,
    me: Id,
    stamp: u64,
    input: CellInput,
    prepared: Prepared,
) -> Result<Planned, OutOfMemory>
    ensures change { IfOk result (λ r. r.change ≡ prepared.change) }
    ensures stamp { IfOk result (λ r. r.entry.stamp ≡ stamp) }
    ensures planned { (s : State) → Prepares s prepared (step s (input_of (plain_input_of input))) → IsSound (step s (input_of (plain_input_of input))).state → IfOk result (IsPlanned me s stamp (plain_input_of input)) }
{
    let Prepared {
        messages,
        notes,
        change,
    } = prepared;
    let Dispatch { sent, frames } = dispatch_of(alloc, stamp, me, messages)?;
    Ok(Planned {
        change,
        entry: CellEntry {
            stamp,
            input,
            sent,
            notes,
        },
        frames,
    })
}

/// As [`plan`] does, with room for it in the lists of a cell, which keep what they have.
pub(crate) fn plan_with_room(
    node: &mut Node,
    history: &mut Vec<CellEntry>,
    unsent: &mut VecDeque<Addressed>,
    alloc: Global,
    input: CellInput,
    last: u64,
) -> Result<Planned, CellFault>
    ensures me { node.new.me ≡ node.old.me }
    ensures stand { (s : State) → Stands node.old s → Stands node.new s }
    ensures history { history.new.items ≡ history.old.items }
    ensures unsent { unsent.new.items ≡ unsent.old.items }
    ensures fits { IfOk result (λ r. Fits node.new r.change) }
    ensures entry { OnOk result (vec_len history.new < vec_capacity history.new) }
    ensures frames { IfOk result (λ r. deque_len unsent.new + vec_len r.frames ≤ deque_capacity unsent.new) }
    ensures stamp { IfOk result (λ r. r.entry.stamp ≡ stamp_after last (plain_input_of input)) }
    ensures planned { (s : State) → Stands node.old s → IfOk result (IsPlanned node.old.me s (stamp_after last (plain_input_of input)) (plain_input_of input)) }
    ensures in_time { OnOk result (max last (input_stamp (plain_input_of input)) < LAST_STAMP) }
    ensures due { IfErr result (IsDueAt last (plain_input_of input)) }
{
    let planned = plan(node, alloc, input, last)?;
    make_room(history, unsent, &planned)?;
    Ok(planned)
}

/// Room for what was planned, in the lists of a cell.
fn make_room(
    history: &mut Vec<CellEntry>,
    unsent: &mut VecDeque<Addressed>,
    planned: &Planned,
) -> Result<(), OutOfMemory>
    ensures history { history.new.items ≡ history.old.items }
    ensures unsent { unsent.new.items ≡ unsent.old.items }
    ensures entry { OnOk result (vec_len history.new < vec_capacity history.new) }
    ensures frames { OnOk result (deque_len unsent.new + vec_len planned.now.frames ≤ deque_capacity unsent.new) }
{
    history.reserve(1)?;
    unsent.reserve(planned.frames.len())?;
    Ok(())
}

/// What was planned comes about, in room that was taken.
pub(crate) fn commit(
    node: &mut Node,
    history: &mut Vec<CellEntry>,
    unsent: &mut VecDeque<Addressed>,
    planned: Planned,
)
    requires fits { Fits node.old planned.change }
    requires entry { vec_len history.old < vec_capacity history.old }
    requires frames { deque_len unsent.old + vec_len planned.frames ≤ deque_capacity unsent.old }
    ensures me { node.new.me ≡ node.old.me }
    ensures stands { (s t : State) → Stands node.old s → Makes planned.change s t → IsSound t → Stands node.new t }
    ensures history { history.new.items ≡ history.old.items ++ planned.entry ∷ [] }
    ensures unsent { unsent.new.items ≡ unsent.old.items ++ planned.frames.items }
{
    let Planned {
        change,
        entry,
        frames,
    } = planned;
    node.commit(change);
    history.push_reserved(entry);
    append(unsent, frames);
}
