//! Stages that are served by hand, on one thread.

ghost use Rattle.std.specs.Prelude.{◌≡◌, ◌<◌, All, IfOk, IfSome, IfNone, OnOk, length, map, take};
ghost use Rattle.std.specs.List.{AllZip};
ghost use Rattle.weave_laws.specs.Answered.{AllSent};
ghost use Rattle.weave.specs.Cells.{HasNoPasses, HaveOwnNodes, IsLawful, histories, nodes};
ghost use Rattle.overlay_harness.specs.Hand.{AllTookUpTo, IsDone, IsDoneAt, IsFrameOf, IsNext, ServedWhole, ends_after};
ghost use Rattle.overlay_harness.specs.Once.{AllTookOnce};
ghost use Rattle.overlay_harness.specs.Served.{IsServedTo};
ghost use Rattle.overlay_harness.specs.Shown.{shown};
ghost use Rattle.overlay_harness.specs.Stages.{stages_of};
ghost use Rattle.overlay_harness.specs.Work.{MayBeTold};

use crate::cells::cells_law;
use crate::stage::Stage;
use crate::telling::tell_all;
use node_cell::{CellFault, NodeCell};
use ring_math::OutOfMemory;
use scenario_reader::Scenario;
use std::alloc::Global;
use weave::{Unread, all_read, unread};
use wire_codec::encode;
use wire_msg::Frame;

/// Serves stages by hand, one after another, from this one on, to cells that were served those before it.
pub(crate) fn serve_stages(
    alloc: Global,
    scenario: &Scenario,
    cells: &mut [NodeCell],
    stages: &[Stage<'_>],
    first: usize,
) -> Result<(), CellFault>
    requires stages { map shown stages.now ≡ stages_of scenario.now }
    requires served { IsServedTo scenario.now (map shown (take first stages.now)) cells.old }
    ensures served { OnOk result (IsServedTo scenario.now (stages_of scenario.now) cells.new) }
    ensures once { AllTookOnce (histories cells.old) → OnOk result (AllTookOnce (histories cells.new)) }
    ensures nodes { nodes cells.new ≡ nodes cells.old }
{
    let _founder = scenario.founder();
    for place in first..stages.len() {
        serve_by_hand(alloc, cells, &stages[place])?;
    }
    Ok(())
}

/// Serves a stage by hand: submits its commands in order, and then hands over what is unread until each node took as many frames
/// as the stage has budget, or nothing is unread for it.
pub fn serve_by_hand(
    alloc: Global,
    cells: &mut [NodeCell],
    stage: &Stage<'_>,
) -> Result<(), CellFault>
    requires apart { HaveOwnNodes cells.old }
    requires without { All HasNoPasses cells.old }
    requires numbers { MayBeTold cells.old stage.now.actions.now }
    ensures whole { OnOk result (AllZip (ServedWhole (shown stage.now) (histories cells.new)) cells.old cells.new) }
    ensures once { AllTookOnce (histories cells.old) → OnOk result (AllTookOnce (histories cells.new)) }
    ensures sent { AllSent (histories cells.old) → OnOk result (AllSent (histories cells.new)) }
    ensures nodes { nodes cells.new ≡ nodes cells.old }
    ensures lawful { OnOk result (All IsLawful cells.new) }
{
    tell_all(alloc, cells, stage.actions)?;
    let ends = ends_after(alloc, cells, stage.budget)?;
    hand_over_unread(alloc, cells, &ends)?;
    cells_law(cells);
    Ok(())
}

/// How many entries each cell's history has after so many more.
pub(crate) fn ends_after(
    alloc: Global,
    cells: &[NodeCell],
    more: u32,
) -> Result<Vec<usize>, OutOfMemory>
    ensures { IfOk result (λ ends. ends.items ≡ ends_after more cells.now) }
{
    let mut ends = Vec::with_capacity(alloc, cells.len())?;
    for cell in cells {
        ends.push(cell.history().len() + more as usize)?;
    }
    Ok(ends)
}

/// Hands over messages that no history took, each to the node that it is for, while that node's history has fewer entries than its
/// end.
pub fn hand_over_unread(
    alloc: Global,
    cells: &mut [NodeCell],
    ends: &[usize],
) -> Result<(), CellFault>
    requires apart { HaveOwnNodes cells.old }
    requires without { All HasNoPasses cells.old }
    requires each { length ends.now ≡ length cells.old }
    ensures took { OnOk result (AllTookUpTo ends.now cells.old cells.new) }
    ensures done { OnOk result (AllZip (IsDone (histories cells.new)) ends.now cells.new) }
    ensures once { AllTookOnce (histories cells.old) → OnOk result (AllTookOnce (histories cells.new)) }
    ensures sent { AllSent (histories cells.old) → OnOk result (AllSent (histories cells.new)) }
    ensures nodes { nodes cells.new ≡ nodes cells.old }
{
    // Mostly nothing is, which one look at all messages shows for all nodes.
    if all_read(alloc, cells)? {
        return Ok(());
    }
    while let Some(waiting) = next_unread(alloc, cells, ends)? {
        let cell = &mut cells[waiting.place];
        cell.handle(alloc, waiting.frame.as_slice())?;
    }
    Ok(())
}

/// A frame for the node at a place.
#[derive(Drop)]
struct Waiting {
    place: usize,
    frame: Frame,
}

/// The first place of a node whose history has not reached its end, and for which something is unread, with the frame of that.
fn next_unread(
    alloc: Global,
    cells: &[NodeCell],
    ends: &[usize],
) -> Result<Option<Waiting>, OutOfMemory>
    requires apart { HaveOwnNodes cells.now }
    requires each { length ends.now ≡ length cells.now }
    ensures some { IfOk result (λ next. IfSome next (λ w. IsNext cells.now ends.now w.place w.frame)) }
    ensures within { IfOk result (λ next. IfSome next (λ w. w.place < length cells.now)) }
    ensures none { IfOk result (λ next. IfNone next (AllZip (IsDone (histories cells.now)) ends.now cells.now)) }
{
    for place in 0..cells.len() {
        if let Some(frame) = unread_at(alloc, cells, ends, place)? {
            return Ok(Some(Waiting { place, frame }));
        }
    }
    Ok(None)
}

/// The frame of the first message that is unread for the node at a place, if its history has not reached its end.
fn unread_at(
    alloc: Global,
    cells: &[NodeCell],
    ends: &[usize],
    place: usize,
) -> Result<Option<Frame>, OutOfMemory>
    requires apart { HaveOwnNodes cells.now }
    requires each { length ends.now ≡ length cells.now }
    requires within { place < length cells.now }
    ensures some { IfOk result (λ found. IfSome found (IsNext cells.now ends.now place)) }
    ensures none { IfOk result (λ found. IfNone found (IsDoneAt cells.now ends.now place)) }
{
    let cell = &cells[place];
    if cell.history().len() >= ends[place] {
        return Ok(None);
    }
    let found = unread(alloc, cells, cell.me())?;
    let frame = frame_of(alloc, &found);
    // One call. Left to the end, it would be a case for each kind of message.
    drop(found);
    frame
}

/// The frame of a message that was found.
fn frame_of(alloc: Global, found: &Option<Unread>) -> Result<Option<Frame>, OutOfMemory>
    ensures { IfOk result (IsFrameOf found.now) }
{
    match found {
        Some(message) => Ok(Some(encode(alloc, &message.envelope)?)),
        None => Ok(None),
    }
}
