//! One node's cell in a run, and what the thread does to which it is lent.

ghost use Rattle.std.specs.Prelude.{◌≡◌, ◌≢◌, ◌<◌, ◌≤◌, ◌∷◌, [], true, None, IfOk, IfNone, IfSome, OnOk};
ghost use Rattle.scenario_reader.specs.declared.action.What.TheVariants as said;
ghost use Rattle.node_cell.specs.Equipped.{GoesOn, HasPassesOf};
ghost use Rattle.overlay_harness.specs.Rounds.{IsAtWork, ServedIn, ServedUnlessStopped, WentOn, WentOnUnlessStopped};
ghost use Rattle.overlay_harness.specs.Shown.{shown};
ghost use Rattle.overlay_harness.specs.Stages.{said_to};
ghost use Rattle.overlay_harness.specs.Work.{MayBeTold, told};

use crate::idle::IdleThreads;
use crate::stage::Stage;
use crate::telling::{Said, command_in};
use node_cell::{CellFault, NodeCell};
use node_mailbox::Post;
use outside::Turnstile;
use ring_math::{Id, OutOfMemory};
use scenario_reader::{Action, What};
use std::alloc::Global;
use std::sync::Wait;
use std::sync::atomic::{AtomicBool, Ordering};
use std::thread::yield_now;

/// A node's cell in a run, with what its thread has to know and to tell.
#[derive(Drop)]
pub(crate) struct Worker {
    pub(crate) cell: NodeCell,
    /// How many frames its node may still take in this stage.
    pub(crate) left: u32,
    /// How often its thread passed the turnstile.
    pub(crate) turns: u64,
    /// Why its thread could not go on.
    pub(crate) fault: Option<CellFault>,
}

/// What all threads of a run share.
#[derive(Drop)]
pub(crate) struct Hall<'a, T> {
    pub(crate) post: &'a Post,
    pub(crate) turnstile: &'a T,
    /// Set once a thread was refused memory: then none takes another frame.
    pub(crate) refused: &'a AtomicBool,
    /// The threads of this round that found their mailboxes empty, or take nothing more.
    pub(crate) idle: &'a IdleThreads,
}

/// How often a thread looks again before it takes its mailbox for empty, while other threads of the round still work. To start a
/// round costs more than to look.
const MOST_LOOKS: u32 = 30;

/// So many looks follow each other at once. From then on the thread pauses until somebody sends to its node, so that those with
/// work have the processors.
const QUICK_LOOKS: u32 = 2;

/// The work of a thread in the first round of a stage: it submits the commands to its node, and then serves.
pub(crate) fn begin_stage<R: Wait, T: Turnstile>(
    rt: &R,
    alloc: Global,
    hall: &Hall<'_, T>,
    stage: &Stage<'_>,
    place: usize,
    worker: &mut Worker,
)
    requires at_work { IsAtWork hall.now.post.now worker.old.cell }
    requires numbers { MayBeTold (worker.old.cell ∷ []) stage.now.actions.now }
    requires copies { (1 ≤ stage.now.copies) × (stage.now.copies ≤ 4) }
    ensures { ServedUnlessStopped hall.now.post.now (shown stage.now) worker.old worker.new }
{
    match serve_stage(rt, alloc, hall, stage, place, worker) {
        Ok(()) => {}
        Err(fault) => stop(hall.refused, worker, fault),
    }
    hall.idle.leave(place);
}

/// The work of a thread in a later round: it puts what its cell still has unsent, which the one frame had it send that was served
/// between rounds, and then serves.
pub(crate) fn go_on<R: Wait, T: Turnstile>(
    rt: &R,
    alloc: Global,
    hall: &Hall<'_, T>,
    copies: u8,
    place: usize,
    worker: &mut Worker,
)
    requires at_work { IsAtWork hall.now.post.now worker.old.cell }
    requires copies { (1 ≤ copies) × (copies ≤ 4) }
    ensures { WentOnUnlessStopped hall.now.post.now worker.old worker.new }
{
    match serve_left(rt, alloc, hall, copies, place, worker, 1) {
        Ok(()) => {}
        Err(fault) => stop(hall.refused, worker, fault),
    }
    hall.idle.leave(place);
}

/// Keeps why a thread stopped. Where it was refused memory, the others are to stop too.
fn stop(refused: &AtomicBool, worker: &mut Worker, fault: CellFault)
    ensures { worker.new.fault ≢ None }
{
    if fault == CellFault::OutOfMemory {
        refused.store(true, Ordering::SeqCst);
    }
    worker.fault = Some(fault);
}

fn serve_stage<R: Wait, T: Turnstile>(
    rt: &R,
    alloc: Global,
    hall: &Hall<'_, T>,
    stage: &Stage<'_>,
    place: usize,
    worker: &mut Worker,
) -> Result<(), CellFault>
    requires at_work { IsAtWork hall.now.post.now worker.old.cell }
    requires numbers { MayBeTold (worker.old.cell ∷ []) stage.now.actions.now }
    requires copies { (1 ≤ stage.now.copies) × (stage.now.copies ≤ 4) }
    ensures { OnOk result (ServedIn hall.now.post.now (shown stage.now) worker.old worker.new) }
{
    let before = worker.cell.history().len();
    tell_own(alloc, &mut worker.cell, stage.actions)?;
    let told = worker.cell.history().len().saturating_sub(before);
    worker.left = stage.budget;
    serve_left(rt, alloc, hall, stage.copies, place, worker, told)
}

/// Submits the commands to a cell's own node among these actions, in order.
pub(crate) fn tell_own(
    alloc: Global,
    cell: &mut NodeCell,
    actions: &[Action],
) -> Result<(), CellFault>
    requires { MayBeTold (cell.old ∷ []) actions.now }
    ensures { OnOk result (cell.new ≡ told actions.now cell.old) }
{
    for action in actions {
        tell_one(alloc, cell, action)?;
    }
    Ok(())
}

fn tell_one(alloc: Global, cell: &mut NodeCell, action: &Action) -> Result<(), CellFault>
    requires { MayBeTold (cell.old ∷ []) (action.now ∷ []) }
    ensures { OnOk result (cell.new ≡ told (action.now ∷ []) cell.old) }
{
    let Some(said) = command_to(cell.me(), &action.what) else {
        return Ok(());
    };
    cell.submit(alloc, said.number, said.command)?;
    Ok(())
}

/// The command that an action is, if it is one to this node.
fn command_to(node: Id, what: &What) -> Option<Said<'_>>
    ensures some { IfSome result (λ s. what.now ≡ said.Command s.number node s.command.now) }
    ensures none { IfNone result (said_to node what.now ≡ []) }
{
    match command_in(what) {
        Some(said) if said.node == node => Some(said),
        _ => None,
    }
}

/// Puts what the cell has unsent, and takes one frame after another, as many as are left to the node, until its mailbox is empty.
/// What a frame has the cell send is put before the next is taken. What is unsent at first comes from so many last entries.
fn serve_left<R: Wait, T: Turnstile>(
    rt: &R,
    alloc: Global,
    hall: &Hall<'_, T>,
    copies: u8,
    place: usize,
    worker: &mut Worker,
    fresh: usize,
) -> Result<(), CellFault>
    requires at_work { IsAtWork hall.now.post.now worker.old.cell }
    requires copies { (1 ≤ copies) × (copies ≤ 4) }
    ensures { OnOk result (WentOn hall.now.post.now worker.old worker.new) }
{
    post_all(rt, alloc, hall.post, &mut worker.cell, copies)?;
    rouse_receivers(hall.post, hall.idle, &worker.cell, fresh);
    while worker.left > 0 && !hall.refused.load(Ordering::SeqCst) {
        hall.turnstile.pass(place, worker.turns);
        worker.turns = worker.turns.saturating_add(1);
        if !serve_patiently(rt, alloc, hall, place, worker)? {
            return Ok(());
        }
        post_all(rt, alloc, hall.post, &mut worker.cell, copies)?;
        rouse_receivers(hall.post, hall.idle, &worker.cell, 1);
    }
    Ok(())
}

/// Wakes the threads of the nodes to which a cell's last entries, so many of them, sent.
fn rouse_receivers(post: &Post, idle: &IdleThreads, cell: &NodeCell, fresh: usize) {
    let history = cell.history();
    for entry in &history[history.len().saturating_sub(fresh)..] {
        for envelope in entry.sent.as_slice() {
            if let Some(place) = post.place(envelope.receiver) {
                idle.rouse(place);
            }
        }
    }
}

/// Serves one frame, and looks again for one while other threads work.
fn serve_patiently<R: Wait, T: Turnstile>(
    rt: &R,
    alloc: Global,
    hall: &Hall<'_, T>,
    place: usize,
    worker: &mut Worker,
) -> Result<bool, CellFault>
    requires { IsAtWork hall.now.post.now worker.old.cell }
    ensures went_on { OnOk result (WentOn hall.now.post.now worker.old worker.new) }
    ensures less { IfOk result (λ served. served ≡ true → worker.new.left < worker.old.left) }
{
    if serve_once(rt, alloc, hall.post, worker)? {
        return Ok(true);
    }
    for look in 0..MOST_LOOKS {
        let rested = hall.idle.rest(place);
        if hall.idle.are_all() {
            return Ok(false);
        }
        let_others_work(rt, hall.idle, place, rested && look >= QUICK_LOOKS);
        if serve_once(rt, alloc, hall.post, worker)? {
            hall.idle.go_on(place);
            return Ok(true);
        }
    }
    Ok(false)
}

/// What a thread does before it looks again: it pauses, or only lets others come first.
fn let_others_work<R: Wait>(rt: &R, idle: &IdleThreads, place: usize, pauses: bool) {
    if pauses {
        idle.pause(rt, place);
    } else {
        yield_now();
    }
}

/// Serves one frame, if one is left to the node and its mailbox has one.
pub(crate) fn serve_once<R: Wait>(
    rt: &R,
    alloc: Global,
    post: &Post,
    worker: &mut Worker,
) -> Result<bool, CellFault>
    requires { IsAtWork post.now worker.old.cell }
    ensures went_on { OnOk result (WentOn post.now worker.old worker.new) }
    ensures less { IfOk result (λ served. served ≡ true → worker.new.left < worker.old.left) }
{
    if worker.left == 0 {
        return Ok(false);
    }
    if !worker.cell.serve(rt, alloc, post)? {
        return Ok(false);
    }
    worker.left -= 1;
    Ok(true)
}

/// Puts all frames that the cell has unsent, each so many times.
fn post_all<R: Wait>(
    rt: &R,
    alloc: Global,
    post: &Post,
    cell: &mut NodeCell,
    copies: u8,
) -> Result<(), OutOfMemory>
    requires passes { HasPassesOf post.now cell.old }
    requires copies { (1 ≤ copies) × (copies ≤ 4) }
    ensures passes { OnOk result (HasPassesOf post.now cell.new) }
    ensures goes_on { OnOk result (GoesOn cell.old cell.new) }
    ensures history { OnOk result (cell.new.history ≡ cell.old.history) }
    ensures all { OnOk result (cell.new.unsent ≡ []) }
{
    while cell.post_one(rt, alloc, post, copies)? {}
    Ok(())
}
