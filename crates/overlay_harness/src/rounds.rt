//! Stages of a run, one round after another: in a round each cell is lent to a thread of its own.

ghost use Rattle.std.specs.Prelude.{◌≡◌, ◌∷◌, ◌≤◌, [], None, All, OnOk};
ghost use Rattle.std.specs.List.{AllZip};
ghost use Rattle.overlay_harness.specs.Rounds.{IsAtWork, ServedIn, ServedUnlessStopped, WentOn, WentOnUnlessStopped};
ghost use Rattle.overlay_harness.specs.Shown.{shown};
ghost use Rattle.overlay_harness.specs.Work.{MayBeTold};

use crate::stage::Stage;
use crate::worker::{Hall, Worker, begin_stage, go_on, serve_once};
use node_cell::CellFault;
use node_mailbox::Post;
use outside::Turnstile;
use ring_math::OutOfMemory;
use std::alloc::Global;
use std::sync::Wait;
use std::thread;
use std::thread::Threads;

/// Runs one stage: rounds until no mailbox has a frame for a node that may still take one. A fault of a thread ends it, after all
/// threads are taken in.
pub(crate) fn run_stage<R: Threads + Wait + Sync, T: Turnstile + Sync>(
    rt: &R,
    alloc: Global,
    hall: &Hall<'_, T>,
    stage: &Stage<'_>,
    workers: &mut [Worker],
) -> Result<(), CellFault>
    requires at_work { All (λ w. IsAtWork hall.now.post.now w.cell) workers.old }
    requires numbers { All (λ w. MayBeTold (w.cell ∷ []) stage.now.actions.now) workers.old }
    requires copies { (1 ≤ stage.now.copies) × (stage.now.copies ≤ 4) }
    ensures { OnOk result (AllZip (ServedIn hall.now.post.now (shown stage.now)) workers.old workers.new) }
{
    first_round(rt, alloc, hall, stage, workers);
    check(workers)?;
    // Each round but the first begins with a frame that was served between rounds.
    let most = workers.len().saturating_mul(stage.budget as usize);
    for _ in 0..most {
        if !go_round(rt, alloc, hall, stage.copies, workers)? {
            return Ok(());
        }
    }
    Ok(())
}

/// One round more, if there is a frame for a node that may still take one; else it answers false.
fn go_round<R: Threads + Wait + Sync, T: Turnstile + Sync>(
    rt: &R,
    alloc: Global,
    hall: &Hall<'_, T>,
    copies: u8,
    workers: &mut [Worker],
) -> Result<bool, CellFault>
    requires at_work { All (λ w. IsAtWork hall.now.post.now w.cell) workers.old }
    requires copies { (1 ≤ copies) × (copies ≤ 4) }
    ensures { OnOk result (AllZip (WentOn hall.now.post.now) workers.old workers.new) }
{
    if !serve_each(rt, alloc, hall.post, workers)? {
        return Ok(false);
    }
    next_round(rt, alloc, hall, copies, workers);
    check(workers)?;
    Ok(true)
}

/// The first round of a stage.
fn first_round<R: Threads + Wait + Sync, T: Turnstile + Sync>(
    rt: &R,
    alloc: Global,
    hall: &Hall<'_, T>,
    stage: &Stage<'_>,
    workers: &mut [Worker],
)
    requires at_work { All (λ w. IsAtWork hall.now.post.now w.cell) workers.old }
    requires numbers { All (λ w. MayBeTold (w.cell ∷ []) stage.now.actions.now) workers.old }
    requires copies { (1 ≤ stage.now.copies) × (stage.now.copies ≤ 4) }
    ensures { AllZip (ServedUnlessStopped hall.now.post.now (shown stage.now)) workers.old workers.new }
{
    hall.idle.begin_round();
    let threads = workers.len().max(1);
    thread::for_each_mut(
        rt,
        workers,
        threads,
        &|place, worker| begin_stage(rt, alloc, hall, stage, place, worker),
    );
}

/// A later round.
fn next_round<R: Threads + Wait + Sync, T: Turnstile + Sync>(
    rt: &R,
    alloc: Global,
    hall: &Hall<'_, T>,
    copies: u8,
    workers: &mut [Worker],
)
    requires at_work { All (λ w. IsAtWork hall.now.post.now w.cell) workers.old }
    requires copies { (1 ≤ copies) × (copies ≤ 4) }
    ensures { AllZip (WentOnUnlessStopped hall.now.post.now) workers.old workers.new }
{
    hall.idle.begin_round();
    let threads = workers.len().max(1);
    thread::for_each_mut(
        rt,
        workers,
        threads,
        &|place, worker| go_on(rt, alloc, hall, copies, place, worker),
    );
}

/// Why a thread stopped, if one did: want of memory before any other reason.
fn check(workers: &[Worker]) -> Result<(), CellFault>
    ensures { OnOk result (All (λ w. w.fault ≡ None) workers.now) }
{
    for worker in workers {
        if let Some(CellFault::OutOfMemory) = worker.fault {
            return Err(CellFault::OutOfMemory);
        }
    }
    for worker in workers {
        if let Some(fault) = worker.fault {
            return Err(fault);
        }
    }
    Ok(())
}

/// Between rounds, serves one frame of each cell whose node may still take one. It answers whether there was any.
fn serve_each<R: Wait>(
    rt: &R,
    alloc: Global,
    post: &Post,
    workers: &mut [Worker],
) -> Result<bool, CellFault>
    requires { All (λ w. IsAtWork post.now w.cell) workers.old }
    ensures { OnOk result (AllZip (WentOn post.now) workers.old workers.new) }
{
    let mut served = false;
    for place in 0..workers.len() {
        let worker = &mut workers[place];
        if serve_once(rt, alloc, post, worker)? {
            served = true;
        }
    }
    Ok(served)
}
