//! A whole run.

ghost use Rattle.std.specs.Prelude.{◌≡◌, ◌≤◌, All, IfErr, IfOk, IfNone, IfSome, None, OnOk, length};
ghost use Rattle.overlay_harness.specs.Fault.{IsDueTo, first_unfit_line};
ghost use Rattle.weave_laws.specs.Answered.{AllSent};
ghost use Rattle.weave_laws.specs.Woven.{IsWoven};
ghost use Rattle.weave.specs.Cells.{HasNoPasses, HaveOwnNodes, histories};
ghost use Rattle.overlay_harness.specs.Clauses.{HasItsNoise};
ghost use Rattle.overlay_harness.specs.Ran.{inputs_in};
ghost use Rattle.overlay_harness.specs.Run.{IsRunOf};
ghost use Rattle.overlay_harness.specs.Stages.{most_copies, stages_of};
ghost use Rattle.overlay_harness.specs.Tested.{FailTheTest};
ghost use Rattle.overlay_harness.specs.declared.limits.TheConstants.{MOST_RUN_NODES};
ghost use Rattle.overlay_harness.specs.Whole.{HaveKept, HaveRun};

use crate::cells::{cells_law, new_cells};
use crate::enough::{came_at_most, most_copies, noise_is_theirs};
use crate::fault::RunFault;
use crate::hand::serve_stages;
use crate::stage::stages;
use crate::threaded::cells_served_by_threads;
use crate::unfit::first_unfit_line;
use node_cell::{CellFault, NodeCell};
use outside::Turnstile;
use overlay_rules::Record;
use ring_math::OutOfMemory;
use scenario_reader::Scenario;
use std::alloc::Global;
use std::sync::Wait;
use std::thread::Threads;
use weave::{WeaveFault, into_woven};

/// Runs a scenario: in each round of a stage, each node's cell is served by a thread of its own, which passes the turnstile before
/// each frame. `NotForRun` comes exactly where the scenario has a line that a run can't have, and names the first, before anything
/// runs; `OutOfMemory` may come in the place of a record.
///
/// Stamps are Lamport's, so what the threads did is woven into one record of them together. Where a stamp was spent, or a message
/// came more often than it was put, the scenario is run by hand.
pub fn run<R: Threads + Wait + Sync, T: Turnstile + Sync>(
    rt: &R,
    alloc: Global,
    scenario: &Scenario,
    turnstile: &T,
) -> Result<Record, RunFault>
    ensures run { IfOk result (IsRunOf scenario.now) }
    ensures fit { OnOk result (first_unfit_line scenario.now ≡ None) }
    ensures due { IfErr result (IsDueTo scenario.now) }
{
    refuse_unfit(scenario)?;
    match run_by_threads(rt, alloc, scenario, turnstile)? {
        Some(steps) => Ok(steps),
        None => run_by_hand(alloc, scenario),
    }
}

/// Refuses a scenario that can't be run.
fn refuse_unfit(scenario: &Scenario) -> Result<(), RunFault>
    ensures fit { OnOk result (first_unfit_line scenario.now ≡ None) }
    ensures due { IfErr result (IsDueTo scenario.now) }
{
    match first_unfit_line(scenario) {
        Some(line) => Err(RunFault::NotForRun { line }),
        None => Ok(()),
    }
}

/// The record of a run by threads, if no stamp was spent and nothing came more often than it could.
fn run_by_threads<R: Threads + Wait + Sync, T: Turnstile + Sync>(
    rt: &R,
    alloc: Global,
    scenario: &Scenario,
    turnstile: &T,
) -> Result<Option<Record>, OutOfMemory>
    requires { length scenario.now.nodes ≤ MOST_RUN_NODES }
    ensures { IfOk result (λ found. IfSome found (IsRunOf scenario.now)) }
{
    match cells_served_by_threads(rt, alloc, scenario, turnstile) {
        Ok(cells) => tested_run(alloc, scenario, cells),
        Err(CellFault::Spent { .. }) => Ok(None),
        Err(CellFault::OutOfMemory) => Err(OutOfMemory),
    }
}

/// Runs a scenario by hand, on one thread. `NotForRun` comes exactly where the scenario has a line that a run can't have, and names
/// the first; `OutOfMemory` may come in the place of a record.
pub fn run_by_hand(alloc: Global, scenario: &Scenario) -> Result<Record, RunFault>
    ensures run { IfOk result (IsRunOf scenario.now) }
    ensures fit { OnOk result (first_unfit_line scenario.now ≡ None) }
    ensures due { IfErr result (IsDueTo scenario.now) }
{
    refuse_unfit(scenario)?;
    let cells = cells_served_by_hand(alloc, scenario)?;
    let steps = woven_run(alloc, scenario, cells)?;
    Ok(steps)
}

/// The cells of a scenario, made anew, to which every stage was served by hand.
pub fn cells_served_by_hand(alloc: Global, scenario: &Scenario) -> Result<Vec<NodeCell>, CellFault>
    ensures run { IfOk result (λ cells. HaveRun scenario.now cells.items) }
    ensures without { IfOk result (λ cells. All HasNoPasses cells.items) }
{
    let all = stages(alloc, scenario)?;
    let mut cells = new_cells(alloc, scenario)?;
    serve_stages(alloc, scenario, &mut cells, &all, 0)?;
    Ok(cells)
}

/// The record that is woven from what the cells of a scenario did, which is a run of it.
pub fn woven_run(
    alloc: Global,
    scenario: &Scenario,
    cells: Vec<NodeCell>,
) -> Result<Record, OutOfMemory>
    requires { HaveRun scenario.now cells.items }
    ensures { IfOk result (IsRunOf scenario.now) }
{
    cells_law(&cells);
    let _founder = scenario.founder();
    woven(alloc, cells)
}

/// The record that is woven from what cells did that took only what they sent: no envelope is stray.
fn woven(alloc: Global, cells: Vec<NodeCell>) -> Result<Record, OutOfMemory>
    requires apart { HaveOwnNodes cells.items }
    requires sent { AllSent (histories cells.items) }
    ensures { IfOk result (IsWoven (histories cells.items)) }
{
    match into_woven(alloc, cells) {
        Ok(steps) => Ok(steps),
        Err(WeaveFault::OutOfMemory) => Err(OutOfMemory),
        Err(WeaveFault::Stray { .. }) => unreachable!(),
    }
}

/// The record that is woven from what the cells of a scenario did, if no message and no noise came more often than it could. It is
/// then a run of the scenario.
pub fn tested_run(
    alloc: Global,
    scenario: &Scenario,
    cells: Vec<NodeCell>,
) -> Result<Option<Record>, OutOfMemory>
    requires { HaveKept scenario.now cells.items }
    ensures some { IfOk result (λ found. IfSome found (IsRunOf scenario.now)) }
    ensures none { IfOk result (λ found. IfNone found (FailTheTest (stages_of scenario.now) (histories cells.items))) }
{
    let all = stages(alloc, scenario)?;
    if !noise_is_theirs(&cells, &all) {
        return Ok(None);
    }
    counted_run(alloc, scenario, cells, most_copies(&all))
}

/// The same record, where no noise came more often than it could, if no message came more often than so many times.
fn counted_run(
    alloc: Global,
    scenario: &Scenario,
    cells: Vec<NodeCell>,
    copies: u8,
) -> Result<Option<Record>, OutOfMemory>
    requires kept { HaveKept scenario.now cells.items }
    requires noise { All (λ h. HasItsNoise (stages_of scenario.now) h.node (inputs_in h)) (histories cells.items) }
    requires copies { copies ≡ most_copies (stages_of scenario.now) }
    ensures some { IfOk result (λ found. IfSome found (IsRunOf scenario.now)) }
    ensures none { IfOk result (λ found. IfNone found (FailTheTest (stages_of scenario.now) (histories cells.items))) }
{
    cells_law(&cells);
    let _founder = scenario.founder();
    let steps = woven(alloc, cells)?;
    if !came_at_most(alloc, &steps.entries, copies)? {
        return Ok(None);
    }
    Ok(Some(steps))
}
