//! A run by threads: what cells are given before it, its stages, and what is done when they are over.

ghost use Rattle.std.specs.Prelude.{◌≡◌, ◌≤◌, ◌<◌, ◌-◌, [], All, IfOk, IsSome, OnOk, Some, length, map, take};
ghost use Rattle.node_cell.specs.Carried.{just_given};
ghost use Rattle.node_cell.specs.Cell.{empty_cell};
ghost use Rattle.node_cell.specs.Equipped.{IsUnused};
ghost use Rattle.node_mailbox.specs.Pass.{after_split, split_off};
ghost use Rattle.node_mailbox.specs.Post.{AreOf};
ghost use Rattle.node_mailbox.specs.declared.limits.TheConstants.{ALL_PARTS};
ghost use Rattle.scenario_reader.specs.Plain.{ids};
ghost use Rattle.wire_codec.specs.Reading.{refusal};
ghost use Rattle.overlay_harness.specs.Driven.{HasNoFrame, HaveRunSoFar, MayBeGathered, PutNoise, WereHandedOver, cells_of, end_budget, ends_of, fresh_passes, new_worker, new_workers};
ghost use Rattle.overlay_harness.specs.Served.{IsServedTo};
ghost use Rattle.overlay_harness.specs.Shown.{shown};
ghost use Rattle.overlay_harness.specs.Stages.{last_budget, stages_of};
ghost use Rattle.overlay_harness.specs.Whole.{HaveKept};
ghost use Rattle.overlay_harness.specs.declared.limits.TheConstants.{MOST_RUN_NODES};

use crate::cells::{cells_law, new_cells};
use crate::hand::{hand_over_unread, serve_stages};
use crate::idle::IdleThreads;
use crate::rounds::run_stage;
use crate::stage::{Stage, stages};
use crate::worker::{Hall, Worker};
use node_cell::{CellFault, NodeCell, gather};
use node_mailbox::{Passes, Post};
use outside::Turnstile;
use ring_math::{Id, OutOfMemory};
use scenario_reader::{NodeLine, Scenario, What};
use std::alloc::Global;
use std::sync::Wait;
use std::sync::atomic::AtomicBool;
use std::thread::Threads;
use wire_msg::Frame;

/// The cells of a scenario, made anew, which threads served up to the last stage that has a budget, to which what was then left was
/// handed over by hand, and to which the commands of the later stages were submitted.
pub(crate) fn cells_served_by_threads<R: Threads + Wait + Sync, T: Turnstile + Sync>(
    rt: &R,
    alloc: Global,
    scenario: &Scenario,
    turnstile: &T,
) -> Result<Vec<NodeCell>, CellFault>
    requires { length scenario.now.nodes ≤ MOST_RUN_NODES }
    ensures { IfOk result (λ cells. HaveKept scenario.now cells.items) }
{
    let all = stages(alloc, scenario)?;
    let count = served_stages(&all);
    let mut cells = first_served(rt, alloc, scenario, &all, count, turnstile)?;
    serve_stages(alloc, scenario, &mut cells, &all, count)?;
    Ok(cells)
}

/// How many stages there are up to the last that has a budget.
fn served_stages(stages: &[Stage<'_>]) -> usize
    ensures within { result ≤ length stages.now }
    ensures last { last_budget (map shown (take result stages.now)) ≤ end_budget (map shown (take result stages.now)) }
{
    let mut count = 0;
    for (place, stage) in stages.iter().enumerate() {
        if stage.budget > 0 {
            count = place + 1;
        }
    }
    count
}

/// The cells of a scenario, to which its first stages were served by threads, if there are any.
fn first_served<R: Threads + Wait + Sync, T: Turnstile + Sync>(
    rt: &R,
    alloc: Global,
    scenario: &Scenario,
    all: &[Stage<'_>],
    count: usize,
    turnstile: &T,
) -> Result<Vec<NodeCell>, CellFault>
    requires few { length scenario.now.nodes ≤ MOST_RUN_NODES }
    requires stages { map shown all.now ≡ stages_of scenario.now }
    requires within { count ≤ length all.now }
    requires last { last_budget (map shown (take count all.now)) ≤ end_budget (map shown (take count all.now)) }
    ensures { IfOk result (λ cells. IsServedTo scenario.now (map shown (take count all.now)) cells.items) }
{
    if count == 0 {
        return Ok(new_cells(alloc, scenario)?);
    }
    served_by_threads(rt, alloc, scenario, all, count, turnstile)
}

/// The cells of a scenario, to which its first stages were served by threads.
fn served_by_threads<R: Threads + Wait + Sync, T: Turnstile + Sync>(
    rt: &R,
    alloc: Global,
    scenario: &Scenario,
    all: &[Stage<'_>],
    count: usize,
    turnstile: &T,
) -> Result<Vec<NodeCell>, CellFault>
    requires few { length scenario.now.nodes ≤ MOST_RUN_NODES }
    requires stages { map shown all.now ≡ stages_of scenario.now }
    requires within { count ≤ length all.now }
    requires last { last_budget (map shown (take count all.now)) ≤ end_budget (map shown (take count all.now)) }
    ensures { IfOk result (λ cells. IsServedTo scenario.now (map shown (take count all.now)) cells.items) }
{
    let nodes = ids_of(alloc, scenario.nodes())?;
    let idle = IdleThreads::new(alloc, nodes.len())?;
    let (post, own) = Post::new(alloc, &nodes)?;
    let refused = AtomicBool::new(false);
    let hall = Hall {
        post: &post,
        turnstile,
        refused: &refused,
        idle: &idle,
    };
    served_in(rt, alloc, scenario, &hall, own, all, count)
}

/// The same cells, which are served by threads that share this hall. These are all passes to its post.
fn served_in<R: Threads + Wait + Sync, T: Turnstile + Sync>(
    rt: &R,
    alloc: Global,
    scenario: &Scenario,
    hall: &Hall<'_, T>,
    mut own: Passes,
    all: &[Stage<'_>],
    count: usize,
) -> Result<Vec<NodeCell>, CellFault>
    requires few { length scenario.now.nodes ≤ MOST_RUN_NODES }
    requires stages { map shown all.now ≡ stages_of scenario.now }
    requires within { count ≤ length all.now }
    requires last { last_budget (map shown (take count all.now)) ≤ end_budget (map shown (take count all.now)) }
    requires nodes { hall.now.post.now.nodes ≡ ids scenario.now.nodes }
    requires of { AreOf own hall.now.post.now }
    requires fresh { own ≡ fresh_passes hall.now.post.now ALL_PARTS }
    ensures { IfOk result (λ cells. IsServedTo scenario.now (map shown (take count all.now)) cells.items) }
{
    let _founder = scenario.founder();
    let mut workers = employ(rt, alloc, scenario, hall.post, &mut own)?;
    run_stages(
        rt,
        alloc,
        scenario,
        hall,
        &mut own,
        all,
        count,
        &mut workers,
    )?;
    finish(rt, alloc, hall.post, own, workers)
}

fn ids_of(alloc: Global, nodes: &[NodeLine]) -> Result<Vec<Id>, OutOfMemory>
    ensures { IfOk result (λ found. found.items ≡ ids nodes.now) }
{
    let mut ids = Vec::with_capacity(alloc, nodes.len())?;
    for node in nodes {
        ids.push(node.id)?;
    }
    Ok(ids)
}

/// A cell for each node of the scenario, in their order, each with a part of every mailbox.
fn employ<R: Wait>(
    rt: &R,
    alloc: Global,
    scenario: &Scenario,
    post: &Post,
    own: &mut Passes,
) -> Result<Vec<Worker>, OutOfMemory>
    requires of { AreOf own.old post.now }
    requires few { length scenario.now.nodes ≤ MOST_RUN_NODES }
    requires fresh { own.old ≡ fresh_passes post.now ALL_PARTS }
    ensures own { OnOk result (own.new ≡ fresh_passes post.now (ALL_PARTS - length scenario.now.nodes)) }
    ensures workers { IfOk result (λ workers. workers.items ≡ new_workers post.now scenario.now.founder scenario.now.nodes) }
{
    let founder = scenario.founder();
    let nodes = scenario.nodes();
    let mut workers = Vec::with_capacity(alloc, nodes.len())?;
    for node in nodes {
        let worker = employ_one(rt, alloc, post, own, node.id, node.id == founder)?;
        workers.push(worker)?;
    }
    Ok(workers)
}

fn employ_one<R: Wait>(
    rt: &R,
    alloc: Global,
    post: &Post,
    own: &mut Passes,
    node: Id,
    founder: bool,
) -> Result<Worker, OutOfMemory>
    requires of { AreOf own.old post.now }
    requires two { All (λ pass. 2 ≤ pass.parts) own.old }
    ensures of { AreOf own.new post.now }
    ensures own { OnOk result (own.new ≡ map after_split own.old) }
    ensures worker { IfOk result (λ worker. worker ≡ new_worker (map split_off own.old) node founder) }
{
    let passes = own.split(rt, alloc, post)?;
    let cell = equipped(alloc, node, founder, passes)?;
    Ok(Worker {
        cell,
        left: 0,
        turns: 0,
        fault: None,
    })
}

/// The cell of a node to which nothing came yet, with these passes.
fn equipped(alloc: Global, node: Id, founder: bool, passes: Passes) -> Result<NodeCell, OutOfMemory>
    requires { All IsUnused passes }
    ensures { IfOk result (λ cell. cell ≡ record (empty_cell node founder) { carried = Some (just_given passes) }) }
{
    let mut cell = NodeCell::new(alloc, node, founder)?;
    cell.equip(passes);
    Ok(cell)
}

/// Runs the first stages, one after another.
fn run_stages<R: Threads + Wait + Sync, T: Turnstile + Sync>(
    rt: &R,
    alloc: Global,
    scenario: &Scenario,
    hall: &Hall<'_, T>,
    own: &mut Passes,
    all: &[Stage<'_>],
    count: usize,
    workers: &mut [Worker],
) -> Result<(), CellFault>
    requires stages { map shown all.now ≡ stages_of scenario.now }
    requires within { count ≤ length all.now }
    requires so_far { HaveRunSoFar scenario.now hall.now.post.now [] own.old workers.old }
    ensures { OnOk result (HaveRunSoFar scenario.now hall.now.post.now (map shown (take count all.now)) own.new workers.new) }
{
    let _founder = scenario.founder();
    for place in 0..count {
        let stage = &all[place];
        put_noise(rt, alloc, hall.post, own, stage)?;
        run_stage(rt, alloc, hall, stage, workers)?;
    }
    Ok(())
}

/// Puts the noise of a stage into the mailboxes of its nodes, each as often as the stage has copies.
fn put_noise<R: Wait>(
    rt: &R,
    alloc: Global,
    post: &Post,
    own: &mut Passes,
    stage: &Stage<'_>,
) -> Result<(), OutOfMemory>
    requires of { AreOf own.old post.now }
    requires noise { All (λ a. HasNoFrame a.what) stage.now.actions.now }
    ensures of { AreOf own.new post.now }
    ensures noise { PutNoise own.old own.new }
{
    for action in stage.actions {
        put_if_noise(rt, alloc, post, own, &action.what, stage.copies)?;
    }
    Ok(())
}

fn put_if_noise<R: Wait>(
    rt: &R,
    alloc: Global,
    post: &Post,
    own: &mut Passes,
    what: &What,
    copies: u8,
) -> Result<(), OutOfMemory>
    requires of { AreOf own.old post.now }
    requires noise { HasNoFrame what.now }
    ensures of { AreOf own.new post.now }
    ensures noise { PutNoise own.old own.new }
{
    let What::Noise { node, bytes } = what else {
        return Ok(());
    };
    let Some(place) = post.place(*node) else {
        return Ok(());
    };
    put_copies(rt, alloc, post, own, place, bytes, copies)
}

fn put_copies<R: Wait>(
    rt: &R,
    alloc: Global,
    post: &Post,
    own: &mut Passes,
    place: usize,
    bytes: &Frame,
    copies: u8,
) -> Result<(), OutOfMemory>
    requires of { AreOf own.old post.now }
    requires place { place < length post.now.nodes }
    requires noise { IsSome (refusal bytes.now) }
    ensures of { AreOf own.new post.now }
    ensures noise { PutNoise own.old own.new }
{
    for _ in 0..copies {
        let copy = Frame::copy_of(alloc, bytes.as_slice())?;
        match own.put(rt, post, place, copy) {
            Ok(()) => {}
            Err(_back) => return Err(OutOfMemory),
        }
    }
    Ok(())
}

/// Takes the passes in, and hands over by hand what is left to each node.
fn finish<R: Wait>(
    rt: &R,
    alloc: Global,
    post: &Post,
    own: Passes,
    workers: Vec<Worker>,
) -> Result<Vec<NodeCell>, CellFault>
    requires { MayBeGathered post.now own (cells_of workers.items) }
    ensures { IfOk result (λ cells. WereHandedOver (ends_of workers.items) (cells_of workers.items) cells.items) }
{
    let ends = ends_of(alloc, &workers)?;
    let mut cells = cells_of(alloc, workers)?;
    hand_over_rest(rt, alloc, post, own, &mut cells, &ends)?;
    Ok(cells)
}

fn hand_over_rest<R: Wait>(
    rt: &R,
    alloc: Global,
    post: &Post,
    own: Passes,
    cells: &mut [NodeCell],
    ends: &[usize],
) -> Result<(), CellFault>
    requires gather { MayBeGathered post.now own cells.old }
    requires each { length ends.now ≡ length cells.old }
    ensures { OnOk result (WereHandedOver ends.now cells.old cells.new) }
{
    let _passes = gather(rt, post, own, cells);
    hand_over_unread(alloc, cells, ends)?;
    cells_law(cells);
    Ok(())
}

/// How many entries each cell's history has once its node took all frames that are left to it.
fn ends_of(alloc: Global, workers: &[Worker]) -> Result<Vec<usize>, OutOfMemory>
    ensures { IfOk result (λ ends. ends.items ≡ ends_of workers.now) }
{
    let mut ends = Vec::with_capacity(alloc, workers.len())?;
    for worker in workers {
        ends.push(worker.cell.history().len() + worker.left as usize)?;
    }
    Ok(ends)
}

fn cells_of(alloc: Global, workers: Vec<Worker>) -> Result<Vec<NodeCell>, OutOfMemory>
    ensures { IfOk result (λ cells. cells.items ≡ cells_of workers.items) }
{
    let cells = workers
        .into_iter()
        .map(|worker| worker.cell)
        .collect(alloc)?;
    Ok(cells)
}
