//! Scenarios that are made of a seed.

ghost use Rattle.std.specs.Prelude.{◌≡◌, ◌+◌, ◌^◌, ◌≤◌, ◌<◌, [], length, map, AllPairs, ◌≢◌, IfOk, OnOk, IsSome};
ghost use Rattle.scenario_reader.specs.declared.limits.TheConstants.{MOST_NODES, MOST_FILES};
ghost use Rattle.schedule.specs.declared.file.MadeFile.{MadeFile as PlainFile};
ghost use Rattle.schedule.specs.Made.{made};
ghost use Rattle.schedule.specs.Making.{IsMaking, AreTasks, node_lines, file_lines, written, scenario_of};

use crate::file::{MadeFile, make_files, node_name};
use crate::made::Made;
use crate::task::{Task, plan};
use ring_math::OutOfMemory;
use scenario_reader::{Action, Scenario, ScenarioBuilder};
use std::alloc::Global;

/// A scenario of 2 to [`MOST_NODES`](scenario_reader::MOST_NODES) nodes and twenty files, made of the random words of a seed: the nodes join in groups of three,
/// and then each file is inserted and fetched.
pub fn make_scenario(alloc: Global, nodes: u32, seed: u64) -> Result<Scenario, OutOfMemory>
    requires some { 2 ≤ nodes }
    requires few { nodes ≤ MOST_NODES }
    ensures { IfOk result (λ scenario. scenario ≡ made nodes seed) }
{
    let files = make_files(alloc, nodes, seed)?;
    let made = Made::new(alloc, nodes, seed, files)?;
    let tasks = plan(alloc, nodes)?;
    scenario_of(alloc, &made, &tasks)
}

/// The scenario of these nodes and files, in which the first node is the founder and the tasks are done one after another.
pub fn scenario_of(alloc: Global, made: &Made, tasks: &[Task]) -> Result<Scenario, OutOfMemory>
    requires made { IsMaking made.now }
    requires tasks { AreTasks made.now tasks.now }
    ensures { IfOk result (λ scenario. scenario ≡ scenario_of made.now tasks.now) }
{
    let mut builder = ScenarioBuilder::new(alloc);
    declare_nodes(alloc, &mut builder, made)?;
    declare_files(alloc, &mut builder, made.nodes() + 1, made.files())?;
    builder.set_founder(made.id(0));
    made.range_law();
    act(alloc, &mut builder, made, tasks)?;
    Ok(builder.finish())
}

fn declare_nodes(
    alloc: Global,
    builder: &mut ScenarioBuilder,
    made: &Made,
) -> Result<(), OutOfMemory>
    requires few { made.now.nodes ≤ MOST_NODES }
    requires none { builder.old.nodes ≡ [] }
    ensures { OnOk result (builder.new ≡ record builder.old { nodes = node_lines made.now.nodes made.now.seed }) }
{
    for node in 0..made.nodes() {
        let name = node_name(alloc, node)?;
        builder.add_node(alloc, name.as_bytes(), made.id(node), node + 1)?;
    }
    Ok(())
}

/// Declares files, from a line on.
fn declare_files(
    alloc: Global,
    builder: &mut ScenarioBuilder,
    mut line: u32,
    files: &[MadeFile],
) -> Result<(), OutOfMemory>
    requires few { length files.now ≤ MOST_FILES }
    requires names { AllPairs ◌≢◌ (map (λ (made : PlainFile). made.name) files.now) }
    requires line { line < 2 ^ 16 }
    requires none { builder.old.files ≡ [] }
    ensures { OnOk result (builder.new ≡ record builder.old { files = file_lines line files.now }) }
{
    for made in files {
        let bytes = made.bytes.copy(alloc)?;
        builder.add_file(alloc, made.name.as_slice(), made.file, bytes, line)?;
        line += 1;
    }
    Ok(())
}

/// Adds the actions, one a line behind the nodes, the files and the founder.
fn act(
    alloc: Global,
    builder: &mut ScenarioBuilder,
    made: &Made,
    tasks: &[Task],
) -> Result<(), OutOfMemory>
    requires made { IsMaking made.now }
    requires tasks { AreTasks made.now tasks.now }
    requires nodes { builder.old.nodes ≡ node_lines made.now.nodes made.now.seed }
    requires files { builder.old.files ≡ file_lines (made.now.nodes + 1) made.now.files }
    requires seed { made.now.seed < 2 ^ 64 }
    requires founder { IsSome builder.old.founder }
    requires none { builder.old.actions ≡ [] }
    ensures { OnOk result (builder.new ≡ record builder.old { actions = written made.now 1 (made.now.nodes + length made.now.files + 2) tasks.now }) }
{
    let mut number = 1;
    let mut line = made.nodes() + made.files().len() as u32 + 2;
    for task in tasks {
        let what = made.what(alloc, number, *task)?;
        builder.add_action(alloc, Action { line, what })?;
        number = task.number_after(number);
        line += 1;
    }
    Ok(())
}
