//! What a made scenario does, line by line.

ghost use Rattle.std.specs.Prelude.{◌≡◌, ◌+◌, ◌-◌, ◌≤◌, ◌<◌, ◌^◌, ◌++◌, ◌∷◌, [], OnOk, IfOk};
ghost use Rattle.std.specs.List.{range_with_len};
ghost use Rattle.scenario_reader.specs.declared.limits.TheConstants.{MOST_NODES};
ghost use Rattle.schedule.specs.declared.task.Task.TheVariants.{Fetch, Settle};
ghost use Rattle.schedule.specs.Making.{number_after};
ghost use Rattle.schedule.specs.Plan.{group_tasks, insert_tasks, join_plan, plan};

use ring_math::OutOfMemory;
use std::alloc::Global;

/// How many deliveries a settle may take: more than any task here needs.
const BUDGET: u32 = 2_000;

/// How many files are inserted and fetched.
pub const MADE_FILES: u32 = 20;

/// A line, in the numbers of the nodes and files.
#[derive(Clone, Copy, PartialEq, Eq, Debug)]
pub enum Task {
    /// A node joins by way of node 0.
    Join(u32),
    /// Node 0 inserts a file.
    Insert { file: u32, copies: u8 },
    /// A node fetches a file.
    Fetch { node: u32, file: u32 },
    Settle(u32),
    Shuffle(u32),
}

impl Task {
    /// The number of the next command behind this task, where a command here has that number.
    pub(crate) fn number_after(self, number: u64) -> u64
        requires { number < 2 ^ 64 - 1 }
        ensures { result ≡ number_after self number }
    {
        match self {
            Task::Join(_) | Task::Insert { .. } | Task::Fetch { .. } => number + 1,
            Task::Settle(_) | Task::Shuffle(_) => number,
        }
    }
}

/// The tasks of a scenario with so many nodes.
pub(crate) fn plan(alloc: Global, nodes: u32) -> Result<Vec<Task>, OutOfMemory>
    requires some { 2 ≤ nodes }
    requires few { nodes ≤ MOST_NODES }
    ensures { IfOk result (λ tasks. tasks.items ≡ plan nodes) }
{
    let mut tasks = plan_joins(alloc, nodes)?;
    for file in 0..MADE_FILES {
        plan_insert(&mut tasks, file)?;
    }
    for file in 0..MADE_FILES {
        plan_fetch(&mut tasks, file % nodes, file)?;
    }
    Ok(tasks)
}

/// The tasks by which so many nodes join: in groups of three, whose members join beside one another and then each alone.
pub fn plan_joins(alloc: Global, nodes: u32) -> Result<Vec<Task>, OutOfMemory>
    requires some { 1 ≤ nodes }
    requires few { nodes ≤ MOST_NODES }
    ensures { IfOk result (λ tasks. tasks.items ≡ join_plan nodes) }
{
    let mut tasks = Vec::new(alloc);
    let mut first = 1;
    while first < nodes {
        let end = nodes.min(first + 3);
        plan_group(&mut tasks, first, end)?;
        first = end;
    }
    Ok(tasks)
}

/// The nodes from `first` on and before `end` join beside one another, and then each again alone.
fn plan_group(tasks: &mut Vec<Task>, first: u32, end: u32) -> Result<(), OutOfMemory>
    requires { first ≤ end }
    ensures { OnOk result (tasks.new.items ≡ tasks.old.items ++ group_tasks (range_with_len first (end - first))) }
{
    for node in first..end {
        tasks.push(Task::Join(node))?;
    }
    tasks.push(Task::Shuffle(40))?;
    tasks.push(Task::Settle(BUDGET))?;
    for node in first..end {
        tasks.push(Task::Join(node))?;
        tasks.push(Task::Settle(BUDGET))?;
    }
    Ok(())
}

fn plan_insert(tasks: &mut Vec<Task>, file: u32) -> Result<(), OutOfMemory>
    ensures { OnOk result (tasks.new.items ≡ tasks.old.items ++ insert_tasks file) }
{
    let copies = 1 + (file % 3) as u8;
    tasks.push(Task::Insert { file, copies })?;
    tasks.push(Task::Settle(BUDGET))?;
    Ok(())
}

fn plan_fetch(tasks: &mut Vec<Task>, node: u32, file: u32) -> Result<(), OutOfMemory>
    ensures { OnOk result (tasks.new.items ≡ tasks.old.items ++ (Fetch node file ∷ Settle 2000 ∷ [])) }
{
    tasks.push(Task::Fetch { node, file })?;
    tasks.push(Task::Settle(BUDGET))?;
    Ok(())
}
