//! Scenarios that store and fetch a large file.

ghost use Rattle.std.specs.Prelude.{◌≡◌, ◌≤◌, ◌<◌, ◌++◌, length, IfOk, OnOk};
ghost use Rattle.scenario_reader.specs.declared.limits.TheConstants.{MOST_NODES};
ghost use Rattle.fragments.specs.declared.limits.TheConstants.{MOST_LARGE_BYTES, MOST_FRAGMENTS};
ghost use Rattle.fragments.specs.Pieces.{pieces_of};
ghost use Rattle.fragments.specs.Large.{generated, declared, fragment_label, declared_from, declared_pieces, store_tasks, retrieve_tasks, large_plan, large};

use crate::cutting::{fragment, with_index};
use crate::piece::{Piece, Pieces};
use ring_math::{MOST_BYTES, OutOfMemory};
use scenario_reader::{Name, Scenario};
use schedule::{Made, MadeFile, Task, Words, plan_joins, scenario_of};
use std::alloc::Global;

/// The stream of a seed's random words of which the bytes of a large file are made. The nodes are made of stream 0.
const STREAM: u64 = 1;

/// How many deliveries the settle behind an insert or a fetch may take: more than any here needs.
const BUDGET: u32 = 200;

/// How many nodes are asked to keep each piece.
const COPIES: u8 = 2;

/// A scenario of 2 to [`MOST_NODES`](scenario_reader::MOST_NODES) nodes that are made of the random words of a seed, and of a
/// large file of so many bytes of another stream of them. The nodes join in groups of three; then node 0 inserts the
/// fragments and the index, and the last node fetches the index and the fragments. The only error is that memory was refused.
pub fn large_scenario(
    alloc: Global,
    nodes: u32,
    seed: u64,
    size: u32,
) -> Result<Scenario, OutOfMemory>
    requires some { 2 ≤ nodes }
    requires few { nodes ≤ MOST_NODES }
    requires fits { size ≤ MOST_LARGE_BYTES }
    ensures { IfOk result (λ scenario. scenario ≡ large nodes seed size) }
{
    let pieces = generated_pieces(alloc, seed, size as usize)?;
    let fragments = pieces.fragments.as_slice().len() as u32;
    let files = declared_pieces(alloc, &pieces)?;
    let made = Made::new(alloc, nodes, seed, files)?;
    let tasks = large_plan(alloc, nodes, fragments)?;
    scenario_of(alloc, &made, &tasks)
}

/// The pieces of a file of so many bytes of a seed's words. It is called `l`, and has no owner and no salt. The file is never
/// made as a whole, since that would take a megabyte to be cleared, filled and copied: the next words fill the same small room
/// for each fragment.
fn generated_pieces(alloc: Global, seed: u64, size: usize) -> Result<Pieces, OutOfMemory>
    requires { size ≤ MOST_LARGE_BYTES }
    ensures { IfOk result (λ pieces. pieces ≡ pieces_of (generated seed size)) }
{
    let (name, owner, salt) = (b"l", b"", &[0; 8]);
    let mut words = Words::of_stream(seed, STREAM);
    let mut room = [0; MOST_BYTES];
    let mut fragments = Vec::new(alloc);
    for i in 0..size.div_ceil(MOST_BYTES) {
        words.fill(&mut room);
        let left = size - MOST_BYTES * i;
        let bytes = &room[..left.min(MOST_BYTES)];
        fragments.push(fragment(alloc, name, owner, salt, i as u32, bytes)?)?;
    }
    with_index(alloc, name, owner, salt, size as u32, fragments)
}

/// The pieces as files of the scenario: the fragments and then the index.
fn declared_pieces(alloc: Global, pieces: &Pieces) -> Result<Vec<MadeFile>, OutOfMemory>
    requires { length pieces.now.fragments ≤ MOST_FRAGMENTS }
    ensures { IfOk result (λ files. files.items ≡ declared_pieces pieces.now) }
{
    let mut files = Vec::new(alloc);
    declare_fragments(alloc, &mut files, pieces.fragments.as_slice())?;
    let name = Name::new(b"x").unwrap();
    files.push(declared(alloc, name, &pieces.index)?)?;
    Ok(files)
}

fn declare_fragments(
    alloc: Global,
    files: &mut Vec<MadeFile>,
    fragments: &[Piece],
) -> Result<(), OutOfMemory>
    requires { length fragments.now ≤ MOST_FRAGMENTS }
    ensures { OnOk result (files.new.items ≡ files.old.items ++ declared_from 0 fragments.now) }
{
    for (i, fragment) in fragments.iter().enumerate() {
        let name = fragment_label(alloc, i as u32)?;
        files.push(declared(alloc, name, fragment)?)?;
    }
    Ok(())
}

fn declared(alloc: Global, name: Name, piece: &Piece) -> Result<MadeFile, OutOfMemory>
    ensures { IfOk result (λ file. file ≡ declared name piece.now) }
{
    Ok(MadeFile {
        name,
        file: piece.file,
        bytes: piece.bytes.copy(alloc)?,
    })
}

fn fragment_label(alloc: Global, fragment: u32) -> Result<Name, OutOfMemory>
    requires { fragment < MOST_FRAGMENTS }
    ensures { IfOk result (λ name. name ≡ fragment_label fragment) }
{
    let name = format!(in alloc; "p{fragment}")?;
    Ok(Name::new(name.as_bytes()).unwrap())
}

/// The tasks of so many nodes, where the file has so many fragments.
fn large_plan(alloc: Global, nodes: u32, fragments: u32) -> Result<Vec<Task>, OutOfMemory>
    requires some { 2 ≤ nodes }
    requires few { nodes ≤ MOST_NODES }
    requires fragments { fragments ≤ MOST_FRAGMENTS }
    ensures { IfOk result (λ tasks. tasks.items ≡ large_plan nodes fragments) }
{
    let mut tasks = plan_joins(alloc, nodes)?;
    for file in 0..fragments + 1 {
        plan_store(&mut tasks, file)?;
    }
    plan_retrieve(&mut tasks, nodes - 1, fragments)?;
    for file in 0..fragments {
        plan_retrieve(&mut tasks, nodes - 1, file)?;
    }
    Ok(tasks)
}

fn plan_store(tasks: &mut Vec<Task>, file: u32) -> Result<(), OutOfMemory>
    ensures { OnOk result (tasks.new.items ≡ tasks.old.items ++ store_tasks file) }
{
    let copies = COPIES;
    tasks.push(Task::Insert { file, copies })?;
    tasks.push(Task::Settle(BUDGET))?;
    Ok(())
}

fn plan_retrieve(tasks: &mut Vec<Task>, node: u32, file: u32) -> Result<(), OutOfMemory>
    ensures { OnOk result (tasks.new.items ≡ tasks.old.items ++ retrieve_tasks node file) }
{
    tasks.push(Task::Fetch { node, file })?;
    tasks.push(Task::Settle(BUDGET))?;
    Ok(())
}
