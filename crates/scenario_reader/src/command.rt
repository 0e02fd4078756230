//! The lines that are commands.

ghost use Rattle.std.specs.Prelude.{◌≡◌, ◌+◌, ◌<◌, ◌≤◌, ◌^◌, ◌∷◌, [], true, false, Some, Contains, IfOk, IsSome, MatchOption, OnOk};
ghost use Rattle.scenario_reader.specs.declared.action.What.TheVariants as what;
ghost use Rattle.scenario_reader.specs.Checks.{is_outside};
ghost use Rattle.scenario_reader.specs.Effects.{with_what};
ghost use Rattle.scenario_reader.specs.Grammar.{read_form};
ghost use Rattle.scenario_reader.specs.Outcome.{Gives};
ghost use Rattle.scenario_reader.specs.Plain.{ids};
ghost use Rattle.scenario_reader.specs.Rules.{IsCommand};
ghost use Rattle.scenario_reader.specs.Tallies.{tally_of};
ghost use Rattle.scenario_reader.specs.Words.{plain_word};

use crate::action::{Action, What};
use crate::builder::ScenarioBuilder;
use crate::fault::LineFault;
use crate::form::Form;
use crate::node::FileLine;
use crate::operands::{check_founded, check_key, file_at, key_at, node_at, number_at};
use crate::words::Word;
use ring_math::{FileId, Id, OutOfMemory};
use std::alloc::Global;
use wire_msg::{Command, Copies, MOST_COPIES};

/// Reads `join NAME VIA`.
pub(crate) fn read_join(
    draft: &mut ScenarioBuilder,
    alloc: Global,
    line: u32,
    name: &Word<'_>,
    via: &Word<'_>,
) -> Result<(), LineFault>
    ensures { Gives (read_form draft.old line Form.Join (plain_word name.now ∷ plain_word via.now ∷ [])) result draft.new }
{
    let node = node_at(draft, line, name)?;
    let via = node_at(draft, line, via)?;
    check_founded(draft, line)?;
    add_command(draft, alloc, line, node, join(via))?;
    Ok(())
}

fn join(via: Id) -> Command
    ensures { result ≡ Command.Join via }
{
    Command::Join { via }
}

/// Reads `lookup NAME KEY`.
pub(crate) fn read_lookup(
    draft: &mut ScenarioBuilder,
    alloc: Global,
    line: u32,
    name: &Word<'_>,
    key: &Word<'_>,
) -> Result<(), LineFault>
    ensures { Gives (read_form draft.old line Form.Lookup (plain_word name.now ∷ plain_word key.now ∷ [])) result draft.new }
{
    check_key(line, key)?;
    let node = node_at(draft, line, name)?;
    let key = key_at(draft, line, key)?;
    check_founded(draft, line)?;
    add_command(draft, alloc, line, node, lookup(key))?;
    Ok(())
}

fn lookup(key: Id) -> Command
    ensures value { result ≡ Command.Lookup key }
    ensures range { key < 2 ^ 128 }
{
    Command::Lookup { key }
}

/// Reads `insert NAME FILE K`.
pub(crate) fn read_insert(
    draft: &mut ScenarioBuilder,
    alloc: Global,
    line: u32,
    name: &Word<'_>,
    file: &Word<'_>,
    copies: &Word<'_>,
) -> Result<(), LineFault>
    ensures { Gives (read_form draft.old line Form.Insert (plain_word name.now ∷ plain_word file.now ∷ plain_word copies.now ∷ [])) result draft.new }
{
    let count = number_at(line, copies)?;
    let node = node_at(draft, line, name)?;
    let file = file_at(draft, line, file)?;
    check_founded(draft, line)?;
    let Some(count) = copies_of(count) else {
        let place = copies.place;
        return Err(LineFault::Limit { line, place });
    };
    let command = insert(alloc, file, count)?;
    add_command(draft, alloc, line, node, command)?;
    Ok(())
}

fn copies_of(count: u64) -> Option<Copies>
    ensures { MatchOption result (is_outside 1 MOST_COPIES count ≡ true) (λ copies. (is_outside 1 MOST_COPIES count ≡ false) × (copies ≡ count) × (1 ≤ count) × (count ≤ MOST_COPIES)) }
{
    if count > u64::from(MOST_COPIES) {
        return None;
    }
    Copies::new(count as u8)
}

fn insert(alloc: Global, file: &FileLine, copies: Copies) -> Result<Command, OutOfMemory>
    ensures { IfOk result (λ command. command ≡ Command.Insert file.now.file copies file.now.bytes) }
{
    Ok(Command::Insert {
        file: file.file,
        copies,
        bytes: file.bytes.copy(alloc)?,
    })
}

/// Reads `fetch NAME FILE`.
pub(crate) fn read_fetch(
    draft: &mut ScenarioBuilder,
    alloc: Global,
    line: u32,
    name: &Word<'_>,
    file: &Word<'_>,
) -> Result<(), LineFault>
    ensures { Gives (read_form draft.old line Form.Fetch (plain_word name.now ∷ plain_word file.now ∷ [])) result draft.new }
{
    let node = node_at(draft, line, name)?;
    let file = file_at(draft, line, file)?.file;
    check_founded(draft, line)?;
    add_command(draft, alloc, line, node, fetch(file))?;
    Ok(())
}

fn fetch(file: FileId) -> Command
    ensures { result ≡ Command.Fetch file }
{
    Command::Fetch { file }
}

/// Reads `reclaim NAME FILE`.
pub(crate) fn read_reclaim(
    draft: &mut ScenarioBuilder,
    alloc: Global,
    line: u32,
    name: &Word<'_>,
    file: &Word<'_>,
) -> Result<(), LineFault>
    ensures { Gives (read_form draft.old line Form.Reclaim (plain_word name.now ∷ plain_word file.now ∷ [])) result draft.new }
{
    let node = node_at(draft, line, name)?;
    let file = file_at(draft, line, file)?.file;
    check_founded(draft, line)?;
    add_command(draft, alloc, line, node, reclaim(file))?;
    Ok(())
}

fn reclaim(file: FileId) -> Command
    ensures { result ≡ Command.Reclaim file }
{
    Command::Reclaim { file }
}

/// Reads `giveup NAME`.
pub(crate) fn read_giveup(
    draft: &mut ScenarioBuilder,
    alloc: Global,
    line: u32,
    name: &Word<'_>,
) -> Result<(), LineFault>
    ensures { Gives (read_form draft.old line Form.GiveUp (plain_word name.now ∷ [])) result draft.new }
{
    let node = node_at(draft, line, name)?;
    check_founded(draft, line)?;
    add_command(draft, alloc, line, node, Command::GiveUp)?;
    Ok(())
}

/// Adds a command to a node, which has the next number.
fn add_command(
    draft: &mut ScenarioBuilder,
    alloc: Global,
    line: u32,
    node: Id,
    command: Command,
) -> Result<(), OutOfMemory>
    requires founded { IsSome draft.old.founder }
    requires node { Contains (ids draft.old.nodes) node }
    requires command { IsCommand draft.old.nodes draft.old.files command }
    ensures { OnOk result (draft.new ≡ with_what draft.old line (what.Command ((tally_of draft.old.actions).commands + 1) node command)) }
{
    let what = What::Command {
        number: draft.next_number(),
        node,
        command,
    };
    draft.add_action(alloc, Action { line, what })
}
