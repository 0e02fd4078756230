//! A whole script.

ghost use Rattle.std.specs.Prelude.{◌≡◌, ◌⊎◌, ◌≤◌, ◌+◌, Err, IfErr, IfOk, Ok, length};
ghost use Rattle.scenario_reader.specs.declared.fault.LineFault.TheVariants as fault;
ghost use Rattle.scenario_reader.specs.declared.limits.TheConstants.{MOST_LINES};
ghost use Rattle.scenario_reader.specs.Lines.{lines_of};
ghost use Rattle.group_reader.specs.declared.limits.TheConstants.{MOST_SCRIPT_BYTES};
ghost use Rattle.group_reader.specs.Grammar.{groups_of, read_from};
ghost use Rattle.group_reader.specs.Plain.{nothing_yet};

use crate::builder::ScriptBuilder;
use crate::cut::parts_of;
use crate::line::read_line;
use crate::script::GroupScript;
use scenario_reader::{LineFault, MOST_LINES, Scenario, read_scenario, split_line};
use std::alloc::Global;

/// The script that the bytes are, or their fault.
///
/// Lines are counted from 1 over all of the bytes. A fault of part one comes first, then `Word` on the line behind the last where
/// no line is `groups`. An input of more than [`MOST_SCRIPT_BYTES`](crate::MOST_SCRIPT_BYTES) is none. Out of memory may come in
/// the place of any answer.
pub fn read_groups(alloc: Global, bytes: &[u8]) -> Result<GroupScript, LineFault>
    // The bytes are this script.
    ensures read { IfOk result (λ script. groups_of bytes.now ≡ Ok script) }
    // So they are no more than a script has.
    ensures sized { IfOk result (λ script. length bytes.now ≤ MOST_SCRIPT_BYTES) }
    // They are none, and this is their fault.
    ensures refused { IfErr result (λ refusal. (refusal ≡ fault.OutOfMemory) ⊎ (groups_of bytes.now ≡ Err refusal)) }
{
    let parts = parts_of(bytes);
    let scenario = read_scenario(alloc, parts.before)?;
    let line = parts.lines as u32 + 1;
    match parts.behind {
        Some(behind) => read_behind(alloc, scenario, line + 1, behind),
        None => Err(LineFault::Word { line, place: 0 }),
    }
}

/// Reads part two, which begins on this line.
fn read_behind(
    alloc: Global,
    scenario: Scenario,
    first: u32,
    bytes: &[u8],
) -> Result<GroupScript, LineFault>
    requires { first ≤ MOST_LINES + 2 }
    ensures read { IfOk result (λ script. read_from (nothing_yet scenario) first 1 (lines_of bytes.now) ≡ Ok script) }
    ensures refused { IfErr result (λ refusal. (refusal ≡ fault.OutOfMemory) ⊎ (read_from (nothing_yet scenario) first 1 (lines_of bytes.now) ≡ Err refusal)) }
{
    let mut draft = ScriptBuilder::new(alloc, scenario);
    let mut count = 1;
    let mut line = first;
    let mut rest = bytes;
    while !rest.is_empty() {
        if count > MOST_LINES {
            return Err(LineFault::Limit { line, place: 0 });
        }
        let (text, behind) = split_line(rest);
        read_line(&mut draft, alloc, line, text)?;
        count += 1;
        line += 1;
        rest = behind;
    }
    Ok(draft.finish())
}
