//! Reading scenarios, and scripts of groups, from a source.

ghost use Rattle.std.specs.Prelude.{◌≡◌, ◌≤◌, Ok, Err, IfOk, IfErr};
ghost use Rattle.outside.specs.Rose.{Rose};
ghost use Rattle.scenario_reader.specs.declared.fault.LineFault.{LineFault as Fault};
ghost use Rattle.pastry.specs.Reading.{IsScenario, IsScript, IsRefused, IsRefusedScript};
ghost use Rattle.pastry.specs.Faults.{IsReadingFault};
ghost use Rattle.pastry.specs.Written.{WasReadByCalls};

use crate::outcome::TopFault;
use group_reader::{GroupScript, MOST_SCRIPT_BYTES, read_groups};
use outside::{ReadFault, Source, read_to_limit};
use scenario_reader::{LineFault, MOST_LINE_BYTES, MOST_LINES, Scenario, read_scenario};
use std::alloc::Global;

/// One byte more than the longest scenario has: a longer input has a line that is too long, or a line too many.
const INPUT_LIMIT: usize = MOST_LINES as usize * (MOST_LINE_BYTES + 1) + 1;

/// One byte more than the longest script of groups has.
const SCRIPT_LIMIT: usize = MOST_SCRIPT_BYTES + 1;

/// Reads a scenario from a source.
pub fn read_input<S: Source>(alloc: Global, source: &mut S) -> Result<Scenario, TopFault>
    ensures ok { IfOk result (λ s. IsScenario (S.left source.old) (S.left source.new) s) }
    ensures kind { IfErr result IsReadingFault }
    ensures refused { (f : Fault) → result ≡ Err (TopFault.Scenario f) → IsRefused (S.left source.old) (S.left source.new) f }
    ensures unread { result ≡ Err TopFault.Read → Rose (S.faults source.old) (S.faults source.new) }
    ensures calls { WasReadByCalls INPUT_LIMIT S.gives source.old source.new (result ≡ Err TopFault.Read) }
    ensures count { S.faults source.old ≤ S.faults source.new }
{
    let bytes = match read_to_limit(alloc, source, INPUT_LIMIT) {
        Ok(bytes) => bytes,
        Err(ReadFault::Read) => return Err(TopFault::Read),
        Err(ReadFault::OutOfMemory) => return Err(TopFault::OutOfMemory),
    };
    match read_scenario(alloc, &bytes) {
        Ok(scenario) => Ok(scenario),
        Err(LineFault::OutOfMemory) => Err(TopFault::OutOfMemory),
        Err(fault) => Err(TopFault::Scenario(fault)),
    }
}

/// Reads a script of groups from a source.
pub fn read_script<S: Source>(alloc: Global, source: &mut S) -> Result<GroupScript, TopFault>
    ensures ok { IfOk result (λ s. IsScript (S.left source.old) (S.left source.new) s) }
    ensures kind { IfErr result IsReadingFault }
    ensures refused { (f : Fault) → result ≡ Err (TopFault.Scenario f) → IsRefusedScript (S.left source.old) (S.left source.new) f }
    ensures unread { result ≡ Err TopFault.Read → Rose (S.faults source.old) (S.faults source.new) }
    ensures calls { WasReadByCalls SCRIPT_LIMIT S.gives source.old source.new (result ≡ Err TopFault.Read) }
    ensures count { S.faults source.old ≤ S.faults source.new }
{
    let bytes = match read_to_limit(alloc, source, SCRIPT_LIMIT) {
        Ok(bytes) => bytes,
        Err(ReadFault::Read) => return Err(TopFault::Read),
        Err(ReadFault::OutOfMemory) => return Err(TopFault::OutOfMemory),
    };
    match read_groups(alloc, &bytes) {
        Ok(script) => Ok(script),
        Err(LineFault::OutOfMemory) => Err(TopFault::OutOfMemory),
        Err(fault) => Err(TopFault::Scenario(fault)),
    }
}
