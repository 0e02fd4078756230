//! Scenarios that are run, with each node as a thread.

ghost use Rattle.std.specs.Prelude.{◌≡◌, ◌≤◌, ◌↔◌, ◌⊎◌, Some, None, IfOk, IfErr, IfSome, IsSome, IsNone, OnOk};
ghost use Rattle.outside.specs.Rose.{Rose};
ghost use Rattle.scenario_reader.specs.declared.fault.LineFault.{LineFault as Fault};
ghost use Rattle.overlay_harness.specs.Fault.{IsDueTo, first_unfit_line};
ghost use Rattle.pastry.specs.Faults.{status_of, IsRunningFault};
ghost use Rattle.pastry.specs.Outputs.{output_text};
ghost use Rattle.pastry.specs.Played.{HasTold, IsRun};
ghost use Rattle.pastry.specs.Prepared.{Prepares};
ghost use Rattle.pastry.specs.Reading.{IsScenario, IsRefused};
ghost use Rattle.pastry.specs.Unfit.{IsUnfit};
ghost use Rattle.pastry.specs.declared.reading.TheConstants.{INPUT_LIMIT};
ghost use Rattle.node_service.specs.Written.{IsTaken, IsBrokenOff};
ghost use Rattle.pastry.specs.Written.{WasReadByCalls};

use crate::laws::headline_law;
use crate::outcome::{Outcome, TopFault};
use crate::output::{Output, output_text};
use crate::playing::{Prepared, write_prepared};
use crate::reading::read_input;
use outside::{Sink, Source, Turnstile};
use overlay_harness::{RunFault, run};
use overlay_rules::Record;
use play_engine::ids_of;
use scenario_reader::Scenario;
use std::alloc::Global;
use std::sync::Wait;
use std::thread::Threads;

/// Runs a scenario. The headline holds of its record.
fn run_scenario<R: Threads + Wait + Sync, T: Turnstile + Sync>(
    rt: &R,
    alloc: Global,
    scenario: &Scenario,
    turnstile: &T,
) -> Result<Record, RunFault>
    ensures run { IfOk result (λ r. IsRun scenario.now r) }
    ensures fit { OnOk result (first_unfit_line scenario.now ≡ None) }
    ensures due { IfErr result (IsDueTo scenario.now) }
{
    let record = run(rt, alloc, scenario, turnstile)?;
    let nodes = ids_of(alloc, scenario.nodes())?;
    record.entries.said_law();
    headline_law(&nodes, scenario.founder(), &record.entries);
    Ok(record)
}

/// Runs a scenario, and writes its text into memory.
fn prepare_run<R: Threads + Wait + Sync, T: Turnstile + Sync>(
    rt: &R,
    alloc: Global,
    output: Output,
    scenario: &Scenario,
    turnstile: &T,
) -> Result<Prepared, RunFault>
    ensures ok { IfOk result (λ p. Prepares IsRun (output_text output) scenario.now p.record p.text) }
    ensures fit { OnOk result (first_unfit_line scenario.now ≡ None) }
    ensures due { IfErr result (IsDueTo scenario.now) }
{
    let record = run_scenario(rt, alloc, scenario, turnstile)?;
    let text = output_text(alloc, output, scenario, &record)?;
    Ok(Prepared { record, text })
}

/// Reads a scenario from a source, runs it, and writes its text to a sink.
pub(crate) fn run_read<R: Threads + Wait + Sync, S: Source, K: Sink, T: Turnstile + Sync>(
    rt: &R,
    alloc: Global,
    output: Output,
    source: &mut S,
    sink: &mut K,
    turnstile: &T,
) -> Outcome
    ensures status { result.status ≡ status_of result.fault }
    ensures kind { IfSome result.fault IsRunningFault }
    ensures done { result.fault ≡ None → HasTold (λ s. IsScenario (S.left source.old) (S.left source.new) s × (first_unfit_line s ≡ None)) IsRun (output_text output) (IsTaken K.takes K.taken sink.old sink.new) result.played }
    ensures broken_off { result.fault ≡ Some TopFault.Write → HasTold (λ s. IsScenario (S.left source.old) (S.left source.new) s × (first_unfit_line s ≡ None)) IsRun (output_text output) (IsBrokenOff K.takes K.taken sink.old sink.new) result.played }
    ensures played { IsSome result.played ↔ ((result.fault ≡ None) ⊎ (result.fault ≡ Some TopFault.Write)) }
    ensures nothing_written { IsNone result.played → sink.new ≡ sink.old }
    ensures refused { (f : Fault) → result.fault ≡ Some (TopFault.Scenario f) → IsRefused (S.left source.old) (S.left source.new) f }
    ensures unfit { (f : RunFault) → result.fault ≡ Some (TopFault.Run f) → IsUnfit (S.left source.old) (S.left source.new) f }
    ensures unread { result.fault ≡ Some TopFault.Read → Rose (S.faults source.old) (S.faults source.new) }
    ensures unwritten { result.fault ≡ Some TopFault.Write → Rose (K.faults sink.old) (K.faults sink.new) }
    ensures reads { WasReadByCalls INPUT_LIMIT S.gives source.old source.new (result.fault ≡ Some TopFault.Read) }
    ensures source_count { S.faults source.old ≤ S.faults source.new }
    ensures sink_count { K.faults sink.old ≤ K.faults sink.new }
{
    let scenario = match read_input(alloc, source) {
        Ok(scenario) => scenario,
        Err(fault) => return Outcome::refused(fault),
    };
    match prepare_run(rt, alloc, output, &scenario, turnstile) {
        Ok(prepared) => write_prepared(sink, prepared),
        Err(RunFault::OutOfMemory) => Outcome::refused(TopFault::OutOfMemory),
        Err(fault) => Outcome::refused(TopFault::Run(fault)),
    }
}
