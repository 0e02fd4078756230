//! Scenarios that are played: read, or made.

ghost use Rattle.std.specs.Prelude.{◌≡◌, ◌≤◌, ◌↔◌, ◌⊎◌, Some, None, IfOk, IfSome, IsSome, IsNone};
ghost use Rattle.outside.specs.Rose.{Rose};
ghost use Rattle.scenario_reader.specs.declared.limits.TheConstants.{MOST_NODES};
ghost use Rattle.scenario_reader.specs.declared.fault.LineFault.{LineFault as Fault};
ghost use Rattle.schedule.specs.Made.{made};
ghost use Rattle.play_engine.specs.Progress.{IsWhole, Plays};
ghost use Rattle.pastry.specs.Faults.{status_of, IsMakingFault, IsPlayingFault};
ghost use Rattle.pastry.specs.Outputs.{output_text};
ghost use Rattle.pastry.specs.Played.{HasTold, IsPlayed};
ghost use Rattle.pastry.specs.Prepared.{Prepares};
ghost use Rattle.pastry.specs.Reading.{IsScenario, IsRefused};
ghost use Rattle.pastry.specs.declared.reading.TheConstants.{INPUT_LIMIT};
ghost use Rattle.node_service.specs.Written.{IsTaken, IsBrokenOff};
ghost use Rattle.pastry.specs.Written.{WasReadByCalls};

use crate::laws::headline_law;
use crate::outcome::{Outcome, TopFault};
use crate::output::{Output, output_text};
use crate::reading::read_input;
use outside::{Sink, Source, Turnstile, write_all};
use overlay_rules::Record;
use play_engine::{Player, ids_of, played_past};
use ring_math::OutOfMemory;
use scenario_reader::Scenario;
use schedule::make_scenario;
use std::alloc::Global;
use wire_msg::Frame;

/// Plays a scenario past a turnstile. The headline holds of its record.
fn play_scenario<T: Turnstile>(
    alloc: Global,
    scenario: &Scenario,
    turnstile: &T,
) -> Result<Record, OutOfMemory>
    ensures { IfOk result (λ r. IsPlayed scenario.now r) }
{
    let player = played_past(alloc, scenario, turnstile)?;
    finished(alloc, scenario, player)
}

/// The record of a player that has played a scenario to its end. The headline holds of it.
pub(crate) fn finished(
    alloc: Global,
    scenario: &Scenario,
    player: Player,
) -> Result<Record, OutOfMemory>
    requires plays { Plays scenario.now player }
    requires whole { IsWhole scenario.now player.recorded.entries player.skipped }
    ensures { IfOk result (λ r. IsPlayed scenario.now r) }
{
    let record = player.finish();
    let nodes = ids_of(alloc, scenario.nodes())?;
    headline_law(&nodes, scenario.founder(), &record.entries);
    Ok(record)
}

/// A record, and the text that is to be written of it.
#[derive(Drop)]
pub(crate) struct Prepared {
    pub(crate) record: Record,
    pub(crate) text: Frame,
}

/// Plays a scenario, and writes its text into memory.
pub(crate) fn prepare<T: Turnstile>(
    alloc: Global,
    output: Output,
    scenario: &Scenario,
    turnstile: &T,
) -> Result<Prepared, OutOfMemory>
    ensures { IfOk result (λ p. Prepares IsPlayed (output_text output) scenario.now p.record p.text) }
{
    let record = play_scenario(alloc, scenario, turnstile)?;
    let text = output_text(alloc, output, scenario, &record)?;
    Ok(Prepared { record, text })
}

/// Writes a text to a sink, and hands out its record.
pub(crate) fn write_prepared<K: Sink>(sink: &mut K, prepared: Prepared) -> Outcome
    ensures status { result.status ≡ status_of result.fault }
    ensures fault { (result.fault ≡ None) ⊎ (result.fault ≡ Some TopFault.Write) }
    ensures played { result.played ≡ Some prepared.record }
    ensures whole { result.fault ≡ None → IsTaken K.takes K.taken sink.old sink.new prepared.text }
    ensures part { result.fault ≡ Some TopFault.Write → IsBrokenOff K.takes K.taken sink.old sink.new prepared.text }
    ensures unwritten { result.fault ≡ Some TopFault.Write → Rose (K.faults sink.old) (K.faults sink.new) }
    ensures count { K.faults sink.old ≤ K.faults sink.new }
{
    let Prepared { record, text } = prepared;
    match write_all(sink, text.as_slice()) {
        Ok(()) => Outcome::done(record),
        Err(_) => Outcome::failed(TopFault::Write, Some(record)),
    }
}

/// Reads a scenario from a source, plays it, and writes its text to a sink.
pub(crate) fn play_read<S: Source, K: Sink, T: Turnstile>(
    alloc: Global,
    output: Output,
    source: &mut S,
    sink: &mut K,
    turnstile: &T,
) -> Outcome
    ensures status { result.status ≡ status_of result.fault }
    ensures kind { IfSome result.fault IsPlayingFault }
    ensures done { result.fault ≡ None → HasTold (IsScenario (S.left source.old) (S.left source.new)) IsPlayed (output_text output) (IsTaken K.takes K.taken sink.old sink.new) result.played }
    ensures broken_off { result.fault ≡ Some TopFault.Write → HasTold (IsScenario (S.left source.old) (S.left source.new)) IsPlayed (output_text output) (IsBrokenOff K.takes K.taken sink.old sink.new) result.played }
    ensures played { IsSome result.played ↔ ((result.fault ≡ None) ⊎ (result.fault ≡ Some TopFault.Write)) }
    ensures nothing_written { IsNone result.played → sink.new ≡ sink.old }
    ensures refused { (f : Fault) → result.fault ≡ Some (TopFault.Scenario f) → IsRefused (S.left source.old) (S.left source.new) f }
    ensures unread { result.fault ≡ Some TopFault.Read → Rose (S.faults source.old) (S.faults source.new) }
    ensures unwritten { result.fault ≡ Some TopFault.Write → Rose (K.faults sink.old) (K.faults sink.new) }
    ensures reads { WasReadByCalls INPUT_LIMIT S.gives source.old source.new (result.fault ≡ Some TopFault.Read) }
    ensures source_count { S.faults source.old ≤ S.faults source.new }
    ensures sink_count { K.faults sink.old ≤ K.faults sink.new }
{
    let scenario = match read_input(alloc, source) {
        Ok(scenario) => scenario,
        Err(fault) => return Outcome::refused(fault),
    };
    match prepare(alloc, output, &scenario, turnstile) {
        Ok(prepared) => write_prepared(sink, prepared),
        Err(OutOfMemory) => Outcome::refused(TopFault::OutOfMemory),
    }
}

/// Plays the scenario that is made of so many nodes and a seed, and writes its summary to a sink.
pub(crate) fn play_made<K: Sink, T: Turnstile>(
    alloc: Global,
    nodes: u32,
    seed: u64,
    sink: &mut K,
    turnstile: &T,
) -> Outcome
    requires some { 2 ≤ nodes }
    requires few { nodes ≤ MOST_NODES }
    ensures status { result.status ≡ status_of result.fault }
    ensures kind { IfSome result.fault IsMakingFault }
    ensures done { result.fault ≡ None → HasTold (λ s. s ≡ made nodes seed) IsPlayed (output_text Output.Summary) (IsTaken K.takes K.taken sink.old sink.new) result.played }
    ensures broken_off { result.fault ≡ Some TopFault.Write → HasTold (λ s. s ≡ made nodes seed) IsPlayed (output_text Output.Summary) (IsBrokenOff K.takes K.taken sink.old sink.new) result.played }
    ensures played { IsSome result.played ↔ ((result.fault ≡ None) ⊎ (result.fault ≡ Some TopFault.Write)) }
    ensures nothing_written { IsNone result.played → sink.new ≡ sink.old }
    ensures unwritten { result.fault ≡ Some TopFault.Write → Rose (K.faults sink.old) (K.faults sink.new) }
    ensures count { K.faults sink.old ≤ K.faults sink.new }
{
    let scenario = match make_scenario(alloc, nodes, seed) {
        Ok(scenario) => scenario,
        Err(OutOfMemory) => return Outcome::refused(TopFault::OutOfMemory),
    };
    match prepare(alloc, Output::Summary, &scenario, turnstile) {
        Ok(prepared) => write_prepared(sink, prepared),
        Err(OutOfMemory) => Outcome::refused(TopFault::OutOfMemory),
    }
}
