//! Scenarios whose plays are told as tables.

ghost use Rattle.std.specs.Prelude.{◌≡◌, ◌≤◌, ◌↔◌, ◌⊎◌, Some, None, IfOk, IfSome, IsSome, IsNone};
ghost use Rattle.outside.specs.Rose.{Rose};
ghost use Rattle.scenario_reader.specs.declared.fault.LineFault.{LineFault as Fault};
ghost use Rattle.pastry.specs.Faults.{status_of, IsPlayingFault};
ghost use Rattle.pastry.specs.Outputs.{played_table};
ghost use Rattle.pastry.specs.Played.{HasTold, IsPlayed};
ghost use Rattle.pastry.specs.Prepared.{Prepares};
ghost use Rattle.pastry.specs.Reading.{IsScenario, IsRefused};
ghost use Rattle.pastry.specs.declared.reading.TheConstants.{INPUT_LIMIT};
ghost use Rattle.node_service.specs.Written.{IsTaken, IsBrokenOff};
ghost use Rattle.pastry.specs.Written.{WasReadByCalls};

use crate::outcome::{Outcome, TopFault};
use crate::playing::{Prepared, finished, write_prepared};
use crate::reading::read_input;
use message_table::message_table;
use outside::{Sink, Source, Turnstile};
use play_engine::played_past;
use ring_math::OutOfMemory;
use scenario_reader::Scenario;
use std::alloc::Global;

/// Plays a scenario, and writes its table into memory.
fn prepare_table<T: Turnstile>(
    alloc: Global,
    scenario: &Scenario,
    turnstile: &T,
) -> Result<Prepared, OutOfMemory>
    ensures { IfOk result (λ p. Prepares IsPlayed played_table scenario.now p.record p.text) }
{
    let player = played_past(alloc, scenario, turnstile)?;
    let text = message_table(alloc, scenario, player.world())?;
    let record = finished(alloc, scenario, player)?;
    Ok(Prepared { record, text })
}

/// Reads a scenario from a source, plays it, and writes its table to a sink.
pub(crate) fn tell_read<S: Source, K: Sink, T: Turnstile>(
    alloc: Global,
    source: &mut S,
    sink: &mut K,
    turnstile: &T,
) -> Outcome
    ensures status { result.status ≡ status_of result.fault }
    ensures kind { IfSome result.fault IsPlayingFault }
    ensures done { result.fault ≡ None → HasTold (IsScenario (S.left source.old) (S.left source.new)) IsPlayed played_table (IsTaken K.takes K.taken sink.old sink.new) result.played }
    ensures broken_off { result.fault ≡ Some TopFault.Write → HasTold (IsScenario (S.left source.old) (S.left source.new)) IsPlayed played_table (IsBrokenOff K.takes K.taken sink.old sink.new) result.played }
    ensures played { IsSome result.played ↔ ((result.fault ≡ None) ⊎ (result.fault ≡ Some TopFault.Write)) }
    ensures nothing_written { IsNone result.played → sink.new ≡ sink.old }
    ensures refused { (f : Fault) → result.fault ≡ Some (TopFault.Scenario f) → IsRefused (S.left source.old) (S.left source.new) f }
    ensures unread { result.fault ≡ Some TopFault.Read → Rose (S.faults source.old) (S.faults source.new) }
    ensures unwritten { result.fault ≡ Some TopFault.Write → Rose (K.faults sink.old) (K.faults sink.new) }
    ensures reads { WasReadByCalls INPUT_LIMIT S.gives source.old source.new (result.fault ≡ Some TopFault.Read) }
    ensures source_count { S.faults source.old ≤ S.faults source.new }
    ensures sink_count { K.faults sink.old ≤ K.faults sink.new }
{
    let scenario = match read_input(alloc, source) {
        Ok(scenario) => scenario,
        Err(fault) => return Outcome::refused(fault),
    };
    match prepare_table(alloc, &scenario, turnstile) {
        Ok(prepared) => write_prepared(sink, prepared),
        Err(OutOfMemory) => Outcome::refused(TopFault::OutOfMemory),
    }
}
