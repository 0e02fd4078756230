//! Scenarios that are played with access points.

ghost use Rattle.std.specs.Prelude.{◌≡◌, ◌≤◌, ◌↔◌, ◌⊎◌, Some, None, IfOk, IfSome, IsSome, IsNone};
ghost use Rattle.outside.specs.Rose.{Rose};
ghost use Rattle.scenario_reader.specs.declared.fault.LineFault.{LineFault as Fault};
ghost use Rattle.fetch_cache.specs.declared.limits.TheConstants.{MOST_ROOM};
ghost use Rattle.pastry.specs.Faults.{status_of, IsPlayingFault};
ghost use Rattle.pastry.specs.Pointed.{HasPointed, IsPointed, IsToBeTold};
ghost use Rattle.pastry.specs.Reading.{IsScenario, IsRefused};
ghost use Rattle.pastry.specs.declared.reading.TheConstants.{INPUT_LIMIT};
ghost use Rattle.node_service.specs.Written.{IsTaken, IsBrokenOff};
ghost use Rattle.pastry.specs.Written.{WasReadByCalls};

use crate::laws::headline_law;
use crate::outcome::{Outcome, TopFault};
use crate::playing::{Prepared, write_prepared};
use crate::reading::read_input;
use fetch_cache::{PointRun, play_points, report_points};
use file_laws::hits_law;
use outside::{Sink, Source};
use play_engine::ids_of;
use ring_math::OutOfMemory;
use scenario_reader::Scenario;
use std::alloc::Global;

/// Plays a scenario with access points of so much room. The headline holds of its record, and its hits are right.
fn play_pointed(alloc: Global, scenario: &Scenario, room: usize) -> Result<PointRun, OutOfMemory>
    requires some { 1 ≤ room }
    requires few { room ≤ MOST_ROOM }
    ensures { IfOk result (λ run. IsPointed scenario.now room run.steps run.hits) }
{
    let run = play_points(alloc, scenario, room)?;
    let nodes = ids_of(alloc, scenario.nodes())?;
    headline_law(&nodes, scenario.founder(), &run.steps.entries);
    hits_law(scenario, room, &run);
    Ok(run)
}

/// Writes the report of a scenario that was played with access points into memory.
fn prepare_pointed(alloc: Global, scenario: &Scenario, room: usize) -> Result<Prepared, OutOfMemory>
    requires some { 1 ≤ room }
    requires few { room ≤ MOST_ROOM }
    ensures { IfOk result (λ p. IsToBeTold scenario.now room p.record p.text) }
{
    let pointed = play_pointed(alloc, scenario, room)?;
    let text = report_points(alloc, scenario, &pointed)?;
    let PointRun { steps, .. } = pointed;
    Ok(Prepared {
        record: steps,
        text,
    })
}

/// Reads a scenario from a source, plays it with access points of so much room, and writes its report to a sink.
pub(crate) fn point_read<S: Source, K: Sink>(
    alloc: Global,
    room: usize,
    source: &mut S,
    sink: &mut K,
) -> Outcome
    requires some { 1 ≤ room }
    requires few { room ≤ MOST_ROOM }
    ensures status { result.status ≡ status_of result.fault }
    ensures kind { IfSome result.fault IsPlayingFault }
    ensures done { result.fault ≡ None → HasPointed (IsScenario (S.left source.old) (S.left source.new)) room (IsTaken K.takes K.taken sink.old sink.new) result.played }
    ensures broken_off { result.fault ≡ Some TopFault.Write → HasPointed (IsScenario (S.left source.old) (S.left source.new)) room (IsBrokenOff K.takes K.taken sink.old sink.new) result.played }
    ensures played { IsSome result.played ↔ ((result.fault ≡ None) ⊎ (result.fault ≡ Some TopFault.Write)) }
    ensures nothing_written { IsNone result.played → sink.new ≡ sink.old }
    ensures refused { (f : Fault) → result.fault ≡ Some (TopFault.Scenario f) → IsRefused (S.left source.old) (S.left source.new) f }
    ensures unread { result.fault ≡ Some TopFault.Read → Rose (S.faults source.old) (S.faults source.new) }
    ensures unwritten { result.fault ≡ Some TopFault.Write → Rose (K.faults sink.old) (K.faults sink.new) }
    ensures reads { WasReadByCalls INPUT_LIMIT S.gives source.old source.new (result.fault ≡ Some TopFault.Read) }
    ensures source_count { S.faults source.old ≤ S.faults source.new }
    ensures sink_count { K.faults sink.old ≤ K.faults sink.new }
{
    let scenario = match read_input(alloc, source) {
        Ok(scenario) => scenario,
        Err(fault) => return Outcome::refused(fault),
    };
    match prepare_pointed(alloc, &scenario, room) {
        Ok(prepared) => write_prepared(sink, prepared),
        Err(OutOfMemory) => Outcome::refused(TopFault::OutOfMemory),
    }
}
