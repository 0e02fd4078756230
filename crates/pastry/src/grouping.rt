//! Scripts of groups that are played.

ghost use Rattle.std.specs.Prelude.{◌≡◌, ◌≤◌, ◌↔◌, ◌⊎◌, Some, None, IfOk, IfSome, IsSome, IsNone};
ghost use Rattle.outside.specs.Rose.{Rose};
ghost use Rattle.scenario_reader.specs.declared.fault.LineFault.{LineFault as Fault};
ghost use Rattle.script_report.specs.Whole.{script_text};
ghost use Rattle.pastry.specs.Faults.{status_of, IsPlayingFault};
ghost use Rattle.pastry.specs.Grouped.{IsGrouped};
ghost use Rattle.pastry.specs.Played.{HasTold};
ghost use Rattle.pastry.specs.Prepared.{Prepares};
ghost use Rattle.pastry.specs.Reading.{IsScript, IsRefusedScript};
ghost use Rattle.pastry.specs.declared.reading.TheConstants.{SCRIPT_LIMIT};
ghost use Rattle.node_service.specs.Written.{IsTaken, IsBrokenOff};
ghost use Rattle.pastry.specs.Written.{WasReadByCalls};

use crate::laws::headline_law;
use crate::outcome::{Outcome, TopFault};
use crate::playing::{Prepared, write_prepared};
use crate::reading::read_script;
use group_reader::GroupScript;
use outside::{Sink, Source, Turnstile};
use play_engine::ids_of;
use ring_math::OutOfMemory;
use script_report::play_script;
use std::alloc::Global;
use std::mem;

/// Plays both parts of a script, and writes their reports into memory. The headline holds of the record of part one.
fn prepare_script<T: Turnstile>(
    alloc: Global,
    script: &GroupScript,
    turnstile: &T,
) -> Result<Prepared, OutOfMemory>
    ensures { IfOk result (λ p. Prepares IsGrouped script_text script.now p.record p.text) }
{
    let played = play_script(alloc, script, turnstile)?;
    let scenario = script.scenario();
    let nodes = ids_of(alloc, scenario.nodes())?;
    headline_law(&nodes, scenario.founder(), &played.record.entries);
    // It was told, and the program is about to end: then the system takes back all memory at once.
    mem::forget(played.steps);
    Ok(Prepared {
        record: played.record,
        text: played.text,
    })
}

/// Reads a script of groups from a source, plays both its parts, and writes their reports to a sink.
pub(crate) fn group_read<S: Source, K: Sink, T: Turnstile>(
    alloc: Global,
    source: &mut S,
    sink: &mut K,
    turnstile: &T,
) -> Outcome
    ensures status { result.status ≡ status_of result.fault }
    ensures kind { IfSome result.fault IsPlayingFault }
    ensures done { result.fault ≡ None → HasTold (IsScript (S.left source.old) (S.left source.new)) IsGrouped script_text (IsTaken K.takes K.taken sink.old sink.new) result.played }
    ensures broken_off { result.fault ≡ Some TopFault.Write → HasTold (IsScript (S.left source.old) (S.left source.new)) IsGrouped script_text (IsBrokenOff K.takes K.taken sink.old sink.new) result.played }
    ensures played { IsSome result.played ↔ ((result.fault ≡ None) ⊎ (result.fault ≡ Some TopFault.Write)) }
    ensures nothing_written { IsNone result.played → sink.new ≡ sink.old }
    ensures refused { (f : Fault) → result.fault ≡ Some (TopFault.Scenario f) → IsRefusedScript (S.left source.old) (S.left source.new) f }
    ensures unread { result.fault ≡ Some TopFault.Read → Rose (S.faults source.old) (S.faults source.new) }
    ensures unwritten { result.fault ≡ Some TopFault.Write → Rose (K.faults sink.old) (K.faults sink.new) }
    ensures reads { WasReadByCalls SCRIPT_LIMIT S.gives source.old source.new (result.fault ≡ Some TopFault.Read) }
    ensures source_count { S.faults source.old ≤ S.faults source.new }
    ensures sink_count { K.faults sink.old ≤ K.faults sink.new }
{
    let script = match read_script(alloc, source) {
        Ok(script) => script,
        Err(fault) => return Outcome::refused(fault),
    };
    match prepare_script(alloc, &script, turnstile) {
        Ok(prepared) => write_prepared(sink, prepared),
        Err(OutOfMemory) => Outcome::refused(TopFault::OutOfMemory),
    }
}
