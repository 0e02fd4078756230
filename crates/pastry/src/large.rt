//! Large files that are made, stored and fetched.

ghost use Rattle.std.specs.Prelude.{◌≡◌, ◌≤◌, ◌↔◌, ◌⊎◌, Some, None, IfOk, IfSome, IsSome, IsNone};
ghost use Rattle.outside.specs.Rose.{Rose};
ghost use Rattle.scenario_reader.specs.declared.limits.TheConstants.{MOST_NODES};
ghost use Rattle.fragments.specs.Large.{large};
ghost use Rattle.fragments.specs.declared.limits.TheConstants.{MOST_LARGE_BYTES};
ghost use Rattle.pastry.specs.Faults.{status_of, IsMakingFault};
ghost use Rattle.pastry.specs.Large.{IsPlayedLarge};
ghost use Rattle.pastry.specs.Outputs.{output_text};
ghost use Rattle.pastry.specs.Played.{HasTold};
ghost use Rattle.pastry.specs.Prepared.{Prepares};
ghost use Rattle.node_service.specs.Written.{IsTaken, IsBrokenOff};

use crate::outcome::{Outcome, TopFault};
use crate::output::Output;
use crate::playing::{Prepared, prepare, write_prepared};
use file_laws::given_law;
use fragments::large_scenario;
use outside::{Sink, Turnstile};
use ring_math::OutOfMemory;
use scenario_reader::Scenario;
use std::alloc::Global;

/// Plays a large scenario, and writes into memory what became of its file.
fn prepare_large<T: Turnstile>(
    alloc: Global,
    nodes: u32,
    seed: u64,
    size: u32,
    scenario: &Scenario,
    turnstile: &T,
) -> Result<Prepared, OutOfMemory>
    requires size { size ≤ MOST_LARGE_BYTES }
    requires scenario { scenario.now ≡ large nodes seed size }
    ensures { IfOk result (λ p. Prepares (IsPlayedLarge seed size) (output_text (Output.Large size)) scenario.now p.record p.text) }
{
    let prepared = prepare(alloc, Output::Large { size }, scenario, turnstile)?;
    given_law(nodes, seed, size, scenario, &prepared.record);
    Ok(prepared)
}

/// Plays the scenario of a large file that is made of so many nodes, a seed and a size, and writes to a sink what became of the
/// file.
pub(crate) fn play_large<K: Sink, T: Turnstile>(
    alloc: Global,
    nodes: u32,
    seed: u64,
    size: u32,
    sink: &mut K,
    turnstile: &T,
) -> Outcome
    requires some { 2 ≤ nodes }
    requires few { nodes ≤ MOST_NODES }
    requires size { size ≤ MOST_LARGE_BYTES }
    ensures status { result.status ≡ status_of result.fault }
    ensures kind { IfSome result.fault IsMakingFault }
    ensures done { result.fault ≡ None → HasTold (λ s. s ≡ large nodes seed size) (IsPlayedLarge seed size) (output_text (Output.Large size)) (IsTaken K.takes K.taken sink.old sink.new) result.played }
    ensures broken_off { result.fault ≡ Some TopFault.Write → HasTold (λ s. s ≡ large nodes seed size) (IsPlayedLarge seed size) (output_text (Output.Large size)) (IsBrokenOff K.takes K.taken sink.old sink.new) result.played }
    ensures played { IsSome result.played ↔ ((result.fault ≡ None) ⊎ (result.fault ≡ Some TopFault.Write)) }
    ensures nothing_written { IsNone result.played → sink.new ≡ sink.old }
    ensures unwritten { result.fault ≡ Some TopFault.Write → Rose (K.faults sink.old) (K.faults sink.new) }
    ensures count { K.faults sink.old ≤ K.faults sink.new }
{
    let scenario = match large_scenario(alloc, nodes, seed, size) {
        Ok(scenario) => scenario,
        Err(OutOfMemory) => return Outcome::refused(TopFault::OutOfMemory),
    };
    match prepare_large(alloc, nodes, seed, size, &scenario, turnstile) {
        Ok(prepared) => write_prepared(sink, prepared),
        Err(OutOfMemory) => Outcome::refused(TopFault::OutOfMemory),
    }
}
